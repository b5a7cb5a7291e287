// Why a cell has no scopes.
ghost use Rattle.std.specs.Prelude.{◌≡◌};
ghost use Rattle.py_scope.specs.declared.fault.ScopeFault.TheVariants.{NoMemory as OutOfMemory};

use flow_base::NoMemory;

/// A scope fault: the number of the first declaration that has one. Or memory is wanting.
#[derive(Clone, Copy, Debug, PartialEq, Eq)]
pub enum ScopeFault {
    /// The declaration, a `global` or `nonlocal` statement, stands directly in the body of a class; or a name of it is a parameter of the
    /// same function, or was declared the other way by an earlier declaration of the same body, or is `nonlocal` and belongs to no
    /// function round the body.
    At { node: u32 },
    NoMemory,
}

impl From<NoMemory> for ScopeFault {
    ghost from_gives = { λ _ fault. fault ≡ OutOfMemory };

    fn from(_: NoMemory) -> Self {
        ScopeFault::NoMemory
    }
}
