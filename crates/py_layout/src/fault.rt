// Why tokens are not put into lines.
use flow_base::NoMemory;

/// Why a text has no logical lines: the width of the one on this line is not on the stack or a tab is in its indentation,
/// or memory is wanting.
#[derive(Clone, Copy, Debug, PartialEq, Eq)]
pub enum LayoutFault {
    At(u32),
    NoMemory,
}

impl From<NoMemory> for LayoutFault {
    ghost use Rattle.py_layout.specs.declared.fault.LayoutFault.TheVariants.{NoMemory};
    ghost use Rattle.std.specs.Prelude.{◌≡◌};

    ghost from_gives = { λ _ fault. fault ≡ NoMemory };

    fn from(_: NoMemory) -> Self {
        LayoutFault::NoMemory
    }
}
