// Why a text spells no cell.
use flow_base::{NoMemory, SyntaxKind};

/// Why a text spells no cell: what it has first of the kinds of faults, in their order, and the number of the line, from 1; or memory
/// is wanting.
#[derive(Clone, Copy, Debug, PartialEq, Eq)]
pub enum SyntaxFault {
    At { line: u32, kind: SyntaxKind },
    NoMemory,
}

impl From<NoMemory> for SyntaxFault {
    ghost use Rattle.py_block.specs.declared.fault.SyntaxFault.TheVariants.{NoMemory};
    ghost use Rattle.std.specs.Prelude.{◌≡◌};

    ghost from_gives = { λ _ fault. fault ≡ NoMemory };

    fn from(_: NoMemory) -> Self {
        SyntaxFault::NoMemory
    }
}
