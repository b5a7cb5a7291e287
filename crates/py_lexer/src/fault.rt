// Why a text is not cut into tokens.
use flow_base::NoMemory;

/// Why a text has no tokens: at the first place where no form of a token fits, on this line, or memory is wanting.
#[derive(Clone, Copy, Debug, PartialEq, Eq)]
pub enum LexFault {
    At(u32),
    NoMemory,
}

impl From<NoMemory> for LexFault {
    ghost use Rattle.py_lexer.specs.declared.fault.LexFault.TheVariants.{NoMemory};
    ghost use Rattle.std.specs.Prelude.{◌≡◌};

    ghost from_gives = { λ _ fault. fault ≡ NoMemory };

    fn from(_: NoMemory) -> Self {
        LexFault::NoMemory
    }
}
