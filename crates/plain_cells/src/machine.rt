// What a run goes on with, and how it ends.
use containers::{Sequence, Values};
use flow_base::{Event, NoMemory};

/// How a run ends: after its last statement; at a name without a value; where no step was left; or at a sum that an i128 does not hold.
#[derive(Clone, Copy, Debug, PartialEq, Eq)]
pub enum End {
    Done,
    NameError,
    Steps,
    Range,
}

/// The steps that are left, the value of each name that has one, and what the run has done so far, first event first.
#[derive(Drop)]
pub struct Machine {
    pub left: u32,
    pub values: Values,
    pub events: Sequence<Event>,
}

/// A run that has ended: how, and the machine after it.
#[derive(Drop)]
pub struct Finished {
    pub end: End,
    pub machine: Machine,
}

// Why a part of a run gives nothing: the run has ended, or memory is wanting.
#[derive(Clone, Copy, Debug, PartialEq, Eq)]
pub(crate) enum Stop {
    Ended(End),
    NoMemory,
}

impl From<NoMemory> for Stop {
    ghost use Rattle.plain_cells.specs.declared.machine.Stop.TheVariants.{NoMemory};
    ghost use Rattle.std.specs.Prelude.{◌≡◌};

    ghost from_gives = { λ _ stop. stop ≡ NoMemory };

    fn from(_: NoMemory) -> Self {
        Stop::NoMemory
    }
}
