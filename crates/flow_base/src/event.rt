// What a run does, in order.
ghost use Rattle.std.specs.Prelude.{◌≡◌, IfOk};

use crate::{Loc, NoMemory};

/// How a read looks at a location: its content counts as used, or the read only finds its place.
#[derive(Clone, Copy, Debug, PartialEq, Eq)]
pub enum ReadHow {
    Use,
    Place,
}

/// How a statement ends.
#[derive(Clone, Copy, Debug, PartialEq, Eq)]
pub enum How {
    Normal,
    Raise,
    Break,
    Continue,
    Return,
}

/// One event of a run: a read by use or by place, a write, the begin and the end of a statement, and the begin and the
/// end of a call.
#[derive(Drop)]
pub enum Event {
    Use(Loc),
    Place(Loc),
    Write(Loc),
    Open,
    Close(How),
    CallIn,
    CallOut,
}

impl Event {
    /// The same event, in the same memory.
    pub fn copy(&self) -> Result<Event, NoMemory>
        ensures { IfOk result (λ event. event ≡ self.now) }
    {
        match self {
            Event::Use(loc) => Ok(Event::Use(loc.copy()?)),
            Event::Place(loc) => Ok(Event::Place(loc.copy()?)),
            Event::Write(loc) => Ok(Event::Write(loc.copy()?)),
            Event::Open => Ok(Event::Open),
            Event::Close(how) => Ok(Event::Close(*how)),
            Event::CallIn => Ok(Event::CallIn),
            Event::CallOut => Ok(Event::CallOut),
        }
    }
}
