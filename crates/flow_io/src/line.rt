// The input, line by line.
ghost use Rattle.std.specs.Prelude.{◌≡◌, ◌≤◌, ◌+◌, List, ℕ, [], true, false, length, Ok, IfOk, IsErrOf};
ghost use Rattle.std.specs.Io.KnownBytes.{IsAtEnd};
ghost use Rattle.flow_io.specs.Causes.{Rose};
ghost use Rattle.flow_io.specs.Reader.{HasLine};
ghost use Rattle.flow_io.specs.declared.line.LineFault.TheVariants.{NoMemory as OutOfMemory};

use crate::gathered::Gathered;
use crate::intake::Intake;
use crate::{Failed, INPUT_LIMIT, Source};
use flow_base::{Bytes, NoMemory};
use std::alloc::Global;
use std::marker::Model;
use thiserror::Error;

/// What a reader answers to a request for a line. Input is cut at each line feed (byte 10). A last line without one
/// counts if it is not empty.
#[derive(Drop)]
pub enum Line {
    /// A line of at most `LINE_LIMIT` bytes, without its line feed.
    Text(Bytes),
    /// A line of more bytes, whose end was reached. Nothing of it is kept.
    TooLong,
    /// The source answered its end, and no byte is left.
    End,
}

/// Why no line is answered. The reader is closed from then on.
#[derive(Clone, Copy, Debug, PartialEq, Eq, Error)]
pub enum LineFault {
    /// The source failed. Its count of faults rose in this call.
    #[error("reading failed")]
    Read,
    /// The source gave more than `INPUT_LIMIT` bytes, and no whole line is left.
    #[error("the input has over 67,108,864 bytes")]
    InputLimit,
    #[error("out of memory")]
    NoMemory,
}

impl From<NoMemory> for LineFault {
    ghost from_gives = { λ _ e. e ≡ OutOfMemory };

    fn from(_: NoMemory) -> Self {
        LineFault::NoMemory
    }
}

/// Reads a source line by line. It asks for at most 4,096 bytes a call, never takes more than one byte over
/// `INPUT_LIMIT`, and reads only where it holds no whole line. Contracts see the bytes that it took and has not answered,
/// how many it took in all, whether the source answered its end, and whether it may be called again.
#[derive(Drop)]
pub struct LineReader {
    alloc: Global,
    intake: Intake,
    ended: bool,
    is_open: bool,
}

impl Model for LineReader {
    ghost use Rattle.std.specs.Prelude.{◌≤◌, ◌+◌};
    ghost use Rattle.flow_io.specs.Reader.{Reader};

    ghost Value = { Reader };

    ghost view = { λ r. record { pending = r.intake.bytes; taken = r.intake.taken; ended = r.ended; is_open = r.is_open } };

    ghost invariant = { λ r. r.intake.taken ≤ 67_108_864 + 1 };
}

impl LineReader {
    ghost use Rattle.flow_io.specs.Reading.{Reads};

    /// A reader at the begin of its input.
    pub fn new(alloc: Global) -> Result<LineReader, NoMemory>
        ensures { IfOk result (λ r. r ≡ record { pending = []; taken = 0; ended = false; is_open = true }) }
    {
        Ok(LineReader {
            alloc,
            intake: Intake::new(alloc)?,
            ended: false,
            is_open: true,
        })
    }

    /// Whether `next_line` may be called.
    pub fn is_open(&self) -> bool
        ensures { result ≡ self.now.is_open }
    {
        self.is_open
    }

    /// How many bytes it holds that the source gave and no line has taken. While a line is read, it keeps besides what
    /// came of that line, at most `LINE_LIMIT` bytes, and of a line that is too long nothing.
    pub fn held(&self) -> usize
        ensures value { result ≡ length self.now.pending }
        ensures bound { result ≤ 1_052_672 }
    {
        self.intake.as_slice().len()
    }

    /// The next line. It is handed the same source at every call. `End` and each fault close the reader; a fault leaves
    /// the source where the reads of this call brought it.
    pub fn next_line<S: Source>(&mut self, source: &mut S) -> Result<Line, LineFault>
        requires open { self.old.is_open ≡ true }
        requires at_end { self.old.ended ≡ true → IsAtEnd (S.left source.old) × (self.old.pending ≡ []) × (self.old.taken ≤ INPUT_LIMIT) }
        ensures reads { (given : List ℕ) × Reads given (S.left source.old) (S.left source.new) self.old self.new result }
        ensures ended { self.old.ended ≡ true → result ≡ Ok Line.End }
        ensures limit { self.new.taken ≤ INPUT_LIMIT + 1 }
        ensures failed { IsErrOf result LineFault.Read → Rose (S.faults source.old) (S.faults source.new) }
        ensures later { S.faults source.old ≤ S.faults source.new }

        // Where a whole line is held, nothing is read.
        ensures unread { HasLine self.old.pending → source.new ≡ source.old }
    {
        if self.ended {
            self.is_open = false;
            return Ok(Line::End);
        }
        let mut line = Gathered::new(self.alloc);
        match gather(&mut self.intake, source, &mut line) {
            Ok(true) => Ok(line.into_line()),
            Ok(false) => {
                self.ended = true;
                if line.is_empty() {
                    self.is_open = false;
                    return Ok(Line::End);
                }
                Ok(line.into_line())
            }
            Err(fault) => {
                self.is_open = false;
                Err(fault)
            }
        }
    }
}

ghost use Rattle.flow_io.specs.Gathered.{Gathers, Holds};

// Takes bytes up to a line feed (`true`) or the end (`false`). Reads only where no line feed is held.
fn gather<S: Source>(
    intake: &mut Intake,
    source: &mut S,
    line: &mut Gathered,
) -> Result<bool, LineFault>
    requires empty { Holds line.old [] }
    requires limit { intake.old.taken ≤ INPUT_LIMIT + 1 }
    ensures gathers { (given : List ℕ) × Gathers given (S.left source.old) (S.left source.new) intake.old intake.new result line.new }
    ensures limit { intake.new.taken ≤ INPUT_LIMIT + 1 }
    ensures failed { IsErrOf result LineFault.Read → Rose (S.faults source.old) (S.faults source.new) }
    ensures later { S.faults source.old ≤ S.faults source.new }
    ensures unread { HasLine intake.old.bytes → source.new ≡ source.old }
{
    loop {
        if intake.move_line(line)? {
            return Ok(true);
        }
        if intake.taken() > INPUT_LIMIT {
            return Err(LineFault::InputLimit);
        }
        match intake.refill(source) {
            Ok(true) => {}
            Ok(false) => return Ok(false),
            Err(Failed) => return Err(LineFault::Read),
        }
    }
}
