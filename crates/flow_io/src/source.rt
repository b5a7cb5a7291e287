// Where bytes come from.
ghost use Rattle.std.specs.Prelude.{◌≡◌, ◌<◌, ◌≤◌, List, ℕ, length, take, IfOk, MatchResult};
ghost use Rattle.std.specs.declared.option.Option.{Option};
ghost use Rattle.std.specs.Io.KnownBytes.{prepend_known, IsAtEnd};
ghost use Rattle.flow_io.specs.Causes.{HasCause};

use std::fmt;

/// A read or a write that the outside refused.
#[derive(Clone, Copy, Debug, PartialEq, Eq)]
pub struct Failed;

impl fmt::Display for Failed {
    fn fmt<W: fmt::Write>(&self, f: &mut fmt::Formatter<W>) -> fmt::Result {
        write!(f, "reading or writing failed")
    }
}

impl std::error::Error for Failed {}

/// Where bytes are read from.
pub trait Source {
    /// The bytes still to come, where it tells them.
    ghost left: { Self → Option (List ℕ) };

    /// How often it has failed. It never falls, and may stand still at 2^64 - 1.
    ghost faults: { Self → ℕ };

    /// Moves the next bytes into the front of `buf`, and answers how many: for a buffer that is not empty, none is the
    /// end. `Failed` comes only where the count of faults rose, and then no byte has moved.
    fn read(&mut self, buf: &mut [u8]) -> Result<usize, Failed>
        ensures bound { IfOk result (λ n. n ≤ length buf.new) }
        ensures gives { MatchResult result
            (λ n. left self.old ≡ prepend_known (take n buf.new) (left self.new))
            (λ _. left self.new ≡ left self.old) }
        ensures end { IfOk result (λ n. n ≡ 0 → 0 < length buf.new → IsAtEnd (left self.new)) }
        ensures cause { HasCause (faults self.old) (faults self.new) result };
}
