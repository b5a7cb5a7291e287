// Where bytes go.
ghost use Rattle.std.specs.Prelude.{◌≡◌, ◌<◌, ◌≤◌, List, ℕ, length, take, IfOk, MatchResult};
ghost use Rattle.std.specs.declared.option.Option.{Option};
ghost use Rattle.std.specs.Io.KnownBytes.{append_known};
ghost use Rattle.flow_io.specs.Causes.{HasCause};

use crate::Failed;

/// Where bytes are written to.
pub trait Sink {
    /// The bytes that it took, where it tells them.
    ghost written: { Self → Option (List ℕ) };

    /// How often it has failed. It never falls, and may stand still at 2^64 - 1.
    ghost faults: { Self → ℕ };

    /// Takes some bytes from the front of `piece`, and answers how many: at least one, if the piece is not empty.
    /// `Failed` comes only where the count of faults rose, and then no byte was taken.
    fn write(&mut self, piece: &[u8]) -> Result<usize, Failed>
        ensures bound { IfOk result (λ n. n ≤ length piece.now) }
        ensures takes { MatchResult result
            (λ n. written self.new ≡ append_known (written self.old) (take n piece.now))
            (λ _. written self.new ≡ written self.old) }
        ensures some { IfOk result (λ n. 0 < length piece.now → 0 < n) }
        ensures cause { HasCause (faults self.old) (faults self.new) result };
}

/// Writes the whole piece. `Failed` comes only where the sink's count of faults rose; then some of its first bytes were
/// written, not all of them.
pub fn put<K: Sink>(sink: &mut K, piece: &[u8]) -> Result<(), Failed>
    ensures takes { MatchResult result
        (λ _. K.written sink.new ≡ append_known (K.written sink.old) piece.now)
        (λ _. (n : ℕ) × (n < length piece.now) × (K.written sink.new ≡ append_known (K.written sink.old) (take n piece.now))) }
    ensures cause { HasCause (K.faults sink.old) (K.faults sink.new) result }
{
    let mut at = 0;
    while at < piece.len() {
        at += sink.write(&piece[at..])?;
    }
    Ok(())
}
