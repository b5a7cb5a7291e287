// The edge to the outside: any reader and writer of std, with their errors counted. They tell no bytes.
ghost use Rattle.std.specs.Prelude.{◌≡◌, ◌≤◌, ◌<◌, None, IfOk, MatchResult, length, take};
ghost use Rattle.std.specs.Io.KnownBytes.{Appends, ReadConsumes};
ghost use Rattle.flow_io.specs.Causes.{HasCause, next_number};

use crate::{Failed, Sink, Source};
use std::io::{Read, Write};
use std::marker::Model;

/// Any reader of std as a source that tells no bytes. Contracts see what std knows of the bytes to come, and the count
/// of errors, which stands still at 2^64 - 1.
#[derive(Drop)]
pub struct StdSource<R: Read> {
    inner: R,
    faults: u64,
}

impl<R: Read> Model for StdSource<R> {
    ghost use Rattle.flow_io.specs.Standard.{Adapter};

    ghost Value = { Adapter };

    ghost view = { λ s. record { inner = R.remaining s.inner; faults = s.faults } };
}

impl<R: Read> StdSource<R> {
    pub fn new(inner: R) -> StdSource<R>
        ensures { result ≡ record { inner = R.remaining inner; faults = 0 } }
    {
        StdSource { inner, faults: 0 }
    }
}

impl<R: Read> Source for StdSource<R> {
    ghost left = { λ _. None };

    ghost faults = { λ s. s.faults };

    fn read(&mut self, buf: &mut [u8]) -> Result<usize, Failed>
        ensures bound { IfOk result (λ n. n ≤ length buf.new) }
        ensures cause { HasCause self.old.faults self.new.faults result }
        ensures counts { MatchResult result
            (λ _. self.new.faults ≡ self.old.faults)
            (λ _. self.new.faults ≡ next_number self.old.faults) }
        ensures reads { ReadConsumes self.old.inner self.new.inner result buf.new }
    {
        match self.inner.read(buf) {
            Ok(n) => Ok(n),
            Err(_) => {
                self.faults = self.faults.saturating_add(1);
                Err(Failed)
            }
        }
    }
}

/// Any writer of std as a sink that tells no bytes. Each call flushes, and a write that takes nothing of a piece that
/// is not empty is an error. Where the flush fails, the answer is `Failed` although bytes may have gone out. Contracts
/// see what std knows of the bytes written, and the count of errors, which stands still at 2^64 - 1.
#[derive(Drop)]
pub struct StdSink<W: Write> {
    inner: W,
    faults: u64,
}

impl<W: Write> Model for StdSink<W> {
    ghost use Rattle.flow_io.specs.Standard.{Adapter};

    ghost Value = { Adapter };

    ghost view = { λ s. record { inner = W.contents s.inner; faults = s.faults } };
}

impl<W: Write> StdSink<W> {
    pub fn new(inner: W) -> StdSink<W>
        ensures { result ≡ record { inner = W.contents inner; faults = 0 } }
    {
        StdSink { inner, faults: 0 }
    }

    // One write and one flush, uncounted.
    fn send(&mut self, piece: &[u8]) -> Result<usize, Failed>
        ensures bound { IfOk result (λ n. n ≤ length piece.now) }
        ensures some { IfOk result (λ n. 0 < length piece.now → 0 < n) }
        ensures writes { IfOk result (λ n. Appends self.old.inner self.new.inner (take n piece.now)) }
        ensures same { self.new.faults ≡ self.old.faults }
    {
        let Ok(n) = self.inner.write(piece) else {
            return Err(Failed);
        };
        if n == 0 && !piece.is_empty() {
            return Err(Failed);
        }
        match self.inner.flush() {
            Ok(()) => Ok(n),
            Err(_) => Err(Failed),
        }
    }
}

impl<W: Write> Sink for StdSink<W> {
    ghost written = { λ _. None };

    ghost faults = { λ s. s.faults };

    fn write(&mut self, piece: &[u8]) -> Result<usize, Failed>
        ensures bound { IfOk result (λ n. n ≤ length piece.now) }
        ensures some { IfOk result (λ n. 0 < length piece.now → 0 < n) }
        ensures cause { HasCause self.old.faults self.new.faults result }
        ensures counts { MatchResult result
            (λ _. self.new.faults ≡ self.old.faults)
            (λ _. self.new.faults ≡ next_number self.old.faults) }
        ensures writes { IfOk result (λ n. Appends self.old.inner self.new.inner (take n piece.now)) }
    {
        match self.send(piece) {
            Ok(n) => Ok(n),
            Err(_) => {
                self.faults = self.faults.saturating_add(1);
                Err(Failed)
            }
        }
    }
}
