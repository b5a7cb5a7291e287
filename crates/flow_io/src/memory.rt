// Sources and sinks in memory, which fail at the calls that they are told.
ghost use Rattle.std.specs.Prelude.{◌≡◌, ◌≤◌, ◌<◌, ◌-◌, ◌++◌, ℕ, List, [], length, take, drop, min, Some, IfOk, MatchResult};
ghost use Rattle.std.specs.Io.KnownBytes.{prepend_known, append_known, IsAtEnd};
ghost use Rattle.flow_io.specs.Causes.{HasCause};
ghost use Rattle.flow_io.specs.Memory.{IsRead, IsWritten, Moves};

use crate::{Failed, Sink, Source};
use flow_base::NoMemory;
use std::alloc::Global;
use std::marker::Model;

/// A source of bytes in memory, which tells them. Its calls are numbered from 1 to 2^64 - 1, and each call after that
/// has the last number too. Contracts see the bytes still to come, the numbers of the calls that fail, the number of
/// the last call and the count of failed calls.
#[derive(Drop)]
pub struct MemSource {
    bytes: Vec<u8>,
    at: usize,
    fail: Vec<u64>,
    calls: u64,
    faults: u64,
}

impl Model for MemSource {
    ghost use Rattle.std.specs.Prelude.{◌≤◌, drop, length};
    ghost use Rattle.flow_io.specs.Memory.{Input};

    ghost Value = { Input };

    ghost view = { λ s. record { left = drop s.at s.bytes.items; fail = s.fail.items; calls = s.calls; faults = s.faults } };

    ghost invariant = { λ s. s.at ≤ length s.bytes.items };
}

impl MemSource {
    /// A source of these bytes. The calls with these numbers fail.
    pub fn new(alloc: Global, bytes: &[u8], fail: &[u64]) -> Result<MemSource, NoMemory>
        ensures { IfOk result (λ s. s ≡ record { left = bytes.now; fail = fail.now; calls = 0; faults = 0 }) }
    {
        Ok(MemSource {
            bytes: Vec::from_slice(alloc, bytes)?,
            at: 0,
            fail: Vec::from_slice(alloc, fail)?,
            calls: 0,
            faults: 0,
        })
    }
}

impl Source for MemSource {
    ghost left = { λ s. Some s.left };

    ghost faults = { λ s. s.faults };

    fn read(&mut self, buf: &mut [u8]) -> Result<usize, Failed>
        ensures bound { IfOk result (λ n. n ≤ length buf.new) }
        ensures gives { MatchResult result
            (λ n. Some self.old.left ≡ prepend_known (take n buf.new) (Some self.new.left))
            (λ _. Some self.new.left ≡ Some self.old.left) }
        ensures end { IfOk result (λ n. n ≡ 0 → 0 < length buf.new → IsAtEnd (Some self.new.left)) }
        ensures cause { HasCause self.old.faults self.new.faults result }
        ensures exact { IsRead result self.old buf.old self.new buf.new }
    {
        self.calls = self.calls.saturating_add(1);
        if self.fail.contains(&self.calls) {
            self.faults = self.faults.saturating_add(1);
            return Err(Failed);
        }
        let n = copy_front(&self.bytes[self.at..], buf);
        self.at += n;
        Ok(n)
    }
}

/// A sink in memory, with room for a stated number of bytes, which tells what it took. Its calls are numbered as those
/// of a `MemSource`. Contracts see the bytes that it took, the room in all, the numbers of the calls that fail, the
/// number of the last call and the count of failed calls.
#[derive(Drop)]
pub struct MemSink {
    bytes: Vec<u8>,
    len: usize,
    fail: Vec<u64>,
    calls: u64,
    faults: u64,
}

impl Model for MemSink {
    ghost use Rattle.std.specs.Prelude.{◌≤◌, take, length};
    ghost use Rattle.flow_io.specs.Memory.{Output};

    ghost Value = { Output };

    ghost view = { λ s. record { written = take s.len s.bytes.items; room = length s.bytes.items; fail = s.fail.items; calls = s.calls; faults = s.faults } };

    ghost invariant = { λ s. s.len ≤ length s.bytes.items };
}

impl MemSink {
    /// A sink with room for this many bytes, whose memory is taken here. The calls with these numbers fail.
    pub fn new(alloc: Global, room: usize, fail: &[u64]) -> Result<MemSink, NoMemory>
        ensures { IfOk result (λ s. s ≡ record { written = []; room = room; fail = fail.now; calls = 0; faults = 0 }) }
    {
        Ok(MemSink {
            bytes: vec![in alloc; 0; room]?,
            len: 0,
            fail: Vec::from_slice(alloc, fail)?,
            calls: 0,
            faults: 0,
        })
    }

    /// The bytes that it took.
    pub fn written(&self) -> &[u8]
        ensures { result.now ≡ self.now.written }
    {
        &self.bytes[..self.len]
    }

    // Takes what has room from the front of the piece, and says how much.
    fn append(&mut self, piece: &[u8]) -> usize
        ensures count { result ≡ min (length piece.now) (self.old.room - length self.old.written) }
        ensures grows { self.new ≡ record self.old { written = self.old.written ++ take result piece.now } }
    {
        let n = piece.len().min(self.bytes.len() - self.len);
        self.bytes[self.len..self.len + n].copy_from_slice(&piece[..n]);
        self.len += n;
        n
    }
}

impl Sink for MemSink {
    ghost written = { λ s. Some s.written };

    ghost faults = { λ s. s.faults };

    fn write(&mut self, piece: &[u8]) -> Result<usize, Failed>
        ensures bound { IfOk result (λ n. n ≤ length piece.now) }
        ensures takes { MatchResult result
            (λ n. Some self.new.written ≡ append_known (Some self.old.written) (take n piece.now))
            (λ _. Some self.new.written ≡ Some self.old.written) }
        ensures some { IfOk result (λ n. 0 < length piece.now → 0 < n) }
        ensures cause { HasCause self.old.faults self.new.faults result }
        ensures exact { IsWritten result self.old piece.now self.new }
    {
        self.calls = self.calls.saturating_add(1);
        let is_full = self.len == self.bytes.len();
        if self.fail.contains(&self.calls) || (is_full && !piece.is_empty()) {
            self.faults = self.faults.saturating_add(1);
            return Err(Failed);
        }
        Ok(self.append(piece))
    }
}

/// Copies as much of the front of `from` into the front of `buf` as has room, and says how much.
pub(crate) fn copy_front(from: &[u8], buf: &mut [u8]) -> usize
    ensures moves { Moves result from.now buf.old (drop result from.now) buf.new }
    ensures copied { from.now ≡ take result buf.new ++ drop result from.now }
    ensures bound { result ≤ length buf.new }
    ensures within { result ≤ length from.now }
    ensures end { result ≡ 0 → 0 < length buf.new → from.now ≡ [] }
{
    let n = buf.len().min(from.len());
    buf[..n].copy_from_slice(&from[..n]);
    n
}
