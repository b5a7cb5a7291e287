// Bytes that come from a source in pieces.
ghost use Rattle.std.specs.Prelude.{◌≡◌, ◌≤◌, ◌<◌, ◌+◌, [], ℕ, List, false, true, length, take, drop, IfSome, MatchResult, IfOk};
ghost use Rattle.std.specs.Io.KnownBytes.{IsAtEnd, prepend_known};
ghost use Rattle.std.specs.List.{position_from};
ghost use Rattle.flow_io.specs.Causes.{HasCause};
ghost use Rattle.flow_io.specs.Gathered.{Holds, IsMoved, is_line_feed};

use crate::gathered::Gathered;
use crate::{Failed, INPUT_LIMIT, Source};
use flow_base::NoMemory;
use std::alloc::Global;
use std::marker::Model;

// A source is asked for at most this many bytes a call.
const PIECE_LIMIT: usize = 4096;

// The part of the last piece that no line has taken yet, and how many bytes the source gave in all. It never takes
// more than one byte over the limit of the input.
#[derive(Drop)]
pub(crate) struct Intake {
    piece: Vec<u8>,
    start: usize,
    end: usize,
    taken: u64,
}

impl Model for Intake {
    ghost use Rattle.std.specs.Prelude.{◌≡◌, ◌≤◌, length, slice_range};
    ghost use Rattle.flow_io.specs.Reader.{Backlog};

    ghost Value = { Backlog };

    ghost view = { λ i. record { bytes = slice_range i.piece.items i.start i.end; taken = i.taken } };

    ghost invariant = { λ i. (i.start ≤ i.end) × (i.end ≤ 4096) × (length i.piece.items ≡ 4096) × (i.taken ≤ 67_108_865) };
}

impl Intake {
    pub(crate) fn new(alloc: Global) -> Result<Intake, NoMemory>
        ensures { IfOk result (λ i. i ≡ record { bytes = []; taken = 0 }) }
    {
        Ok(Intake {
            piece: vec![in alloc; 0; PIECE_LIMIT]?,
            start: 0,
            end: 0,
            taken: 0,
        })
    }

    pub(crate) fn as_slice(&self) -> &[u8]
        ensures value { result.now ≡ self.now.bytes }
        ensures bound { length self.now.bytes ≤ 4096 }
    {
        &self.piece[self.start..self.end]
    }

    pub(crate) fn taken(&self) -> u64
        ensures value { result ≡ self.now.taken }
        ensures bound { self.now.taken ≤ INPUT_LIMIT + 1 }
    {
        self.taken
    }

    fn skip(&mut self, n: usize)
        requires { n ≤ length self.old.bytes }
        ensures { self.new ≡ record self.old { bytes = drop n self.old.bytes } }
    {
        self.start += n;
    }

    // Moves the bytes up to a line feed into the line, and drops the line feed (`true`). Where there is none, moves all.
    pub(crate) fn move_line(&mut self, line: &mut Gathered) -> Result<bool, NoMemory>
        ensures moved { (begun : List ℕ) → Holds line.old begun → IsMoved result begun self.old.bytes self.new.bytes line.new }
        ensures taken { self.new.taken ≡ self.old.taken }
    {
        match find_line_feed(self.as_slice()) {
            Some(n) => {
                line.extend(&self.as_slice()[..n])?;
                self.skip(n + 1);
                Ok(true)
            }
            None => {
                line.extend(self.as_slice())?;
                self.skip(self.as_slice().len());
                Ok(false)
            }
        }
    }

    // Reads the next piece, where all of the last one was taken, and says whether there is one.
    pub(crate) fn refill<S: Source>(&mut self, source: &mut S) -> Result<bool, Failed>
        requires empty { self.old.bytes ≡ [] }
        requires room { self.old.taken ≤ INPUT_LIMIT }
        ensures gives { MatchResult result
            (λ _. (S.left source.old ≡ prepend_known self.new.bytes (S.left source.new))
            × (self.new.taken ≡ self.old.taken + length self.new.bytes))
            (λ _. (S.left source.new ≡ S.left source.old) × (self.new ≡ self.old)) }
        ensures more { IfOk result (λ more. more ≡ true → 0 < length self.new.bytes) }
        ensures end { IfOk result (λ more. more ≡ false → (self.new.bytes ≡ []) × IsAtEnd (S.left source.new)) }
        ensures limit { self.new.taken ≤ INPUT_LIMIT + 1 }
        ensures cause { HasCause (S.faults source.old) (S.faults source.new) result }
    {
        let room = INPUT_LIMIT + 1 - self.taken;
        self.start = 0;
        self.end = 0;
        let n = read_front(source, &mut self.piece, room)?;
        self.end = n;
        self.taken += n as u64;
        Ok(n > 0)
    }
}

// Reads into the front of a buffer, and no more than `room` bytes.
fn read_front<S: Source>(source: &mut S, buf: &mut [u8], room: u64) -> Result<usize, Failed>
    ensures bound { IfOk result (λ n. n ≤ length buf.new) }
    ensures room { IfOk result (λ n. n ≤ room) }
    ensures gives { MatchResult result
        (λ n. S.left source.old ≡ prepend_known (take n buf.new) (S.left source.new))
        (λ _. S.left source.new ≡ S.left source.old) }
    ensures end { IfOk result (λ n. n ≡ 0 → 0 < length buf.new → 0 < room → IsAtEnd (S.left source.new)) }
    ensures cause { HasCause (S.faults source.old) (S.faults source.new) result }
{
    let len = buf.len().min(room as usize);
    source.read(&mut buf[..len])
}

// The place of the first line feed, from 0.
fn find_line_feed(bytes: &[u8]) -> Option<usize>
    ensures value { result ≡ position_from is_line_feed 0 bytes.now }
    ensures bound { IfSome result (λ n. n < length bytes.now) }
{
    bytes.iter().position(|byte| *byte == b'\n')
}
