// Where a part stands in a text, after the text methods of the Python library reference.
ghost use Rattle.std.specs.Prelude.{◌≡◌, ◌≢◌, ◌↔◌, ◌<◌, ◌≤◌, ◌+◌, ℕ, List, [], ◌∷◌, ◌++◌, filter, length, drop, option_map, slice_range, IfOk, IfSome, IsTrue, OnOk};
ghost use Rattle.std.specs.List.{prefix_len, suffix_len};
ghost use Rattle.std.specs.Char.{is_whitespace};
ghost use Rattle.py_scalars.specs.Search.{first_place, is_filled, pieces, words, stripped, replaced};
ghost use Rattle.py_scalars.specs.Plan.{Precedes, point_of, IsPlan};
ghost use Rattle.memchr.specs.Critical.{IsSuffixAt, IsCutPlace};

use flow_base::{NoMemory, PyText, Shared};
use std::alloc::Global;

/// Texts that copies share in memory. Contracts see the list of them.
pub type Texts = Shared<PyText>;

/// The first place, from 0, at which the part stands; 0 for an empty part. Takes no memory, and looks at most twice at
/// each code point of the text, whatever it is.
pub fn find(t: &PyText, part: &PyText) -> Option<usize>
    ensures { result ≡ first_place part.now t.now }
{
    let (text, wanted) = (t.as_slice(), part.as_slice());
    first_from(text, wanted, plan_for(wanted), 0)
}

/// What stands between the parts, which must not be empty. A text without the part is its one piece.
pub fn split(alloc: Global, t: &PyText, part: &PyText) -> Result<Texts, NoMemory>
    requires { 0 < length part.now }
    ensures { IfOk result (λ texts. texts ≡ pieces part.now t.now) }
{
    let (text, wanted) = (t.as_slice(), part.as_slice());
    let plan = plan_for(wanted);
    let mut texts = Vec::new(alloc);
    let mut from = 0;
    while let Some(at) = first_from(text, wanted, plan, from) {
        texts.push(t.part(alloc, from, at)?)?;
        from = at + part.len();
    }
    texts.push(t.part(alloc, from, t.len())?)?;
    Shared::from_vec(alloc, texts)
}

/// The words between runs of white space (Unicode White_Space). White space alone has no word.
pub fn split_white(alloc: Global, t: &PyText) -> Result<Texts, NoMemory>
    ensures { IfOk result (λ texts. texts ≡ words t.now) }
{
    let mut texts = Vec::new(alloc);
    let mut from = 0;
    for (i, c) in t.as_slice().iter().enumerate() {
        if !c.is_whitespace() {
            continue;
        }
        push_word(alloc, &mut texts, t, from, i)?;
        from = i + 1;
    }
    push_word(alloc, &mut texts, t, from, t.len())?;
    Shared::from_vec(alloc, texts)
}

// The part of a text, if it is not empty, behind the words before it.
fn push_word(
    alloc: Global,
    texts: &mut Vec<PyText>,
    t: &PyText,
    from: usize,
    to: usize,
) -> Result<(), NoMemory>
    requires in_order { from ≤ to }
    requires in_bounds { to ≤ length t.now }
    ensures { OnOk result
        (texts.new.items ≡ texts.old.items ++ filter is_filled (slice_range t.now from to ∷ [])) }
{
    if from < to {
        texts.push(t.part(alloc, from, to)?)?;
    }
    Ok(())
}

/// Without white space (Unicode White_Space) at both ends.
pub fn strip(alloc: Global, t: &PyText) -> Result<PyText, NoMemory>
    ensures { IfOk result (λ text. text ≡ stripped t.now) }
{
    let from = white_front(t.as_slice());
    let to = t.len() - white_end(&t.as_slice()[from..]);
    t.part(alloc, from, to)
}

/// The text with b in place of each a, from the left; for an empty a, with b before each code point and at the end.
pub fn replace(alloc: Global, t: &PyText, a: &PyText, b: &PyText) -> Result<PyText, NoMemory>
    ensures { IfOk result (λ text. text ≡ replaced a.now b.now t.now) }
{
    if a.len() == 0 {
        return spread(alloc, t, b);
    }
    let (text, wanted) = (t.as_slice(), a.as_slice());
    let plan = plan_for(wanted);
    let mut out = Vec::new(alloc);
    let mut from = 0;
    while let Some(at) = first_from(text, wanted, plan, from) {
        out.extend_from_slice(&text[from..at])?;
        out.extend_from_slice(b.as_slice())?;
        from = at + a.len();
    }
    out.extend_from_slice(&text[from..])?;
    PyText::from_points(alloc, out)
}

// b before each code point and at the end.
fn spread(alloc: Global, t: &PyText, b: &PyText) -> Result<PyText, NoMemory>
    ensures { IfOk result (λ text. text ≡ replaced [] b.now t.now) }
{
    let mut out = Vec::new(alloc);
    for c in t.as_slice() {
        out.extend_from_slice(b.as_slice())?;
        out.push(*c)?;
    }
    out.extend_from_slice(b.as_slice())?;
    PyText::from_points(alloc, out)
}

fn white_front(text: &[char]) -> usize
    ensures value { result ≡ prefix_len is_whitespace text.now }
    ensures within { result ≤ length text.now }
{
    for (i, c) in text.iter().enumerate() {
        if !c.is_whitespace() {
            return i;
        }
    }
    text.len()
}

fn white_end(text: &[char]) -> usize
    ensures value { result ≡ suffix_len is_whitespace text.now }
    ensures within { result ≤ length text.now }
{
    let mut n = text.len();
    while n > 0 && text[n - 1].is_whitespace() {
        n -= 1;
    }
    text.len() - n
}

// Whether a comes before b, in the order of code points or in its reverse.
fn precedes(reversed: bool, a: char, b: char) -> bool
    ensures { IsTrue result ↔ Precedes reversed a b }
{
    if reversed { b < a } else { a < b }
}

// The end of a part from a place on, and the least number of places after which it repeats.
#[derive(Clone, Copy)]
struct Suffix {
    start: usize,
    period: usize,
}

// The suffix that is greatest by an order. A rival begins whole periods behind it, and as far as they were compared the
// two have `same` code points in common.
fn greatest_suffix(part: &[char], reversed: bool) -> Suffix
    requires { 0 < length part.now }
    ensures { IsSuffixAt (Precedes reversed) (point_of part.now) (length part.now) result.start result.period }
{
    let (mut start, mut period) = (0, 1);
    let (mut rival, mut same) = (1, 0);
    while rival + same < part.len() {
        let (ours, theirs) = (part[start + same], part[rival + same]);
        if precedes(reversed, theirs, ours) {
            rival += same + 1;
            same = 0;
            period = rival - start;
        } else if precedes(reversed, ours, theirs) {
            start = rival;
            rival += 1;
            same = 0;
            period = 1;
        } else if same + 1 == period {
            rival += period;
            same = 0;
        } else {
            same += 1;
        }
    }
    Suffix { start, period }
}

// How a part is looked for. At each place it is compared from the cut on, and then before the cut. A mismatch in the first
// moves the search on until the cut lies behind it. One in the second moves it by the shift, and there the part's first
// `kept` code points are known to match.
#[derive(Clone, Copy)]
struct Plan {
    cut: usize,
    shift: usize,
    kept: usize,
}

// Cuts a part at the later of its greatest suffixes by the two orders: what repeats around that place repeats throughout.
fn plan_for(part: &[char]) -> Plan
    ensures { IsPlan part.now result.cut result.shift result.kept }
{
    if part.is_empty() {
        return Plan {
            cut: 0,
            shift: 1,
            kept: 0,
        };
    }
    let least = greatest_suffix(part, true);
    let most = greatest_suffix(part, false);
    if least.start > most.start {
        plan_at(part, least)
    } else {
        plan_at(part, most)
    }
}

// Cuts a part at a suffix. The shift is the period of the suffix where that is the part's too, and otherwise no more than
// the part's.
fn plan_at(part: &[char], suffix: Suffix) -> Plan
    requires { IsCutPlace (point_of part.now) (length part.now) suffix.start suffix.period }
    ensures { IsPlan part.now result.cut result.shift result.kept }
{
    let Suffix { start, period } = suffix;
    let len = part.len();
    if part[..start] == part[period..period + start] {
        Plan {
            cut: start,
            shift: period,
            kept: len - period,
        }
    } else {
        Plan {
            cut: start,
            shift: start.max(len - start),
            kept: 0,
        }
    }
}

// The first place, from a start, at which a part differs from the text that it is laid on; its length if there is none.
fn matched_to(text: &[char], part: &[char], at: usize, start: usize) -> usize
    requires within { at + length part.now ≤ length text.now }
    requires from { start ≤ length part.now }
    ensures low { start ≤ result }
    ensures high { result ≤ length part.now }
    ensures same { (k : ℕ) → start ≤ k → k < result → point_of part.now k ≡ point_of text.now (at + k) }
    ensures differs { result < length part.now → point_of part.now result ≢ point_of text.now (at + result) }
{
    let mut i = start;
    while i < part.len() && part[i] == text[at + i] {
        i += 1;
    }
    i
}

// The first place at or behind `from` at which the part stands. What was compared behind the cut is not looked at again.
fn first_from(text: &[char], part: &[char], plan: Plan, from: usize) -> Option<usize>
    requires start { from ≤ length text.now }
    requires plan { IsPlan part.now plan.cut plan.shift plan.kept }
    ensures value { result
        ≡ option_map (λ n. from + n) (first_place part.now (drop from text.now)) }
    ensures within { IfSome result (λ at. (from ≤ at) × (at + length part.now ≤ length text.now)) }
{
    let (mut at, mut known) = (from, 0);
    while at + part.len() <= text.len() {
        let end = matched_to(text, part, at, plan.cut.max(known));
        if end < part.len() {
            at += end - plan.cut + 1;
            known = 0;
            continue;
        }
        let known_front = plan.cut.min(known);
        if part[known_front..plan.cut] == text[at + known_front..at + plan.cut] {
            return Some(at);
        }
        at += plan.shift;
        known = plan.kept;
    }
    None
}
