// What follows a phrase of a rung: an operator or a suffix of the next rung, or nothing of it.
ghost use Rattle.std.specs.Prelude.{◌≡◌, ◌<◌, ◌-◌, ◌+◌, ◌*◌, length};
ghost use Rattle.py_grammar.specs.Reading.{attributed, called, subscripted, suffix};
ghost use Rattle.py_line.specs.Full.{full};
ghost use Rattle.py_line.specs.Views.{kept_of};
ghost use Rattle.py_line.specs.Waiting.{after, onward, rank, wanted};
ghost use Rattle.py_line.specs.States.{IsLess, Reads, all_waiting, goal_of, read_from, size};
ghost use Rattle.py_line.specs.declared.frame.Rung.TheVariants as r;

use crate::at::{
    Suffix, and_at, begins, compare_at, mark_at, name_at, or_at, suffix_at, sum_at, term_at,
};
use crate::fault::ReadFault;
use crate::frame::{Brackets, Frame, Rung};
use crate::kept::Kept;
use crate::made::{attribute, call, no_trees, one_operand};
use crate::state::{State, Waiting};
use py_grammar::{Mark, Sign};
use std::alloc::Global;

/// What follows a phrase of a rung below the one that is waited for.
pub(crate) fn after(
    alloc: Global,
    waiting: Waiting,
    rung: Rung,
    a: Kept,
    rest: &[Sign],
) -> Result<(State, &[Sign]), ReadFault>
    requires { rank rung < rank (wanted (goal_of waiting) (all_waiting waiting)) }
    ensures reads { Reads (λ s. read_from s.0 s.1.now) result (after (goal_of waiting) (all_waiting waiting) rung (kept_of a, rest.now)) }
    ensures less { IsLess (λ s. size s.0 s.1.now) result (32 * length rest.now + 16 * length (all_waiting waiting) + (11 - rank rung)) }
{
    match rung {
        Rung::Atom => suffixes(alloc, waiting, a, rest),
        Rung::Primary => powers(waiting, a, rest),
        Rung::Power => factors(waiting, a, rest),
        Rung::Factor => terms(waiting, a, rest),
        Rung::Term => sums(waiting, a, rest),
        Rung::Sum => comparisons(alloc, waiting, a, rest),
        Rung::Comparison => negations(waiting, a, rest),
        Rung::Not => ands(waiting, a, rest),
        Rung::And => ors(waiting, a, rest),
        Rung::Or => conditions(waiting, a, rest),
        Rung::Expr => Err(ReadFault::NoMemory),
    }
}

#[tactic(auto, using(crate::proofs::Closing::suffix_ends, crate::proofs::Closing::suffix_goes))]
fn suffixes(
    alloc: Global,
    waiting: Waiting,
    a: Kept,
    rest: &[Sign],
) -> Result<(State, &[Sign]), ReadFault>
    requires { 0 < rank (wanted (goal_of waiting) (all_waiting waiting)) }
    ensures reads { Reads (λ s. read_from s.0 s.1.now) result (after (goal_of waiting) (all_waiting waiting) r.Atom (kept_of a, rest.now)) }
    ensures less { IsLess (λ s. size s.0 s.1.now) result (32 * length rest.now + 16 * length (all_waiting waiting) + (11 - rank r.Atom)) }
{
    match suffix_at(rest) {
        Some((Suffix::Attribute, rest)) => attributes(alloc, waiting, a, rest),
        Some((Suffix::Subscript, rest)) => subscripts(alloc, waiting, a, rest),
        Some((Suffix::Call, rest)) => calls(alloc, waiting, a, rest),
        None => Ok((State::After(waiting, Rung::Primary, a), rest)),
    }
}

#[tactic(auto, using(crate::proofs::Going::power_goes, crate::proofs::Going::power_ends))]
fn powers(waiting: Waiting, a: Kept, rest: &[Sign]) -> Result<(State, &[Sign]), ReadFault>
    requires { 1 < rank (wanted (goal_of waiting) (all_waiting waiting)) }
    ensures reads { Reads (λ s. read_from s.0 s.1.now) result (after (goal_of waiting) (all_waiting waiting) r.Primary (kept_of a, rest.now)) }
    ensures less { IsLess (λ s. size s.0 s.1.now) result (32 * length rest.now + 16 * length (all_waiting waiting) + (11 - rank r.Primary)) }
{
    match mark_at(Mark::Stars, rest) {
        Some(rest) => Ok((State::Before(waiting.with(Frame::Power(a))?), rest)),
        None => Ok((State::After(waiting, Rung::Power, a), rest)),
    }
}

#[tactic(auto, using(crate::proofs::Going::factor_here))]
fn factors(waiting: Waiting, a: Kept, rest: &[Sign]) -> Result<(State, &[Sign]), ReadFault>
    requires { 2 < rank (wanted (goal_of waiting) (all_waiting waiting)) }
    ensures reads { Reads (λ s. read_from s.0 s.1.now) result (after (goal_of waiting) (all_waiting waiting) r.Power (kept_of a, rest.now)) }
    ensures less { IsLess (λ s. size s.0 s.1.now) result (32 * length rest.now + 16 * length (all_waiting waiting) + (11 - rank r.Power)) }
{
    Ok((State::After(waiting, Rung::Factor, a), rest))
}

#[tactic(auto, using(crate::proofs::Going::term_goes, crate::proofs::Going::term_ends))]
fn terms(waiting: Waiting, a: Kept, rest: &[Sign]) -> Result<(State, &[Sign]), ReadFault>
    requires { 3 < rank (wanted (goal_of waiting) (all_waiting waiting)) }
    ensures reads { Reads (λ s. read_from s.0 s.1.now) result (after (goal_of waiting) (all_waiting waiting) r.Factor (kept_of a, rest.now)) }
    ensures less { IsLess (λ s. size s.0 s.1.now) result (32 * length rest.now + 16 * length (all_waiting waiting) + (11 - rank r.Factor)) }
{
    match term_at(rest) {
        Some((o, rest)) => Ok((State::Before(waiting.with(Frame::Term(a, o))?), rest)),
        None => Ok((State::After(waiting, Rung::Term, a), rest)),
    }
}

#[tactic(auto, using(crate::proofs::Going::sum_goes, crate::proofs::Going::sum_ends))]
fn sums(waiting: Waiting, a: Kept, rest: &[Sign]) -> Result<(State, &[Sign]), ReadFault>
    requires { 4 < rank (wanted (goal_of waiting) (all_waiting waiting)) }
    ensures reads { Reads (λ s. read_from s.0 s.1.now) result (after (goal_of waiting) (all_waiting waiting) r.Term (kept_of a, rest.now)) }
    ensures less { IsLess (λ s. size s.0 s.1.now) result (32 * length rest.now + 16 * length (all_waiting waiting) + (11 - rank r.Term)) }
{
    match sum_at(rest) {
        Some((o, rest)) => Ok((State::Before(waiting.with(Frame::Sum(a, o))?), rest)),
        None => Ok((State::After(waiting, Rung::Sum, a), rest)),
    }
}

#[tactic(auto, using(crate::proofs::Going::chain_goes, crate::proofs::Going::chain_ends))]
fn comparisons(
    alloc: Global,
    waiting: Waiting,
    a: Kept,
    rest: &[Sign],
) -> Result<(State, &[Sign]), ReadFault>
    requires { 5 < rank (wanted (goal_of waiting) (all_waiting waiting)) }
    ensures reads { Reads (λ s. read_from s.0 s.1.now) result (after (goal_of waiting) (all_waiting waiting) r.Sum (kept_of a, rest.now)) }
    ensures less { IsLess (λ s. size s.0 s.1.now) result (32 * length rest.now + 16 * length (all_waiting waiting) + (11 - rank r.Sum)) }
{
    match compare_at(rest) {
        Some((o, rest)) => {
            let chain = one_operand(alloc, a)?;
            Ok((State::Before(waiting.with(Frame::Chain(chain, o))?), rest))
        }
        None => Ok((State::After(waiting, Rung::Comparison, a), rest)),
    }
}

#[tactic(auto, using(crate::proofs::Going::not_here))]
fn negations(waiting: Waiting, a: Kept, rest: &[Sign]) -> Result<(State, &[Sign]), ReadFault>
    requires { 6 < rank (wanted (goal_of waiting) (all_waiting waiting)) }
    ensures reads { Reads (λ s. read_from s.0 s.1.now) result (after (goal_of waiting) (all_waiting waiting) r.Comparison (kept_of a, rest.now)) }
    ensures less { IsLess (λ s. size s.0 s.1.now) result (32 * length rest.now + 16 * length (all_waiting waiting) + (11 - rank r.Comparison)) }
{
    Ok((State::After(waiting, Rung::Not, a), rest))
}

#[tactic(auto, using(crate::proofs::Going::and_goes, crate::proofs::Going::and_ends))]
fn ands(waiting: Waiting, a: Kept, rest: &[Sign]) -> Result<(State, &[Sign]), ReadFault>
    requires { 7 < rank (wanted (goal_of waiting) (all_waiting waiting)) }
    ensures reads { Reads (λ s. read_from s.0 s.1.now) result (after (goal_of waiting) (all_waiting waiting) r.Not (kept_of a, rest.now)) }
    ensures less { IsLess (λ s. size s.0 s.1.now) result (32 * length rest.now + 16 * length (all_waiting waiting) + (11 - rank r.Not)) }
{
    match and_at(rest) {
        Some(rest) => Ok((State::Before(waiting.with(Frame::And(a))?), rest)),
        None => Ok((State::After(waiting, Rung::And, a), rest)),
    }
}

#[tactic(auto, using(crate::proofs::Going::or_goes, crate::proofs::Going::or_ends))]
fn ors(waiting: Waiting, a: Kept, rest: &[Sign]) -> Result<(State, &[Sign]), ReadFault>
    requires { 8 < rank (wanted (goal_of waiting) (all_waiting waiting)) }
    ensures reads { Reads (λ s. read_from s.0 s.1.now) result (after (goal_of waiting) (all_waiting waiting) r.And (kept_of a, rest.now)) }
    ensures less { IsLess (λ s. size s.0 s.1.now) result (32 * length rest.now + 16 * length (all_waiting waiting) + (11 - rank r.And)) }
{
    match or_at(rest) {
        Some(rest) => Ok((State::Before(waiting.with(Frame::Or(a))?), rest)),
        None => Ok((State::After(waiting, Rung::Or, a), rest)),
    }
}

#[tactic(auto, using(crate::proofs::Going::test_goes, crate::proofs::Going::test_ends))]
fn conditions(waiting: Waiting, a: Kept, rest: &[Sign]) -> Result<(State, &[Sign]), ReadFault>
    requires { 9 < rank (wanted (goal_of waiting) (all_waiting waiting)) }
    ensures reads { Reads (λ s. read_from s.0 s.1.now) result (after (goal_of waiting) (all_waiting waiting) r.Or (kept_of a, rest.now)) }
    ensures less { IsLess (λ s. size s.0 s.1.now) result (32 * length rest.now + 16 * length (all_waiting waiting) + (11 - rank r.Or)) }
{
    match mark_at(Mark::If, rest) {
        Some(rest) => Ok((State::Before(waiting.with(Frame::Test(a))?), rest)),
        None => Ok((State::After(waiting, Rung::Expr, a), rest)),
    }
}

// A name behind `.`.
#[tactic(auto, using(crate::proofs::Closing::attribute_goes, crate::proofs::Closing::attribute_fails))]
fn attributes(
    alloc: Global,
    waiting: Waiting,
    a: Kept,
    tokens: &[Sign],
) -> Result<(State, &[Sign]), ReadFault>
    ensures reads { Reads (λ s. read_from s.0 s.1.now) result (onward (goal_of waiting) (all_waiting waiting) r.Atom (suffix 60 (full 60) (kept_of a) attributed tokens.now)) }
    ensures less { IsLess (λ s. size s.0 s.1.now) result (32 * length tokens.now + 16 * length (all_waiting waiting) + 11) }
{
    let Some((x, rest)) = name_at(tokens) else {
        return Err(ReadFault::NoLine);
    };
    Ok((
        State::After(waiting, Rung::Atom, attribute(alloc, a, x.copy()?)?),
        rest,
    ))
}

// An index behind `[`.
#[tactic(auto, using(crate::proofs::Closing::index_goes))]
fn subscripts(
    alloc: Global,
    waiting: Waiting,
    a: Kept,
    tokens: &[Sign],
) -> Result<(State, &[Sign]), ReadFault>
    ensures reads { Reads (λ s. read_from s.0 s.1.now) result (onward (goal_of waiting) (all_waiting waiting) r.Atom (suffix 60 (full 60) (kept_of a) subscripted tokens.now)) }
    ensures less { IsLess (λ s. size s.0 s.1.now) result (32 * length tokens.now + 16 * length (all_waiting waiting) + 30) }
{
    let waiting = waiting.with(Frame::Item(Brackets::Index(a), no_trees(alloc)))?;
    Ok((State::Before(waiting), tokens))
}

// Arguments behind `(`.
#[tactic(auto, using(crate::proofs::Closing::call_goes, crate::proofs::Closing::call_closes, crate::proofs::Closing::call_fails))]
fn calls(
    alloc: Global,
    waiting: Waiting,
    a: Kept,
    tokens: &[Sign],
) -> Result<(State, &[Sign]), ReadFault>
    ensures reads { Reads (λ s. read_from s.0 s.1.now) result (onward (goal_of waiting) (all_waiting waiting) r.Atom (suffix 60 (full 60) (kept_of a) called tokens.now)) }
    ensures less { IsLess (λ s. size s.0 s.1.now) result (32 * length tokens.now + 16 * length (all_waiting waiting) + 30) }
{
    if begins(tokens) {
        let waiting = waiting.with(Frame::Item(Brackets::Call(a), no_trees(alloc)))?;
        return Ok((State::Before(waiting), tokens));
    }
    let Some(rest) = mark_at(Mark::Close, tokens) else {
        return Err(ReadFault::NoLine);
    };
    Ok((
        State::After(waiting, Rung::Atom, call(alloc, a, no_trees(alloc))?),
        rest,
    ))
}
