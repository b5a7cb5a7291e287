// What is made of a phrase by the one that waits for it.
ghost use Rattle.std.specs.Prelude.{◌+◌, ◌*◌, length};
ghost use Rattle.py_line.specs.Gives.{Gives};
ghost use Rattle.py_line.specs.States.{IsLess, Reads, all_waiting, goal_of, read_from, size};
ghost use Rattle.py_line.specs.Views.{all_of, kept_of};
ghost use Rattle.py_line.specs.Waiting.{closed, closed_pairs, gives, indexed, listed, onward, pairs_ended, turn};
ghost use Rattle.py_line.specs.declared.frame.Brackets.TheVariants as b;
ghost use Rattle.py_line.specs.declared.frame.Frame.TheVariants as f;
ghost use Rattle.py_line.specs.declared.frame.Rung.TheVariants as r;

use crate::at::{compare_at, mark_at, next_at};
use crate::exprs::{end_of_exprs, past_comma};
use crate::fault::ReadFault;
use crate::frame::{Brackets, Frame, Rung};
use crate::kept::{Chained, Kept, KeptAll, Parameters};
use crate::made::{
    binary, call, choice, compared, conjunction, dict, disjunction, item, lambda, list, negation,
    power, push, sign, with_default, with_operand,
};
use crate::state::{State, Waiting};
use flow_base::PyText;
use py_ast::{BinaryOp, CompareOp, SignOp};
use py_grammar::{Mark, Sign};
use std::alloc::Global;

/// What one that waited makes of its phrase.
pub(crate) fn arrive(
    alloc: Global,
    waiting: Waiting,
    frame: Frame,
    a: Kept,
    rest: &[Sign],
) -> Result<(State, &[Sign]), ReadFault>
    ensures reads { Reads (λ s. read_from s.0 s.1.now) result (onward (goal_of waiting) (all_waiting waiting) (gives frame) (turn frame (kept_of a, rest.now))) }
    ensures less { IsLess (λ s. size s.0 s.1.now) result (32 * length rest.now + 16 * length (all_waiting waiting) + 17) }
{
    match frame {
        Frame::Sign(o) => signed(alloc, waiting, o, a, rest),
        Frame::Not => denied(alloc, waiting, a, rest),
        Frame::Power(l) => raised(alloc, waiting, l, a, rest),
        Frame::Term(l, o) => multiplied(alloc, waiting, l, o, a, rest),
        Frame::Sum(l, o) => added(alloc, waiting, l, o, a, rest),
        Frame::And(l) => both(alloc, waiting, l, a, rest),
        Frame::Or(l) => either(alloc, waiting, l, a, rest),
        Frame::Chain(c, o) => operand(alloc, waiting, c, o, a, rest),
        Frame::Test(l) => test(waiting, l, a, rest),
        Frame::Else(l, t) => chosen(alloc, waiting, l, t, a, rest),
        Frame::Default(s, x) => default(waiting, s, x, a, rest),
        Frame::Lambda(s) => function(alloc, waiting, s, a, rest),
        Frame::Item(d, s) => member(alloc, waiting, d, s, a, rest),
        Frame::Key(s) => key(waiting, s, a, rest),
        Frame::Value(s, k) => value(alloc, waiting, s, k, a, rest),
    }
}

// ---- frames that make a phrase and wait for nothing more

fn signed(
    alloc: Global,
    waiting: Waiting,
    o: SignOp,
    a: Kept,
    rest: &[Sign],
) -> Result<(State, &[Sign]), ReadFault>
    ensures reads { Reads (λ s. read_from s.0 s.1.now) result (onward (goal_of waiting) (all_waiting waiting) r.Factor (turn (f.Sign o) (kept_of a, rest.now))) }
    ensures less { IsLess (λ s. size s.0 s.1.now) result (32 * length rest.now + 16 * length (all_waiting waiting) + 17) }
{
    Ok((
        State::After(waiting, Rung::Factor, sign(alloc, o, a)?),
        rest,
    ))
}

fn denied(
    alloc: Global,
    waiting: Waiting,
    a: Kept,
    rest: &[Sign],
) -> Result<(State, &[Sign]), ReadFault>
    ensures reads { Reads (λ s. read_from s.0 s.1.now) result (onward (goal_of waiting) (all_waiting waiting) r.Not (turn f.Not (kept_of a, rest.now))) }
    ensures less { IsLess (λ s. size s.0 s.1.now) result (32 * length rest.now + 16 * length (all_waiting waiting) + 17) }
{
    Ok((State::After(waiting, Rung::Not, negation(alloc, a)?), rest))
}

fn raised(
    alloc: Global,
    waiting: Waiting,
    l: Kept,
    a: Kept,
    rest: &[Sign],
) -> Result<(State, &[Sign]), ReadFault>
    ensures reads { Reads (λ s. read_from s.0 s.1.now) result (onward (goal_of waiting) (all_waiting waiting) r.Power (turn (f.Power l) (kept_of a, rest.now))) }
    ensures less { IsLess (λ s. size s.0 s.1.now) result (32 * length rest.now + 16 * length (all_waiting waiting) + 17) }
{
    Ok((
        State::After(waiting, Rung::Power, power(alloc, l, a)?),
        rest,
    ))
}

fn multiplied(
    alloc: Global,
    waiting: Waiting,
    l: Kept,
    o: BinaryOp,
    a: Kept,
    rest: &[Sign],
) -> Result<(State, &[Sign]), ReadFault>
    ensures reads { Reads (λ s. read_from s.0 s.1.now) result (onward (goal_of waiting) (all_waiting waiting) r.Factor (turn (f.Term l o) (kept_of a, rest.now))) }
    ensures less { IsLess (λ s. size s.0 s.1.now) result (32 * length rest.now + 16 * length (all_waiting waiting) + 17) }
{
    Ok((
        State::After(waiting, Rung::Factor, binary(alloc, o, l, a)?),
        rest,
    ))
}

fn added(
    alloc: Global,
    waiting: Waiting,
    l: Kept,
    o: BinaryOp,
    a: Kept,
    rest: &[Sign],
) -> Result<(State, &[Sign]), ReadFault>
    ensures reads { Reads (λ s. read_from s.0 s.1.now) result (onward (goal_of waiting) (all_waiting waiting) r.Term (turn (f.Sum l o) (kept_of a, rest.now))) }
    ensures less { IsLess (λ s. size s.0 s.1.now) result (32 * length rest.now + 16 * length (all_waiting waiting) + 17) }
{
    Ok((
        State::After(waiting, Rung::Term, binary(alloc, o, l, a)?),
        rest,
    ))
}

fn both(
    alloc: Global,
    waiting: Waiting,
    l: Kept,
    a: Kept,
    rest: &[Sign],
) -> Result<(State, &[Sign]), ReadFault>
    ensures reads { Reads (λ s. read_from s.0 s.1.now) result (onward (goal_of waiting) (all_waiting waiting) r.Not (turn (f.And l) (kept_of a, rest.now))) }
    ensures less { IsLess (λ s. size s.0 s.1.now) result (32 * length rest.now + 16 * length (all_waiting waiting) + 17) }
{
    Ok((
        State::After(waiting, Rung::Not, conjunction(alloc, l, a)?),
        rest,
    ))
}

fn either(
    alloc: Global,
    waiting: Waiting,
    l: Kept,
    a: Kept,
    rest: &[Sign],
) -> Result<(State, &[Sign]), ReadFault>
    ensures reads { Reads (λ s. read_from s.0 s.1.now) result (onward (goal_of waiting) (all_waiting waiting) r.And (turn (f.Or l) (kept_of a, rest.now))) }
    ensures less { IsLess (λ s. size s.0 s.1.now) result (32 * length rest.now + 16 * length (all_waiting waiting) + 17) }
{
    Ok((
        State::After(waiting, Rung::And, disjunction(alloc, l, a)?),
        rest,
    ))
}

fn chosen(
    alloc: Global,
    waiting: Waiting,
    l: Kept,
    t: Kept,
    a: Kept,
    rest: &[Sign],
) -> Result<(State, &[Sign]), ReadFault>
    ensures reads { Reads (λ s. read_from s.0 s.1.now) result (onward (goal_of waiting) (all_waiting waiting) r.Expr (turn (f.Else l t) (kept_of a, rest.now))) }
    ensures less { IsLess (λ s. size s.0 s.1.now) result (32 * length rest.now + 16 * length (all_waiting waiting) + 17) }
{
    Ok((
        State::After(waiting, Rung::Expr, choice(alloc, l, t, a)?),
        rest,
    ))
}

fn function(
    alloc: Global,
    waiting: Waiting,
    s: Parameters,
    a: Kept,
    rest: &[Sign],
) -> Result<(State, &[Sign]), ReadFault>
    ensures reads { Reads (λ s. read_from s.0 s.1.now) result (onward (goal_of waiting) (all_waiting waiting) r.Expr (turn (f.Lambda s) (kept_of a, rest.now))) }
    ensures less { IsLess (λ s. size s.0 s.1.now) result (32 * length rest.now + 16 * length (all_waiting waiting) + 17) }
{
    Ok((
        State::After(waiting, Rung::Expr, lambda(alloc, s, a)?),
        rest,
    ))
}

// ---- frames that may wait for more

#[tactic(auto, using(crate::proofs::Beginning::chain_on, crate::proofs::Beginning::chain_done, crate::proofs::Going::compare_less))]
fn operand(
    alloc: Global,
    waiting: Waiting,
    c: Chained,
    o: CompareOp,
    a: Kept,
    rest: &[Sign],
) -> Result<(State, &[Sign]), ReadFault>
    ensures reads { Reads (λ s. read_from s.0 s.1.now) result (onward (goal_of waiting) (all_waiting waiting) r.Comparison (turn (f.Chain c o) (kept_of a, rest.now))) }
    ensures less { IsLess (λ s. size s.0 s.1.now) result (32 * length rest.now + 16 * length (all_waiting waiting) + 17) }
{
    let c = with_operand(c, o, a)?;
    match compare_at(rest) {
        Some((o, rest)) => Ok((State::Before(waiting.with(Frame::Chain(c, o))?), rest)),
        None => Ok((
            State::After(waiting, Rung::Comparison, compared(alloc, c)?),
            rest,
        )),
    }
}

#[tactic(auto, using(crate::proofs::Beginning::else_goes, crate::proofs::Beginning::else_fails))]
fn test(waiting: Waiting, l: Kept, a: Kept, rest: &[Sign]) -> Result<(State, &[Sign]), ReadFault>
    ensures reads { Reads (λ s. read_from s.0 s.1.now) result (onward (goal_of waiting) (all_waiting waiting) r.Expr (turn (f.Test l) (kept_of a, rest.now))) }
    ensures less { IsLess (λ s. size s.0 s.1.now) result (32 * length rest.now + 16 * length (all_waiting waiting) + 17) }
{
    match mark_at(Mark::Else, rest) {
        Some(rest) => Ok((State::Before(waiting.with(Frame::Else(l, a))?), rest)),
        None => {
            drop(l);
            drop(a);
            drop(waiting);
            Err(ReadFault::NoLine)
        }
    }
}

#[tactic(auto, using(crate::proofs::Beginning::default_given))]
fn default(
    waiting: Waiting,
    s: Parameters,
    x: PyText,
    a: Kept,
    rest: &[Sign],
) -> Result<(State, &[Sign]), ReadFault>
    ensures reads { Reads (λ s. read_from s.0 s.1.now) result (onward (goal_of waiting) (all_waiting waiting) r.Expr (turn (f.Default s x) (kept_of a, rest.now))) }
    ensures less { IsLess (λ s. size s.0 s.1.now) result (32 * length rest.now + 16 * length (all_waiting waiting) + 17) }
{
    Ok((State::Between(waiting, with_default(s, x, a)?), rest))
}

fn member(
    alloc: Global,
    waiting: Waiting,
    d: Brackets,
    s: KeptAll,
    a: Kept,
    rest: &[Sign],
) -> Result<(State, &[Sign]), ReadFault>
    ensures reads { Reads (λ s. read_from s.0 s.1.now) result (onward (goal_of waiting) (all_waiting waiting) r.Atom (turn (f.Item d s) (kept_of a, rest.now))) }
    ensures less { IsLess (λ s. size s.0 s.1.now) result (32 * length rest.now + 16 * length (all_waiting waiting) + 17) }
{
    match push(s, a) {
        Ok(s) => members(alloc, waiting, d, s, rest),
        Err(fault) => {
            drop(d);
            drop(waiting);
            Err(fault.into())
        }
    }
}
// What follows a member of a list in brackets.
#[tactic(auto, using(crate::proofs::Closing::list_goes, crate::proofs::Closing::list_ends, crate::proofs::Arriving::closed_within))]
fn members(
    alloc: Global,
    waiting: Waiting,
    d: Brackets,
    s: KeptAll,
    rest: &[Sign],
) -> Result<(State, &[Sign]), ReadFault>
    ensures reads { Reads (λ s. read_from s.0 s.1.now) result (onward (goal_of waiting) (all_waiting waiting) r.Atom (listed d (all_of s, rest.now))) }
    ensures less { IsLess (λ s. size s.0 s.1.now) result (32 * length rest.now + 16 * length (all_waiting waiting) + 17) }
{
    match next_at(rest) {
        Some(rest) => Ok((State::Before(waiting.with(Frame::Item(d, s))?), rest)),
        None => {
            let (a, rest) = close(alloc, d, s, rest)?;
            Ok((State::After(waiting, Rung::Atom, a), rest))
        }
    }
}

#[tactic(auto, using(crate::proofs::Closing::key_goes, crate::proofs::Closing::key_fails))]
fn key(waiting: Waiting, s: KeptAll, a: Kept, rest: &[Sign]) -> Result<(State, &[Sign]), ReadFault>
    ensures reads { Reads (λ s. read_from s.0 s.1.now) result (onward (goal_of waiting) (all_waiting waiting) r.Atom (turn (f.Key s) (kept_of a, rest.now))) }
    ensures less { IsLess (λ s. size s.0 s.1.now) result (32 * length rest.now + 16 * length (all_waiting waiting) + 17) }
{
    match mark_at(Mark::Colon, rest) {
        Some(rest) => Ok((State::Before(waiting.with(Frame::Value(s, a))?), rest)),
        None => {
            drop(s);
            drop(a);
            drop(waiting);
            Err(ReadFault::NoLine)
        }
    }
}

fn value(
    alloc: Global,
    waiting: Waiting,
    s: KeptAll,
    k: Kept,
    a: Kept,
    rest: &[Sign],
) -> Result<(State, &[Sign]), ReadFault>
    ensures reads { Reads (λ s. read_from s.0 s.1.now) result (onward (goal_of waiting) (all_waiting waiting) r.Atom (turn (f.Value s k) (kept_of a, rest.now))) }
    ensures less { IsLess (λ s. size s.0 s.1.now) result (32 * length rest.now + 16 * length (all_waiting waiting) + 17) }
{
    match push(s, k) {
        Ok(s) => pairs(alloc, waiting, push(s, a)?, rest),
        Err(fault) => {
            drop(a);
            drop(waiting);
            Err(fault.into())
        }
    }
}

// What follows a pair.
#[tactic(auto, using(crate::proofs::Closing::pairs_go, crate::proofs::Closing::pairs_end, crate::proofs::Arriving::pairs_within))]
fn pairs(
    alloc: Global,
    waiting: Waiting,
    s: KeptAll,
    rest: &[Sign],
) -> Result<(State, &[Sign]), ReadFault>
    ensures reads { Reads (λ s. read_from s.0 s.1.now) result (onward (goal_of waiting) (all_waiting waiting) r.Atom (closed_pairs (all_of s, rest.now))) }
    ensures less { IsLess (λ s. size s.0 s.1.now) result (32 * length rest.now + 16 * length (all_waiting waiting) + 17) }
{
    match next_at(rest) {
        Some(rest) => Ok((State::Before(waiting.with(Frame::Key(s))?), rest)),
        None => {
            let (a, rest) = close_pairs(alloc, s, rest)?;
            Ok((State::After(waiting, Rung::Atom, a), rest))
        }
    }
}

// ---- closing brackets

// What expressions in brackets are, up to the closing one.
fn close(
    alloc: Global,
    d: Brackets,
    s: KeptAll,
    tokens: &[Sign],
) -> Result<(Kept, &[Sign]), ReadFault>
    ensures { Gives (λ x. (kept_of x.0, x.1.now)) result (closed d (all_of s, tokens.now)) }
{
    match d {
        Brackets::Round => round(alloc, s, tokens),
        Brackets::Square => square(alloc, s, tokens),
        Brackets::Index(a) => index(alloc, a, s, tokens),
        Brackets::Call(a) => arguments(alloc, a, s, tokens),
    }
}

fn round(alloc: Global, s: KeptAll, tokens: &[Sign]) -> Result<(Kept, &[Sign]), ReadFault>
    ensures { Gives (λ x. (kept_of x.0, x.1.now)) result (closed b.Round (all_of s, tokens.now)) }
{
    let (a, rest) = end_of_exprs(alloc, s, tokens)?;
    match mark_at(Mark::Close, rest) {
        Some(rest) => Ok((a, rest)),
        None => {
            drop(a);
            Err(ReadFault::NoLine)
        }
    }
}

#[tactic(auto, using(crate::proofs::Closing::closes, crate::proofs::Closing::closes_not))]
fn square(alloc: Global, s: KeptAll, tokens: &[Sign]) -> Result<(Kept, &[Sign]), ReadFault>
    ensures { Gives (λ x. (kept_of x.0, x.1.now)) result (closed b.Square (all_of s, tokens.now)) }
{
    match mark_at(Mark::CloseSquare, past_comma(tokens)) {
        Some(rest) => Ok((list(alloc, s)?, rest)),
        None => {
            drop(s);
            Err(ReadFault::NoLine)
        }
    }
}

fn index(alloc: Global, a: Kept, s: KeptAll, tokens: &[Sign]) -> Result<(Kept, &[Sign]), ReadFault>
    ensures { Gives (λ x. (kept_of x.0, x.1.now)) result (closed (b.Index a) (all_of s, tokens.now)) }
{
    match end_of_exprs(alloc, s, tokens) {
        Ok((i, rest)) => indexed(alloc, a, i, rest),
        Err(fault) => {
            drop(a);
            Err(fault)
        }
    }
}

fn indexed(alloc: Global, a: Kept, i: Kept, tokens: &[Sign]) -> Result<(Kept, &[Sign]), ReadFault>
    ensures { Gives (λ x. (kept_of x.0, x.1.now)) result (indexed (kept_of a) (kept_of i, tokens.now)) }
{
    match mark_at(Mark::CloseSquare, tokens) {
        Some(rest) => Ok((item(alloc, a, i)?, rest)),
        None => {
            drop(a);
            drop(i);
            Err(ReadFault::NoLine)
        }
    }
}

#[tactic(auto, using(crate::proofs::Closing::closes, crate::proofs::Closing::closes_not))]
fn arguments(
    alloc: Global,
    a: Kept,
    s: KeptAll,
    tokens: &[Sign],
) -> Result<(Kept, &[Sign]), ReadFault>
    ensures { Gives (λ x. (kept_of x.0, x.1.now)) result (closed (b.Call a) (all_of s, tokens.now)) }
{
    match mark_at(Mark::Close, past_comma(tokens)) {
        Some(rest) => Ok((call(alloc, a, s)?, rest)),
        None => {
            drop(a);
            drop(s);
            Err(ReadFault::NoLine)
        }
    }
}

// What keys and values are, up to the closing bracket.
#[tactic(auto, using(crate::proofs::Closing::closes, crate::proofs::Closing::closes_not))]
fn close_pairs(alloc: Global, s: KeptAll, tokens: &[Sign]) -> Result<(Kept, &[Sign]), ReadFault>
    ensures { Gives (λ x. (kept_of x.0, x.1.now)) result (pairs_ended (all_of s, tokens.now)) }
{
    match mark_at(Mark::CloseCurly, past_comma(tokens)) {
        Some(rest) => Ok((dict(alloc, s)?, rest)),
        None => {
            drop(s);
            Err(ReadFault::NoLine)
        }
    }
}
