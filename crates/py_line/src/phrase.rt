// Expressions.
ghost use Rattle.std.specs.Prelude.{◌≡◌, ◌+◌, ◌-◌, ◌*◌, length};
ghost use Rattle.py_grammar.specs.Reading.{expr, primary};
ghost use Rattle.py_line.specs.Full.{full};
ghost use Rattle.py_line.specs.Gives.{Gives};
ghost use Rattle.py_line.specs.States.{IsLess, Reads, all_waiting, goal_of, read_from, read_on, size, size_on};
ghost use Rattle.py_line.specs.Views.{kept_of};
ghost use Rattle.py_line.specs.Waiting.{after, gives, onward, phrase, rank, turn};

use crate::after::after;
use crate::arrive::arrive;
use crate::before::{before, between};
use crate::fault::ReadFault;
use crate::frame::{Frame, Rung};
use crate::kept::Kept;
use crate::state::{State, Waiting, rank};
use py_grammar::Sign;
use std::alloc::Global;

/// An `expr` that stands first, and the signs after it.
#[tactic(auto, unfolding(crate::specs::Waiting::phrase))]
pub(crate) fn expr(alloc: Global, tokens: &[Sign]) -> Result<(Kept, &[Sign]), ReadFault>
    ensures { Gives (λ x. (kept_of x.0, x.1.now)) result (expr 60 (full 60) tokens.now) }
{
    phrase(alloc, Rung::Expr, tokens)
}

/// A `primary` that stands first, and the signs after it.
#[tactic(auto, unfolding(crate::specs::Waiting::phrase))]
pub(crate) fn primary(alloc: Global, tokens: &[Sign]) -> Result<(Kept, &[Sign]), ReadFault>
    ensures { Gives (λ x. (kept_of x.0, x.1.now)) result (primary 60 (full 60) tokens.now) }
{
    phrase(alloc, Rung::Primary, tokens)
}

// A phrase of a rung that stands first, and the signs after it. It is read by a loop over what waits, so that neither brackets nor
// operators make it recurse.
#[tactic(auto, using(crate::proofs::Arriving::whole_begins))]
fn phrase(alloc: Global, goal: Rung, tokens: &[Sign]) -> Result<(Kept, &[Sign]), ReadFault>
    ensures { Gives (λ x. (kept_of x.0, x.1.now)) result (phrase goal tokens.now) }
{
    let mut state = State::Before(Waiting::new(alloc, goal));
    let mut rest = tokens;
    'read: loop {
        let (step, left) = go_on(alloc, state, rest)?;
        rest = left;
        match step {
            Step::More(next) => state = next,
            Step::Done(a) => return Ok((a, rest)),
        }
    }
}

/// One step: to another state, or to the end.
#[derive(Drop)]
pub(crate) enum Step {
    More(State),
    Done(Kept),
}

fn go_on(alloc: Global, state: State, rest: &[Sign]) -> Result<(Step, &[Sign]), ReadFault>
    ensures reads { Reads (λ s. read_on s.0 s.1.now) result (read_from state rest.now) }
    ensures less { IsLess (λ s. size_on s.0 s.1.now) result (size state rest.now) }
{
    match state {
        State::Before(waiting) => {
            let (state, rest) = before(alloc, waiting, rest)?;
            Ok((Step::More(state), rest))
        }
        State::Between(waiting, s) => {
            let (state, rest) = between(alloc, waiting, s, rest)?;
            Ok((Step::More(state), rest))
        }
        State::After(waiting, rung, a) => onward(alloc, waiting, rung, a, rest),
    }
}

fn onward(
    alloc: Global,
    waiting: Waiting,
    rung: Rung,
    a: Kept,
    rest: &[Sign],
) -> Result<(Step, &[Sign]), ReadFault>
    ensures reads { Reads (λ s. read_on s.0 s.1.now) result (after (goal_of waiting) (all_waiting waiting) rung (kept_of a, rest.now)) }
    ensures less { IsLess (λ s. size_on s.0 s.1.now) result (32 * length rest.now + 16 * length (all_waiting waiting) + (11 - rank rung)) }
{
    let wanted = waiting.wanted();
    if rank(rung) < rank(wanted) {
        let (state, rest) = after(alloc, waiting, rung, a, rest)?;
        return Ok((Step::More(state), rest));
    }
    let (outer, last) = waiting.split();
    match last {
        Some(frame) => settle(alloc, outer, frame, a, rest),
        None => Ok((Step::Done(a), rest)),
    }
}

fn settle(
    alloc: Global,
    waiting: Waiting,
    frame: Frame,
    a: Kept,
    rest: &[Sign],
) -> Result<(Step, &[Sign]), ReadFault>
    ensures reads { Reads (λ s. read_on s.0 s.1.now) result (onward (goal_of waiting) (all_waiting waiting) (gives frame) (turn frame (kept_of a, rest.now))) }
    ensures less { IsLess (λ s. size_on s.0 s.1.now) result (32 * length rest.now + 16 * length (all_waiting waiting) + 17) }
{
    let (state, rest) = arrive(alloc, waiting, frame, a, rest)?;
    Ok((Step::More(state), rest))
}
