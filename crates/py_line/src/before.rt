// What stands before an operand, operands, and the parameters of a lambda.
ghost use Rattle.std.specs.Prelude.{◌≡◌, ◌+◌, ◌*◌, IfOk, Some, length, option_map};
ghost use Rattle.py_ast.specs.Tree as t;
ghost use Rattle.py_grammar.specs.Kept.{leaf};
ghost use Rattle.py_grammar.specs.Reading.{is_distinct, lambda, lambda_body, literals_leaf, marked_atom, more_literals};
ghost use Rattle.py_grammar.specs.declared.mark.Mark.TheVariants as m;
ghost use Rattle.py_line.specs.Full.{full};
ghost use Rattle.py_line.specs.States.{IsLess, Reads, all_waiting, goal_of, read_from, size};
ghost use Rattle.py_line.specs.Views.{kept_of, params_of};
ghost use Rattle.py_line.specs.Waiting.{after, before, between, lambda_in, not_in, onward, opening_of, param_after, phrase, plain_after, sign_in};
ghost use Rattle.py_line.specs.declared.frame.Rung.TheVariants as r;

use crate::at::{begins, begins_name, mark_at, name_at, next_name_at, sign_at};
use crate::exprs::{expect, is_none, past_comma, with_name};
use crate::fault::ReadFault;
use crate::frame::{Brackets, Frame, Opening, Rung};
use crate::kept::{Kept, Parameters};
use crate::made::{dict, leaf, list, no_params, no_trees};
use crate::state::{State, Waiting, rank};
use crate::words::{more_literals, names_distinct};
use flow_base::{NoMemory, PyText, Shared};
use py_ast::{Expr, SignOp};
use py_grammar::{Mark, Sign};
use std::alloc::Global;

/// What an operand begins with.
#[tactic(auto, using(crate::proofs::Beginning::lambda_first, crate::proofs::Beginning::not_first, crate::proofs::Beginning::sign_first, crate::proofs::Beginning::operand_first))]
pub(crate) fn before(
    alloc: Global,
    waiting: Waiting,
    tokens: &[Sign],
) -> Result<(State, &[Sign]), ReadFault>
    ensures reads { Reads (λ s. read_from s.0 s.1.now) result (before (goal_of waiting) (all_waiting waiting) tokens.now) }
    ensures less { IsLess (λ s. size s.0 s.1.now) result (32 * length tokens.now + 16 * length (all_waiting waiting) + 12) }
{
    let wanted = waiting.wanted();
    match lambda_in(wanted, tokens) {
        Some(rest) => lambda(alloc, waiting, rest),
        None => match not_in(wanted, tokens) {
            Some(rest) => Ok((State::Before(waiting.with(Frame::Not)?), rest)),
            None => match sign_in(wanted, tokens) {
                Some((o, rest)) => Ok((State::Before(waiting.with(Frame::Sign(o))?), rest)),
                None => operand(alloc, waiting, tokens),
            },
        },
    }
}

fn lambda_in(wanted: Rung, tokens: &[Sign]) -> Option<&[Sign]>
    ensures { option_map (λ rest. rest.now) result ≡ lambda_in wanted tokens.now }
{
    if rank(wanted) < 10 {
        return None;
    }
    mark_at(Mark::Lambda, tokens)
}

fn not_in(wanted: Rung, tokens: &[Sign]) -> Option<&[Sign]>
    ensures { option_map (λ rest. rest.now) result ≡ not_in wanted tokens.now }
{
    if rank(wanted) < 7 {
        return None;
    }
    mark_at(Mark::Not, tokens)
}

fn sign_in(wanted: Rung, tokens: &[Sign]) -> Option<(SignOp, &[Sign])>
    ensures { option_map (λ o. (o.0, o.1.now)) result ≡ sign_in wanted tokens.now }
{
    if rank(wanted) < 3 {
        return None;
    }
    sign_at(tokens)
}

// ---- operands

#[tactic(auto, unfolding(crate::specs::Waiting::phrase, py_grammar::specs::Reading::atom))]
fn operand(alloc: Global, waiting: Waiting, tokens: &[Sign]) -> Result<(State, &[Sign]), ReadFault>
    ensures reads { Reads (λ s. read_from s.0 s.1.now) result (onward (goal_of waiting) (all_waiting waiting) r.Atom (phrase r.Atom tokens.now)) }
    ensures less { IsLess (λ s. size s.0 s.1.now) result (32 * length tokens.now + 16 * length (all_waiting waiting) + 12) }
{
    match tokens {
        [Sign::Name(x), rest @ ..] => {
            let a = leaf(Expr::Name(0, x.copy()?));
            Ok((State::After(waiting, Rung::Atom, a), rest))
        }
        [Sign::Number(n), rest @ ..] => {
            let a = leaf(Expr::Number(0, *n));
            Ok((State::After(waiting, Rung::Atom, a), rest))
        }
        [Sign::Text(x), rest @ ..] => text(alloc, waiting, x, rest),
        [Sign::Mark(k), rest @ ..] => marked(alloc, waiting, *k, rest),
        _ => Err(ReadFault::NoLine),
    }
}

fn text<'a>(
    alloc: Global,
    waiting: Waiting,
    first: &PyText,
    tokens: &'a [Sign],
) -> Result<(State, &'a [Sign]), ReadFault>
    ensures reads { Reads (λ s. read_from s.0 s.1.now) result (onward (goal_of waiting) (all_waiting waiting) r.Atom (Some (literals_leaf (more_literals first.now tokens.now)))) }
    ensures less { IsLess (λ s. size s.0 s.1.now) result (32 * length tokens.now + 16 * length (all_waiting waiting) + 12) }
{
    let (text, rest) = more_literals(alloc, first, tokens)?;
    Ok((
        State::After(waiting, Rung::Atom, leaf(Expr::Text(0, text))),
        rest,
    ))
}

#[tactic(auto, using(crate::proofs::Beginning::nil_here, crate::proofs::Beginning::true_here, crate::proofs::Beginning::false_here, crate::proofs::Beginning::round_here, crate::proofs::Beginning::square_here, crate::proofs::Beginning::curly_here, crate::proofs::Beginning::no_opening))]
fn marked(
    alloc: Global,
    waiting: Waiting,
    k: Mark,
    rest: &[Sign],
) -> Result<(State, &[Sign]), ReadFault>
    ensures reads { Reads (λ s. read_from s.0 s.1.now) result (onward (goal_of waiting) (all_waiting waiting) r.Atom (marked_atom 60 (full 60) k rest.now)) }
    ensures less { IsLess (λ s. size s.0 s.1.now) result (32 * length rest.now + 16 * length (all_waiting waiting) + 32) }
{
    match opening_of(k) {
        Some(Opening::Nil) => Ok((State::After(waiting, Rung::Atom, nil()), rest)),
        Some(Opening::True) => Ok((State::After(waiting, Rung::Atom, truth(true)), rest)),
        Some(Opening::False) => Ok((State::After(waiting, Rung::Atom, truth(false)), rest)),
        Some(Opening::Round) => round(alloc, waiting, rest),
        Some(Opening::Square) => square(alloc, waiting, rest),
        Some(Opening::Curly) => curly(alloc, waiting, rest),
        None => Err(ReadFault::NoLine),
    }
}

fn nil() -> Kept
    ensures { kept_of result ≡ leaf t.nil }
{
    leaf(Expr::Nil(0))
}

fn truth(b: bool) -> Kept
    ensures { kept_of result ≡ leaf (t.truth b) }
{
    leaf(Expr::Truth(0, b))
}

fn opening_of(k: Mark) -> Option<Opening>
    ensures { result ≡ opening_of k }
{
    match k {
        Mark::None => Some(Opening::Nil),
        Mark::True => Some(Opening::True),
        Mark::False => Some(Opening::False),
        Mark::Open => Some(Opening::Round),
        Mark::OpenSquare => Some(Opening::Square),
        Mark::OpenCurly => Some(Opening::Curly),
        _ => None,
    }
}

#[tactic(auto, using(crate::proofs::Closing::round_after, crate::proofs::Closing::round_empty_after))]
fn round(alloc: Global, waiting: Waiting, tokens: &[Sign]) -> Result<(State, &[Sign]), ReadFault>
    ensures reads { Reads (λ s. read_from s.0 s.1.now) result (onward (goal_of waiting) (all_waiting waiting) r.Atom (marked_atom 60 (full 60) m.Open tokens.now)) }
    ensures less { IsLess (λ s. size s.0 s.1.now) result (32 * length tokens.now + 16 * length (all_waiting waiting) + 32) }
{
    match mark_at(Mark::Close, tokens) {
        Some(rest) => empty_tuple(alloc, waiting, rest),
        None => {
            let frame = Frame::Item(Brackets::Round, no_trees(alloc));
            Ok((State::Before(waiting.with(frame)?), tokens))
        }
    }
}

fn empty_tuple(
    alloc: Global,
    waiting: Waiting,
    rest: &[Sign],
) -> Result<(State, &[Sign]), ReadFault>
    ensures reads { Reads (λ s. read_from s.0 s.1.now) result (after (goal_of waiting) (all_waiting waiting) r.Atom (leaf (t.tuple t.none), rest.now)) }
    ensures less { IsLess (λ s. size s.0 s.1.now) result (32 * length rest.now + 16 * length (all_waiting waiting) + 32) }
{
    let none = Shared::from_vec(alloc, Vec::new(alloc))?;
    Ok((
        State::After(waiting, Rung::Atom, leaf(Expr::Tuple(0, none))),
        rest,
    ))
}

#[tactic(auto, using(crate::proofs::Closing::square_after, crate::proofs::Closing::square_empty_after, crate::proofs::Closing::square_fails))]
fn square(alloc: Global, waiting: Waiting, tokens: &[Sign]) -> Result<(State, &[Sign]), ReadFault>
    ensures reads { Reads (λ s. read_from s.0 s.1.now) result (onward (goal_of waiting) (all_waiting waiting) r.Atom (marked_atom 60 (full 60) m.OpenSquare tokens.now)) }
    ensures less { IsLess (λ s. size s.0 s.1.now) result (32 * length tokens.now + 16 * length (all_waiting waiting) + 32) }
{
    let none = no_trees(alloc);
    if begins(tokens) {
        return Ok((
            State::Before(waiting.with(Frame::Item(Brackets::Square, none))?),
            tokens,
        ));
    }
    let rest = expect(Mark::CloseSquare, tokens)?;
    Ok((State::After(waiting, Rung::Atom, list(alloc, none)?), rest))
}

#[tactic(auto, using(crate::proofs::Closing::curly_after, crate::proofs::Closing::curly_empty_after, crate::proofs::Closing::curly_fails))]
fn curly(alloc: Global, waiting: Waiting, tokens: &[Sign]) -> Result<(State, &[Sign]), ReadFault>
    ensures reads { Reads (λ s. read_from s.0 s.1.now) result (onward (goal_of waiting) (all_waiting waiting) r.Atom (marked_atom 60 (full 60) m.OpenCurly tokens.now)) }
    ensures less { IsLess (λ s. size s.0 s.1.now) result (32 * length tokens.now + 16 * length (all_waiting waiting) + 32) }
{
    let none = no_trees(alloc);
    if begins(tokens) {
        return Ok((State::Before(waiting.with(Frame::Key(none))?), tokens));
    }
    let rest = expect(Mark::CloseCurly, tokens)?;
    Ok((State::After(waiting, Rung::Atom, dict(alloc, none)?), rest))
}

// ---- lambdas

#[tactic(auto, using(crate::proofs::Beginning::params_first, crate::proofs::Beginning::no_params_first))]
fn lambda(alloc: Global, waiting: Waiting, tokens: &[Sign]) -> Result<(State, &[Sign]), ReadFault>
    ensures reads { Reads (λ s. read_from s.0 s.1.now) result (onward (goal_of waiting) (all_waiting waiting) r.Expr (lambda 60 (full 60) tokens.now)) }
    ensures less { IsLess (λ s. size s.0 s.1.now) result (32 * length tokens.now + 16 * length (all_waiting waiting) + 12) }
{
    let none = no_params(alloc);
    if begins_name(tokens) {
        return parameter(waiting, none, tokens);
    }
    body(alloc, waiting, none, tokens)
}

/// What follows parameters of a lambda.
#[tactic(auto, using(crate::proofs::Beginning::param_more, crate::proofs::Beginning::params_end))]
pub(crate) fn between(
    alloc: Global,
    waiting: Waiting,
    s: Parameters,
    tokens: &[Sign],
) -> Result<(State, &[Sign]), ReadFault>
    ensures reads { Reads (λ s. read_from s.0 s.1.now) result (between (goal_of waiting) (all_waiting waiting) (params_of s, tokens.now)) }
    ensures less { IsLess (λ s. size s.0 s.1.now) result (32 * length tokens.now + 16 * length (all_waiting waiting) + 12) }
{
    match next_name_at(tokens) {
        Some(rest) => parameter(waiting, s, rest),
        None => body(alloc, waiting, s, past_comma(tokens)),
    }
}

#[tactic(auto, using(crate::proofs::Beginning::default_goes, crate::proofs::Beginning::plain_next, crate::proofs::Beginning::nameless))]
fn parameter(
    waiting: Waiting,
    s: Parameters,
    tokens: &[Sign],
) -> Result<(State, &[Sign]), ReadFault>
    ensures reads { Reads (λ s. read_from s.0 s.1.now) result (onward (goal_of waiting) (all_waiting waiting) r.Expr (param_after (params_of s) tokens.now)) }
    ensures less { IsLess (λ s. size s.0 s.1.now) result (32 * length tokens.now + 16 * length (all_waiting waiting) + 12) }
{
    let Some((x, rest)) = name_at(tokens) else {
        return Err(ReadFault::NoLine);
    };
    match mark_at(Mark::Equals, rest) {
        Some(more) => Ok((
            State::Before(waiting.with(Frame::Default(s, x.copy()?))?),
            more,
        )),
        None => plain(waiting, s, x.copy()?, rest),
    }
}

// A parameter without a default.
#[tactic(auto, using(crate::proofs::Beginning::plain_goes, crate::proofs::Beginning::plain_fails))]
fn plain(
    waiting: Waiting,
    s: Parameters,
    x: PyText,
    rest: &[Sign],
) -> Result<(State, &[Sign]), ReadFault>
    ensures reads { Reads (λ s. read_from s.0 s.1.now) result (onward (goal_of waiting) (all_waiting waiting) r.Expr (plain_after (params_of s) x rest.now)) }
    ensures less { IsLess (λ s. size s.0 s.1.now) result (32 * length rest.now + 16 * length (all_waiting waiting) + 16) }
{
    if !is_none(&s.defaults) {
        return Err(ReadFault::NoLine);
    }
    Ok((State::Between(waiting, with_name(s, x)?), rest))
}

#[tactic(auto, using(crate::proofs::Beginning::body_goes, crate::proofs::Beginning::body_fails, crate::proofs::Beginning::no_colon))]
fn body(
    alloc: Global,
    waiting: Waiting,
    s: Parameters,
    tokens: &[Sign],
) -> Result<(State, &[Sign]), ReadFault>
    ensures reads { Reads (λ s. read_from s.0 s.1.now) result (onward (goal_of waiting) (all_waiting waiting) r.Expr (lambda_body 60 (full 60) (params_of s, tokens.now))) }
    ensures less { IsLess (λ s. size s.0 s.1.now) result (32 * length tokens.now + 16 * length (all_waiting waiting) + 12) }
{
    if !are_distinct(alloc, &s)? {
        return Err(ReadFault::NoLine);
    }
    match mark_at(Mark::Colon, tokens) {
        Some(rest) => Ok((State::Before(waiting.with(Frame::Lambda(s))?), rest)),
        None => Err(ReadFault::NoLine),
    }
}

// Whether parameters have different names.
fn are_distinct(alloc: Global, s: &Parameters) -> Result<bool, NoMemory>
    ensures { IfOk result (λ distinct. distinct ≡ is_distinct (params_of s.now).0) }
{
    names_distinct(alloc, s.names.as_slice())
}
