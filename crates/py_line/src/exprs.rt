// Lists of expressions, parameters and targets.
ghost use Rattle.std.specs.Prelude.{◌≡◌, [], ◌∷◌, ◌++◌, IfOk};
ghost use Rattle.py_grammar.specs.Grammar.{Expr};
ghost use Rattle.py_grammar.specs.Kept.{is_none_kept};
ghost use Rattle.py_grammar.specs.LineReading.{as_target, more_places, places, places_turn, targets};
ghost use Rattle.py_grammar.specs.Reading.{distinct_params, end_of_exprs, exprs, if_mark, items, items_turn, mark_at, more_items, more_params, param_onto, params, plain_param, rest_of_params};
ghost use Rattle.py_line.specs.Full.{full};
ghost use Rattle.py_line.specs.Gives.{Gives};
ghost use Rattle.py_line.specs.Views.{all_of, kept_of, params_of};
ghost use Rattle.py_line.specs.Waiting.{past_comma};

use crate::at::{begins_name, mark_at, name_at, next_at, next_name_at};
use crate::fault::ReadFault;
use crate::kept::{Kept, KeptAll, Parameters};
use crate::made::{alone, no_params, no_trees, push, tuple, with_default};
use crate::phrase::{expr, primary};
use crate::targets::{is_kept_target, kept_target};
use crate::words::names_distinct;
use flow_base::{NoMemory, PyText};
use py_grammar::{Mark, Sign};
use std::alloc::Global;

/// The signs after a mark, which has to stand first.
pub(crate) fn expect(k: Mark, tokens: &[Sign]) -> Result<&[Sign], ReadFault>
    ensures { Gives (λ rest. rest.now) result (mark_at k tokens.now) }
{
    match mark_at(k, tokens) {
        Some(rest) => Ok(rest),
        None => Err(ReadFault::NoLine),
    }
}

/// The signs after a comma, if one stands first.
pub(crate) fn past_comma(tokens: &[Sign]) -> &[Sign]
    ensures { result.now ≡ past_comma tokens.now }
{
    match mark_at(Mark::Comma, tokens) {
        Some(rest) => rest,
        None => tokens,
    }
}

// ---- lists

/// Expressions as one: one alone is itself, unless a comma follows it.
pub(crate) fn end_of_exprs(
    alloc: Global,
    all: KeptAll,
    rest: &[Sign],
) -> Result<(Kept, &[Sign]), ReadFault>
    ensures { Gives (λ x. (kept_of x.0, x.1.now)) result (end_of_exprs 60 (all_of all, rest.now)) }
{
    match mark_at(Mark::Comma, rest) {
        Some(after) => Ok((tuple(alloc, all)?, after)),
        None => Ok((alone(alloc, all)?, rest)),
    }
}

#[tactic(auto, unfolding(py_grammar::specs::Reading::items_turn))]
fn item(alloc: Global, all: KeptAll, tokens: &[Sign]) -> Result<(KeptAll, &[Sign]), ReadFault>
    ensures { Gives (λ x. (all_of x.0, x.1.now)) result (items_turn 60 (full 60) (all_of all) tt tokens.now) }
{
    let (a, rest) = expr(alloc, tokens)?;
    Ok((push(all, a)?, rest))
}

fn more_items(
    alloc: Global,
    first: KeptAll,
    tokens: &[Sign],
) -> Result<(KeptAll, &[Sign]), ReadFault>
    ensures { Gives (λ x. (all_of x.0, x.1.now)) result (more_items 60 (full 60) (all_of first) tokens.now) }
{
    let mut all = first;
    let mut rest = tokens;
    while let Some(after) = next_at(rest) {
        let (longer, after) = item(alloc, all, after)?;
        all = longer;
        rest = after;
    }
    Ok((all, rest))
}

/// Expressions with commas between them.
#[tactic(auto, unfolding(py_grammar::specs::Reading::items))]
pub(crate) fn items(alloc: Global, tokens: &[Sign]) -> Result<(KeptAll, &[Sign]), ReadFault>
    ensures { Gives (λ x. (all_of x.0, x.1.now)) result (items 60 (full 60) tokens.now) }
{
    let (a, rest) = expr(alloc, tokens)?;
    let first = push(no_trees(alloc), a)?;
    more_items(alloc, first, rest)
}

/// Expressions that are one: several are a tuple.
#[tactic(auto, unfolding(py_grammar::specs::Reading::exprs))]
pub(crate) fn exprs(alloc: Global, tokens: &[Sign]) -> Result<(Kept, &[Sign]), ReadFault>
    ensures { Gives (λ x. (kept_of x.0, x.1.now)) result (exprs 60 (full 60) tokens.now) }
{
    let (all, rest) = items(alloc, tokens)?;
    end_of_exprs(alloc, all, rest)
}

// ---- parameters

/// Whether there are no expressions.
#[tactic(auto, using(crate::proofs::LineEnds::none_of))]
pub(crate) fn is_none(all: &KeptAll) -> bool
    ensures { result ≡ is_none_kept (all_of all.now) }
{
    match all {
        KeptAll::All(trees, _) => trees.as_slice().is_empty(),
        KeptAll::OneDeep(_) | KeptAll::SomeDeep(_) => false,
    }
}

/// One more name without a default.
pub(crate) fn with_name(s: Parameters, x: PyText) -> Result<Parameters, NoMemory>
    ensures { IfOk result (λ t. params_of t ≡ ((params_of s).0 ++ x ∷ [], (params_of s).1)) }
{
    let Parameters {
        mut names,
        defaults,
    } = s;
    names.push(x)?;
    Ok(Parameters { names, defaults })
}

/// A parameter without a default after others, none of which has one.
pub(crate) fn plain_param(
    s: Parameters,
    x: PyText,
    rest: &[Sign],
) -> Result<(Parameters, &[Sign]), ReadFault>
    ensures { Gives (λ x. (params_of x.0, x.1.now)) result (plain_param (params_of s) x rest.now) }
{
    if !is_none(&s.defaults) {
        return Err(ReadFault::NoLine);
    }
    Ok((with_name(s, x)?, rest))
}

fn default_value(alloc: Global, tokens: &[Sign]) -> Result<(Kept, &[Sign]), ReadFault>
    ensures { Gives (λ x. (kept_of x.0, x.1.now)) result ((full 60).tree Expr tokens.now) }
{
    expr(alloc, tokens)
}

#[tactic(auto, unfolding(py_grammar::specs::Reading::param_onto))]
fn param(alloc: Global, s: Parameters, tokens: &[Sign]) -> Result<(Parameters, &[Sign]), ReadFault>
    ensures { Gives (λ x. (params_of x.0, x.1.now)) result (param_onto 60 (full 60) (params_of s) tokens.now) }
{
    let Some((x, rest)) = name_at(tokens) else {
        return Err(ReadFault::NoLine);
    };
    let Some(after) = mark_at(Mark::Equals, rest) else {
        return plain_param(s, x.copy()?, rest);
    };
    let (a, rest) = default_value(alloc, after)?;
    Ok((with_default(s, x.copy()?, a)?, rest))
}

fn more_params(
    alloc: Global,
    first: Parameters,
    tokens: &[Sign],
) -> Result<(Parameters, &[Sign]), ReadFault>
    ensures { Gives (λ x. (params_of x.0, x.1.now)) result (more_params 60 (full 60) (params_of first) tokens.now) }
{
    let mut s = first;
    let mut rest = tokens;
    while let Some(after) = next_name_at(rest) {
        let (longer, after) = param(alloc, s, after)?;
        s = longer;
        rest = after;
    }
    Ok((s, rest))
}

fn rest_of_params(
    alloc: Global,
    s: Parameters,
    tokens: &[Sign],
) -> Result<(Parameters, &[Sign]), ReadFault>
    ensures { Gives (λ x. (params_of x.0, x.1.now)) result (rest_of_params 60 (full 60) (params_of s, tokens.now)) }
{
    let (s, rest) = more_params(alloc, s, tokens)?;
    match mark_at(Mark::Comma, rest) {
        Some(after) => Ok((s, after)),
        None => Ok((s, rest)),
    }
}

/// Parameters with commas between them, the last of which may have defaults.
#[tactic(auto, unfolding(py_grammar::specs::Reading::params))]
pub(crate) fn params(alloc: Global, tokens: &[Sign]) -> Result<(Parameters, &[Sign]), ReadFault>
    ensures { Gives (λ x. (params_of x.0, x.1.now)) result (params 60 (full 60) tokens.now) }
{
    if !begins_name(tokens) {
        return Ok((no_params(alloc), tokens));
    }
    let (s, rest) = param(alloc, no_params(alloc), tokens)?;
    rest_of_params(alloc, s, rest)
}

/// Parameters with different names.
pub(crate) fn distinct_params(
    alloc: Global,
    s: Parameters,
    rest: &[Sign],
) -> Result<(Parameters, &[Sign]), ReadFault>
    ensures { Gives (λ x. (params_of x.0, x.1.now)) result (distinct_params (params_of s, rest.now)) }
{
    if !names_distinct(alloc, s.names.as_slice())? {
        return Err(ReadFault::NoLine);
    }
    Ok((s, rest))
}

// ---- targets

#[tactic(auto, unfolding(py_grammar::specs::LineReading::places_turn))]
fn place(alloc: Global, all: KeptAll, tokens: &[Sign]) -> Result<(KeptAll, &[Sign]), ReadFault>
    ensures { Gives (λ x. (all_of x.0, x.1.now)) result (places_turn 60 (full 60) (all_of all) tt tokens.now) }
{
    let (a, rest) = primary(alloc, tokens)?;
    Ok((push(all, a)?, rest))
}

fn more_places(
    alloc: Global,
    first: KeptAll,
    tokens: &[Sign],
) -> Result<(KeptAll, &[Sign]), ReadFault>
    ensures { Gives (λ x. (all_of x.0, x.1.now)) result (more_places 60 (full 60) (all_of first) tokens.now) }
{
    let mut all = first;
    let mut rest = tokens;
    while let Some(after) = next_at(rest) {
        let (longer, after) = place(alloc, all, after)?;
        all = longer;
        rest = after;
    }
    Ok((all, rest))
}

#[tactic(auto, unfolding(py_grammar::specs::LineReading::places))]
fn places(alloc: Global, tokens: &[Sign]) -> Result<(Kept, &[Sign]), ReadFault>
    ensures { Gives (λ x. (kept_of x.0, x.1.now)) result (places 60 (full 60) tokens.now) }
{
    let (a, rest) = primary(alloc, tokens)?;
    let first = push(no_trees(alloc), a)?;
    let (all, rest) = more_places(alloc, first, rest)?;
    end_of_exprs(alloc, all, rest)
}

fn as_target(alloc: Global, a: Kept, rest: &[Sign]) -> Result<(Kept, &[Sign]), ReadFault>
    ensures { Gives (λ x. (kept_of x.0, x.1.now)) result (as_target (kept_of a, rest.now)) }
{
    if !is_kept_target(&a) {
        return Err(ReadFault::NoLine);
    }
    Ok((kept_target(alloc, a)?, rest))
}

/// Targets that are one: several are a tuple.
#[tactic(auto, unfolding(py_grammar::specs::LineReading::targets))]
pub(crate) fn targets(alloc: Global, tokens: &[Sign]) -> Result<(Kept, &[Sign]), ReadFault>
    ensures { Gives (λ x. (kept_of x.0, x.1.now)) result (targets 60 (full 60) tokens.now) }
{
    let (a, rest) = places(alloc, tokens)?;
    as_target(alloc, a, rest)
}
