// What is made of parts that were read. The numbers of the nodes are 0.
ghost use Rattle.std.specs.Prelude.{◌≡◌, ◌+◌, ◌&&◌, IfOk, None, length, option_map};
ghost use Rattle.py_ast.specs.Tree as t;
ghost use Rattle.py_ast.specs.View.{view, views};
ghost use Rattle.py_grammar.specs.Kept as k;
ghost use Rattle.py_grammar.specs.Reading as reading;
ghost use Rattle.py_line.specs.Parts as parts;
ghost use Rattle.py_line.specs.Views.{all_of, chained_of, kept_of, params_of, shape_of};

use crate::kept::{Chained, Kept, KeptAll, Parameters, Shape};
use crate::targets::{are_targets, is_kept_target, is_row, may_be_target};
use flow_base::{Held, NoMemory, PyText, Shared};
use py_ast::{BinaryOp, CompareOp, Expr, Exprs, SignOp};
use std::alloc::Global;

/// A name or a literal.
pub(crate) fn leaf(e: Expr) -> Kept
    ensures { kept_of result ≡ k.leaf (view e) }
{
    Kept::Whole(e, 1)
}

// ---- parts

// The tree that is kept, and its depth.
fn tree(alloc: Global, a: Kept) -> Result<Option<(Held<Expr>, u32)>, NoMemory>
    ensures { IfOk result (λ x. option_map (λ p. (view p.0, p.1)) x ≡ parts.tree (kept_of a)) }
{
    match a {
        Kept::Whole(e, d) => Ok(Some((Held::new(alloc, e)?, d))),
        Kept::Deep(_) => Ok(None),
    }
}

// The trees that are kept, and the depth of the deepest.
fn trees(alloc: Global, all: KeptAll) -> Result<Option<(Exprs, u32)>, NoMemory>
    ensures { IfOk result (λ x. option_map (λ p. (views p.0, p.1)) x ≡ parts.trees (all_of all)) }
{
    match all {
        KeptAll::All(es, d) => Ok(Some((Shared::from_vec(alloc, es)?, d))),
        KeptAll::OneDeep(_) | KeptAll::SomeDeep(_) => Ok(None),
    }
}

// How deep a tree is whose deepest part is so deep, where it is kept.
fn above(d: u32) -> Option<u32>
    ensures { result ≡ parts.within (1 + d) }
{
    if d < 60 { Some(d + 1) } else { None }
}

// One part, or more, and how deep what is made of them is, where it is kept.

fn one(alloc: Global, a: Kept) -> Result<Option<(Held<Expr>, u32)>, NoMemory>
    ensures { IfOk result (λ x. option_map (λ p. (view p.0, p.1)) x ≡ parts.above (parts.tree (kept_of a))) }
{
    match tree(alloc, a)? {
        Some((a, d)) => match above(d) {
            Some(d) => Ok(Some((a, d))),
            None => Ok(None),
        },
        None => Ok(None),
    }
}

fn two(alloc: Global, a: Kept, b: Kept) -> Result<Option<(Held<Expr>, Held<Expr>, u32)>, NoMemory>
    ensures { IfOk result (λ x. option_map (λ p. ((view p.0, view p.1), p.2)) x ≡ parts.above (parts.both (parts.tree (kept_of a)) (parts.tree (kept_of b)))) }
{
    let a = tree(alloc, a)?;
    let b = tree(alloc, b)?;
    Ok(pair(a, b))
}

fn pair(
    a: Option<(Held<Expr>, u32)>,
    b: Option<(Held<Expr>, u32)>,
) -> Option<(Held<Expr>, Held<Expr>, u32)>
    ensures { option_map (λ p. ((view p.0, view p.1), p.2)) result
        ≡ parts.above (parts.both (option_map (λ p. (view p.0, p.1)) a) (option_map (λ p. (view p.0, p.1)) b)) }
{
    match a {
        Some((a, d)) => match b {
            Some((b, e)) => match above(d.max(e)) {
                Some(d) => Some((a, b, d)),
                None => None,
            },
            None => None,
        },
        None => None,
    }
}

fn three(
    alloc: Global,
    a: Kept,
    b: Kept,
    c: Kept,
) -> Result<Option<(Held<Expr>, Held<Expr>, Held<Expr>, u32)>, NoMemory>
    ensures { IfOk result (λ x. option_map (λ p. ((view p.0, (view p.1, view p.2)), p.3)) x
        ≡ parts.above (parts.both (parts.tree (kept_of a)) (parts.both (parts.tree (kept_of b)) (parts.tree (kept_of c))))) }
{
    let a = tree(alloc, a)?;
    let b = tree(alloc, b)?;
    let c = tree(alloc, c)?;
    Ok(triple(a, b, c))
}

fn triple(
    a: Option<(Held<Expr>, u32)>,
    b: Option<(Held<Expr>, u32)>,
    c: Option<(Held<Expr>, u32)>,
) -> Option<(Held<Expr>, Held<Expr>, Held<Expr>, u32)>
    ensures { option_map (λ p. ((view p.0, (view p.1, view p.2)), p.3)) result
        ≡ parts.above (parts.both (option_map (λ p. (view p.0, p.1)) a)
        (parts.both (option_map (λ p. (view p.0, p.1)) b) (option_map (λ p. (view p.0, p.1)) c))) }
{
    match a {
        Some((a, d)) => match b {
            Some((b, e)) => match c {
                Some((c, f)) => match above(d.max(e.max(f))) {
                    Some(d) => Some((a, b, c, d)),
                    None => None,
                },
                None => None,
            },
            None => None,
        },
        None => None,
    }
}

fn several(alloc: Global, all: KeptAll) -> Result<Option<(Exprs, u32)>, NoMemory>
    ensures { IfOk result (λ x. option_map (λ p. (views p.0, p.1)) x ≡ parts.above (parts.trees (all_of all))) }
{
    match trees(alloc, all)? {
        Some((all, d)) => match above(d) {
            Some(d) => Ok(Some((all, d))),
            None => Ok(None),
        },
        None => Ok(None),
    }
}

fn with_trees(
    a: Option<(Held<Expr>, u32)>,
    all: Option<(Exprs, u32)>,
) -> Option<(Held<Expr>, Exprs, u32)>
    ensures { option_map (λ p. ((view p.0, views p.1), p.2)) result
        ≡ parts.above (parts.both (option_map (λ p. (view p.0, p.1)) a) (option_map (λ p. (views p.0, p.1)) all)) }
{
    match a {
        Some((a, d)) => match all {
            Some((all, e)) => match above(d.max(e)) {
                Some(d) => Some((a, all, d)),
                None => None,
            },
            None => None,
        },
        None => None,
    }
}

// ---- expressions

/// A sign before an operand.
#[tactic(auto, using(crate::proofs::ViewForms::view_Sign, crate::proofs::PartForms::made_is))]
pub(crate) fn sign(alloc: Global, o: SignOp, a: Kept) -> Result<Kept, NoMemory>
    ensures { IfOk result (λ x. kept_of x ≡ k.made 60 (t.sign o) k.value (kept_of a)) }
{
    match one(alloc, a)? {
        Some((a, d)) => Ok(Kept::Whole(Expr::Sign(0, o, a), d)),
        None => Ok(Kept::Deep(Shape::Value)),
    }
}

/// `not` before an operand.
#[tactic(auto, using(crate::proofs::ViewForms::view_Not, crate::proofs::PartForms::made_is))]
pub(crate) fn negation(alloc: Global, a: Kept) -> Result<Kept, NoMemory>
    ensures { IfOk result (λ x. kept_of x ≡ k.made 60 t.not k.value (kept_of a)) }
{
    match one(alloc, a)? {
        Some((a, d)) => Ok(Kept::Whole(Expr::Not(0, a), d)),
        None => Ok(Kept::Deep(Shape::Value)),
    }
}

/// An attribute of a value.
#[tactic(auto, using(crate::proofs::ViewForms::view_Attr, crate::proofs::PartForms::made_is))]
pub(crate) fn attribute(alloc: Global, a: Kept, x: PyText) -> Result<Kept, NoMemory>
    ensures { IfOk result (λ e. kept_of e ≡ reading.attribute_of 60 (kept_of a) x) }
{
    match one(alloc, a)? {
        Some((a, d)) => Ok(Kept::Whole(Expr::Attr(0, a, x), d)),
        None => Ok(Kept::Deep(Shape::Place)),
    }
}

/// An operator of two operands.
#[tactic(auto, using(crate::proofs::ViewForms::view_Binary, crate::proofs::PartForms::made_of_two_is))]
pub(crate) fn binary(alloc: Global, o: BinaryOp, a: Kept, b: Kept) -> Result<Kept, NoMemory>
    ensures { IfOk result (λ x. kept_of x ≡ k.made_of_two 60 (reading.joined (reading.arithmetic o)) k.value (kept_of a) (kept_of b)) }
{
    match two(alloc, a, b)? {
        Some((a, b, d)) => Ok(Kept::Whole(Expr::Binary(0, a, o, b), d)),
        None => Ok(Kept::Deep(Shape::Value)),
    }
}

/// `a ** b`.
pub(crate) fn power(alloc: Global, a: Kept, b: Kept) -> Result<Kept, NoMemory>
    ensures { IfOk result (λ x. kept_of x ≡ k.made_of_two 60 reading.power_of k.value (kept_of a) (kept_of b)) }
{
    binary(alloc, BinaryOp::Pow, a, b)
}

/// `a and b`.
#[tactic(auto, using(crate::proofs::ViewForms::view_And, crate::proofs::PartForms::made_of_two_is))]
pub(crate) fn conjunction(alloc: Global, a: Kept, b: Kept) -> Result<Kept, NoMemory>
    ensures { IfOk result (λ x. kept_of x ≡ k.made_of_two 60 (reading.joined reading.conjunction) k.value (kept_of a) (kept_of b)) }
{
    match two(alloc, a, b)? {
        Some((a, b, d)) => Ok(Kept::Whole(Expr::And(0, a, b), d)),
        None => Ok(Kept::Deep(Shape::Value)),
    }
}

/// `a or b`.
#[tactic(auto, using(crate::proofs::ViewForms::view_Or, crate::proofs::PartForms::made_of_two_is))]
pub(crate) fn disjunction(alloc: Global, a: Kept, b: Kept) -> Result<Kept, NoMemory>
    ensures { IfOk result (λ x. kept_of x ≡ k.made_of_two 60 (reading.joined reading.disjunction) k.value (kept_of a) (kept_of b)) }
{
    match two(alloc, a, b)? {
        Some((a, b, d)) => Ok(Kept::Whole(Expr::Or(0, a, b), d)),
        None => Ok(Kept::Deep(Shape::Value)),
    }
}

/// `a[i]`.
#[tactic(auto, using(crate::proofs::ViewForms::view_Item, crate::proofs::PartForms::made_of_two_is))]
pub(crate) fn item(alloc: Global, a: Kept, i: Kept) -> Result<Kept, NoMemory>
    ensures { IfOk result (λ x. kept_of x ≡ k.made_of_two 60 t.item k.place (kept_of a) (kept_of i)) }
{
    match two(alloc, a, i)? {
        Some((a, i, d)) => Ok(Kept::Whole(Expr::Item(0, a, i), d)),
        None => Ok(Kept::Deep(Shape::Place)),
    }
}

/// `a if test else b`.
#[tactic(auto, using(crate::proofs::ViewForms::view_Choice, crate::proofs::PartForms::made_choice_is))]
pub(crate) fn choice(alloc: Global, a: Kept, test: Kept, b: Kept) -> Result<Kept, NoMemory>
    ensures { IfOk result (λ x. kept_of x ≡ k.made_choice 60 (kept_of a) (kept_of test) (kept_of b)) }
{
    match three(alloc, a, test, b)? {
        Some((a, test, b, d)) => Ok(Kept::Whole(Expr::Choice(0, a, test, b), d)),
        None => Ok(Kept::Deep(Shape::Value)),
    }
}

/// A dict, of its keys and values in turn.
#[tactic(auto, using(crate::proofs::ViewForms::view_Dict, crate::proofs::PartForms::made_of_all_is))]
pub(crate) fn dict(alloc: Global, all: KeptAll) -> Result<Kept, NoMemory>
    ensures { IfOk result (λ x. kept_of x ≡ k.made_dict 60 (all_of all)) }
{
    match several(alloc, all)? {
        Some((all, d)) => Ok(Kept::Whole(Expr::Dict(0, all), d)),
        None => Ok(Kept::Deep(Shape::Value)),
    }
}

/// A call of a function.
#[tactic(auto, using(crate::proofs::ViewForms::view_Call, crate::proofs::PartForms::made_call_is))]
pub(crate) fn call(alloc: Global, f: Kept, all: KeptAll) -> Result<Kept, NoMemory>
    ensures { IfOk result (λ x. kept_of x ≡ k.made_call 60 (kept_of f) (all_of all)) }
{
    let f = tree(alloc, f)?;
    let all = trees(alloc, all)?;
    match with_trees(f, all) {
        Some((f, all, d)) => Ok(Kept::Whole(Expr::Call(0, f, all), d)),
        None => Ok(Kept::Deep(Shape::Value)),
    }
}

/// A lambda of parameters and a value.
#[tactic(auto, using(crate::proofs::ViewForms::view_Lambda, crate::proofs::PartForms::made_lambda_is))]
pub(crate) fn lambda(alloc: Global, s: Parameters, body: Kept) -> Result<Kept, NoMemory>
    ensures { IfOk result (λ x. kept_of x ≡ k.made_lambda 60 (params_of s).0 (params_of s).1 (kept_of body)) }
{
    let Parameters { names, defaults } = s;
    let names = Shared::from_vec(alloc, names)?;
    let body = tree(alloc, body)?;
    let defaults = trees(alloc, defaults)?;
    match behind_trees(defaults, body) {
        Some((defaults, body, d)) => Ok(Kept::Whole(Expr::Lambda(0, names, defaults, body), d)),
        None => Ok(Kept::Deep(Shape::Value)),
    }
}

fn behind_trees(
    all: Option<(Exprs, u32)>,
    a: Option<(Held<Expr>, u32)>,
) -> Option<(Exprs, Held<Expr>, u32)>
    ensures { option_map (λ p. ((views p.0, view p.1), p.2)) result
        ≡ parts.above (parts.both (option_map (λ p. (views p.0, p.1)) all) (option_map (λ p. (view p.0, p.1)) a)) }
{
    match all {
        Some((all, d)) => match a {
            Some((a, e)) => match above(d.max(e)) {
                Some(d) => Some((all, a, d)),
                None => None,
            },
            None => None,
        },
        None => None,
    }
}

/// A tuple of all.
#[tactic(auto, using(crate::proofs::ViewForms::view_Tuple, crate::proofs::PartForms::made_of_all_is))]
pub(crate) fn tuple(alloc: Global, all: KeptAll) -> Result<Kept, NoMemory>
    ensures { IfOk result (λ x. kept_of x ≡ k.made_tuple 60 (all_of all)) }
{
    let deep = deep_shape(&all);
    match several(alloc, all)? {
        Some((all, d)) => Ok(Kept::Whole(Expr::Tuple(0, all), d)),
        None => Ok(Kept::Deep(deep)),
    }
}

/// A list of all.
#[tactic(auto, using(crate::proofs::ViewForms::view_List, crate::proofs::PartForms::made_of_all_is))]
pub(crate) fn list(alloc: Global, all: KeptAll) -> Result<Kept, NoMemory>
    ensures { IfOk result (λ x. kept_of x ≡ k.made_list 60 (all_of all)) }
{
    let deep = deep_shape(&all);
    match several(alloc, all)? {
        Some((all, d)) => Ok(Kept::Whole(Expr::List(0, all), d)),
        None => Ok(Kept::Deep(deep)),
    }
}

// What a tuple or a list of all may stand for, where it is too deep.
fn deep_shape(all: &KeptAll) -> Shape
    ensures { parts.above (parts.trees (all_of all.now)) ≡ None → shape_of result ≡ k.row_shape (all_of all.now) }
{
    match all {
        KeptAll::All(es, d) => if *d < 60 {
            Shape::Value
        } else {
            if_targets(is_row(es.as_slice()))
        },
        KeptAll::OneDeep(s) => if_targets(may_be_target(*s)),
        KeptAll::SomeDeep(b) => if_targets(*b),
    }
}

fn if_targets(b: bool) -> Shape
    ensures { shape_of result ≡ k.if_targets b }
{
    if b { Shape::Target } else { Shape::Value }
}

/// One is itself, several are a tuple.
pub(crate) fn alone(alloc: Global, all: KeptAll) -> Result<Kept, NoMemory>
    ensures { IfOk result (λ x. kept_of x ≡ k.alone 60 (all_of all)) }
{
    match all {
        KeptAll::All(es, d) => alone_of(alloc, es, d),
        KeptAll::OneDeep(s) => Ok(Kept::Deep(s)),
        KeptAll::SomeDeep(b) => Ok(Kept::Deep(if_targets(b))),
    }
}

fn alone_of(alloc: Global, es: Vec<Expr>, d: u32) -> Result<Kept, NoMemory>
    ensures { IfOk result (λ x. kept_of x ≡ k.alone 60 (k.all (views es.items) d)) }
{
    if es.len() == 1 {
        return Ok(only(es, d));
    }
    tuple(alloc, KeptAll::All(es, d))
}

fn only(es: Vec<Expr>, d: u32) -> Kept
    requires { length es.items ≡ 1 }
    ensures { kept_of result ≡ k.alone 60 (k.all (views es.items) d) }
{
    let mut es = es;
    let e = es.swap_remove(0);
    Kept::Whole(e, d)
}

/// One operand is itself, several are a comparison.
pub(crate) fn compared(alloc: Global, c: Chained) -> Result<Kept, NoMemory>
    ensures { IfOk result (λ x. kept_of x ≡ k.compared 60 (chained_of c)) }
{
    let Chained { ops, operands } = c;
    if ops.is_empty() {
        return alone(alloc, operands);
    }
    comparison(alloc, ops, operands)
}

#[tactic(auto, using(crate::proofs::ViewForms::view_Compare, crate::proofs::PartForms::made_of_all_is))]
fn comparison(alloc: Global, ops: Vec<CompareOp>, operands: KeptAll) -> Result<Kept, NoMemory>
    ensures { IfOk result (λ x. kept_of x ≡ k.made_of_all 60 (t.compare ops.items) k.value (all_of operands)) }
{
    let ops = Shared::from_vec(alloc, ops)?;
    match several(alloc, operands)? {
        Some((all, d)) => Ok(Kept::Whole(Expr::Compare(0, ops, all), d)),
        None => Ok(Kept::Deep(Shape::Value)),
    }
}

// ---- several, as they are read

/// No expressions.
pub(crate) fn no_trees(alloc: Global) -> KeptAll
    ensures { all_of result ≡ k.no_trees }
{
    KeptAll::All(Vec::new(alloc), 0)
}

/// One more behind some.
pub(crate) fn push(all: KeptAll, a: Kept) -> Result<KeptAll, NoMemory>
    ensures { IfOk result (λ x. all_of x ≡ k.push_kept (all_of all) (kept_of a)) }
{
    match all {
        KeptAll::All(es, d) => push_onto(es, d, a),
        KeptAll::OneDeep(s) => Ok(KeptAll::SomeDeep(may_be_target(s) && is_kept_target(&a))),
        KeptAll::SomeDeep(b) => Ok(KeptAll::SomeDeep(b && is_kept_target(&a))),
    }
}

#[tactic(auto, using(crate::proofs::ViewForms::views_push))]
fn push_onto(es: Vec<Expr>, d: u32, a: Kept) -> Result<KeptAll, NoMemory>
    ensures { IfOk result (λ x. all_of x ≡ k.push_kept (k.all (views es.items) d) (kept_of a)) }
{
    let mut es = es;
    match a {
        Kept::Whole(e, f) => {
            es.push(e)?;
            Ok(KeptAll::All(es, d.max(f)))
        }
        Kept::Deep(s) => Ok(push_deep(es.as_slice(), s)),
    }
}

fn push_deep(es: &[Expr], s: Shape) -> KeptAll
    ensures { all_of result ≡ k.push_deep (views es.now) (shape_of s) }
{
    if es.is_empty() {
        return KeptAll::OneDeep(s);
    }
    KeptAll::SomeDeep(are_targets_with(es, s))
}

// Whether expressions and one of a shape may all be targets.
fn are_targets_with(es: &[Expr], s: Shape) -> bool
    ensures { result ≡ (k.are_targets (views es.now) && k.may_be_target (shape_of s)) }
{
    are_targets(es) && may_be_target(s)
}

/// A comparison with its first operand alone.
pub(crate) fn one_operand(alloc: Global, a: Kept) -> Result<Chained, NoMemory>
    ensures { IfOk result (λ c. chained_of c ≡ reading.one_operand (kept_of a)) }
{
    Ok(Chained {
        ops: Vec::new(alloc),
        operands: push(no_trees(alloc), a)?,
    })
}

/// A comparison with one more operator and its operand.
pub(crate) fn with_operand(c: Chained, o: CompareOp, a: Kept) -> Result<Chained, NoMemory>
    ensures { IfOk result (λ x. chained_of x ≡ reading.with_operand (chained_of c) o (kept_of a)) }
{
    let Chained { mut ops, operands } = c;
    ops.push(o)?;
    Ok(Chained {
        ops,
        operands: push(operands, a)?,
    })
}

/// No parameters.
pub(crate) fn no_params(alloc: Global) -> Parameters
    ensures { params_of result ≡ reading.no_params }
{
    Parameters {
        names: Vec::new(alloc),
        defaults: no_trees(alloc),
    }
}

/// One parameter more, with its default.
pub(crate) fn with_default(s: Parameters, x: PyText, a: Kept) -> Result<Parameters, NoMemory>
    ensures { IfOk result (λ p. params_of p ≡ reading.with_default (params_of s) x (kept_of a)) }
{
    let Parameters {
        mut names,
        defaults,
    } = s;
    names.push(x)?;
    Ok(Parameters {
        names,
        defaults: push(defaults, a)?,
    })
}
