// Headers that go on with the last statement of a level.
ghost use Rattle.std.specs.Prelude.{◌≡◌, ◌∷◌, [], IfOk};
ghost use Rattle.std.specs.Option.{option_map};
ghost use Rattle.py_ast.specs.View.{view};
ghost use Rattle.py_grammar.specs.Line as line;
ghost use Rattle.py_block.specs.LevelAnswers.{IsNext, IsNextOf};
ghost use Rattle.py_block.specs.LevelViews.{expr_numbers, maybe_numbers};

use crate::level_blocks::no_block;
use crate::level_parts::{After, Clause, Last, Waiting};
use flow_base::NoMemory;
use py_ast::{Expr, Stmts};
use std::alloc::Global;

#[tactic(auto, using(crate::proofs::LevelHeaders::elif_except))]
fn elif_of(after: After, test: Expr) -> Option<Waiting>
    ensures { IsNext after (line.elif (view test)) (expr_numbers test) result }
{
    match after {
        After::If(i, branches) => Some(Waiting::IfBody(i, branches, test)),
        After::While(..) | After::For(..) | After::Try(..) | After::Except(..) | After::Else(..) =>
            None,
    }
}

#[tactic(auto, using(crate::proofs::LevelHeaders::else_except, crate::proofs::LevelLists::nothing_more))]
fn else_of(after: After) -> Option<Waiting>
    ensures { IsNext after line.else [] result }
{
    match after {
        After::If(i, branches) => Some(Waiting::IfElse(i, branches)),
        After::While(i, test, body) => Some(Waiting::WhileElse(i, test, body)),
        After::For(i, target, items, body) => Some(Waiting::ForElse(i, target, items, body)),
        After::Except(i, body, handlers, _) => Some(Waiting::TryElse(i, body, handlers)),
        After::Try(..) | After::Else(..) => None,
    }
}

#[tactic(auto, using(crate::proofs::LevelLists::no_handler_numbers, crate::proofs::LevelLists::regrouped))]
fn except_of(alloc: Global, after: After, clause: Clause) -> Option<Waiting>
    ensures { IsNext after (line.except (option_map view clause.class) clause.name) (clause.node ∷ maybe_numbers clause.class) result }
{
    match after {
        After::Try(i, body) => Some(Waiting::ExceptBody(i, body, Vec::new(alloc), clause)),
        After::Except(i, body, handlers, more) => {
            if more {
                Some(Waiting::ExceptBody(i, body, handlers, clause))
            } else {
                None
            }
        }
        After::If(..) | After::While(..) | After::For(..) | After::Else(..) => None,
    }
}

#[tactic(auto, using(crate::proofs::LevelLists::no_handler_numbers, crate::proofs::LevelLists::no_block_numbers, crate::proofs::LevelLists::nothing_more, crate::proofs::LevelHeaders::finally_except))]
fn finally_with(after: After, alloc: Global, nothing: Stmts) -> Option<Waiting>
    requires { nothing ≡ [] }
    ensures { IsNext after line.finally [] result }
{
    match after {
        After::Try(i, body) => Some(Waiting::FinallyBody(i, body, Vec::new(alloc), nothing)),
        After::Except(i, body, handlers, _) => Some(Waiting::FinallyBody(
            i, body, handlers, nothing,
        )),
        After::Else(i, body, handlers, otherwise) => Some(Waiting::FinallyBody(
            i, body, handlers, otherwise,
        )),
        After::If(..) | After::While(..) | After::For(..) => None,
    }
}

/// What an `elif` begins after the last statement of a level, if it may follow it.
pub(crate) fn elif_next(last: Last, test: Expr) -> Option<Waiting>
    ensures { IsNextOf last (line.elif (view test)) (expr_numbers test) result }
{
    match last {
        Last::After(after) => elif_of(after, test),
        Last::Nothing | Last::Whole(..) | Last::Waits(..) => None,
    }
}

/// What an `else` begins after the last statement of a level, if it may follow it.
pub(crate) fn else_next(last: Last) -> Option<Waiting>
    ensures { IsNextOf last line.else [] result }
{
    match last {
        Last::After(after) => else_of(after),
        Last::Nothing | Last::Whole(..) | Last::Waits(..) => None,
    }
}

/// What an `except` begins after the last statement of a level, if it may follow it.
pub(crate) fn except_next(alloc: Global, last: Last, clause: Clause) -> Option<Waiting>
    ensures { IsNextOf last (line.except (option_map view clause.class) clause.name) (clause.node ∷ maybe_numbers clause.class) result }
{
    match last {
        Last::After(after) => except_of(alloc, after, clause),
        Last::Nothing | Last::Whole(..) | Last::Waits(..) => None,
    }
}

/// What a `finally` begins after the last statement of a level, if it may follow it.
pub(crate) fn finally_next(alloc: Global, last: Last) -> Result<Option<Waiting>, NoMemory>
    ensures { IfOk result (IsNextOf last line.finally []) }
{
    let nothing = no_block(alloc)?;
    match last {
        Last::After(after) => Ok(finally_with(after, alloc, nothing)),
        Last::Nothing | Last::Whole(..) | Last::Waits(..) => Ok(None),
    }
}
