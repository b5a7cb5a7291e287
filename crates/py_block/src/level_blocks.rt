// The last statement of a level once its next block is there, and the statements of a level whose last one gets nothing more.
ghost use Rattle.std.specs.Prelude.{◌≡◌, ◌++◌, ◌∷◌, [], map, IfOk};
ghost use Rattle.py_ast.specs.Statement as plain;
ghost use Rattle.py_ast.specs.Statement.{block_of, branches_of, handlers_of, view_stmt};
ghost use Rattle.py_ast.specs.View.{view, views};
ghost use Rattle.std.specs.Option.{is_some, option_map};
ghost use Rattle.py_line.specs.Form.{statements_of};
ghost use Rattle.py_block.specs.LevelAnswers.{IsFilled, IsLast, IsMore, IsSettled, IsStatement};
ghost use Rattle.py_block.specs.Machine as machine;
ghost use Rattle.py_block.specs.declared.level_parts.Last.TheVariants as last;
ghost use Rattle.py_block.specs.declared.level_parts.After.TheVariants as after;
ghost use Rattle.py_block.specs.LevelViews.{block_numbers, branch_numbers, branch_of, expr_numbers, exprs_numbers, handler_numbers, handler_of, maybe_numbers, stmt_numbers};

use crate::level_parts::{After, Clause, Last, Waiting};
use flow_base::{NoMemory, PyText, Shared};
use py_ast::{Branch, Expr, Exprs, Handler, Stmt, Stmts, Texts};
use std::alloc::Global;

/// The block that is not there.
pub(crate) fn no_block(alloc: Global) -> Result<Stmts, NoMemory>
    ensures { IfOk result (λ b. b ≡ []) }
{
    Shared::from_vec(alloc, Vec::new(alloc))
}

// ---- statements that are complete

#[tactic(auto, using(crate::proofs::LevelForms::seen_If, crate::proofs::LevelForms::numbers_If))]
fn choose(alloc: Global, i: u32, branches: Vec<Branch>, otherwise: Stmts) -> Result<Stmt, NoMemory>
    ensures { IfOk result (IsStatement (plain.choose (branches_of (map branch_of branches.items)) (block_of (statements_of otherwise)))
        (i ∷ (branch_numbers branches.items ++ block_numbers otherwise))) }
{
    let branches = Shared::from_vec(alloc, branches)?;
    Ok(Stmt::If(i, branches, otherwise))
}

#[tactic(auto, using(crate::proofs::LevelForms::seen_While, crate::proofs::LevelForms::numbers_While))]
fn repeat(i: u32, test: Expr, body: Stmts, otherwise: Stmts) -> Stmt
    ensures { IsStatement (plain.while (view test) (block_of (statements_of body)) (block_of (statements_of otherwise)))
        (i ∷ (expr_numbers test ++ (block_numbers body ++ block_numbers otherwise))) result }
{
    Stmt::While(i, test, body, otherwise)
}

#[tactic(auto, using(crate::proofs::LevelForms::seen_For, crate::proofs::LevelForms::numbers_For))]
fn iterate(i: u32, target: Expr, items: Expr, body: Stmts, otherwise: Stmts) -> Stmt
    ensures { IsStatement (plain.for (view target) (view items) (block_of (statements_of body)) (block_of (statements_of otherwise)))
        (i ∷ (expr_numbers target ++ (expr_numbers items ++ (block_numbers body ++ block_numbers otherwise)))) result }
{
    Stmt::For(i, target, items, body, otherwise)
}

#[tactic(auto, using(crate::proofs::LevelForms::seen_Try, crate::proofs::LevelForms::numbers_Try))]
fn attempt(
    alloc: Global,
    i: u32,
    body: Stmts,
    handlers: Vec<Handler>,
    otherwise: Stmts,
    finally: Stmts,
) -> Result<Stmt, NoMemory>
    ensures { IfOk result (IsStatement
        (plain.try (block_of (statements_of body)) (handlers_of (map handler_of handlers.items)) (block_of (statements_of otherwise)) (block_of (statements_of finally)))
        (i ∷ (block_numbers body ++ (handler_numbers handlers.items ++ (block_numbers otherwise ++ block_numbers finally))))) }
{
    let handlers = Shared::from_vec(alloc, handlers)?;
    Ok(Stmt::Try(i, body, handlers, otherwise, finally))
}

#[tactic(auto, using(crate::proofs::LevelForms::seen_Def, crate::proofs::LevelForms::numbers_Def))]
fn define(i: u32, name: PyText, params: Texts, defaults: Exprs, body: Stmts) -> Stmt
    ensures { IsStatement (plain.define name params (views defaults) (block_of (statements_of body))) (i ∷ (exprs_numbers defaults ++ block_numbers body)) result }
{
    Stmt::Def(i, name, params, defaults, body)
}

#[tactic(auto, using(crate::proofs::LevelForms::seen_Class, crate::proofs::LevelForms::numbers_Class))]
fn class(i: u32, name: PyText, base: Option<Expr>, body: Stmts) -> Stmt
    ensures { IsStatement (plain.class name (option_map view base) (block_of (statements_of body))) (i ∷ (maybe_numbers base ++ block_numbers body)) result }
{
    Stmt::Class(i, name, base, body)
}

// ---- the last statement once its block is there

#[tactic(auto, using(crate::proofs::LevelLists::branch_more, crate::proofs::LevelLists::branches_map))]
fn with_branch(mut branches: Vec<Branch>, test: Expr, body: Stmts) -> Result<Vec<Branch>, NoMemory>
    ensures same { IfOk result (λ bs. map branch_of bs.items ≡ map branch_of branches.items ++ (view test, block_of (statements_of body)) ∷ []) }
    ensures numbers { IfOk result (λ bs. branch_numbers bs.items ≡ branch_numbers branches.items ++ (expr_numbers test ++ block_numbers body)) }
{
    branches.push(Branch { test, body })?;
    Ok(branches)
}

#[tactic(auto, using(crate::proofs::LevelLists::handler_more, crate::proofs::LevelLists::handlers_map))]
fn with_handler(
    mut handlers: Vec<Handler>,
    clause: Clause,
    body: Stmts,
) -> Result<Vec<Handler>, NoMemory>
    ensures same { IfOk result (λ hs. map handler_of hs.items
        ≡ map handler_of handlers.items ++ (option_map view clause.class, clause.name, block_of (statements_of body)) ∷ []) }
    ensures numbers { IfOk result (λ hs. handler_numbers hs.items
        ≡ handler_numbers handlers.items ++ (clause.node ∷ (maybe_numbers clause.class ++ block_numbers body))) }
{
    let Clause { node, class, name } = clause;
    handlers.push(Handler {
        node,
        class,
        name,
        body,
    })?;
    Ok(handlers)
}

fn after_if(i: u32, branches: Vec<Branch>, test: Expr, body: Stmts) -> Result<Last, NoMemory>
    ensures { IfOk result (IsLast (machine.after_if (map branch_of branches.items ++ (view test, block_of (statements_of body)) ∷ []))
        (i ∷ (branch_numbers branches.items ++ (expr_numbers test ++ block_numbers body)))) }
{
    Ok(Last::After(After::If(i, with_branch(branches, test, body)?)))
}

fn after_except(
    i: u32,
    body: Stmts,
    handlers: Vec<Handler>,
    clause: Clause,
    block: Stmts,
) -> Result<Last, NoMemory>
    ensures { IfOk result (IsLast
        (machine.after_except (block_of (statements_of body)) (map handler_of handlers.items ++ (option_map view clause.class, clause.name, block_of (statements_of block)) ∷ []) (is_some clause.class))
        (i ∷ (block_numbers body ++ (handler_numbers handlers.items ++ (clause.node ∷ (maybe_numbers clause.class ++ block_numbers block)))))) }
{
    let more = clause.class.is_some();
    let handlers = with_handler(handlers, clause, block)?;
    Ok(Last::After(After::Except(i, body, handlers, more)))
}

/// The last statement once the block that it waits for is there.
#[tactic(auto, using(crate::proofs::LevelLists::regrouped))]
pub(crate) fn filled(alloc: Global, waiting: Waiting, block: Stmts) -> Result<Last, NoMemory>
    ensures { IfOk result (IsFilled waiting block) }
{
    match waiting {
        Waiting::IfBody(i, branches, test) => after_if(i, branches, test, block),
        Waiting::IfElse(i, branches) => Ok(Last::Whole(choose(alloc, i, branches, block)?)),
        Waiting::WhileBody(i, test) => Ok(Last::After(After::While(i, test, block))),
        Waiting::WhileElse(i, test, body) => Ok(Last::Whole(repeat(i, test, body, block))),
        Waiting::ForBody(i, target, items) => Ok(Last::After(After::For(i, target, items, block))),
        Waiting::ForElse(i, target, items, body) => Ok(Last::Whole(iterate(
            i, target, items, body, block,
        ))),
        Waiting::TryBody(i) => Ok(Last::After(After::Try(i, block))),
        Waiting::ExceptBody(i, body, handlers, clause) => after_except(
            i, body, handlers, clause, block,
        ),
        Waiting::TryElse(i, body, handlers) => Ok(Last::After(After::Else(
            i, body, handlers, block,
        ))),
        Waiting::FinallyBody(i, body, handlers, otherwise) => Ok(Last::Whole(attempt(
            alloc, i, body, handlers, otherwise, block,
        )?)),
        Waiting::DefBody(i, name, params, defaults) => Ok(Last::Whole(define(
            i, name, params, defaults, block,
        ))),
        Waiting::ClassBody(i, name, base) => Ok(Last::Whole(class(i, name, base, block))),
    }
}

// ---- the statements of a level whose last one gets nothing more

#[tactic(auto, using(crate::proofs::LevelLists::block_more, crate::proofs::LevelLists::statements_more))]
fn with_statement(mut done: Vec<Stmt>, x: Stmt) -> Result<Vec<Stmt>, NoMemory>
    ensures { IfOk result (IsMore done (view_stmt x) (stmt_numbers x)) }
{
    done.push(x)?;
    Ok(done)
}

#[tactic(auto, using(crate::proofs::LevelLists::no_block_numbers, crate::proofs::LevelLists::nothing_more))]
fn settled_whole(done: Vec<Stmt>, x: Stmt) -> Result<Option<Vec<Stmt>>, NoMemory>
    ensures { IfOk result (IsSettled done (last.Whole x)) }
{
    Ok(Some(with_statement(done, x)?))
}

#[tactic(auto, using(crate::proofs::LevelLists::no_block_numbers, crate::proofs::LevelLists::nothing_more))]
fn settled_if(
    alloc: Global,
    done: Vec<Stmt>,
    i: u32,
    branches: Vec<Branch>,
) -> Result<Option<Vec<Stmt>>, NoMemory>
    ensures { IfOk result (IsSettled done (last.After (after.If i branches))) }
{
    let otherwise = no_block(alloc)?;
    let x = choose(alloc, i, branches, otherwise)?;
    Ok(Some(with_statement(done, x)?))
}

#[tactic(auto, using(crate::proofs::LevelLists::no_block_numbers, crate::proofs::LevelLists::nothing_more))]
fn settled_while(
    alloc: Global,
    done: Vec<Stmt>,
    i: u32,
    test: Expr,
    body: Stmts,
) -> Result<Option<Vec<Stmt>>, NoMemory>
    ensures { IfOk result (IsSettled done (last.After (after.While i test body))) }
{
    let otherwise = no_block(alloc)?;
    Ok(Some(with_statement(done, repeat(i, test, body, otherwise))?))
}

#[tactic(auto, using(crate::proofs::LevelLists::no_block_numbers, crate::proofs::LevelLists::nothing_more))]
fn settled_for(
    alloc: Global,
    done: Vec<Stmt>,
    i: u32,
    target: Expr,
    items: Expr,
    body: Stmts,
) -> Result<Option<Vec<Stmt>>, NoMemory>
    ensures { IfOk result (IsSettled done (last.After (after.For i target items body))) }
{
    let otherwise = no_block(alloc)?;
    Ok(Some(with_statement(done, iterate(i, target, items, body, otherwise))?))
}

#[tactic(auto, using(crate::proofs::LevelLists::no_block_numbers, crate::proofs::LevelLists::nothing_more))]
fn settled_except(
    alloc: Global,
    done: Vec<Stmt>,
    i: u32,
    body: Stmts,
    handlers: Vec<Handler>,
    more: bool,
) -> Result<Option<Vec<Stmt>>, NoMemory>
    ensures { IfOk result (IsSettled done (last.After (after.Except i body handlers more))) }
{
    let _ = more;
    let otherwise = no_block(alloc)?;
    let finally = no_block(alloc)?;
    let x = attempt(alloc, i, body, handlers, otherwise, finally)?;
    Ok(Some(with_statement(done, x)?))
}

#[tactic(auto, using(crate::proofs::LevelLists::no_block_numbers, crate::proofs::LevelLists::nothing_more))]
fn settled_else(
    alloc: Global,
    done: Vec<Stmt>,
    i: u32,
    body: Stmts,
    handlers: Vec<Handler>,
    otherwise: Stmts,
) -> Result<Option<Vec<Stmt>>, NoMemory>
    ensures { IfOk result (IsSettled done (last.After (after.Else i body handlers otherwise))) }
{
    let finally = no_block(alloc)?;
    let x = attempt(alloc, i, body, handlers, otherwise, finally)?;
    Ok(Some(with_statement(done, x)?))
}

fn settled_after(
    alloc: Global,
    done: Vec<Stmt>,
    after: After,
) -> Result<Option<Vec<Stmt>>, NoMemory>
    ensures { IfOk result (IsSettled done (last.After after)) }
{
    match after {
        After::If(i, branches) => settled_if(alloc, done, i, branches),
        After::While(i, test, body) => settled_while(alloc, done, i, test, body),
        After::For(i, target, items, body) => settled_for(alloc, done, i, target, items, body),
        After::Try(..) => Ok(None),
        After::Except(i, body, handlers, more) => settled_except(
            alloc, done, i, body, handlers, more,
        ),
        After::Else(i, body, handlers, otherwise) => settled_else(
            alloc, done, i, body, handlers, otherwise,
        ),
    }
}

fn waits_still(done: Vec<Stmt>, waiting: Waiting) -> Result<Option<Vec<Stmt>>, NoMemory>
    ensures { IfOk result (IsSettled done (last.Waits waiting)) }
{
    drop(done);
    drop(waiting);
    Ok(None)
}

/// The statements of a level whose last one gets nothing more; `None` where it must get more.
#[tactic(auto, using(crate::proofs::LevelLists::nothing_more))]
pub(crate) fn settled(
    alloc: Global,
    done: Vec<Stmt>,
    last: Last,
) -> Result<Option<Vec<Stmt>>, NoMemory>
    ensures { IfOk result (IsSettled done last) }
{
    match last {
        Last::Nothing => Ok(Some(done)),
        Last::Whole(x) => settled_whole(done, x),
        Last::After(after) => settled_after(alloc, done, after),
        Last::Waits(waiting) => waits_still(done, waiting),
    }
}
