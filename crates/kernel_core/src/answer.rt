// The answer to an ask.
ghost use Rattle.std.specs.Prelude.{◌≡◌, ℕ, ◌∷◌, [], ◌++◌, IfOk, OnOk, OnErr, Some, Ok};
ghost use Rattle.std.specs.FinMap as map;
ghost use Rattle.dependence_graph.specs.Marks.{IsExact};
ghost use Rattle.py_accepted.specs.Accepted.{cell_of};
ghost use Rattle.py_ast.specs.Statement.{view_cell, view_block};
ghost use Rattle.kernel_core.specs.Program.{program_of};
ghost use Rattle.kernel_core.specs.State.{ran_program, state_of};
ghost use Rattle.kernel_core.specs.Kernel.{running};
ghost use Rattle.kernel_core.specs.Answer as spec;

use crate::accepted::Accepted;
use crate::kept::Kept;
use crate::kernel::STEPS_LIMIT;
use crate::lineage::{mark, stale_paths};
use crate::state::State;
use containers::Sequence;
use dependence_graph::Graph;
use flow_base::{NoMemory, PyText, SyntaxKind};
use flow_wire::{Ask, EndText, Reply};
use plain_cells::End;
use py_accepted::accept;
use py_ast::{Cell, Stmt};
use py_block::SyntaxFault;
use py_scope::Coded;
use std::alloc::Global;

// A text of a cell is shorter than this. A line of the program cannot carry a longer one.
const TEXT_LIMIT: usize = 4_294_967_295;

/// Answers an ask, and puts what it accepts at the end of the log. Where memory is wanting, the log stays as it was, and
/// nothing is said of the state and of the stale versions.
pub fn answer(
    alloc: Global,
    steps: u32,
    log: &mut Sequence<Accepted>,
    state: &mut State,
    graph: &mut Graph,
    a: &Ask,
) -> Result<Reply, NoMemory>
    requires same { state.old ≡ state_of log.old }
    requires exact { IsExact state.old.versions graph.old.stale }
    ensures answered { IfOk result (λ reply.
        spec.answer_of (running log.old steps) a.now ≡ record { reply = reply; kernel = running log.new steps }) }
    ensures state { OnOk result (state.new ≡ state_of log.new) }
    ensures exact { OnOk result (IsExact state.new.versions graph.new.stale) }
    ensures err { OnErr result (log.new ≡ log.old) }
{
    match a {
        Ask::Edit { cell, text } => edit(alloc, log, state, cell, text),
        Ask::Run { cell, steps: named } => run(alloc, steps, log, state, graph, cell, *named),
        Ask::Show { cell } => show(alloc, state, cell),
    }
}

// ---- edit

// A text that is too long is answered as want of memory.
fn edit(
    alloc: Global,
    log: &mut Sequence<Accepted>,
    state: &mut State,
    cell: &PyText,
    text: &PyText,
) -> Result<Reply, NoMemory>
    requires { state.old ≡ state_of log.old }
    ensures answered { IfOk result (λ reply. (steps : ℕ) →
        spec.edit_answer (running log.old steps) cell.now text.now (cell_of text.now) ≡ record { reply = reply; kernel = running log.new steps }) }
    ensures state { OnOk result (state.new ≡ state_of log.new) }
    ensures versions { OnOk result (state.new.versions ≡ state.old.versions) }
    ensures err { OnErr result (log.new ≡ log.old) }
{
    if text.len() >= TEXT_LIMIT {
        return Err(NoMemory);
    }
    match accept(alloc, text) {
        Ok(coded) => accept_edit(alloc, log, state, cell, text, cell_in(coded)),
        Err(SyntaxFault::At { line, kind }) => Ok(refusal(line, kind)),
        Err(SyntaxFault::NoMemory) => Err(NoMemory),
    }
}

// The cell without its scopes.
fn cell_in(coded: Coded) -> Cell
    ensures { result ≡ coded.cell }
{
    let Coded { cell, scopes } = coded;
    drop(scopes);
    cell
}

fn refusal(line: u32, kind: SyntaxKind) -> Reply
    ensures { result ≡ Reply.Syntax kind line }
{
    Reply::Syntax {
        kind,
        line: u64::from(line),
    }
}

fn accept_edit(
    alloc: Global,
    log: &mut Sequence<Accepted>,
    state: &mut State,
    cell: &PyText,
    text: &PyText,
    spelled: Cell,
) -> Result<Reply, NoMemory>
    requires same { state.old ≡ state_of log.old }
    requires accepted { cell_of text.now ≡ Ok (view_cell spelled) }
    ensures reply { IfOk result (λ reply. reply ≡ Reply.Edited cell.now) }
    ensures ok { OnOk result (log.new ≡ log.old ++ (Accepted.Edit cell.now text.now) ∷ []) }
    ensures state { OnOk result (state.new ≡ state_of log.new) }
    ensures versions { OnOk result (state.new.versions ≡ state.old.versions) }
    ensures err { OnErr result (log.new ≡ log.old) }
{
    let kept = Kept::new(text.copy()?, spelled);
    let reply = Reply::Edited { cell: cell.copy()? };
    let accepted = Accepted::Edit {
        cell: cell.copy()?,
        text: text.copy()?,
    };
    state.edit(alloc, cell, kept)?;
    log.push(accepted)?;
    Ok(reply)
}

// ---- show

fn show(alloc: Global, state: &State, cell: &PyText) -> Result<Reply, NoMemory>
    ensures { IfOk result (λ reply. reply ≡ spec.show_reply cell.now (map.get state.now.cells cell.now)) }
{
    match state.cells.get(cell) {
        Some(kept) => show_kept(alloc, cell, kept),
        None => Ok(Reply::NoCell),
    }
}

fn show_kept(alloc: Global, cell: &PyText, kept: &Kept) -> Result<Reply, NoMemory>
    ensures { IfOk result (λ reply. reply ≡ spec.shown cell.now (cell_of kept.now)) }
{
    Ok(Reply::Shown {
        cell: cell.copy()?,
        text: kept.print(alloc)?,
    })
}

// ---- run

fn run(
    alloc: Global,
    steps: u32,
    log: &mut Sequence<Accepted>,
    state: &mut State,
    graph: &mut Graph,
    cell: &PyText,
    named: Option<u64>,
) -> Result<Reply, NoMemory>
    requires same { state.old ≡ state_of log.old }
    requires exact { IsExact state.old.versions graph.old.stale }
    ensures answered { IfOk result (λ reply.
        spec.run_answer (running log.old steps) cell.now (spec.allowance steps named) (map.get (state_of log.old).cells cell.now)
        ≡ record { reply = reply; kernel = running log.new steps }) }
    ensures state { OnOk result (state.new ≡ state_of log.new) }
    ensures exact { OnOk result (IsExact state.new.versions graph.new.stale) }
    ensures err { OnErr result (log.new ≡ log.old) }
{
    let Some(kept) = state.cells.get(cell) else {
        return Ok(Reply::NoCell);
    };
    let kept = kept.copy()?;
    let allowance = named.unwrap_or(u64::from(steps));
    if allowance > u64::from(STEPS_LIMIT) {
        return Ok(Reply::BadSteps);
    }
    run_kept(alloc, log, state, graph, cell, &kept, allowance as u32)
}

// A cell that is not plain is not run.
fn run_kept(
    alloc: Global,
    log: &mut Sequence<Accepted>,
    state: &mut State,
    graph: &mut Graph,
    cell: &PyText,
    kept: &Kept,
    steps: u32,
) -> Result<Reply, NoMemory>
    requires same { state.old ≡ state_of log.old }
    requires kept { map.get state.old.cells cell.now ≡ Some kept.now }
    requires exact { IsExact state.old.versions graph.old.stale }
    ensures answered { IfOk result (λ reply. (named : ℕ) →
        spec.program_answer (running log.old named) cell.now steps (program_of kept.now) ≡ record { reply = reply; kernel = running log.new named }) }
    ensures state { OnOk result (state.new ≡ state_of log.new) }
    ensures exact { OnOk result (IsExact state.new.versions graph.new.stale) }
    ensures err { OnErr result (log.new ≡ log.old) }
{
    match kept.program() {
        Some(program) => accept_run(
            alloc,
            log,
            state,
            graph,
            cell,
            kept.text(),
            steps,
            program.as_slice(),
        ),
        None => Ok(Reply::Form),
    }
}

fn accept_run(
    alloc: Global,
    log: &mut Sequence<Accepted>,
    state: &mut State,
    graph: &mut Graph,
    cell: &PyText,
    text: &PyText,
    steps: u32,
    statements: &[Stmt],
) -> Result<Reply, NoMemory>
    requires same { state.old ≡ state_of log.old }
    requires kept { map.get state.old.cells cell.now ≡ Some text.now }
    requires program { program_of text.now ≡ Some (view_block statements.now) }
    requires exact { IsExact state.old.versions graph.old.stale }
    ensures reply { IfOk result (λ reply. reply ≡ spec.run_reply state.old cell.now steps (view_block statements.now)) }
    ensures ok { OnOk result (log.new ≡ log.old ++ (Accepted.Run cell.now steps) ∷ []) }
    ensures state { OnOk result (state.new ≡ state_of log.new) }
    ensures exact { OnOk result (IsExact state.new.versions graph.new.stale) }
    ensures err { OnErr result (log.new ≡ log.old) }
{
    let accepted = Accepted::Run {
        cell: cell.copy()?,
        steps,
    };
    let reply = run_cell(alloc, state, graph, cell, text, steps, statements)?;
    log.push(accepted)?;
    Ok(reply)
}

// Runs the statements of a text of a cell. The mark and the stale names are by the state before the run.
fn run_cell(
    alloc: Global,
    state: &mut State,
    graph: &mut Graph,
    cell: &PyText,
    text: &PyText,
    steps: u32,
    statements: &[Stmt],
) -> Result<Reply, NoMemory>
    requires { IsExact state.old.versions graph.old.stale }
    ensures reply { IfOk result (λ reply. reply ≡ spec.run_reply state.old cell.now steps (view_block statements.now)) }
    ensures state { OnOk result (state.new ≡ ran_program state.old cell.now steps text.now (Some (view_block statements.now))) }
    ensures exact { OnOk result (IsExact state.new.versions graph.new.stale) }
{
    let mark = mark(alloc, &state.names, &state.versions, graph, statements)?;
    let computed = state.compute(alloc, statements, steps)?;
    let stale = stale_paths(
        alloc,
        &state.names,
        &state.versions,
        graph,
        &computed.summary,
    )?;
    let end = end_text(alloc, computed.end)?;
    state.put_run(cell, text, steps, computed)?;
    graph.after_run(alloc, &state.versions)?;
    Ok(Reply::Ran {
        cell: cell.copy()?,
        end,
        mark,
        out: PyText::from_points(alloc, Vec::new(alloc))?,
        run: state.runs.len() as u64,
        stale,
    })
}

fn end_text(alloc: Global, end: End) -> Result<EndText, NoMemory>
    ensures { IfOk result (λ text. text ≡ spec.end_text end) }
{
    match end {
        End::Done => Ok(EndText::Ok),
        End::NameError => Ok(EndText::Raised(PyText::from_str(alloc, "NameError")?)),
        End::Steps => Ok(EndText::Steps),
        End::Range => Ok(EndText::Range),
    }
}
