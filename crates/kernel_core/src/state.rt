// What a session has come to.
ghost use Rattle.std.specs.Prelude.{◌≡◌, [], ◌∷◌, ◌++◌, IfOk, OnOk};
ghost use Rattle.plain_cells.specs.Plain.{assigned, name_bound, names_in, names_read};
ghost use Rattle.py_ast.specs.Statement.{view_stmt, view_block};
ghost use Rattle.kernel_core.specs.Naming.{one_name};
ghost use Rattle.kernel_core.specs.Program.{names_of, program_of};
ghost use Rattle.kernel_core.specs.State.{with_names};

use crate::kept::Kept;
use containers::{Sequence, Table, Values};
use flow_base::{Names, NoMemory, PyText, RunNo};
use plain_cells::{End, Finished, bound_name, run, used_names};
use py_ast::Stmt;
use std::alloc::Global;
use std::mem;
use trace_events::{Summary, summarize};
use version_store::Versions;

/// A run: its cell, the text that the cell had, its allowance of steps, and how it ended. Its number is its place, from 1.
#[derive(Drop)]
pub struct Ran {
    pub cell: PyText,
    pub text: PyText,
    pub steps: u32,
    pub end: End,
}

/// How the statements of a cell end, and what is kept of what they do.
#[derive(Drop)]
pub struct Computed {
    pub end: End,
    pub summary: Summary,
}

/// The accepted texts, the names that stood in what is run of them, the values of those names, and the runs and what is kept of what
/// each did, first run first.
#[derive(Drop)]
pub struct State {
    pub cells: Table<Kept>,
    pub names: Names,
    pub values: Values,
    pub runs: Sequence<Ran>,
    pub versions: Versions,
}

impl State {
    ghost use Rattle.plain_cells.specs.Run.{events_from, run_of};
    ghost use Rattle.kernel_core.specs.State.{empty_state, put_text};
    ghost use Rattle.trace_events.specs.Trace.{summary_of};

    /// Nothing was accepted. Takes no memory.
    pub fn new(alloc: Global) -> State
        ensures { result ≡ empty_state }
    {
        State {
            cells: Table::new(alloc),
            names: Names::new(alloc),
            values: Values::new(alloc),
            runs: Sequence::new(alloc),
            versions: Versions::new(alloc),
        }
    }

    /// Gives a cell an accepted text. Where memory is wanting, nothing is said of the state.
    pub fn edit(&mut self, alloc: Global, cell: &PyText, kept: Kept) -> Result<(), NoMemory>
        ensures { OnOk result (self.new ≡ put_text self.old cell.now kept (program_of kept)) }
    {
        intern_program(alloc, &mut self.names, &kept)?;
        self.cells.set(cell, kept)
    }

    /// Runs the statements of a plain cell with at most so many steps. Nothing but the values changes. Where memory is wanting, nothing is
    /// said of the state.
    pub fn compute(
        &mut self,
        alloc: Global,
        statements: &[Stmt],
        steps: u32,
    ) -> Result<Computed, NoMemory>
        ensures values { OnOk result (self.new ≡ record self.old {
          values = (run_of self.old.names self.old.values steps (view_block statements.now)).1.values;
        }) }
        ensures end { IfOk result (λ computed. computed.end ≡ (run_of self.old.names self.old.values steps (view_block statements.now)).0) }
        ensures summary { IfOk result (λ computed.
            computed.summary ≡ summary_of (events_from self.old.names self.old.values steps (view_block statements.now))) }
    {
        let before = mem::replace(&mut self.values, Values::new(alloc));
        let Finished { end, machine } = run(alloc, &self.names, before, steps, statements)?;
        let summary = summarize(alloc, machine.events.as_slice())?;
        self.values = machine.values;
        Ok(Computed { end, summary })
    }

    /// Puts down a run of a text of a cell, which was computed. `NoMemory` also stands for a number of runs that is full, at 2^64 - 1.
    pub fn put_run(
        &mut self,
        cell: &PyText,
        text: &PyText,
        steps: u32,
        computed: Computed,
    ) -> Result<(), NoMemory>
        ensures { OnOk result (self.new ≡ record self.old {
          runs = self.old.runs ++ (record { cell = cell.now; text = text.now; steps = steps; end = computed.end }) ∷ [];
          versions = self.old.versions ++ computed.summary ∷ [];
        }) }
    {
        let Some(number) = (self.versions.len() as u64).checked_add(1) else {
            return Err(NoMemory);
        };
        self.versions.add_run(RunNo(number), computed.summary)?;
        self.runs.push(Ran {
            cell: cell.copy()?,
            text: text.copy()?,
            steps,
            end: computed.end,
        })
    }
}

// ---- names

fn intern_program(alloc: Global, names: &mut Names, kept: &Kept) -> Result<(), NoMemory>
    ensures { OnOk result (names.new ≡ with_names names.old (names_of (program_of kept.now))) }
{
    match kept.program() {
        Some(statements) => intern_block(alloc, names, statements.as_slice()),
        None => Ok(()),
    }
}

fn intern_block(alloc: Global, names: &mut Names, statements: &[Stmt]) -> Result<(), NoMemory>
    ensures { OnOk result (names.new ≡ with_names names.old (names_in (view_block statements.now))) }
{
    for s in statements {
        intern_bound(names, s)?;
        intern_used(alloc, names, s)?;
    }
    Ok(())
}

fn intern_bound(names: &mut Names, s: &Stmt) -> Result<(), NoMemory>
    ensures { OnOk result (names.new ≡ with_names names.old (one_name (name_bound (assigned (view_stmt s.now))))) }
{
    if let Some(name) = bound_name(s) {
        names.intern(name)?;
    }
    Ok(())
}

fn intern_used(alloc: Global, names: &mut Names, s: &Stmt) -> Result<(), NoMemory>
    ensures { OnOk result (names.new ≡ with_names names.old (names_read (assigned (view_stmt s.now)))) }
{
    let used = used_names(alloc, s)?;
    intern_all(names, used.as_slice())
}

fn intern_all(names: &mut Names, texts: &[PyText]) -> Result<(), NoMemory>
    ensures { OnOk result (names.new ≡ with_names names.old texts.now) }
{
    for text in texts {
        names.intern(text)?;
    }
    Ok(())
}
