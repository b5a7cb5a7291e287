// What a run of a plain cell does. Each function here gives what its definition gives and leaves the machine as it does, unless memory is
// wanting.
ghost use Rattle.std.specs.Prelude.{◌≡◌, Some, Ok, IfOk, OnOk};
ghost use Rattle.py_ast.specs.Statement.{view_stmt, view_block};
ghost use Rattle.py_ast.specs.View.{view};
ghost use Rattle.plain_cells.specs.Run as spec;
ghost use Rattle.plain_cells.specs.Run.{Outcome, Runs, closed};

use crate::machine::{End, Finished, Machine, Stop};
use crate::plain::only_name;
use containers::{Sequence, Values};
use flow_base::{Event, How, Loc, Names, NoMemory, ObjRef, PyText, Sym};
use py_ast::{BinaryOp, Expr, Stmt};
use py_scalars::add;
use std::alloc::Global;

/// Runs the statements of a plain cell with these values and at most so many steps: one for each statement, and one for each node of its
/// expression. What was written before the end stays.
#[tactic(auto, unfolding(crate::specs::Run::run_of))]
pub fn run(
    alloc: Global,
    names: &Names,
    values: Values,
    steps: u32,
    statements: &[Stmt],
) -> Result<Finished, NoMemory>
    ensures { IfOk result (λ ran. (ran.end, ran.machine) ≡ spec.run_of names.now values steps (view_block statements.now)) }
{
    let mut machine = Machine {
        left: steps,
        values,
        events: Sequence::new(alloc),
    };
    match exec_all(&mut machine, names, statements) {
        Ok(()) => Ok(Finished {
            end: End::Done,
            machine,
        }),
        Err(Stop::Ended(end)) => Ok(Finished { end, machine }),
        Err(Stop::NoMemory) => {
            drop(machine);
            Err(NoMemory)
        }
    }
}

// One step, or the end of the run where none is left.
#[tactic(auto, unfolding(crate::specs::Run::step))]
fn step(m: &mut Machine) -> Result<(), Stop>
    ensures { Runs (spec.step m.old) result m.new }
{
    if m.left == 0 {
        return Err(Stop::Ended(End::Steps));
    }
    m.left -= 1;
    Ok(())
}

#[tactic(auto, unfolding(crate::specs::Run::log))]
fn log(m: &mut Machine, event: Event) -> Result<(), NoMemory>
    ensures { OnOk result (spec.log event m.old ≡ (Ok tt, m.new)) }
{
    m.events.push(event)
}

/// The location of a name of the global frame, which is object 0.
pub fn global(s: Sym) -> Loc
    ensures { result ≡ spec.global s }
{
    Loc::Name(ObjRef(0), s)
}

// The value of a name, which is used.
#[tactic(auto, unfolding(crate::specs::Run::load, crate::specs::Run::log))]
fn load(m: &mut Machine, names: &Names, x: &PyText) -> Result<i128, Stop>
    ensures { Runs (spec.load names.now x.now m.old) result m.new }
{
    let Some(s) = names.known(x) else {
        return Err(Stop::Ended(End::NameError));
    };
    let value = m.values.get(s);
    log(m, Event::Use(global(s)))?;
    match value {
        Some(v) => Ok(v),
        None => Err(Stop::Ended(End::NameError)),
    }
}

#[tactic(auto, unfolding(crate::specs::Run::store, crate::specs::Run::log))]
fn store(m: &mut Machine, names: &Names, x: &PyText, v: i128) -> Result<(), Stop>
    ensures { Runs (spec.store names.now x.now v m.old) result m.new }
{
    let Some(s) = names.known(x) else {
        return Ok(());
    };
    m.values.set(s, v)?;
    log(m, Event::Write(global(s)))?;
    Ok(())
}

// A sum that an i128 does not hold ends the run at once.
#[tactic(auto, unfolding(crate::specs::Run::whole))]
fn eval(m: &mut Machine, names: &Names, e: &Expr) -> Result<i128, Stop>
    ensures { Runs (spec.eval names.now (view e.now) m.old) result m.new }
{
    match e {
        Expr::Name(_, x) => {
            step(m)?;
            load(m, names, x)
        }
        Expr::Number(_, n) => {
            step(m)?;
            Ok(*n)
        }
        Expr::Binary(_, a, BinaryOp::Add, b) => {
            step(m)?;
            let x = eval(m, names, a.get())?;
            let y = eval(m, names, b.get())?;
            match add(x, y) {
                Ok(n) => Ok(n),
                Err(_) => Err(Stop::Ended(End::Range)),
            }
        }
        _ => Ok(0),
    }
}

// The value of the expression becomes that of the name.
fn bind(m: &mut Machine, names: &Names, x: &PyText, e: &Expr) -> Result<(), Stop>
    ensures { Runs (spec.bind names.now (x.now, view e.now) m.old) result m.new }
{
    let v = eval(m, names, e)?;
    store(m, names, x, v)
}

// Closes a statement whose parts ended so: normally or with an error; where the run ended for another reason, nothing more happens.
#[tactic(auto, unfolding(crate::specs::Run::log))]
fn close(m: &mut Machine, ended: Result<(), Stop>) -> Result<(), Stop>
    ensures { (outcome : Outcome (Unit {0})) → Runs outcome ended m.old → Runs (closed outcome.0 outcome.1) result m.new }
{
    match ended {
        Ok(()) => {
            log(m, Event::Close(How::Normal))?;
            Ok(())
        }
        Err(Stop::Ended(End::NameError)) => {
            log(m, Event::Close(How::Raise))?;
            Err(Stop::Ended(End::NameError))
        }
        Err(Stop::Ended(End::Done)) => Err(Stop::Ended(End::Done)),
        Err(Stop::Ended(End::Steps)) => Err(Stop::Ended(End::Steps)),
        Err(Stop::Ended(End::Range)) => Err(Stop::Ended(End::Range)),
        Err(Stop::NoMemory) => Err(Stop::NoMemory),
    }
}

// A statement `NAME = E`.
#[tactic(auto, unfolding(crate::specs::Run::closing))]
fn assign(m: &mut Machine, names: &Names, x: &PyText, e: &Expr) -> Result<(), Stop>
    ensures { Runs (spec.assign names.now (Some (x.now, view e.now)) m.old) result m.new }
{
    step(m)?;
    log(m, Event::Open)?;
    let ended = bind(m, names, x, e);
    close(m, ended)
}

fn exec(m: &mut Machine, names: &Names, s: &Stmt) -> Result<(), Stop>
    ensures { Runs (spec.exec names.now (view_stmt s.now) m.old) result m.new }
{
    match s {
        Stmt::Assign(_, targets, e) => match only_name(targets.as_slice()) {
            Some(x) => assign(m, names, x, e),
            None => Ok(()),
        },
        _ => Ok(()),
    }
}

fn exec_all(m: &mut Machine, names: &Names, statements: &[Stmt]) -> Result<(), Stop>
    ensures { Runs (spec.exec_all names.now (view_block statements.now) m.old) result m.new }
{
    for s in statements {
        exec(m, names, s)?;
    }
    Ok(())
}
