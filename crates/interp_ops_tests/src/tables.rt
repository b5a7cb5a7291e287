// Rows of a table: an operation and its values in words, and behind `→` what it gives, the letters of its events (or `-`) and its steps.
// `¦` stands between rows.
use crate::calls::{apply, texts};
use crate::told::{Given, told};
use crate::words::values_of;
use flow_base::{NoMemory, RunNo};
use heap_objects::Value;
use interp_ops::Machine;
use std::alloc::Global;
use std::process::Abort;

// How many steps a run has, how many evaluations are open when it begins, and whether its events are told in full.
#[derive(Clone, Copy)]
pub(crate) struct Start {
    pub steps: u32,
    pub depth: u32,
    pub in_full: bool,
}

fn operand(values: &[Value], i: usize) -> Result<Value, NoMemory> {
    match values.get(i) {
        Some(v) => v.copy(),
        None => Ok(Value::Nil),
    }
}

fn given(m: &mut Machine, op: &str, values: &[Value]) -> Result<Given, NoMemory> {
    let x = operand(values, 0)?;
    if op == "repr" || op == "str" {
        return Ok(Given::Text(texts(m, op, &x)));
    }
    let y = operand(values, 1)?;
    let z = operand(values, 2)?;
    Ok(Given::Value(apply(m, op, &x, &y, &z)))
}

fn answer(a: Global, start: Start, row: &str) -> Result<String, NoMemory> {
    let mut m = Machine::new(a)?;
    let (op, words) = match row.split_once(' ') {
        Some(parts) => parts,
        None => (row, "None"),
    };
    let values = values_of(&mut m, words)?;
    m.heap.begin_run(RunNo(1));
    m.left = start.steps;
    m.depth = start.depth;
    let given = given(&mut m, op, values.as_slice())?;
    told(m, start.steps, start.in_full, given)
}

fn told_so(rt: &impl Abort, a: Global, start: Start, row: &str) -> Result<(), NoMemory> {
    let (given, want) = row.split_once('→').expect(rt, "a row");
    let got = answer(a, start, given.trim())?;
    assert_eq!(rt; got.as_str().trim(), want.trim(), "{given}");
    Ok(())
}

pub(crate) fn rows_from(
    rt: &impl Abort,
    a: Global,
    start: Start,
    rows: &str,
) -> Result<(), NoMemory> {
    for row in rows.split('¦') {
        told_so(rt, a, start, row)?;
    }
    Ok(())
}

pub(crate) fn rows(rt: &impl Abort, a: Global, rows: &str) -> Result<(), NoMemory> {
    let start = Start {
        steps: 1000,
        depth: 0,
        in_full: false,
    };
    rows_from(rt, a, start, rows)
}
