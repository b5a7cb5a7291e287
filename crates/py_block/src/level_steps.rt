// The open levels after one line more, and the cell when no more lines follow.
ghost use Rattle.std.specs.Prelude.{◌≡◌, ◌==◌, ◌<◌, ◌+◌, ◌↔◌, length, [], Ok, true, IfOk, IsTrue};
ghost use Rattle.py_block.specs.LevelAnswers.{IsAllClosed, IsCell, IsClosed, IsClosedInto, IsDeeper, IsDown, IsEntered, IsFinished, IsPutAt, IsReached, IsRefilled};
ghost use Rattle.py_block.specs.LevelViews.{opened_of, row_numbers, row_of};
ghost use Rattle.py_block.specs.Machine as machine;
ghost use Rattle.py_block.specs.Opened.{IsEnded, IsPlaced};

use crate::level_blocks::{filled, settled};
use crate::level_lines::on_line;
use crate::level_parts::{Last, Open, Outer, Place, Row, Waiting, body_within};
use flow_base::{NoMemory, Shared};
use py_ast::{Cell, Stmt};
use py_line::LineForm;
use std::alloc::Global;
use std::mem;

/// A level without statements.
#[tactic(auto, using(crate::proofs::LevelLists::no_block_numbers))]
pub(crate) fn empty_row(alloc: Global) -> Row
    ensures same { row_of result ≡ ([], machine.nothing) }
    ensures numbers { row_numbers result ≡ [] }
{
    Row {
        done: Vec::new(alloc),
        last: Last::Nothing,
    }
}

// ---- a level that is closed

// The level round the innermost in its place, with the block that the innermost was.
fn refill(
    alloc: Global,
    levels: &mut Open,
    outer: Outer,
    block: Vec<Stmt>,
) -> Result<bool, NoMemory>
    ensures { IsRefilled levels.old outer block.items result levels.new }
{
    let Outer {
        place,
        done,
        waiting,
    } = outer;
    let block = Shared::from_vec(alloc, block)?;
    let last = filled(alloc, waiting, block)?;
    levels.place = place;
    levels.row = Row { done, last };
    Ok(true)
}

fn close_into(alloc: Global, levels: &mut Open, outer: Outer) -> Result<bool, NoMemory>
    ensures { IsClosedInto levels.old outer result levels.new }
{
    let Row { done, last } = mem::replace(&mut levels.row, empty_row(alloc));
    match settled(alloc, done, last) {
        Ok(Some(block)) => refill(alloc, levels, outer, block),
        Ok(None) => Ok(false),
        Err(fault) => Err(fault),
    }
}

// Closes the innermost level. `false` where there is no level round it, or its last statement must get more.
fn close(alloc: Global, levels: &mut Open) -> Result<bool, NoMemory>
    ensures closed { IsClosed (opened_of levels.old) result (opened_of levels.new) }
    ensures shorter { result ≡ Ok true → length levels.new.outers.items < length levels.old.outers.items }
{
    match levels.outers.pop() {
        Some(outer) => close_into(alloc, levels, outer),
        None => Ok(false),
    }
}

// Closes levels until the innermost stands at a depth.
fn close_down(alloc: Global, levels: &mut Open, deep: u32) -> Result<bool, NoMemory>
    ensures { IsReached (opened_of levels.old) deep result (opened_of levels.new) }
{
    while levels.place.deep != deep {
        match close(alloc, levels) {
            Ok(true) => {}
            Ok(false) => return Ok(false),
            Err(fault) => return Err(fault),
        }
    }
    Ok(true)
}

fn is_outermost(levels: &Open) -> bool
    ensures { result ≡ (length levels.now.outers.items == 0) }
{
    levels.outers.as_slice().is_empty()
}

// Closes levels until one is levels.
fn close_all(alloc: Global, levels: &mut Open) -> Result<bool, NoMemory>
    ensures { IsAllClosed levels.old result levels.new }
{
    while !is_outermost(levels) {
        match close(alloc, levels) {
            Ok(true) => {}
            Ok(false) => return Ok(false),
            Err(fault) => return Err(fault),
        }
    }
    Ok(true)
}

// ---- a line

// Puts a line at the innermost level.
fn put(alloc: Global, levels: &mut Open, form: LineForm) -> Result<bool, NoMemory>
    ensures { IsPutAt (opened_of levels.old) form result (opened_of levels.new) }
{
    let row = mem::replace(&mut levels.row, empty_row(alloc));
    match on_line(alloc, levels.place, row, form) {
        Ok(Some(row)) => {
            levels.row = row;
            Ok(true)
        }
        Ok(None) => Ok(false),
        Err(fault) => Err(fault),
    }
}

// Places a line where no block is waited for.
fn down(
    alloc: Global,
    levels: &mut Open,
    row: Row,
    deep: u32,
    form: LineForm,
) -> Result<bool, NoMemory>
    ensures { IsDown levels.old row deep form result (opened_of levels.new) }
{
    levels.row = row;
    match close_down(alloc, levels, deep) {
        Ok(true) => put(alloc, levels, form),
        Ok(false) => {
            drop(form);
            Ok(false)
        }
        Err(fault) => {
            drop(form);
            Err(fault)
        }
    }
}

// Opens the level of a block that is waited for.
fn deepen(
    alloc: Global,
    levels: &mut Open,
    done: Vec<Stmt>,
    waiting: Waiting,
    deep: u32,
) -> Result<(), NoMemory>
    requires { levels.old.place.deep + 1 ≡ deep }
    ensures { IfOk result (λ _. IsDeeper levels.old done waiting (opened_of levels.new)) }
{
    let body = body_within(levels.place, &waiting);
    let outer = Outer {
        place: levels.place,
        done,
        waiting,
    };
    levels.outers.push(outer)?;
    levels.place = Place { deep, body };
    levels.row = empty_row(alloc);
    Ok(())
}

fn is_one_below(place: Place, deep: u32) -> bool
    ensures { IsTrue result ↔ (place.deep + 1 ≡ deep) }
{
    deep != 0 && deep - 1 == place.deep
}

// Places the first line of a block that is waited for.
fn enter(
    alloc: Global,
    levels: &mut Open,
    done: Vec<Stmt>,
    waiting: Waiting,
    deep: u32,
    form: LineForm,
) -> Result<bool, NoMemory>
    ensures { IsEntered levels.old done waiting deep form result (opened_of levels.new) }
{
    if is_one_below(levels.place, deep) {
        match deepen(alloc, levels, done, waiting, deep) {
            Ok(()) => put(alloc, levels, form),
            Err(fault) => {
                drop(form);
                Err(fault)
            }
        }
    } else {
        drop(done);
        drop(waiting);
        drop(form);
        Ok(false)
    }
}

/// Places a line at its depth.
pub(crate) fn step(
    alloc: Global,
    levels: &mut Open,
    deep: u32,
    form: LineForm,
) -> Result<bool, NoMemory>
    ensures { IsPlaced (opened_of levels.old) deep form result (opened_of levels.new) }
{
    let Row { done, last } = mem::replace(&mut levels.row, empty_row(alloc));
    match last {
        Last::Waits(waiting) => enter(alloc, levels, done, waiting, deep, form),
        Last::Nothing => down(
            alloc,
            levels,
            Row {
                done,
                last: Last::Nothing,
            },
            deep,
            form,
        ),
        Last::Whole(x) => down(
            alloc,
            levels,
            Row {
                done,
                last: Last::Whole(x),
            },
            deep,
            form,
        ),
        Last::After(after) => down(
            alloc,
            levels,
            Row {
                done,
                last: Last::After(after),
            },
            deep,
            form,
        ),
    }
}

// ---- the end

fn cell_of(alloc: Global, statements: Vec<Stmt>) -> Result<Option<Cell>, NoMemory>
    ensures { IfOk result (IsCell statements.items) }
{
    let statements = Shared::from_vec(alloc, statements)?;
    Ok(Some(Cell { statements }))
}

fn finished(alloc: Global, row: Row) -> Result<Option<Cell>, NoMemory>
    ensures { IfOk result (IsFinished row) }
{
    let Row { done, last } = row;
    match settled(alloc, done, last) {
        Ok(Some(statements)) => cell_of(alloc, statements),
        Ok(None) => Ok(None),
        Err(fault) => Err(fault),
    }
}

/// The cell, or `None` where the lines end too early.
pub(crate) fn ended(alloc: Global, mut levels: Open) -> Result<Option<Cell>, NoMemory>
    ensures { IsEnded (opened_of levels) result }
{
    match close_all(alloc, &mut levels) {
        Ok(true) => finished(alloc, levels.row),
        Ok(false) => Ok(None),
        Err(fault) => Err(fault),
    }
}
