// The ask that a line has.
ghost use Rattle.std.specs.Prelude.{◌≡◌, ℕ, codes, Ok, IfOk, MatchResult};
ghost use Rattle.std.specs.List.{list_all};
ghost use Rattle.serde_json.specs.View.{view};

use flow_base::{NoMemory, PyText};
use serde_json::Value;
use std::alloc::Global;
use std::str;
use thiserror::Error;

/// What a line asks for. Each ask names a cell by 1 to 64 ASCII letters, digits, `_` or `-`.
#[derive(Drop)]
pub enum Ask {
    /// The cell is to have this text.
    Edit { cell: PyText, text: PyText },
    /// The cell is to be run, with so many steps at most, or with the kernel's own number of steps where none is given.
    Run { cell: PyText, steps: Option<u64> },
    /// The cell is to be shown.
    Show { cell: PyText },
}

/// Why a line has no ask: the first of these that holds. Want of memory may come in place of each.
#[derive(Clone, Copy, Debug, PartialEq, Eq, Error)]
pub enum BadAsk {
    /// The line is not UTF-8 (RFC 3629).
    #[error("the line is not UTF-8")]
    Utf8,
    /// The line is no JSON text (RFC 8259), nests deeper than 127 arrays and objects, or has a number past every float
    /// or an escape of half a pair of surrogates.
    #[error("the line is not JSON")]
    Json,
    /// The line is none of the objects that ask for something, each with exactly its keys.
    #[error("the line has the shape of no event")]
    Shape,
    /// Memory was wanting.
    #[error("out of memory")]
    NoMemory,
}

ghost use Rattle.flow_wire.specs.declared.ask.BadAsk.TheVariants.{NoMemory as OutOfMemory};

impl From<NoMemory> for BadAsk {
    ghost from_gives = { λ _ e. e ≡ OutOfMemory };

    fn from(_: NoMemory) -> Self {
        BadAsk::NoMemory
    }
}

ghost use Rattle.flow_wire.specs.Asked.{IsBad, ask_of_line, data_of_line, ask_of, edit_of, run_of, show_of, cell_at, text_at, is_event, has_members, is_cell_name, is_cell_char};

/// Reads a line, which stands here without its line feed, as JSON (RFC 8259). Of a key that stands twice in an object
/// the last value counts.
pub fn read_ask(alloc: Global, line: &[u8]) -> Result<Ask, BadAsk>
    ensures { MatchResult result
        (λ ask. ask_of_line line.now ≡ Ok ask)
        (λ bad. IsBad bad (ask_of_line line.now)) }
{
    let value = read_value(alloc, line)?;
    find_ask(alloc, &value)
}

#[tactic(auto, using(crate::proofs::Lines::data_of_other))]
fn read_value(alloc: Global, line: &[u8]) -> Result<Value, BadAsk>
    ensures { MatchResult result
        (λ value. data_of_line line.now ≡ Ok (view value))
        (λ bad. IsBad bad (data_of_line line.now)) }
{
    let Ok(text) = str::from_utf8(line) else {
        return Err(BadAsk::Utf8);
    };
    match Value::from_str(alloc, text) {
        Ok(value) => Ok(value),
        Err(e) => {
            if e.is_memory() {
                return Err(BadAsk::NoMemory);
            }
            Err(BadAsk::Json)
        }
    }
}

fn find_ask(alloc: Global, value: &Value) -> Result<Ask, BadAsk>
    ensures { MatchResult result
        (λ ask. ask_of (view value.now) ≡ Ok ask)
        (λ bad. IsBad bad (ask_of (view value.now))) }
{
    if let Some(ask) = read_edit(alloc, value)? {
        return Ok(ask);
    }
    if let Some(ask) = read_run(alloc, value)? {
        return Ok(ask);
    }
    if let Some(ask) = read_show(alloc, value)? {
        return Ok(ask);
    }
    Err(BadAsk::Shape)
}

fn read_edit(alloc: Global, value: &Value) -> Result<Option<Ask>, NoMemory>
    ensures { IfOk result (λ ask. ask ≡ edit_of (view value.now)) }
{
    if !(is_event(value, "edit") && has_members(value, 3)) {
        return Ok(None);
    }
    let Some(cell) = read_cell(alloc, value)? else {
        return Ok(None);
    };
    let Some(text) = read_text(alloc, value, "text")? else {
        return Ok(None);
    };
    Ok(Some(Ask::Edit { cell, text }))
}

fn read_run(alloc: Global, value: &Value) -> Result<Option<Ask>, NoMemory>
    ensures { IfOk result (λ ask. ask ≡ run_of (view value.now)) }
{
    if !(is_event(value, "run") && has_members(value, 2)) {
        return Ok(None);
    }
    let Some(cell) = read_cell(alloc, value)? else {
        return Ok(None);
    };
    Ok(Some(Ask::Run { cell, steps: None }))
}

fn read_show(alloc: Global, value: &Value) -> Result<Option<Ask>, NoMemory>
    ensures { IfOk result (λ ask. ask ≡ show_of (view value.now)) }
{
    if !(is_event(value, "show") && has_members(value, 2)) {
        return Ok(None);
    }
    let Some(cell) = read_cell(alloc, value)? else {
        return Ok(None);
    };
    Ok(Some(Ask::Show { cell }))
}

fn read_cell(alloc: Global, value: &Value) -> Result<Option<PyText>, NoMemory>
    ensures { IfOk result (λ cell. cell ≡ cell_at (view value.now)) }
{
    let Some(cell) = read_text(alloc, value, "cell")? else {
        return Ok(None);
    };
    if !is_cell_name(&cell) {
        return Ok(None);
    }
    Ok(Some(cell))
}

fn read_text(alloc: Global, value: &Value, key: &str) -> Result<Option<PyText>, NoMemory>
    ensures { IfOk result (λ text. text ≡ text_at key.now (view value.now)) }
{
    let Some(text) = value.get(key).and_then(Value::as_str) else {
        return Ok(None);
    };
    Ok(Some(PyText::from_str(alloc, text)?))
}

fn is_event(value: &Value, name: &str) -> bool
    ensures { result ≡ is_event name.now (view value.now) }
{
    match value.get("event").and_then(Value::as_str) {
        Some(event) => event == name,
        None => false,
    }
}

// An object with so many members and no more.
fn has_members(value: &Value, n: usize) -> bool
    ensures { result ≡ has_members n (view value.now) }
{
    match value.as_object() {
        Some(members) => members.len() == n,
        None => false,
    }
}

fn is_cell_name(name: &PyText) -> bool
    ensures { result ≡ is_cell_name name.now }
{
    if name.len() < 1 || name.len() > 64 {
        return false;
    }
    all_cell_chars(name.as_slice())
}

fn all_cell_chars(points: &[char]) -> bool
    ensures { result ≡ list_all is_cell_char points.now }
{
    points.iter().all(|c| is_cell_char(*c))
}

fn is_cell_char(c: char) -> bool
    ensures { result ≡ is_cell_char c }
{
    matches!(c, '0'..='9' | 'A'..='Z' | 'a'..='z' | '_' | '-')
}
