// Texts and lists of values, joined and repeated.
ghost use Rattle.std.specs.Prelude.{◌≡◌, ◌++◌, IfOk};
ghost use Rattle.interp_ops.specs.Operators.{repeated, turns};

use flow_base::{NoMemory, PyText, Shared};
use heap_objects::{Value, Values};
use std::alloc::Global;

/// Some values with others behind them.
pub(crate) fn joined_values(alloc: Global, xs: &[Value], ys: &[Value]) -> Result<Values, NoMemory>
    ensures { IfOk result (λ all. all ≡ xs.now ++ ys.now) }
{
    let begun = with_values(Vec::new(alloc), xs)?;
    Shared::from_vec(alloc, with_values(begun, ys)?)
}

/// Some code points with others behind them.
pub(crate) fn joined_texts(alloc: Global, s: &PyText, t: &PyText) -> Result<PyText, NoMemory>
    ensures { IfOk result (λ all. all ≡ s.now ++ t.now) }
{
    let begun = with_points(Vec::new(alloc), s.as_slice())?;
    PyText::from_points(alloc, with_points(begun, t.as_slice())?)
}

/// So many times the same values.
pub(crate) fn repeated_values(alloc: Global, xs: &[Value], count: u128) -> Result<Values, NoMemory>
    ensures { IfOk result (λ all. all ≡ repeated count xs.now) }
{
    let mut all = Vec::new(alloc);
    let mut left = turns(xs.len(), count);
    while left != 0 {
        left -= 1;
        all = with_values(all, xs)?;
    }
    Shared::from_vec(alloc, all)
}

/// So many times the same code points.
pub(crate) fn repeated_text(alloc: Global, t: &[char], count: u128) -> Result<PyText, NoMemory>
    ensures { IfOk result (λ all. all ≡ repeated count t.now) }
{
    let mut all = Vec::new(alloc);
    let mut left = turns(t.len(), count);
    while left != 0 {
        left -= 1;
        all = with_points(all, t)?;
    }
    PyText::from_points(alloc, all)
}

// How many turns repeat a list of a length so many times. An empty one takes none.
fn turns(len: usize, count: u128) -> u128
    ensures { result ≡ turns len count }
{
    if len == 0 { 0 } else { count }
}

fn with_values(begun: Vec<Value>, more: &[Value]) -> Result<Vec<Value>, NoMemory>
    ensures { IfOk result (λ all. all.items ≡ begun.items ++ more.now) }
{
    let mut all = begun;
    for v in more {
        all.push(v.copy()?)?;
    }
    Ok(all)
}

fn with_points(begun: Vec<char>, more: &[char]) -> Result<Vec<char>, NoMemory>
    ensures { IfOk result (λ all. all.items ≡ begun.items ++ more.now) }
{
    let mut all = begun;
    all.extend_from_slice(more)?;
    Ok(all)
}
