// The line ends of a text.
ghost use Rattle.std.specs.Prelude.{◌≡◌, ◌≤◌, ◌==◌, ◌&&◌, if◌then◌else◌, IfOk, length};
ghost use Rattle.py_block.specs.Parsed.{with_line_ends};

use flow_base::{NoMemory, PyText};
use std::alloc::Global;

/// The text with `\n` for each `\r\n` and each other `\r`.
pub(crate) fn line_ends(alloc: Global, text: &PyText) -> Result<PyText, NoMemory>
    ensures is { IfOk result (λ out. out ≡ with_line_ends text.now) }
    ensures few { IfOk result (λ out. length out ≤ length text.now) }
{
    PyText::from_points(alloc, points_of(alloc, text.as_slice())?)
}

fn points_of(alloc: Global, text: &[char]) -> Result<Vec<char>, NoMemory>
    ensures is { IfOk result (λ out. out.items ≡ with_line_ends text.now) }
    ensures few { IfOk result (λ out. length out.items ≤ length text.now) }
{
    let mut out = Vec::new(alloc);
    let mut behind = false;
    for c in text {
        if !is_second(behind, *c) {
            out.push(end_of(*c))?;
        }
        behind = *c == '\r';
    }
    Ok(out)
}

fn end_of(c: char) -> char
    ensures { result ≡ (if c == 13 then 10 else c) }
{
    if c == '\r' { '\n' } else { c }
}

// Whether a code point is the second of a `\r\n`.
fn is_second(behind: bool, c: char) -> bool
    ensures { result ≡ (behind && (c == 10)) }
{
    behind && c == '\n'
}
