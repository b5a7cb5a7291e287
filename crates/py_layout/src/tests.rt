// Tables of texts and their logical lines, by the line structure of the Python language reference where this language
// follows it.
use crate::{LayoutFault, Lines, layout};
use flow_base::{NoMemory, PyText};
use py_lexer::{LexFault, lex};
use std::alloc::Global;
use std::test::Fail;

// The first token, the end, the depth and the line of each logical line.
fn shown(a: Global, lines: &Lines) -> Result<String, NoMemory> {
    let mut out = String::new(a);
    for l in lines.as_slice() {
        out.push_str(format!(in a; "{}-{} {} {}|", l.first, l.end, l.depth, l.line)?.as_str())?;
    }
    Ok(out)
}

// The logical lines of a text, or the line that is refused.
fn lines_of(a: Global, text: &str) -> Result<String, NoMemory> {
    let text = PyText::from_str(a, text)?;
    if text.len() >= 1000 {
        return Ok(String::new(a));
    }
    let tokens = match lex(a, &text) {
        Ok(tokens) => tokens,
        Err(LexFault::At(line)) => return Ok(format!(in a; "lex {line}")?),
        Err(LexFault::NoMemory) => return Err(NoMemory),
    };
    match layout(a, &text, &tokens) {
        Ok(lines) => shown(a, &lines),
        Err(LayoutFault::At(line)) => Ok(format!(in a; "line {line}")?),
        Err(LayoutFault::NoMemory) => Err(NoMemory),
    }
}

#[test]
fn logical_lines(rt: HostRuntime) -> Result<(), Fail> {
    for (text, want) in [
        ("", ""),
        ("x = 1\n", "0-3 0 1|"),
        ("if x:\n\ty", "line 2"),
        ("if x:\n  \ty", "line 2"),
        ("if x:\n  y\n z", "line 3"),
        (" x", "0-1 1 1|"),
        ("a\n\n  # c\n\t\nb", "0-1 0 1|5-6 0 5|"),
        ("a(\n\tb)\n", "0-4 0 1|"),
        ("    \\\nx", "0-1 1 2|"),
        (
            "a\n  b\n    c\n  d\ne",
            "0-1 0 1|2-3 1 2|4-5 2 3|6-7 1 4|8-9 0 5|",
        ),
        ("a\n  b\nc\n    d", "0-1 0 1|2-3 1 2|4-5 0 3|6-7 1 4|"),
        ("a\n  b\n\n  c", "0-1 0 1|2-3 1 2|5-6 1 4|"),
        ("a\n    b\n  c", "line 3"),
        ("'''\n\t''' \n b", "0-1 0 1|2-3 1 3|"),
    ] {
        assert!(rt; lines_of(rt.alloc(), text)?.as_str() == want, "{text}");
    }
    Ok(())
}
