// Texts with the number of nodes of the cell that they spell or with their fault, and nodes with the lines in which they begin. The wanted
// values are by hand, by the rules of blocks and the order of the kinds of faults.
ghost use Rattle.std.specs.Prelude.{◌<◌, ◌-◌, ◌^◌, length};
ghost use Rattle.py_ast.specs.Nodes.{IsNumbered};
ghost use Rattle.py_block.specs.Answer.{IsCellOf};

use flow_base::{NoMemory, PyText, SyntaxKind};
use py_ast::{Cell, size};
use py_block::{SyntaxFault, line_of, parse};
use std::alloc::Global;
use std::test::Fail;

// A number over the largest, which is 170141183460469231731687303715884105727.
const WIDE: &str = "170141183460469231731687303715884105728";

fn kind_name(kind: SyntaxKind) -> &'static str {
    match kind {
        SyntaxKind::Lex => "lex",
        SyntaxKind::Layout => "layout",
        SyntaxKind::Unsupported => "unsupported",
        SyntaxKind::Limit => "limit",
        SyntaxKind::Syntax => "syntax",
        SyntaxKind::Scope => "scope",
    }
}

fn nodes(a: Global, cell: &Cell) -> Result<String, NoMemory>
    requires { IsNumbered cell.now }
{
    let n = size(cell);
    Ok(format!(in a; "{n}")?)
}

// `5` for a cell of five nodes, `syntax 2` for a fault on line 2.
fn told(a: Global, text: &str) -> Result<String, NoMemory> {
    let text = PyText::from_str(a, text)?;
    if text.len() >= 100_000 {
        return Ok(String::new(a));
    }
    match parse(a, &text) {
        Ok(cell) => {
            let shown = nodes(a, &cell);
            drop(cell);
            shown
        }
        Err(SyntaxFault::At { line, kind }) => {
            let kind = kind_name(kind);
            Ok(format!(in a; "{kind} {line}")?)
        }
        Err(SyntaxFault::NoMemory) => Err(NoMemory),
    }
}

fn is_told(a: Global, text: &str, want: &str) -> Result<bool, NoMemory> {
    let said = told(a, text)?;
    Ok(said.as_str() == want)
}

#[test]
fn depths_of_lines(rt: HostRuntime) -> Result<(), Fail> {
    for (text, want) in [
        ("", "0"),
        ("\n  \n", "0"),
        ("# c", "0"),
        ("a\n# c", "2"),
        ("if a:\n  b\n# c", "4"),
        ("if a:\n# c", "syntax 1"),
        (" a", "syntax 1"),
        ("a\n  b", "syntax 2"),
        ("if a:\n  b", "4"),
        ("if a:\nb", "syntax 2"),
        ("if a:", "syntax 1"),
        ("a\nif b:\n", "syntax 2"),
        ("if a: b\n  c", "syntax 2"),
        ("if a:\n  b\n  c\nd", "8"),
        ("if a:\n  if b:\n    c\n  d\ne", "10"),
        ("if a:\n  b\n    c", "syntax 3"),
    ] {
        assert!(rt; is_told(rt.alloc(), text, want)?, "{text}");
    }
    Ok(())
}

#[test]
fn parts_of_if(rt: HostRuntime) -> Result<(), Fail> {
    for (text, want) in [
        ("if a: b\nelif c: d\nelse: e", "9"),
        ("if a:\n  if b: c\nelse: d", "8"),
        ("if a:\n  if b: c\n  else: d", "8"),
        ("elif a: b", "syntax 1"),
        ("else: a", "syntax 1"),
        ("a\nelse: b", "syntax 2"),
        ("if a: b\nelse: c\nelse: d", "syntax 3"),
        ("if a: b\nelse: c\nelif d: e", "syntax 3"),
        ("if a: b\nc\nelse: d", "syntax 3"),
        ("if a:\n  b\n  else: c", "syntax 3"),
        ("if a: b\nexcept: c", "syntax 2"),
        ("if a: b\nfinally: c", "syntax 2"),
    ] {
        assert!(rt; is_told(rt.alloc(), text, want)?, "{text}");
    }
    Ok(())
}

#[test]
fn parts_of_loops(rt: HostRuntime) -> Result<(), Fail> {
    for (text, want) in [
        ("while a: b\nelse: c", "6"),
        ("for x in a: b\nelse: c", "7"),
        ("while a: b\nelse: c\nelse: d", "syntax 3"),
        ("for x in a: b\nelse: c\nelse: d", "syntax 3"),
        ("while a: b\nelif c: d", "syntax 2"),
        ("for x in a: b\nelif c: d", "syntax 2"),
        ("def f(): pass\nelse: c", "syntax 2"),
        ("class C: pass\nelse: c", "syntax 2"),
    ] {
        assert!(rt; is_told(rt.alloc(), text, want)?, "{text}");
    }
    Ok(())
}

#[test]
fn parts_of_try(rt: HostRuntime) -> Result<(), Fail> {
    for (text, want) in [
        ("try: a\nexcept: b", "6"),
        ("try: a\nfinally: b", "5"),
        ("try:\n  a\nexcept E:\n  b\n", "7"),
        ("try: a\nexcept E: b\nexcept: c", "10"),
        ("try: a\nexcept: b\nelse: c\nfinally: d", "10"),
        ("try: a", "syntax 1"),
        ("try: a\nb", "syntax 2"),
        ("try: a\nelse: b", "syntax 2"),
        ("if a:\n  try: b", "syntax 2"),
        ("def f():\n  try: a\nb", "syntax 3"),
        ("try: a\nexcept: b\nexcept E: c", "syntax 3"),
        ("try: a\nexcept: b\nexcept: c", "syntax 3"),
        ("try: a\nfinally: b\nexcept: c", "syntax 3"),
        ("try: a\nfinally: b\nfinally: c", "syntax 3"),
        ("try: a\nexcept: b\nelse: c\nexcept E: d", "syntax 4"),
        ("try: a\nexcept: b\nelse: c\nelse: d", "syntax 4"),
        ("try: a\nexcept E as x: b\nfinally: c\nelse: d", "syntax 4"),
        ("except: a", "syntax 1"),
        ("a\nfinally: b", "syntax 2"),
    ] {
        assert!(rt; is_told(rt.alloc(), text, want)?, "{text}");
    }
    Ok(())
}

#[test]
fn places_of_jumps(rt: HostRuntime) -> Result<(), Fail> {
    for (text, want) in [
        ("return", "syntax 1"),
        ("a; return b", "syntax 1"),
        ("def f(): return a", "3"),
        ("def f():\n  if a: return", "4"),
        ("class C: return", "syntax 1"),
        ("def f():\n  class C:\n    return", "syntax 3"),
        ("class C:\n  def f(): return", "3"),
        ("break", "syntax 1"),
        ("if a: continue", "syntax 1"),
        ("try: break\nexcept: pass", "syntax 1"),
        ("while a: break", "3"),
        ("for x in a: continue", "4"),
        ("while a: b; break; c", "7"),
        ("while a:\n  if b: break", "5"),
        ("while a: b\nelse: break", "syntax 2"),
        ("while a:\n  while b: c\n  else: break", "7"),
        ("while a:\n  class C:\n    break", "syntax 3"),
        ("while a:\n  def f(): continue", "syntax 2"),
        ("def f():\n  while a: break", "4"),
    ] {
        assert!(rt; is_told(rt.alloc(), text, want)?, "{text}");
    }
    Ok(())
}

#[test]
fn kinds_of_faults(rt: HostRuntime) -> Result<(), Fail> {
    for (text, want) in [
        ("a\n$", "lex 2"),
        ("if a:\n\tb", "layout 2"),
        ("if a:\n    b\n  c", "layout 3"),
        ("a\nimport b", "unsupported 2"),
        ("a\n(b", "syntax 2"),
        ("a b", "syntax 1"),
        ("a =", "syntax 1"),
        ("import a\nimport b", "unsupported 1"),
        ("else: a\nelif b: c", "syntax 1"),
        ("a b\nelse: c", "syntax 1"),
        // declarations are no matter of the grammar
        ("nonlocal x", "1"),
        ("global x\nx = 1", "4"),
    ] {
        assert!(rt; is_told(rt.alloc(), text, want)?, "{text}");
    }
    Ok(())
}

#[test]
fn the_earlier_kind_first(rt: HostRuntime) -> Result<(), Fail> {
    for (text, want) in [
        ("if a:\n\tb\n$", "lex 3"),
        ("$\nif a:\n\tb", "lex 1"),
        ("import a\n$", "lex 2"),
        ("$\nimport a", "lex 1"),
        ("else: a\n$", "lex 2"),
        ("$\nelse: a", "lex 1"),
        ("import a\nif b:\n\tc", "layout 3"),
        ("if b:\n\tc\nimport a", "layout 2"),
        ("else: a\nif b:\n\tc", "layout 3"),
        ("if b:\n\tc\nelse: a", "layout 2"),
        ("else: a\nimport b", "unsupported 2"),
        ("import b\nelse: a", "unsupported 1"),
        ("if a:\nimport b", "unsupported 2"),
    ] {
        assert!(rt; is_told(rt.alloc(), text, want)?, "{text}");
    }
    Ok(())
}

// A text with a number over the limit between two others.
fn with_wide(a: Global, before: &str, after: &str) -> Result<String, NoMemory> {
    Ok(format!(in a; "{before}{WIDE}{after}")?)
}

#[test]
fn limits_of_numbers(rt: HostRuntime) -> Result<(), Fail> {
    for (before, after, want) in [
        ("a\n", "", "limit 2"),
        ("", "\n", "limit 1"),
        ("", "\n$", "lex 2"),
        ("$\n", "", "lex 1"),
        ("", "\nif a:\n\tb", "layout 3"),
        ("if a:\n\tb\n", "", "layout 2"),
        ("", "\nimport a", "unsupported 2"),
        ("import a\n", "", "unsupported 1"),
        ("", "\nelse: a", "limit 1"),
        ("else: a\n", "", "limit 2"),
        ("a b\nelse: c\n\n", "", "limit 4"),
        ("if a:\n  b\nelse: ", "\nelse: c", "limit 3"),
        // a line that is none is over a limit by its number
        ("a b ", "", "limit 1"),
    ] {
        let text = with_wide(rt.alloc(), before, after)?;
        assert!(rt;
            is_told(rt.alloc(), text.as_str(), want)?,
            "{before}|{after}"
        );
    }
    Ok(())
}

// Headers one inside the other, and a last line in the innermost.
fn nested(a: Global, headers: u32, last: &str) -> Result<String, NoMemory> {
    let mut text = String::new(a);
    for i in 0..headers {
        indent(&mut text, i)?;
        text.push_str("if a:\n")?;
    }
    indent(&mut text, headers)?;
    text.push_str(last)?;
    Ok(text)
}

fn indent(text: &mut String, n: u32) -> Result<(), NoMemory> {
    for _ in 0..n {
        text.push_str(" ")?;
    }
    Ok(())
}

#[test]
fn limits_of_depth(rt: HostRuntime) -> Result<(), Fail> {
    for (headers, last, want) in [
        (59, "if a: b", "122"),
        (60, "b", "122"),
        (60, "if a: b", "limit 61"),
        (60, "if a:\n", "syntax 61"),
        (61, "b", "limit 62"),
        // whatever the line holds
        (61, "a b", "limit 62"),
        (61, "else: b", "limit 62"),
        (61, "import b", "unsupported 62"),
    ] {
        let text = nested(rt.alloc(), headers, last)?;
        assert!(rt;
            is_told(rt.alloc(), text.as_str(), want)?,
            "{headers} {last}"
        );
    }
    Ok(())
}

// An expression of so many levels and one.
fn negated(a: Global, n: u32) -> Result<String, NoMemory> {
    let mut text = String::new(a);
    for _ in 0..n {
        text.push_str("not ")?;
    }
    text.push_str("a")?;
    Ok(text)
}

// A name in so many brackets.
fn bracketed(a: Global, n: u32) -> Result<String, NoMemory> {
    let mut text = String::new(a);
    for _ in 0..n {
        text.push_str("(")?;
    }
    text.push_str("a")?;
    for _ in 0..n {
        text.push_str(")")?;
    }
    Ok(text)
}

#[test]
fn limits_of_expressions(rt: HostRuntime) -> Result<(), Fail> {
    for (n, want) in [(59, "61"), (60, "limit 1")] {
        let text = negated(rt.alloc(), n)?;
        assert!(rt; is_told(rt.alloc(), text.as_str(), want)?, "{n}");
    }
    for (n, want) in [(200, "2"), (201, "limit 1")] {
        let text = bracketed(rt.alloc(), n)?;
        assert!(rt; is_told(rt.alloc(), text.as_str(), want)?, "{n}");
    }
    Ok(())
}

#[test]
fn line_ends(rt: HostRuntime) -> Result<(), Fail> {
    for (text, want) in [
        ("a\r\nb", "4"),
        ("a\rb\r", "4"),
        ("a\r\n\r\nelse: b", "syntax 3"),
        ("a\r\relse: b", "syntax 3"),
        ("a\n\relse: b", "syntax 3"),
        ("a\r\n$", "lex 2"),
        ("if a:\r\n\tb", "layout 2"),
        ("'a\rb'", "lex 1"),
        ("'''a\r\nb'''\r\nelse: c", "syntax 3"),
        ("(a,\r\nb)\relse: c", "syntax 3"),
        ("a + \\\r\nb\nelse: c", "syntax 3"),
    ] {
        assert!(rt; is_told(rt.alloc(), text, want)?, "{text}");
    }
    Ok(())
}

// The lines in which the nodes of a cell begin, one after another.
fn lines(a: Global, text: &PyText, cell: &Cell) -> Result<String, NoMemory>
    requires short { length text.now < 2 ^ 32 - 1 }
    requires spelled { IsCellOf text.now cell.now }
{
    let mut out = String::new(a);
    for i in 0..size(cell) {
        let line = line_of(a, text, i + 1)?;
        out.push_str(format!(in a; "{line} ")?.as_str())?;
    }
    Ok(out)
}

fn lines_told(a: Global, text: &str) -> Result<String, NoMemory> {
    let text = PyText::from_str(a, text)?;
    if text.len() >= 1000 {
        return Ok(String::new(a));
    }
    match parse(a, &text) {
        Ok(cell) => {
            let shown = lines(a, &text, &cell);
            drop(cell);
            shown
        }
        Err(SyntaxFault::At { .. }) => Ok(String::new(a)),
        Err(SyntaxFault::NoMemory) => Err(NoMemory),
    }
}

#[test]
fn lines_of_nodes(rt: HostRuntime) -> Result<(), Fail> {
    for (text, want) in [
        ("x = 1\n\ny = 2\n", "1 1 1 3 3 3 "),
        ("a\n# c\n\n  \nb", "1 1 5 5 "),
        ("a\r\n\r\nb\rc", "1 1 3 3 4 4 "),
        ("f(a,\n  b)\nc", "1 1 1 1 1 3 3 "),
        ("a + \\\n  b\nc", "1 1 1 1 3 3 "),
        ("'''a\n''' \nb", "1 1 3 3 "),
        (
            "if a:\n\n  b\nelif c:\n  d\nelse:\n  e",
            "1 1 3 3 4 5 5 7 7 ",
        ),
        (
            "try:\n  a\nexcept E as x:\n  b\nfinally:\n  c",
            "1 2 2 3 3 4 4 6 6 ",
        ),
        (
            "def f(x, y=1):\r\n  return x\r\nclass C(B):\r\n  pass",
            "1 1 2 2 3 3 4 ",
        ),
        ("for x in a: b; c\nelse:\n  d", "1 1 1 1 1 1 1 3 3 "),
    ] {
        assert!(rt; lines_told(rt.alloc(), text)?.as_str() == want, "{text}");
    }
    Ok(())
}
