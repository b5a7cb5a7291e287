// Texts that are accepted, and texts with the kind and the line of their refusal. The wanted values are by hand, by the rules of names: a
// name that is bound in a body belongs to it unless it is declared there, and a declaration holds for the whole body.
ghost use Rattle.std.specs.Prelude.{◌<◌, ◌-◌, ◌^◌, length};

use flow_base::{NoMemory, PyText, SyntaxKind};
use py_accepted::accept;
use py_block::SyntaxFault;
use py_scope::{Coded, NamePlace};
use std::alloc::Global;
use std::test::Fail;

// A number over the largest, which is 170141183460469231731687303715884105727.
const WIDE: &str = "170141183460469231731687303715884105728";

fn kind_name(kind: SyntaxKind) -> &'static str {
    match kind {
        SyntaxKind::Lex => "lex",
        SyntaxKind::Layout => "layout",
        SyntaxKind::Unsupported => "unsupported",
        SyntaxKind::Limit => "limit",
        SyntaxKind::Syntax => "syntax",
        SyntaxKind::Scope => "scope",
    }
}

fn accepted(a: Global, text: &str) -> Result<Coded, SyntaxFault> {
    let text = PyText::from_str(a, text)?;
    if text.len() >= 100_000 {
        return Err(SyntaxFault::NoMemory);
    }
    accept(a, &text)
}

// `accepted`, or as `scope 2` the refusal on line 2.
fn told(a: Global, text: &str) -> Result<String, NoMemory> {
    match accepted(a, text) {
        Ok(coded) => {
            drop(coded);
            Ok(format!(in a; "accepted")?)
        }
        Err(SyntaxFault::At { line, kind }) => {
            let kind = kind_name(kind);
            Ok(format!(in a; "{kind} {line}")?)
        }
        Err(SyntaxFault::NoMemory) => Err(NoMemory),
    }
}

fn is_told(a: Global, text: &str, want: &str) -> Result<bool, NoMemory> {
    let said = told(a, text)?;
    Ok(said.as_str() == want)
}

#[test]
fn lines_of_declarations(rt: HostRuntime) -> Result<(), Fail> {
    for (text, want) in [
        ("", "accepted"),
        ("nonlocal x", "scope 1"),
        ("global x", "accepted"),
        ("x = 1; nonlocal x", "scope 1"),
        // behind blank lines and comments, and lines with several line ends
        ("\n# c\n\n  \nnonlocal x", "scope 5"),
        ("x = (1,\n  2)\nnonlocal x", "scope 3"),
        ("x = '''a\nb''' \nnonlocal x # c", "scope 3"),
        ("x = 1 + \\\n  2\nnonlocal x", "scope 3"),
        // line ends of each form
        ("x = 1\r\n\r\nnonlocal x\r\n", "scope 3"),
        ("x = 1\r\rnonlocal x", "scope 3"),
        ("def f():\r\n  # c\r\n  nonlocal x", "scope 3"),
        // the line where the declaration begins, and not that of what is round it
        ("def f(): nonlocal x", "scope 1"),
        ("def f():\n  x = 1\n  def g():\n    nonlocal y", "scope 4"),
        ("if a:\n  b\nelif c:\n  d\nelse:\n  nonlocal x", "scope 6"),
        ("while a:\n  b\n  nonlocal x", "scope 3"),
        ("try:\n  a\nexcept E as x:\n  b\n  nonlocal x", "scope 5"),
    ] {
        assert!(rt; is_told(rt.alloc(), text, want)?, "{text}");
    }
    Ok(())
}

#[test]
fn declarations_of_one_body(rt: HostRuntime) -> Result<(), Fail> {
    for (text, want) in [
        ("def f(x):\n  global x", "scope 2"),
        ("def f(y, x=1):\n  y\n\n  global z, x", "scope 4"),
        ("def f(x):\n  def g(x):\n    nonlocal x", "scope 3"),
        (
            "def f(x):\n  def g():\n    global x\n    nonlocal x",
            "scope 4",
        ),
        (
            "def f(x):\n  def g():\n    nonlocal x\n    x = 1\n    global x",
            "scope 5",
        ),
        (
            "def f(x):\n  def g():\n    nonlocal x\n    nonlocal x\n    x = 1",
            "accepted",
        ),
        // for the whole body, wherever it stands
        ("def f():\n  x = 1\n  global x", "accepted"),
        ("class C:\n  global x", "scope 2"),
        ("class C:\n  if a:\n    b\n    global x", "scope 4"),
        (
            "def f(x):\n  class C:\n    y = 1\n    nonlocal x",
            "scope 4",
        ),
        (
            "class C:\n  def m(self):\n    global x\n    x = 1",
            "accepted",
        ),
    ] {
        assert!(rt; is_told(rt.alloc(), text, want)?, "{text}");
    }
    Ok(())
}

#[test]
fn names_of_bodies_round(rt: HostRuntime) -> Result<(), Fail> {
    for (text, want) in [
        (
            "def f(x):\n  def g():\n    nonlocal x\n    x = 1",
            "accepted",
        ),
        (
            "def f():\n  def g():\n    nonlocal x\n    x = 1\n  x = 2",
            "accepted",
        ),
        (
            "def f(a):\n  for i in a:\n    def g():\n      nonlocal i\n      del i",
            "accepted",
        ),
        (
            "def f(x):\n  class C:\n    def m(self):\n      nonlocal x\n      x = 1",
            "accepted",
        ),
        (
            "def f(x):\n  def g():\n    nonlocal x\n    def h():\n      nonlocal x\n      x = 1",
            "accepted",
        ),
        // a name of the cell, of a class, or of no body, and one that a nearer function declares `global`
        ("x = 1\ndef f():\n  nonlocal x", "scope 3"),
        (
            "def f():\n  class C:\n    x = 1\n    def m(self):\n      nonlocal x",
            "scope 5",
        ),
        (
            "def f(x):\n  def g():\n    x = 1\n    nonlocal x, y",
            "scope 4",
        ),
        (
            "def f(x):\n  def g():\n    global x\n    def h():\n      nonlocal x",
            "scope 5",
        ),
    ] {
        assert!(rt; is_told(rt.alloc(), text, want)?, "{text}");
    }
    Ok(())
}

#[test]
fn the_first_fault(rt: HostRuntime) -> Result<(), Fail> {
    for (text, want) in [
        ("nonlocal x\nnonlocal y", "scope 1"),
        // the first in the text, also where it is in an inner body
        ("def f():\n  nonlocal x\nnonlocal y", "scope 2"),
        (
            "def f(x):\n  def g():\n    nonlocal y\n  global x",
            "scope 3",
        ),
        (
            "def f(x):\n  global x\n  def g():\n    nonlocal y",
            "scope 2",
        ),
        (
            "def f(x):\n  def g(): pass\n  global x\nclass C:\n  global y",
            "scope 3",
        ),
        // scopes are looked at last, wherever the other fault is
        ("nonlocal x\na b", "syntax 2"),
        ("a b\nnonlocal x", "syntax 1"),
        ("nonlocal x\nelse: a", "syntax 2"),
        ("nonlocal x\nif a:", "syntax 2"),
        ("nonlocal x\nimport a", "unsupported 2"),
        ("nonlocal x\nif a:\n\tb", "layout 3"),
        ("nonlocal x\n$", "lex 2"),
    ] {
        assert!(rt; is_told(rt.alloc(), text, want)?, "{text}");
    }
    let over = format!(in rt.alloc(); "nonlocal x\n\ny = {WIDE}")?;
    assert!(rt; is_told(rt.alloc(), over.as_str(), "limit 3")?);
    Ok(())
}

// The place of a name at a node of the cell as which a text is accepted.
fn place(a: Global, text: &str, node: u32, name: &str) -> Result<Option<NamePlace>, NoMemory> {
    let name = PyText::from_str(a, name)?;
    match accepted(a, text) {
        Ok(coded) => {
            let found = coded.scopes.place(node, &name);
            drop(coded);
            Ok(Some(found))
        }
        Err(SyntaxFault::At { .. }) => Ok(None),
        Err(SyntaxFault::NoMemory) => Err(NoMemory),
    }
}

#[test]
fn places_of_names(rt: HostRuntime) -> Result<(), Fail> {
    // 1 `f`, 2 its assignment, 3 its `x`, 4 the number, 5 `g`, 6 the declaration, 7 the assignment in `g`, 8 its `x`
    let text = "def f(y):\n  x = 1\n  def g():\n    nonlocal x\n    x = 2\n";
    for (node, want) in [
        (3, NamePlace::Local(1)),
        (8, NamePlace::Free(1, 1)),
        (1, NamePlace::Global),
    ] {
        let found = place(rt.alloc(), text, node, "x")?;
        assert!(rt; found == Some(want), "{node}");
    }
    Ok(())
}
