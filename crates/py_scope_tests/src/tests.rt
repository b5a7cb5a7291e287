// Cells by hand, with the places of their names. Where nothing else is said, the places are those that the symbol table of CPython 3.11
// has for the same text (`symtable`; the order of the slots is that of `co_varnames`, where a name is in no closure).
ghost use Rattle.std.specs.Prelude.{◌+◌, ◌<◌, ◌^◌};

use flow_base::{Held, NoMemory, PyText, RunNo, Shared};
use py_ast::{BinaryOp, Branch, Cell, Expr, Handler, Stmt, Stmts, Texts};
use py_scope::{Coded, Codes, NameList, NamePlace, ScopeFault, Scopes, scopes};
use std::alloc::Global;
use std::test::Fail;

fn text(a: Global, name: &str) -> Result<PyText, NoMemory> {
    PyText::from_str(a, name)
}

fn texts(a: Global, names: &str) -> Result<Texts, NoMemory> {
    let mut all = Vec::new(a);
    for name in names.split_whitespace() {
        all.push(text(a, name)?)?;
    }
    Shared::from_vec(a, all)
}

fn none<T: Drop>(a: Global) -> Result<Shared<T>, NoMemory> {
    Shared::from_vec(a, Vec::new(a))
}

fn one<T: Drop>(a: Global, item: T) -> Result<Shared<T>, NoMemory> {
    let mut all = Vec::new(a);
    all.push(item)?;
    Shared::from_vec(a, all)
}

// The statements of a body, one after another.
#[derive(Drop)]
struct Body {
    a: Global,
    all: Vec<Stmt>,
}

impl Body {
    fn new(a: Global) -> Body {
        Body {
            a,
            all: Vec::new(a),
        }
    }

    fn push(&mut self, s: Stmt) -> Result<(), NoMemory> {
        self.all.push(s)?;
        Ok(())
    }

    fn pass(&mut self, node: u32) -> Result<(), NoMemory> {
        self.push(Stmt::Pass(node))
    }

    // `x = y`
    fn assign(&mut self, node: u32, x: &str, y: &str) -> Result<(), NoMemory>
        requires { node + 2 < 2 ^ 32 }
    {
        let targets = one(self.a, name(self.a, node + 1, x)?)?;
        self.push(Stmt::Assign(node, targets, name(self.a, node + 2, y)?))
    }

    // `return x`
    fn give(&mut self, node: u32, x: &str) -> Result<(), NoMemory>
        requires { node + 1 < 2 ^ 32 }
    {
        self.push(Stmt::Return(node, Some(name(self.a, node + 1, x)?)))
    }

    fn global(&mut self, node: u32, names: &str) -> Result<(), NoMemory> {
        self.push(Stmt::Global(node, texts(self.a, names)?))
    }

    fn nonlocal(&mut self, node: u32, names: &str) -> Result<(), NoMemory> {
        self.push(Stmt::Nonlocal(node, texts(self.a, names)?))
    }

    fn def(&mut self, node: u32, f: &str, params: &str, body: Stmts) -> Result<(), NoMemory> {
        let params = texts(self.a, params)?;
        let defaults = none(self.a)?;
        self.push(Stmt::Def(node, text(self.a, f)?, params, defaults, body))
    }

    fn class(&mut self, node: u32, c: &str, body: Stmts) -> Result<(), NoMemory> {
        self.push(Stmt::Class(node, text(self.a, c)?, None, body))
    }

    fn done(self) -> Result<Stmts, NoMemory> {
        Shared::from_vec(self.a, self.all)
    }

    fn cell(self) -> Result<Cell, NoMemory> {
        Ok(Cell {
            statements: self.done()?,
        })
    }
}

fn name(a: Global, node: u32, x: &str) -> Result<Expr, NoMemory> {
    Ok(Expr::Name(node, text(a, x)?))
}

// The names of the slots at a node of a cell.
fn slots(a: Global, c: Cell, node: u32) -> Result<String, ScopeFault> {
    let s = scopes(a, &c)?;
    shown_names(a, s.slots(node))
}

fn shown_names(a: Global, names: &NameList) -> Result<String, ScopeFault> {
    let mut all = String::new(a);
    for i in 0..names.len() {
        for c in names.text(i).as_slice() {
            push(&mut all, *c)?;
        }
        push(&mut all, ' ')?;
    }
    Ok(all)
}

fn push(all: &mut String, c: char) -> Result<(), ScopeFault> {
    match all.push(c) {
        Ok(_) => Ok(()),
        Err(_) => Err(ScopeFault::NoMemory),
    }
}

// The places of one-letter names that are used or bound at some nodes of a cell.
fn places(a: Global, c: Cell, at: &[(u32, char)]) -> Result<String, ScopeFault> {
    let s = scopes(a, &c)?;
    let mut all = String::new(a);
    for (node, letter) in at {
        show(&mut all, place(a, &s, *node, *letter)?)?;
    }
    Ok(all)
}

fn place(a: Global, s: &Scopes, node: u32, letter: char) -> Result<NamePlace, NoMemory> {
    let name = PyText::from_points(a, vec![in a; letter]?)?;
    Ok(s.place(node, &name))
}

// A place as a letter and its numbers, which are below 10 here.
fn show(all: &mut String, place: NamePlace) -> Result<(), ScopeFault> {
    match place {
        NamePlace::Local(slot) => {
            push(all, 'L')?;
            push(all, digit(slot))?;
        }
        NamePlace::Free(hops, slot) => {
            push(all, 'F')?;
            push(all, digit(hops))?;
            push(all, digit(slot))?;
        }
        NamePlace::Global => push(all, 'G')?,
        NamePlace::ClassBody => push(all, 'C')?,
    }
    push(all, ' ')
}

fn digit(n: u32) -> char {
    if n < 10 {
        char::from(b'0' + n as u8)
    } else {
        '?'
    }
}

// `def f(x):` with `y = x`, and in it `def g(z):` with `nonlocal y`, `y = z` and `return h`.
fn nested(a: Global) -> Result<Cell, NoMemory> {
    let mut g = Body::new(a);
    g.nonlocal(6, "y")?;
    g.assign(7, "y", "z")?;
    g.give(10, "h")?;
    let mut f = Body::new(a);
    f.assign(2, "y", "x")?;
    f.def(5, "g", "z", g.done()?)?;
    function(a, "x", f)
}

// `def f():` with `a = k`, `class C:`, and in that `b = a` and `def m():` with `return b` and `return a`.
fn class_in_function(a: Global) -> Result<Cell, NoMemory> {
    let mut m = Body::new(a);
    m.give(10, "b")?;
    m.give(12, "a")?;
    let mut c = Body::new(a);
    c.assign(6, "b", "a")?;
    c.def(9, "m", "", m.done()?)?;
    let mut f = Body::new(a);
    f.assign(2, "a", "k")?;
    f.class(5, "C", c.done()?)?;
    function(a, "", f)
}

// `def f():` with `x = k`, `def g():` with `return x`, and `global x`. CPython wants the declaration first; its places are these.
fn declared_last(a: Global) -> Result<Cell, NoMemory> {
    let mut g = Body::new(a);
    g.give(6, "x")?;
    let mut f = Body::new(a);
    f.assign(2, "x", "k")?;
    f.def(5, "g", "", g.done()?)?;
    f.global(8, "x")?;
    function(a, "", f)
}

// `def f` of some parameters and a body, as the only statement.
fn function(a: Global, params: &str, body: Body) -> Result<Cell, NoMemory> {
    let mut top = Body::new(a);
    top.def(1, "f", params, body.done()?)?;
    top.cell()
}

// `def f(k):` with `return lambda y, z=k: y + k`.
fn lambda(a: Global) -> Result<Cell, NoMemory> {
    let sum = Expr::Binary(
        5,
        Held::new(a, name(a, 6, "y")?)?,
        BinaryOp::Add,
        Held::new(a, name(a, 7, "k")?)?,
    );
    let value = Expr::Lambda(
        3,
        texts(a, "y z")?,
        one(a, name(a, 4, "k")?)?,
        Held::new(a, sum)?,
    );
    let mut f = Body::new(a);
    f.push(Stmt::Return(2, Some(value)))?;
    function(a, "k", f)
}

// `for i in r:` with `pass`, and after it `del d`.
fn loop_and_deletion(a: Global) -> Result<Cell, NoMemory> {
    let body = one(a, Stmt::Pass(5))?;
    let mut f = Body::new(a);
    f.push(Stmt::For(2, name(a, 3, "i")?, name(a, 4, "r")?, body, none(a)?))?;
    f.push(Stmt::Del(6, name(a, 7, "d")?))?;
    function(a, "", f)
}

// `p, q = v`
fn pair(a: Global) -> Result<Stmt, NoMemory> {
    let mut parts = Vec::new(a);
    parts.push(name(a, 7, "p")?)?;
    parts.push(name(a, 8, "q")?)?;
    let target = Expr::Tuple(6, Shared::from_vec(a, parts)?);
    Ok(Stmt::Assign(6, one(a, target)?, name(a, 9, "v")?))
}

// `try:` with `pass`, and `except E as e:` with `p, q = v`.
fn attempt(a: Global) -> Result<Stmt, NoMemory> {
    let handler = Handler {
        node: 4,
        class: Some(name(a, 5, "E")?),
        name: Some(text(a, "e")?),
        body: one(a, pair(a)?)?,
    };
    let handlers = one(a, handler)?;
    Ok(Stmt::Try(2, one(a, Stmt::Pass(3))?, handlers, none(a)?, none(a)?))
}

// `a.b = v`
fn attribute(a: Global) -> Result<Stmt, NoMemory> {
    let target = Expr::Attr(11, Held::new(a, name(a, 12, "a")?)?, text(a, "b")?);
    Ok(Stmt::Assign(10, one(a, target)?, name(a, 13, "v")?))
}

fn handler_and_targets(a: Global) -> Result<Cell, NoMemory> {
    let mut f = Body::new(a);
    f.push(attempt(a)?)?;
    f.push(attribute(a)?)?;
    function(a, "", f)
}

// `if t:` with `n += v`
fn branch(a: Global) -> Result<Branch, NoMemory> {
    let s = Stmt::Augment(4, name(a, 5, "n")?, BinaryOp::Add, name(a, 6, "v")?);
    Ok(Branch {
        test: name(a, 3, "t")?,
        body: one(a, s)?,
    })
}

// `if t:` with `n += v`, else `class C:` with `pass`; then `def g():` with `pass`.
fn branches(a: Global) -> Result<Cell, NoMemory> {
    let mut c = Body::new(a);
    c.pass(8)?;
    let mut otherwise = Body::new(a);
    otherwise.class(7, "C", c.done()?)?;
    let branches = one(a, branch(a)?)?;
    let mut f = Body::new(a);
    f.push(Stmt::If(2, branches, otherwise.done()?))?;
    let mut g = Body::new(a);
    g.pass(10)?;
    f.def(9, "g", "", g.done()?)?;
    function(a, "", f)
}

#[test]
fn names_of_nested_functions(rt: HostRuntime) -> Result<(), Fail> {
    let a = rt.alloc();
    let at = [
        (1, 'f'),
        (3, 'y'),
        (4, 'x'),
        (5, 'g'),
        (8, 'y'),
        (9, 'z'),
        (11, 'h'),
        (0, 'x'),
    ];
    assert!(rt; places(a, nested(a)?, &at)?.as_str() == "G L1 L0 L2 F11 L0 G G ");
    assert!(rt; slots(a, nested(a)?, 1)?.as_str() == "x y g ");
    assert!(rt; slots(a, nested(a)?, 5)?.as_str() == "z ");
    assert!(rt; slots(a, nested(a)?, 2)?.as_str() == "");
    Ok(())
}

#[test]
fn names_of_classes(rt: HostRuntime) -> Result<(), Fail> {
    let a = rt.alloc();
    let at = [(5, 'C'), (7, 'b'), (8, 'a'), (9, 'm'), (11, 'b'), (13, 'a')];
    assert!(rt; places(a, class_in_function(a)?, &at)?.as_str() == "L1 C F00 C G F10 ");
    assert!(rt; slots(a, class_in_function(a)?, 1)?.as_str() == "a C ");
    assert!(rt; slots(a, class_in_function(a)?, 5)?.as_str() == "");
    Ok(())
}

#[test]
fn names_of_lambdas(rt: HostRuntime) -> Result<(), Fail> {
    let a = rt.alloc();
    let at = [(4, 'k'), (6, 'y'), (7, 'k'), (5, 'z')];
    assert!(rt; places(a, lambda(a)?, &at)?.as_str() == "L0 L0 F10 L1 ");
    assert!(rt; slots(a, lambda(a)?, 3)?.as_str() == "y z ");
    Ok(())
}

#[test]
fn names_declared_last(rt: HostRuntime) -> Result<(), Fail> {
    let a = rt.alloc();
    let at = [(3, 'x'), (5, 'g'), (7, 'x')];
    assert!(rt; places(a, declared_last(a)?, &at)?.as_str() == "G L0 G ");
    Ok(())
}

#[test]
fn bindings(rt: HostRuntime) -> Result<(), Fail> {
    let a = rt.alloc();
    assert!(rt; slots(a, loop_and_deletion(a)?, 1)?.as_str() == "i d ");
    assert!(rt; slots(a, handler_and_targets(a)?, 1)?.as_str() == "e p q ");
    assert!(rt; slots(a, branches(a)?, 1)?.as_str() == "n C g ");
    Ok(())
}

// The node of the declaration at fault, and 0 where there is none.
fn fault(a: Global, c: Cell) -> Result<u32, NoMemory> {
    match scopes(a, &c) {
        Ok(_) => Ok(0),
        Err(ScopeFault::At { node }) => Ok(node),
        Err(ScopeFault::NoMemory) => Err(NoMemory),
    }
}

// A body of one declaration.
fn declaring(a: Global, is_global: bool, node: u32, names: &str) -> Result<Body, NoMemory> {
    let mut body = Body::new(a);
    if is_global {
        body.global(node, names)?;
    } else {
        body.nonlocal(node, names)?;
    }
    Ok(body)
}

// `def f():` with `x = k`, and in it `def g():` of this body, from node 6 on.
fn in_function(a: Global, body: Body) -> Result<Cell, NoMemory> {
    let mut f = Body::new(a);
    f.assign(2, "x", "k")?;
    f.def(5, "g", "", body.done()?)?;
    function(a, "", f)
}

// Two declarations of `x` in one body.
fn twice(a: Global, first_is_global: bool, second_is_global: bool) -> Result<Cell, NoMemory> {
    let mut body = declaring(a, first_is_global, 6, "x")?;
    if second_is_global {
        body.global(7, "x")?;
    } else {
        body.nonlocal(7, "x")?;
    }
    in_function(a, body)
}

// A declaration of `x`, and `def h():` with `nonlocal x` after it.
fn deeper(a: Global, is_global: bool) -> Result<Cell, NoMemory> {
    let mut body = declaring(a, is_global, 6, "x")?;
    body.def(7, "h", "", declaring(a, false, 8, "x")?.done()?)?;
    in_function(a, body)
}

// `class C:` with `if t:` and a `global` in it.
fn in_class(a: Global) -> Result<Cell, NoMemory> {
    let branch = Branch {
        test: name(a, 3, "t")?,
        body: declaring(a, true, 4, "x")?.done()?,
    };
    let mut c = Body::new(a);
    c.push(Stmt::If(2, one(a, branch)?, none(a)?))?;
    let mut top = Body::new(a);
    top.class(1, "C", c.done()?)?;
    top.cell()
}

// `def f(x):` with `def g():` and `nonlocal q` in it, and then `global x`.
fn two_faults(a: Global) -> Result<Cell, NoMemory> {
    let mut f = Body::new(a);
    f.def(2, "g", "", declaring(a, false, 3, "q")?.done()?)?;
    f.global(4, "x")?;
    function(a, "x", f)
}

#[test]
fn faults_of_one_body(rt: HostRuntime) -> Result<(), Fail> {
    let a = rt.alloc();
    assert!(rt; fault(a, declaring(a, false, 1, "x")?.cell()?)? == 1);
    assert!(rt; fault(a, declaring(a, true, 1, "x")?.cell()?)? == 0);
    assert!(rt; fault(a, function(a, "y x", declaring(a, true, 2, "x")?)?)? == 2);
    assert!(rt; fault(a, function(a, "x", declaring(a, false, 2, "x")?)?)? == 2);
    // CPython has a `global` in the body of a class
    assert!(rt; fault(a, in_class(a)?)? == 4);
    Ok(())
}

#[test]
fn faults_of_bodies_in_others(rt: HostRuntime) -> Result<(), Fail> {
    let a = rt.alloc();
    // CPython names the first of two declarations
    assert!(rt; fault(a, twice(a, true, false)?)? == 7);
    assert!(rt; fault(a, twice(a, false, true)?)? == 7);
    assert!(rt; fault(a, twice(a, false, false)?)? == 0);
    // a nearer function declares the name global, or not
    assert!(rt; fault(a, deeper(a, true)?)? == 8);
    assert!(rt; fault(a, deeper(a, false)?)? == 0);
    // of two faults the first in the text, where CPython names that of the outer function
    assert!(rt; fault(a, two_faults(a)?)? == 3);
    Ok(())
}

fn coded(a: Global) -> Result<Coded, ScopeFault> {
    let cell = nested(a)?;
    let scopes = scopes(a, &cell)?;
    Ok(Coded { cell, scopes })
}

#[test]
fn cells_of_runs(rt: HostRuntime) -> Result<(), Fail> {
    let a = rt.alloc();
    let mut codes = Codes::new(a);
    codes.add(RunNo(2), coded(a)?)?;
    let found = codes
        .get(RunNo(2))
        .map_or(0, |coded| coded.scopes.slots(1).len());
    assert!(rt; found == 3 && codes.get(RunNo(1)).is_none());
    Ok(())
}
