// Cells by hand. A statement takes one step, and each node of its expression one, a node before its parts; a step that is wanting ends the
// run at once.
use crate::{End, Finished, bound_name, is_plain, run, used_names};
use containers::Values;
use flow_base::{Event, Held, How, Loc, Names, NoMemory, PyText, Shared, Sym};
use py_ast::{BinaryOp, Expr, Stmt};
use std::alloc::Global;
use std::test::Fail;

fn text(a: Global, name: &str) -> Result<PyText, NoMemory> {
    PyText::from_str(a, name)
}

fn name(a: Global, x: &str) -> Result<Expr, NoMemory> {
    Ok(Expr::Name(1, text(a, x)?))
}

fn number(n: i128) -> Expr {
    Expr::Number(1, n)
}

fn binary(a: Global, left: Expr, op: BinaryOp, right: Expr) -> Result<Expr, NoMemory> {
    let left = Held::new(a, left)?;
    let right = Held::new(a, right)?;
    Ok(Expr::Binary(1, left, op, right))
}

// `x + n`
fn name_and_number(a: Global, x: &str, n: i128) -> Result<Expr, NoMemory> {
    binary(a, name(a, x)?, BinaryOp::Add, number(n))
}

// `x + y`
fn names_added(a: Global, x: &str, y: &str) -> Result<Expr, NoMemory> {
    binary(a, name(a, x)?, BinaryOp::Add, name(a, y)?)
}

fn one<T: Drop>(a: Global, item: T) -> Result<Shared<T>, NoMemory> {
    let mut all = Vec::new(a);
    all.push(item)?;
    Shared::from_vec(a, all)
}

// The statements of a cell, one after another.
#[derive(Drop)]
struct Body {
    a: Global,
    all: Vec<Stmt>,
}

impl Body {
    fn new(a: Global) -> Body {
        Body {
            a,
            all: Vec::new(a),
        }
    }

    fn push(&mut self, s: Stmt) -> Result<(), NoMemory> {
        self.all.push(s)?;
        Ok(())
    }

    // `x = E`
    fn assign(&mut self, x: &str, e: Expr) -> Result<(), NoMemory> {
        let targets = one(self.a, name(self.a, x)?)?;
        self.push(Stmt::Assign(1, targets, e))
    }

    // `x = n`
    fn give(&mut self, x: &str, n: i128) -> Result<(), NoMemory> {
        self.assign(x, number(n))
    }

    // `x = y + n`
    fn add_number(&mut self, x: &str, y: &str, n: i128) -> Result<(), NoMemory> {
        self.assign(x, name_and_number(self.a, y, n)?)
    }

    // `x = y + z`
    fn add_names(&mut self, x: &str, y: &str, z: &str) -> Result<(), NoMemory> {
        self.assign(x, names_added(self.a, y, z)?)
    }
}

#[derive(Clone, Copy)]
enum Form {
    // `x = 1`, `y = x + 2`
    Sum,
    // `x = 1`, `y = x + z`
    Unknown,
    // `x = z + y`, `y = 1`
    UnknownFirst,
    // `x` = the greatest i128, `y = x + 1`
    TooGreat,
    // `x` = one less than the greatest i128, `x = x + 1`
    Greatest,
}

fn write(b: &mut Body, form: Form) -> Result<(), NoMemory> {
    match form {
        Form::Sum => {
            b.give("x", 1)?;
            b.add_number("y", "x", 2)
        }
        Form::Unknown => {
            b.give("x", 1)?;
            b.add_names("y", "x", "z")
        }
        Form::UnknownFirst => {
            b.add_names("x", "z", "y")?;
            b.give("y", 1)
        }
        Form::TooGreat => {
            b.give("x", i128::MAX)?;
            b.add_number("y", "x", 1)
        }
        Form::Greatest => {
            b.give("x", i128::MAX - 1)?;
            b.add_number("x", "x", 1)
        }
    }
}

fn cell(a: Global, form: Form) -> Result<Body, NoMemory> {
    let mut b = Body::new(a);
    write(&mut b, form)?;
    Ok(b)
}

// The events of a run, each as a letter and the symbol of its name, which is below 10 here, or a dash.
fn shown(a: Global, events: &[Event]) -> Result<Vec<u8>, NoMemory> {
    let mut all = Vec::new(a);
    for event in events {
        all.push(letter(event))?;
        all.push(symbol(event))?;
    }
    Ok(all)
}

fn letter(event: &Event) -> u8 {
    match event {
        Event::Open => b'O',
        Event::Use(_) => b'U',
        Event::Write(_) => b'W',
        Event::Close(How::Normal) => b'C',
        Event::Close(How::Raise) => b'R',
        _ => b'?',
    }
}

fn symbol(event: &Event) -> u8 {
    match event {
        Event::Use(Loc::Name(_, s)) | Event::Write(Loc::Name(_, s)) => b'0' + (s.0 % 10) as u8,
        _ => b'-',
    }
}

// The symbols of x, y and z are 0, 1 and 2.
fn some_names(a: Global) -> Result<Names, NoMemory> {
    let mut names = Names::new(a);
    for name in ["x", "y", "z"] {
        names.intern(&text(a, name)?)?;
    }
    Ok(names)
}

fn outcome(a: Global, form: Form, steps: u32) -> Result<Finished, NoMemory> {
    let names = some_names(a)?;
    let b = cell(a, form)?;
    run(a, &names, Values::new(a), steps, b.all.as_slice())
}

#[test]
fn runs(rt: HostRuntime) -> Result<(), Fail> {
    let a = rt.alloc();
    for (form, steps, end, left, x, y, events) in [
        (
            Form::Sum,
            9,
            End::Done,
            3,
            Some(1),
            Some(3),
            b"O-W0C-O-U0W1C-".as_slice(),
        ),
        (
            Form::Sum,
            6,
            End::Done,
            0,
            Some(1),
            Some(3),
            b"O-W0C-O-U0W1C-".as_slice(),
        ),
        (
            Form::Sum,
            5,
            End::Steps,
            0,
            Some(1),
            None,
            b"O-W0C-O-U0".as_slice(),
        ),
        (
            Form::Sum,
            4,
            End::Steps,
            0,
            Some(1),
            None,
            b"O-W0C-O-".as_slice(),
        ),
        (
            Form::Sum,
            2,
            End::Steps,
            0,
            Some(1),
            None,
            b"O-W0C-".as_slice(),
        ),
        (Form::Sum, 1, End::Steps, 0, None, None, b"O-".as_slice()),
        (Form::Sum, 0, End::Steps, 0, None, None, b"".as_slice()),
        (
            Form::Unknown,
            9,
            End::NameError,
            3,
            Some(1),
            None,
            b"O-W0C-O-U0U2R-".as_slice(),
        ),
        (
            Form::UnknownFirst,
            9,
            End::NameError,
            6,
            None,
            None,
            b"O-U2R-".as_slice(),
        ),
        (
            Form::TooGreat,
            9,
            End::Range,
            3,
            Some(i128::MAX),
            None,
            b"O-W0C-O-U0".as_slice(),
        ),
        (
            Form::Greatest,
            9,
            End::Done,
            3,
            Some(i128::MAX),
            None,
            b"O-W0C-O-U0W0C-".as_slice(),
        ),
    ] {
        let ran = outcome(a, form, steps)?;
        assert_eq!(rt; ran.end, end, "{steps}");
        assert_eq!(rt; ran.machine.left, left, "{steps}");
        assert_eq!(rt; ran.machine.values.get(Sym(0)), x, "{steps}");
        assert_eq!(rt; ran.machine.values.get(Sym(1)), y, "{steps}");
        assert_eq!(rt;
            shown(a, ran.machine.events.as_slice())?.as_slice(),
            events,
            "{steps}"
        );
    }
    Ok(())
}

fn push(all: &mut String, c: char) -> Result<(), NoMemory> {
    match all.push(c) {
        Ok(_) => Ok(()),
        Err(_) => Err(NoMemory),
    }
}

// Names, each with a space after it.
fn joined(a: Global, names: &[PyText]) -> Result<String, NoMemory> {
    let mut all = String::new(a);
    for name in names {
        for c in name.as_slice() {
            push(&mut all, *c)?;
        }
        push(&mut all, ' ')?;
    }
    Ok(all)
}

// `x = a - 1`
fn less(b: &mut Body) -> Result<(), NoMemory> {
    let e = binary(b.a, name(b.a, "a")?, BinaryOp::Sub, number(1))?;
    b.assign("x", e)
}

// `x = b + (a + b)`
fn nested(b: &mut Body) -> Result<(), NoMemory> {
    let inner = names_added(b.a, "a", "b")?;
    let e = binary(b.a, name(b.a, "b")?, BinaryOp::Add, inner)?;
    b.assign("x", e)
}

// `x = y = 1`
fn twice(b: &mut Body) -> Result<(), NoMemory> {
    let mut targets = Vec::new(b.a);
    for x in ["x", "y"] {
        targets.push(name(b.a, x)?)?;
    }
    let targets = Shared::from_vec(b.a, targets)?;
    b.push(Stmt::Assign(1, targets, number(1)))
}

fn statement(b: &mut Body, row: u32) -> Result<(), NoMemory> {
    match row {
        0 => nested(b),
        1 => b.give("print", 1),
        2 => b.add_names("x", "a", "print"),
        3 => b.assign("x", name(b.a, "ValueError")?),
        4 => less(b),
        5 => b.assign("x", Expr::Truth(1, true)),
        6 => twice(b),
        _ => b.push(Stmt::Expr(1, name(b.a, "a")?)),
    }
}

// What a statement uses, the name that it binds, and whether it is one of a plain cell.
fn told(a: Global, row: u32) -> Result<(String, Option<PyText>, bool), NoMemory> {
    let mut b = Body::new(a);
    statement(&mut b, row)?;
    let plain = is_plain(b.all.as_slice());
    match b.all.first() {
        Some(s) => {
            let used = joined(a, used_names(a, s)?.as_slice())?;
            let bound = match bound_name(s) {
                Some(name) => Some(name.copy()?),
                None => None,
            };
            Ok((used, bound, plain))
        }
        None => Err(NoMemory),
    }
}

#[test]
fn forms(rt: HostRuntime) -> Result<(), Fail> {
    let a = rt.alloc();
    for (row, plain, used, bound) in [
        (0, true, "b a b ", "x"),
        (1, true, "", "print"),
        (2, false, "a print ", "x"),
        (3, false, "ValueError ", "x"),
        (4, false, "", "x"),
        (5, false, "", "x"),
        (6, false, "", ""),
        (7, false, "", ""),
    ] {
        let (uses, binds, is) = told(a, row)?;
        assert_eq!(rt; uses.as_str(), used, "{row}");
        assert_eq!(rt; is, plain, "{row}");
        match binds {
            Some(name) => assert!(rt; name.same(&text(a, bound)?), "{row}"),
            None => assert_eq!(rt; bound, "", "{row}"),
        }
    }
    Ok(())
}
