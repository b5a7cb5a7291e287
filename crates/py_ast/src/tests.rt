// A cell with each kind of node, and depths.
use crate::{BinaryOp, Branch, Cell, Expr, Handler, NodeRef, Stmt, depth, is_numbered, node, size};
use flow_base::{Held, NoMemory, PyText, Shared};
use std::alloc::Global;
use std::test::Fail;

fn name(a: Global, node: u32) -> Result<Expr, NoMemory> {
    Ok(Expr::Name(node, PyText::from_str(a, "x")?))
}

fn one<T: Drop>(a: Global, item: T) -> Result<Shared<T>, NoMemory> {
    let mut items = Vec::new(a);
    items.push(item)?;
    Shared::from_vec(a, items)
}

// `x = 1 + x`, with the statement's number.
fn sum(a: Global, first: u32) -> Result<Stmt, NoMemory> {
    let value = Expr::Binary(
        3,
        Held::new(a, Expr::Number(4, 1))?,
        BinaryOp::Add,
        Held::new(a, name(a, 5)?)?,
    );
    Ok(Stmt::Assign(first, one(a, name(a, 2)?)?, value))
}

// `if x:` with `pass`.
fn choice(a: Global) -> Result<Stmt, NoMemory> {
    let branch = Branch {
        test: name(a, 7)?,
        body: one(a, Stmt::Pass(8))?,
    };
    Ok(Stmt::If(6, one(a, branch)?, Shared::from_vec(a, Vec::new(a))?))
}

// `try:` with `x()`, and `except:` with `pass`.
fn attempt(a: Global) -> Result<Stmt, NoMemory> {
    let call = Expr::Call(
        11,
        Held::new(a, name(a, 12)?)?,
        Shared::from_vec(a, Vec::new(a))?,
    );
    let handler = Handler {
        node: 13,
        class: None,
        name: None,
        body: one(a, Stmt::Pass(14))?,
    };
    Ok(Stmt::Try(
        9,
        one(a, Stmt::Expr(10, call))?,
        one(a, handler)?,
        Shared::from_vec(a, Vec::new(a))?,
        Shared::from_vec(a, Vec::new(a))?,
    ))
}

fn cell(a: Global, first: u32) -> Result<Cell, NoMemory> {
    let mut statements = Vec::new(a);
    statements.push(sum(a, first)?)?;
    statements.push(choice(a)?)?;
    statements.push(attempt(a)?)?;
    Ok(Cell {
        statements: Shared::from_vec(a, statements)?,
    })
}

fn kind(found: Option<NodeRef>) -> char {
    match found {
        Some(NodeRef::Expr(_)) => 'e',
        Some(NodeRef::Stmt(_)) => 's',
        Some(NodeRef::Handler(_)) => 'h',
        None => '-',
    }
}

// The kinds of the nodes at 0 to 15.
fn kinds(a: Global, c: &Cell) -> Result<String, NoMemory> {
    let mut text = String::new(a);
    if is_numbered(c) {
        for i in 0..16 {
            text.push(kind(node(c, i)))?;
        }
    }
    Ok(text)
}

fn counted(c: &Cell) -> u32 {
    if is_numbered(c) { size(c) } else { 0 }
}

#[test]
fn nodes_of_a_cell(rt: HostRuntime) -> Result<(), Fail> {
    let c = cell(rt.alloc(), 1)?;
    assert_eq!(rt; counted(&c), 14);
    let found = kinds(rt.alloc(), &c)?;
    assert_eq!(rt; found.as_str(), "-seeeesessseehs-");
    let other = cell(rt.alloc(), 2)?;
    assert!(rt; !is_numbered(&other));
    Ok(())
}

#[test]
fn depths(rt: HostRuntime) -> Result<(), Fail> {
    let a = rt.alloc();
    assert_eq!(rt; depth(&Expr::Nil(1)), 1);
    let empty = Expr::Tuple(1, Shared::from_vec(a, Vec::new(a))?);
    assert_eq!(rt; depth(&empty), 1);
    let attribute = Expr::Attr(
        1,
        Held::new(a, Expr::Truth(2, true))?,
        PyText::from_str(a, "x")?,
    );
    assert_eq!(rt; depth(&attribute), 2);
    Ok(())
}
