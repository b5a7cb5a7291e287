// What is put in is found again.
use crate::{Sequence, Table, Values};
use flow_base::{PyText, Sym};
use std::test::Fail;

#[test]
fn lists(rt: HostRuntime) -> Result<(), Fail> {
    let mut list = Sequence::new(rt.alloc());
    assert_eq!(rt; list.len(), 0);
    for n in [3_u32, 1, 2] {
        list.push(n)?;
    }
    assert_eq!(rt; list.len(), 3);
    assert_eq!(rt; list.as_slice(), [3_u32, 1, 2].as_slice());
    Ok(())
}

#[test]
fn tables(rt: HostRuntime) -> Result<(), Fail> {
    let a = rt.alloc();
    let (one, other, none) = (
        PyText::from_str(a, "a")?,
        PyText::from_str(a, "ab")?,
        PyText::from_str(a, "b")?,
    );
    let mut table = Table::new(a);
    assert_eq!(rt; table.get(&one).copied(), None);
    for (cell, value) in [(&one, 1_u32), (&other, 2), (&one, 3)] {
        table.set(cell, value)?;
    }
    assert_eq!(rt; table.get(&one).copied(), Some(3));
    assert_eq!(rt; table.get(&other).copied(), Some(2));
    assert_eq!(rt; table.get(&none).copied(), None);
    Ok(())
}

#[test]
fn numbers(rt: HostRuntime) -> Result<(), Fail> {
    let mut values = Values::new(rt.alloc());
    assert_eq!(rt; values.get(Sym(0)), None);
    for (s, n) in [(0, 5), (7, i128::MIN), (0, i128::MAX)] {
        values.set(Sym(s), n)?;
    }
    assert_eq!(rt; values.get(Sym(0)), Some(i128::MAX));
    assert_eq!(rt; values.get(Sym(7)), Some(i128::MIN));
    assert_eq!(rt; values.get(Sym(1)), None);
    Ok(())
}
