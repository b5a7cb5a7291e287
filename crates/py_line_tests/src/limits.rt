// Limits: expressions of 60 levels, 200 brackets open, numbers of 127 bits. And which fault is told where there are several.
use crate::tables::{all_are, deep, lines};
use std::test::Fail;

// So many signs and their operand have one level more.
#[test]
fn levels_of_prefixes(rt: HostRuntime) -> Result<(), Fail> {
    let texts =
        "«-»1 ¦ «+»x ¦ «not »x ¦ «x ** »y ¦ «lambda: »x ¦ «lambda x=»1«: x» ¦ «x if y else »z ¦ (((((«-»1)))))";
    deep(&rt, rt.alloc(), texts, 59, "kept")?;
    deep(&rt, rt.alloc(), texts, 60, "limit")?;
    deep(&rt, rt.alloc(), "(not («- »x).a)", 57, "kept")?;
    deep(&rt, rt.alloc(), "(not («- »x).a)", 58, "limit")?;
    Ok(())
}

#[test]
fn levels_of_chains(rt: HostRuntime) -> Result<(), Fail> {
    let texts =
        "x«.a» ¦ x«[0]» ¦ x«()» ¦ x« + x» ¦ x« - x» ¦ x« * x» ¦ x« // x» ¦ x« and x» ¦ x« or x»";
    deep(&rt, rt.alloc(), texts, 59, "kept")?;
    deep(&rt, rt.alloc(), texts, 60, "limit")?;
    Ok(())
}

#[test]
fn levels_of_brackets(rt: HostRuntime) -> Result<(), Fail> {
    let texts =
        "«(»x«,)» ¦ «[»x«]» ¦ «{1: »2«}» ¦ «{»1«: 2}» ¦ «f(»x«)» ¦ «f(1, »x«, 2)» ¦ «x[»y«]» ¦ «(x or »y«)»
        ¦ «(x < »y«)» ¦ «(x, »y«)» ¦ «(x if »y« else z)» ¦ «(»x« if y else z)» ¦ «[x, »()«]»";
    deep(&rt, rt.alloc(), texts, 59, "kept")?;
    deep(&rt, rt.alloc(), texts, 60, "limit")?;
    Ok(())
}

// The operands of a comparison, the members of a list and what stands in parentheses are on one level.
#[test]
fn wide_lines(rt: HostRuntime) -> Result<(), Fail> {
    let texts =
        "x« < x» ¦ «x, »y ¦ [«x, »y] ¦ f(«x, »y) ¦ {«1: 2, »} ¦ «(»x«)» ¦ «x; » ¦ «x = »y ¦ «'a' »
        ¦ global x«, x» ¦ («(), »)";
    deep(&rt, rt.alloc(), texts, 61, "kept")?;
    deep(&rt, rt.alloc(), texts, 200, "kept")?;
    Ok(())
}

#[test]
fn levels_in_statements(rt: HostRuntime) -> Result<(), Fail> {
    let texts =
        "x = «-»1 ¦ x = y = «-»1 ¦ x += «-»1 ¦ return «-»1 ¦ raise «-»1 ¦ assert «-»1 ¦ assert «-»1, x
        ¦ assert x, «-»1 ¦ x; «-»1 ¦ «-»1; x ¦ x; «-»1; y;";
    deep(&rt, rt.alloc(), texts, 59, "kept")?;
    deep(&rt, rt.alloc(), texts, 60, "limit")?;
    Ok(())
}

#[test]
fn levels_in_targets(rt: HostRuntime) -> Result<(), Fail> {
    let texts =
        "x«.a» = 1 ¦ x«.a» = y = 1 ¦ y = x«.a» = 1 ¦ (x«.a») = 1 ¦ «(»x«,)» = y ¦ «[»x«]» = y ¦ x«.a» += 1
        ¦ for x«.a» in y: pass ¦ for «[»x«]» in y: pass ¦ del x«.a» ¦ del «(»x«,)»";
    deep(&rt, rt.alloc(), texts, 59, "kept")?;
    deep(&rt, rt.alloc(), texts, 60, "limit")?;
    Ok(())
}

#[test]
fn levels_in_headers(rt: HostRuntime) -> Result<(), Fail> {
    let texts =
        "if «-»1: ¦ elif «-»1: pass ¦ while «-»1: pass ¦ for x in «-»1: pass ¦ except «-»1: pass
        ¦ except «-»1 as e: pass ¦ def f(a=«-»1): pass ¦ def f(a, b=1, c=«-»1): pass ¦ def f(a=«-»1, b=1): pass
        ¦ class C(«-»1): pass ¦ if x: «-»1 ¦ else: x; «-»1 ¦ try: «-»1; x ¦ def f(): return «-»1";
    deep(&rt, rt.alloc(), texts, 59, "kept")?;
    deep(&rt, rt.alloc(), texts, 60, "limit")?;
    Ok(())
}

// A part of one more node.
#[test]
fn levels_below_a_node(rt: HostRuntime) -> Result<(), Fail> {
    let texts =
        "x[«-»1] = 2 ¦ x[«-»1] += 2 ¦ x, «-»1 ¦ «-»1, x ¦ x, y«.a» = 1 ¦ f(x, «-»1, y) ¦ f(x)«.a» ¦ [«-»1, x]
        ¦ {«-»1: 2} ¦ {x: 2, 1: «-»1} ¦ x + «-»1 ¦ «-»1 + x ¦ x < y < «-»1 ¦ lambda x=«-»1: x ¦ x if «-»1 else y
        ¦ for x, y«.a» in z: pass ¦ for x in y, «-»1: pass ¦ return x, «-»1 ¦ del x, y«.a» ¦ class C((«-»1, x)): pass";
    deep(&rt, rt.alloc(), texts, 58, "kept")?;
    deep(&rt, rt.alloc(), texts, 59, "limit")?;
    Ok(())
}

// Whether a line is in a form does not depend on how deep it is.
#[test]
fn no_lines_however_deep(rt: HostRuntime) -> Result<(), Fail> {
    let texts =
        "«-»1) ¦ «-»1 = x ¦ «-»x += 1 ¦ x, «-»1 = y ¦ x«.a»() = 1 ¦ x«.a» = 1 = y ¦ (x«.a») += 1 ¦ x, y«.a» += 1
        ¦ «[»«]» = 1 ¦ [«(»«)», x] = 1 ¦ «[»x«]» += 1 ¦ [x«.a», 1] = y ¦ 1, x«.a» = y ¦ x«.a», 1 = y
        ¦ for «-»x in y: pass ¦ for x«.a»: pass ¦ del «-»x ¦ del «(»()«,)»";
    for count in [1, 58, 61, 100] {
        deep(&rt, rt.alloc(), texts, count, "no line")?;
    }
    Ok(())
}

#[test]
fn more_no_lines_however_deep(rt: HostRuntime) -> Result<(), Fail> {
    let texts =
        "def f(a=«-»1, b): pass ¦ def f(a, b=«-»1, a=1): pass ¦ lambda x=«-»1, y: x ¦ lambda x, x=«-»1: x
        ¦ f(x, «-»x=1) ¦ {«-»1} ¦ {1: 2, «-»1} ¦ x[«-»1:] ¦ if «-»1 ¦ if «-»1, x: pass ¦ if x: y: «-»1 ¦ «not »
        ¦ «x if »y« else z» w ¦ x« < y» < ¦ x« + y» + ¦ x« and y» or ¦ raise x«.a», y ¦ pass «-»1
        ¦ class C(«-»1,): pass ¦ except «-»1 as x.y: pass";
    for count in [1, 58, 61, 100] {
        deep(&rt, rt.alloc(), texts, count, "no line")?;
    }
    Ok(())
}

#[test]
fn targets_that_are_too_deep(rt: HostRuntime) -> Result<(), Fail> {
    let texts =
        "x«.a».b = 1 ¦ x«.a»().b = 1 ¦ (f(«-»1).a) = 1 ¦ [x«.a», y] = z ¦ y, x«.a» = z ¦ x«.a», y = z
        ¦ «[»x«]», y = z ¦ «[»x«]» = y = z ¦ «[»x, y«]» = z ¦ («-»1).a += 1 ¦ x[«-»1] += 1 ¦ for («-»1).a in y: pass
        ¦ for x, «(»y«,)» in z: pass ¦ del x, («-»1)[0]";
    deep(&rt, rt.alloc(), texts, 61, "limit")?;
    deep(&rt, rt.alloc(), texts, 100, "limit")?;
    Ok(())
}

#[test]
fn open_brackets(rt: HostRuntime) -> Result<(), Fail> {
    deep(&rt, rt.alloc(), "«(»x«)» ¦ x = «(»1, 2«)»", 200, "kept")?;
    deep(&rt, rt.alloc(), "«(»x«)» ¦ x = «(»1, 2«)»", 201, "limit")?;
    let texts = "«(» ¦ «[» ¦ «{» ¦ x y «(»«)» ¦ «f(»x«]» y ¦ )]}«(» ¦ () [] {} «(» ¦ ()]«[»«}»";
    deep(&rt, rt.alloc(), texts, 200, "no line")?;
    deep(&rt, rt.alloc(), texts, 201, "limit")?;
    deep(&rt, rt.alloc(), "«]» ¦ x «()» y ¦ «(]»", 300, "no line")?;
    Ok(())
}

#[test]
fn numbers(rt: HostRuntime) -> Result<(), Fail> {
    let rows =
        "170141183460469231731687303715884105727 → (expr 170141183460469231731687303715884105727)
        ¦ 0x7fffffffffffffffffffffffffffffff → (expr 170141183460469231731687303715884105727)
        ¦ -0o1777777777777777777777777777777777777777777 → (expr (neg 170141183460469231731687303715884105727))
        ¦ 0x00000000000000000000000000000000000000000001 → (expr 1)";
    lines(&rt, rt.alloc(), rows)?;
    let texts = "170141183460469231731687303715884105728 ¦ -170141183460469231731687303715884105728
        ¦ 0x80000000000000000000000000000000 ¦ x = f(170141183460469231731687303715884105728)
        ¦ if 170141183460469231731687303715884105728: pass ¦ x y 170141183460469231731687303715884105728
        ¦ 170141183460469231731687303715884105728 = x
        ¦ def f(a, a=170141183460469231731687303715884105728): pass
        ¦ ) 999999999999999999999999999999999999999999999999999999999999";
    all_are(&rt, rt.alloc(), texts, "limit")?;
    Ok(())
}

#[test]
fn unsupported_tokens(rt: HostRuntime) -> Result<(), Fail> {
    let texts =
        "import x ¦ from x import y ¦ x = yield ¦ yield ¦ async ¦ await x ¦ with x: pass ¦ x / y ¦ x /= 1 ¦ x @ y
        ¦ x @= 1 ¦ @x ¦ x & y ¦ x | y ¦ x ^ y ¦ ~x ¦ x << y ¦ x >> y ¦ x &= 1 ¦ x |= 1 ¦ x ^= 1 ¦ x <<= 1 ¦ x >>= 1
        ¦ x := 1 ¦ def f() -> x: pass ¦ x = ... ¦ 1.5 ¦ 1. ¦ .5 ¦ 1e5 ¦ 2j ¦ b'a' ¦ f'a' ¦ r\"a\" ¦ u'' ¦ Rb'a'
        ¦ raise x from y ¦ x.1";
    all_are(&rt, rt.alloc(), texts, "unsupported")?;
    Ok(())
}

#[test]
fn unsupported_before_all(rt: HostRuntime) -> Result<(), Fail> {
    let texts = "x y import ¦ import 170141183460469231731687303715884105728
        ¦ 170141183460469231731687303715884105728 x / y ¦ ) = 1.5";
    all_are(&rt, rt.alloc(), texts, "unsupported")?;
    let texts = "«(» @ ¦ ~ «(» ¦ «-»1.5 ¦ «-»1 / x ¦ «-») / x";
    deep(&rt, rt.alloc(), texts, 201, "unsupported")?;
    Ok(())
}
