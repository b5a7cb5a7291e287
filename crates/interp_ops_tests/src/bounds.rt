// What ends a run or an operation: steps, depth and nesting.
use crate::tables::{Start, rows, rows_from};
use std::test::Fail;

#[test]
fn ends(rt: HostRuntime) -> Result<(), Fail> {
    let start = Start {
        steps: 10000,
        depth: 0,
        in_full: false,
    };
    let table =
        "== doubled doubled → steps - 10000 ¦ tuple-of doubled → RecursionError('too deep') A 1
        ¦ attribute doubled 'count → RecursionError('too deep') A 0
        ¦ == list-in-itself list-in-itself → RecursionError('too deep') 6005 1501
        ¦ < list-in-itself list-in-itself → RecursionError('too deep') 6005 1501";
    rows_from(&rt, rt.alloc(), start, table)?;
    Ok(())
}

#[test]
fn deepest(rt: HostRuntime) -> Result<(), Fail> {
    let start = Start {
        steps: 10000,
        depth: 1500,
        in_full: false,
    };
    let table =
        "== ( 1 ) ( 2 ) → RecursionError('too deep') A 1 ¦ repr [ 1 ] → RecursionError('too deep') cA 1
        ¦ == 1 1 → True - 0 ¦ < 1 2 → True - 0 ¦ < ( 1 ) ( 2 ) → RecursionError('too deep') A 1
        ¦ <= ( 1 ) ( 2 ) → RecursionError('too deep') A 1 ¦ in ( 1 ) ( ( 1 ) ) → RecursionError('too deep') A 2
        ¦ repr 5 → 5 - 1 ¦ repr ( 1 ) → RecursionError('too deep') A 1
        ¦ repr { 1 10 } → RecursionError('too deep') ecA 1 ¦ repr ValueError( ) → RecursionError('too deep') bA 0
        ¦ str 'abc → abc - 3 ¦ str ( 1 ) → RecursionError('too deep') A 1 ¦ str ValueError( ) → b 0
        ¦ str ValueError( 'a ) → RecursionError('too deep') bA 0
        ¦ str ValueError( 'a 'b ) → RecursionError('too deep') bA 0 ¦ str [ 1 ] → RecursionError('too deep') cA 1
        ¦ str KeyError( 'a ) → RecursionError('too deep') bA 0 ¦ repr [ ] → [] c 0 ¦ repr { } → {} e 0 ¦ repr ( ) → () - 0
        ¦ < [ 1 ] [ 2 ] → RecursionError('too deep') eeccA 1
        ¦ == { 1 10 } { 1 10 } → RecursionError('too deep') eedccA 1";
    rows_from(&rt, rt.alloc(), start, table)?;
    Ok(())
}

#[test]
fn one_below_deepest(rt: HostRuntime) -> Result<(), Fail> {
    let start = Start {
        steps: 10000,
        depth: 1499,
        in_full: false,
    };
    let table =
        "== ( 1 ) ( 2 ) → False - 1 ¦ == ( ( 1 ) ) ( ( 1 ) ) → RecursionError('too deep') A 2 ¦ repr [ 1 ] → [1] cc 2
        ¦ repr ValueError( ) → ValueError() b 0 ¦ repr ValueError( 1 ) → RecursionError('too deep') bA 1
        ¦ str ValueError( 'a ) → a b 1 ¦ str ValueError( 'a 'b ) → RecursionError('too deep') bA 1
        ¦ repr ( ( 1 ) ) → RecursionError('too deep') A 2 ¦ repr { 1 10 } → {1: 10} ec 4 ¦ str KeyError( 'a ) → 'a' b 3
        ¦ < ( ( 1 ) ) ( ( 2 ) ) → RecursionError('too deep') A 2 ¦ repr [ [ ] ] → [[]] ccc 1";
    rows_from(&rt, rt.alloc(), start, table)?;
    Ok(())
}

#[test]
fn two_below_deepest(rt: HostRuntime) -> Result<(), Fail> {
    let start = Start {
        steps: 10000,
        depth: 1498,
        in_full: false,
    };
    let table = "repr ( ( 1 ) ) → ((1,),) - 3 ¦ repr ValueError( 1 ) → ValueError(1) b 2
        ¦ str ValueError( 'a 'b ) → ('a', 'b') b 8 ¦ < ( ( 1 ) ) ( ( 2 ) ) → True - 3
        ¦ == ( ( 1 ) ) ( ( 1 ) ) → True - 2 ¦ repr ( ( ( 1 ) ) ) → RecursionError('too deep') A 3";
    rows_from(&rt, rt.alloc(), start, table)?;
    Ok(())
}

#[test]
fn deep_dictionaries(rt: HostRuntime) -> Result<(), Fail> {
    let start = Start {
        steps: 10000,
        depth: 1300,
        in_full: false,
    };
    let table = "== dict-in-itself dict-in-itself → RecursionError('too deep') 1006 201
        ¦ == { 1 dict-in-itself } { 1 dict-in-itself } → RecursionError('too deep') 1006 201";
    rows_from(&rt, rt.alloc(), start, table)?;
    Ok(())
}

#[test]
fn few_steps(rt: HostRuntime) -> Result<(), Fail> {
    let start = Start {
        steps: 1,
        depth: 0,
        in_full: false,
    };
    let table =
        "== ( 1 2 ) ( 1 2 ) → steps - 1 ¦ == [ 1 2 ] [ 1 2 ] → steps eecc 1 ¦ < [ 1 2 ] [ 1 2 ] → steps eecc 1
        ¦ parts [ 1 2 ] → steps cc 1 ¦ in 2 [ 1 2 ] → steps cc 1 ¦ repr [ 1 ] → steps c 1 ¦ repr { 1 10 } → steps ec 1
        ¦ str 'abc → steps - 1 ¦ in 'bc 'abcd → steps - 1 ¦ + [ 1 2 ] [ 3 ] → steps cc 1
        ¦ delete [ 10 20 30 ] 1 → steps ecc 1 ¦ splice [ 1 2 3 ] 1 ( 7 8 9 ) → steps - 1 ¦ list ( 1 2 ) → steps - 1
        ¦ tuple ( 1 2 ) → steps - 1 ¦ text 'abc → steps - 1 ¦ dict ( 1 2 ) ( 1 2 ) → steps - 1
        ¦ dict ( 1 [ ] ) ( 1 2 ) → TypeError('wrong kind') A 0 ¦ at [ 1 ] 0 → 1 c 0 ¦ store { } 1 2 → {1: 2} ijIPS 0
        ¦ delete { 1 2 } 1 → {} djIPS 0";
    rows_from(&rt, rt.alloc(), start, table)?;
    Ok(())
}

#[test]
fn no_steps(rt: HostRuntime) -> Result<(), Fail> {
    let start = Start {
        steps: 0,
        depth: 0,
        in_full: false,
    };
    let table =
        "tuple-of doubled → steps - 0 ¦ tuple-of 1 → steps - 0 ¦ dict ( [ ] ) ( 1 ) → TypeError('wrong kind') A 0
        ¦ dict ( 1 ) ( 1 ) → steps - 0 ¦ parts [ 1 ] → steps c 0 ¦ delete [ 1 ] 0 → steps ec 0 ¦ repr 5 → steps - 0
        ¦ repr ( ) → () - 0 ¦ * 'ab 0 → '' - 0 ¦ truth [ 1 ] → True e 0";
    rows_from(&rt, rt.alloc(), start, table)?;
    Ok(())
}

#[test]
fn large_values(rt: HostRuntime) -> Result<(), Fail> {
    let table =
        "tuple-of halved → large - 1 ¦ attribute halved 'count → <method count> - 0 ¦ store [ 1 ] 0 doubled → large jI 0
        ¦ store { } 1 doubled → large ijIPS 0 ¦ write-attribute instance 'x doubled → <C object> A 0
        ¦ at doubled 0 → large - 0 ¦ truth doubled → True - 0 ¦ + doubled doubled → large - 4 ¦ * doubled 2 → large - 4
        ¦ parts doubled → large - 2 ¦ == doubled doubled → steps - 1000 ¦ < doubled doubled → steps - 1000
        ¦ <= doubled doubled → steps - 1000 ¦ in doubled [ doubled ] → steps c 1000 ¦ repr doubled → steps - 1000
        ¦ str doubled → steps - 1000";
    rows(&rt, rt.alloc(), table)?;
    Ok(())
}

#[test]
fn objects_in_themselves(rt: HostRuntime) -> Result<(), Fail> {
    let table =
        "== list-in-itself list-in-itself → steps 4002 1000 ¦ < list-in-itself list-in-itself → steps 4002 1000
        ¦ == list-in-itself dup → True - 0 ¦ < list-in-itself dup → False eecc 1 ¦ <= list-in-itself dup → True eecc 1
        ¦ in list-in-itself dup → True c 1 ¦ truth list-in-itself → True e 0 ¦ at list-in-itself 0 → [[...]] c 0
        ¦ + list-in-itself dup → [[[...]], [[...]]] ccccIIS 4 ¦ * list-in-itself 2 → [[[...]], [[...]]] ccIIS 3
        ¦ store list-in-itself 0 5 → [5] jI 0 ¦ delete list-in-itself 0 → [] ecIS 1
        ¦ str error-of-itself → RecursionError('too deep') 1502 0";
    rows(&rt, rt.alloc(), table)?;
    Ok(())
}
