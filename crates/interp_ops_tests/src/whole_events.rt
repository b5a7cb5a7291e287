// Events in full: the letter, the number of the object (0 is the global frame, and the values of a row are numbered from 1 in the
// order in which they are made), and behind a point the key, or the symbol of the attribute (63 is `args`).
use crate::tables::{Start, rows_from};
use std::test::Fail;

#[test]
fn whole_events(rt: HostRuntime) -> Result<(), Fail> {
    let start = Start {
        steps: 1000,
        depth: 0,
        in_full: true,
    };
    let table =
        "at [ 10 20 ] -3 → IndexError('index out of range') e1,A2.63 0 ¦ dict-put { 1 10 } True 99 → {1: 99} i1.1,I1.1 0
        ¦ < 5 'a → TypeError('wrong kind') A1.63 0 ¦ == [ 1 2 ] [ 1 2 ] → True e1,e2,c1.0,c2.0,c1.1,c2.1 2
        ¦ == { 1 10 2 20 } { 2 20 1 10 } → True e1,e2,d2.1,c1.1,c2.1,d2.2,c1.2,c2.2 2
        ¦ == { 1 10 } { 2 10 } → False e1,e2,d2.1 1 ¦ < [ 1 2 ] [ 1 3 ] → True e1,e2,c1.0,c2.0,c1.1,c2.1 2
        ¦ in 2 [ 1 2 3 ] → True c1.0,c1.1 2 ¦ in { 1 2 } [ { 1 2 } ] → True c3.0,e2,e1,d1.1,c2.1,c1.1 2
        ¦ in None { None 1 } → True d1.None 0 ¦ in 'a { 'a 1 } → True d1.text 0
        ¦ in ( 1 2 ) { ( True 2 ) 1 } → True d1.tuple 0
        ¦ + [ 1 2 ] [ 3 ] → [1, 2, 3] c1.0,c1.1,c1.2,c2.0,c2.1,I3.0,I3.1,I3.2,S3 6
        ¦ * 2 [ 1 ] → [1, 1] c1.0,c1.1,I2.0,I2.1,S2 3 ¦ parts { 1 10 2 20 } → (1, 2) e1 2 ¦ truth { 1 2 } → True e1 0
        ¦ at [ 10 20 ] -1 → 20 e1,c1.1 0 ¦ at [ 10 20 ] 2 → IndexError('index out of range') c1.2,A2.63 0
        ¦ at { 1 10 } True → 10 c1.1 0 ¦ at { } chain → RecursionError('too deep') c1.tuple,A3.63 0
        ¦ store [ 10 20 ] 1 99 → [10, 99] j1,I1.1 0 ¦ store [ 10 20 ] -1 99 → [10, 99] e1,I1.1 0
        ¦ store { 1 10 } 2 99 → {1: 10, 2: 99} i1.2,j1,I1.2,P1.2,S1 0 ¦ delete { 1 10 } True → {} d1.1,j1,I1.1,P1.1,S1 0
        ¦ delete [ 10 20 30 ] 1 → [10, 30] e1,c1.1,c1.2,I1.1,I1.2,S1 3
        ¦ splice [ 1 2 3 ] 1 ( 7 8 9 ) → [1, 7, 8, 9] I1.1,I1.2,I1.3,S1 3
        ¦ attribute below 'f → <method lambda> b4.70,b2.70 0 ¦ attribute below 'g → 1 b4.67,b2.67,b1.67 0
        ¦ attribute below 'y → AttributeError(\"no attribute 'y'\") b4.73,b2.73,b1.73,A6.63 0
        ¦ attribute class-below 'g → 1 b2.67,b1.67 0 ¦ repr { 1 [ 2 ] } → {1: [2]} e2,c2.1,c1.0,c1.1 4
        ¦ repr [ [ 1 ] dup ] → [[1], [1]] c2.0,c1.0,c1.1,c2.1,c1.0,c1.1,c2.2 6
        ¦ repr list-in-itself → [[...]] c1.0,c1.1 6 ¦ repr KeyError( 'x ) → KeyError('x') b1.63 4
        ¦ str KeyError( 'x ) → 'x' b1.63 3 ¦ list ( 1 True ) → [1, True] I1.0,I1.1,S1 2
        ¦ dict ( 2 1 True ) ( 10 20 30 ) → {2: 10, 1: 30} I1.2,P1.2,I1.1,P1.1,S1 3
        ¦ tuple-of doubled → RecursionError('too deep') A1.63 1 ¦ raise-key chain → RecursionError('too deep') A2.63 0";
    rows_from(&rt, rt.alloc(), start, table)?;
    Ok(())
}
