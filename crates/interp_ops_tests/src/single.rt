// Operations of one value, identity, sort kinds, and new values.
use crate::tables::rows;
use std::test::Fail;

#[test]
fn one_value(rt: HostRuntime) -> Result<(), Fail> {
    let table =
        "truth None → False - 0 ¦ truth False → False - 0 ¦ truth 0 → False - 0 ¦ truth -1 → True - 0
        ¦ truth ' → False - 0 ¦ truth 'a → True - 0 ¦ truth ( ) → False - 0 ¦ truth ( 0 ) → True - 0
        ¦ truth range:3:0:1 → False - 0 ¦ truth range:3:0:-1 → True - 0 ¦ truth [ ] → False e 0
        ¦ truth { 1 2 } → True e 0 ¦ minus 5 → -5 - 0 ¦ minus True → -1 - 0
        ¦ minus -170141183460469231731687303715884105728 → range - 0 ¦ minus 'a → TypeError('wrong kind') A 0
        ¦ plus True → 1 - 0 ¦ plus None → TypeError('wrong kind') A 0 ¦ parts [ 1 2 ] → (1, 2) ccc 2
        ¦ parts { 1 10 2 20 } → (1, 2) e 2 ¦ parts ( 7 ) → (7,) - 1 ¦ parts range:5:0:-2 → (5, 3, 1) - 3
        ¦ parts 5 → TypeError('wrong kind') A 0 ¦ truth True → True - 0 ¦ truth range:0:1:1 → True - 0
        ¦ truth instance → True - 0 ¦ truth class → True - 0 ¦ truth lambda → True - 0 ¦ truth @len → True - 0
        ¦ truth bound → True - 0 ¦ truth method → True - 0 ¦ truth [ 0 ] → True e 0 ¦ truth { } → False e 0
        ¦ minus 0 → 0 - 0 ¦ plus 5 → 5 - 0 ¦ plus False → 0 - 0 ¦ parts 'ab → ('a', 'b') - 2 ¦ parts [ ] → () c 0
        ¦ parts { } → () e 0 ¦ parts ( ) → () - 0 ¦ parts ' → () - 0 ¦ parts range:0:0:1 → () - 0
        ¦ parts { 'b 1 'a 2 } → ('b', 'a') e 2 ¦ parts { True 1 } → (True,) e 1 ¦ first [ 5 6 ] → 5 c 1
        ¦ first [ ] → None c 0 ¦ first { 1 2 } → 1 e 1 ¦ first 'ab → 'a' - 1 ¦ first ( ) → None - 0
        ¦ first range:3:9:2 → 3 - 1 ¦ minus [ 1 ] → TypeError('wrong kind') A 0 ¦ plus 'a → TypeError('wrong kind') A 0
        ¦ plus ( 1 ) → TypeError('wrong kind') A 0 ¦ parts None → TypeError('wrong kind') A 0
        ¦ parts instance → TypeError('wrong kind') A 0 ¦ parts class → TypeError('wrong kind') A 0
        ¦ parts @len → TypeError('wrong kind') A 0 ¦ parts method → TypeError('wrong kind') A 0
        ¦ parts lambda → TypeError('wrong kind') A 0 ¦ walked-on [ 1 2 3 ] 1 ( 7 8 ) → (7, 8) cIIccc 3
        ¦ walked-on [ 1 2 3 ] 1 ( ) → () cIISc 1 ¦ walked-on [ 1 ] 1 ( 2 ) → (2,) cIScc 2
        ¦ walked-on [ 1 2 ] 0 ( ) → () cIISc 1 ¦ walked-on [ ] 0 ( 5 ) → () cISc 0";
    rows(&rt, rt.alloc(), table)?;
    Ok(())
}

#[test]
fn identities(rt: HostRuntime) -> Result<(), Fail> {
    let table =
        "is 1 1 → True - 0 ¦ sorts 1 1 → True - 0 ¦ is 1 True → False - 0 ¦ sorts 1 True → True - 0 ¦ is 'a 'a → True - 0
        ¦ sorts 'a 'a → True - 0 ¦ is ( 1 2 ) ( 1 2 ) → True - 0 ¦ sorts ( 1 2 ) ( 1 2 ) → True - 0
        ¦ is ( 1 2 ) ( 1 3 ) → False - 0 ¦ sorts ( 1 2 ) ( 1 3 ) → True - 0 ¦ is ( 1 2 ) ( 1 ) → False - 0
        ¦ sorts ( 1 2 ) ( 1 ) → False - 0 ¦ is [ 1 ] [ 1 ] → False - 0 ¦ sorts [ 1 ] [ 1 ] → False - 0
        ¦ is None None → True - 0 ¦ sorts None None → False - 0 ¦ is range:0:4:2 range:0:3:2 → False - 0
        ¦ sorts range:0:4:2 range:0:3:2 → False - 0 ¦ is 1 'a → False - 0 ¦ sorts 1 'a → False - 0
        ¦ is True True → True - 0 ¦ is 0 False → False - 0 ¦ is None False → False - 0 ¦ is [ 1 ] dup → True - 0
        ¦ is instance dup → True - 0 ¦ is ( [ 1 ] ) dup → True - 0 ¦ is ( [ 1 ] ) ( [ 1 ] ) → False - 0
        ¦ is ( 1 ) ( True ) → False - 0 ¦ is @len @len → True - 0 ¦ is @len @int → False - 0 ¦ is bound dup → True - 0
        ¦ is text-method text-method → True - 0 ¦ is method method → False - 0 ¦ is range:0:4:2 range:0:4:2 → True - 0
        ¦ sorts ( 1 'a ) ( 2 'b ) → True - 0 ¦ sorts ( 1 'a ) ( 'b 2 ) → False - 0
        ¦ sorts ( ( 1 ) ) ( ( True ) ) → True - 0 ¦ sorts ( None ) ( None ) → False - 0 ¦ sorts { } { } → False - 0
        ¦ sorts-all ( ) → True - 0 ¦ sorts-all ( 1 ) → True - 0 ¦ sorts-all ( None ) → False - 0
        ¦ sorts-all ( [ ] ) → False - 0 ¦ sorts-all ( 1 True 3 ) → True - 0 ¦ sorts-all ( 1 2 'a ) → False - 0
        ¦ sorts-all ( ( ) ( ) ) → True - 0 ¦ sorts-all ( ( ) ( 1 ) ) → False - 0";
    rows(&rt, rt.alloc(), table)?;
    Ok(())
}

#[test]
fn making(rt: HostRuntime) -> Result<(), Fail> {
    let table =
        "list ( 1 True ) → [1, True] IIS 2 ¦ tuple ( 1 True ) → (1, True) - 2 ¦ text 'abc → 'abc' - 3
        ¦ dict ( 1 True ) ( 1 True ) → {1: True} IPS 2 ¦ dict ( None [ ] ) ( 1 True ) → TypeError('wrong kind') A 0
        ¦ list ( ) → [] S 0 ¦ tuple ( ) → () - 0 ¦ text ' → '' - 0 ¦ dict ( ) ( ) → {} S 0
        ¦ dict ( 1 2 ) ( 10 20 ) → {1: 10, 2: 20} IPIPS 2 ¦ dict ( 2 1 True ) ( 10 20 30 ) → {2: 10, 1: 30} IPIPS 3
        ¦ dict ( ( 1 [ ] ) ) ( 1 ) → TypeError('wrong kind') A 0";
    rows(&rt, rt.alloc(), table)?;
    Ok(())
}
