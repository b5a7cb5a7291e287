// Operations of two values or three.
use crate::tables::rows;
use std::test::Fail;

#[test]
fn equal_values(rt: HostRuntime) -> Result<(), Fail> {
    let table =
        "== 5 7 → False - 0 ¦ == True 1 → True - 0 ¦ == None None → True - 0 ¦ == None 0 → False - 0
        ¦ == 'abc 'abc → True - 0 ¦ == 'abc 'abd → False - 0 ¦ == 5 'a → False - 0 ¦ == [ 1 2 ] [ 1 2 ] → True eecccc 2
        ¦ == [ 1 2 ] [ 3 2 ] → False eecc 1 ¦ == [ 1 2 ] [ 1 2 3 ] → False ee 0 ¦ == ( 1 2 ) ( 1 2 ) → True - 2
        ¦ == ( 1 2 ) ( 3 2 ) → False - 1 ¦ == ( 1 2 ) [ 1 2 ] → False - 0
        ¦ == { 1 10 2 20 } { 2 20 1 10 } → True eedccdcc 2 ¦ == { 1 10 } { 1 11 } → False eedcc 1
        ¦ == { 1 10 } { 2 10 } → False eed 1 ¦ == { 1 10 } { } → False ee 0 ¦ == range:0:4:2 range:0:3:2 → True - 0
        ¦ == range:0:0:1 range:7:5:3 → True - 0 ¦ == range:0:4:2 range:0:4:3 → False - 0 ¦ == False 0 → True - 0
        ¦ == None False → False - 0 ¦ == @len @len → True - 0 ¦ == @len @int → False - 0 ¦ == @int @int → True - 0
        ¦ == [ 1 ] dup → True - 0 ¦ == instance dup → True - 0 ¦ == instance instance → False - 0
        ¦ == [ ] { } → False - 0 ¦ == [ ] [ ] → True ee 0 ¦ == { } { } → True ee 0 ¦ == ( ) ( ) → True - 0
        ¦ == ( 1 2 ) ( 1 2 3 ) → False - 0 ¦ == [ [ 1 ] ] [ [ 1 ] ] → True eecceecc 2
        ¦ == [ 1 [ 2 ] ] [ 1 [ 3 ] ] → False eecccceecc 3 ¦ == ( 1 [ 2 ] ) ( 1 [ 2 ] ) → True eecc 3
        ¦ == { True 10 } { 1 10 } → True eedcc 1 ¦ == { 1 [ 2 ] } { 1 [ 2 ] } → True eedcceecc 2
        ¦ == { 1 10 2 20 } { 1 10 3 20 } → False eedccd 2 ¦ == range:0:4:2 ( 0 2 ) → False - 0
        ¦ == range:5:0:-2 range:5:-1:-2 → True - 0 ¦ == range:5:0:-2 range:5:1:-2 → False - 0
        ¦ == range:3:4:1 range:3:9:7 → True - 0 ¦ == bound dup → True - 0 ¦ == bound bound → False - 0
        ¦ == method dup → True - 0 ¦ == method method → False - 0 ¦ == text-method text-method → True - 0";
    rows(&rt, rt.alloc(), table)?;
    Ok(())
}

#[test]
fn equal_functions(rt: HostRuntime) -> Result<(), Fail> {
    let table =
        "== function dup → True - 0 ¦ == function function → False - 0 ¦ == class dup → True - 0
        ¦ == class class → False - 0 ¦ == bound:1:3 bound:1:3 lambda instance → True - 0
        ¦ == bound:1:3 bound:1:5 lambda instance instance → False - 0
        ¦ == bound:1:3 bound:4:3 lambda instance lambda → False - 0 ¦ is bound:1:3 bound:1:3 lambda instance → True - 0
        ¦ is bound:1:3 bound:1:5 lambda instance instance → False - 0
        ¦ == count-of( ( 1 ) ) count-of( ( 1 ) ) → True - 0 ¦ == count-of( ( 1 ) ) count-of( ( True ) ) → False - 0
        ¦ is count-of( ( 1 ) ) count-of( ( True ) ) → False - 0 ¦ == count-of( [ 1 ] ) count-of( [ 1 ] ) → False - 0
        ¦ == count-of( [ 1 ] ) dup → True - 0 ¦ == count-of( 'a ) text-method → False - 0
        ¦ in count-of( ( True ) ) [ count-of( ( 1 ) ) ] → False cc 1";
    rows(&rt, rt.alloc(), table)?;
    Ok(())
}

#[test]
fn orders(rt: HostRuntime) -> Result<(), Fail> {
    let table =
        "< -2 7 → True - 0 ¦ < True 1 → False - 0 ¦ < 'abc 'abd → True - 0 ¦ < 'ab 'abc → True - 0
        ¦ < [ 1 2 ] [ 1 3 ] → True eecccc 2 ¦ < [ 1 2 ] [ 1 2 ] → False eecccc 2 ¦ < [ 1 2 ] [ 1 2 0 ] → True eecccc 2
        ¦ < ( 2 1 ) ( 1 2 3 ) → False - 1 ¦ < 5 'a → TypeError('wrong kind') A 0
        ¦ < None None → TypeError('wrong kind') A 0 ¦ < { 1 10 } { 1 10 } → TypeError('wrong kind') A 0
        ¦ < ( 1 ) [ 1 ] → TypeError('wrong kind') A 0 ¦ <= [ 1 2 ] [ 1 2 ] → True eecccc 2
        ¦ <= [ 1 2 ] [ 1 ] → False eecc 1 ¦ <= 5 5 → True - 0 ¦ <= 'b 'a → False - 0 ¦ < 1 3 → True - 0
        ¦ < 3 2 → False - 0 ¦ < True False → False - 0 ¦ < 'b 'ab → False - 0 ¦ < ' 'a → True - 0 ¦ < 'Z 'a → True - 0
        ¦ < '\u{ff5e} '\u{1f600} → True - 0 ¦ < ( 1 2 ) ( 1 3 ) → True - 2 ¦ < ( ) ( 1 ) → True - 0
        ¦ < ( 1 ) ( ) → False - 0 ¦ < [ ] [ ] → False ee 0 ¦ < ( 1 ( 2 ) ) ( 1 ( 3 ) ) → True - 4
        ¦ < [ [ 1 ] ] [ [ 2 ] ] → True eecceecceecc 3 ¦ < ( None 1 ) ( None 2 ) → True - 2
        ¦ < ( None ) ( None ) → False - 1 ¦ < ( None ) ( None 1 ) → True - 1 ¦ <= ( None ) ( None ) → True - 1
        ¦ <= ( 1 2 ) ( 1 3 ) → True - 2 ¦ <= ( 2 ) ( 1 ) → False - 1 ¦ <= [ 1 ] [ 1 2 ] → True eecc 1
        ¦ <= None None → TypeError('wrong kind') A 0 ¦ <= 5 'a → TypeError('wrong kind') A 0
        ¦ <= [ 1 ] ( 1 ) → TypeError('wrong kind') A 0 ¦ < range:0:1:1 range:0:2:1 → TypeError('wrong kind') A 0
        ¦ < @len @len → TypeError('wrong kind') A 0 ¦ < instance instance → TypeError('wrong kind') A 0
        ¦ < method method → TypeError('wrong kind') A 0 ¦ < ( 1 'a ) ( 1 2 ) → TypeError('wrong kind') A 2
        ¦ <= 'a 'a → True - 0 ¦ <= 'a 'ab → True - 0 ¦ <= ( ) ( ) → True - 0 ¦ <= [ ] [ ] → True ee 0
        ¦ < 'a 'a → False - 0 ¦ < ( ) ( ) → False - 0";
    rows(&rt, rt.alloc(), table)?;
    Ok(())
}

#[test]
fn members(rt: HostRuntime) -> Result<(), Fail> {
    let table =
        "in 2 [ 1 2 3 ] → True cc 2 ¦ in 9 [ 1 ] → False cc 1 ¦ in 2 ( 1 2 3 ) → True - 2 ¦ in 4 range:0:9:2 → True - 3
        ¦ in 'bc 'abcd → True - 4 ¦ in 1 'abcd → TypeError('wrong kind') A 0 ¦ in True { 1 10 } → True d 0
        ¦ in 2 { 1 10 } → False d 0 ¦ in [ 1 ] { 1 10 } → TypeError('wrong kind') A 0
        ¦ in 2 2 → TypeError('wrong kind') A 0 ¦ in True ( 1 ) → True - 1 ¦ in 'x [ 'x ] → True c 1
        ¦ in 1 [ ] → False c 0 ¦ in ( 1 ) [ ( 1 ) ] → True c 2 ¦ in { 1 2 } [ { 1 2 } ] → True ceedcc 2
        ¦ in ' 'abc → True - 3 ¦ in ' ' → True - 0 ¦ in 'abc 'ab → False - 2 ¦ in None { None 1 } → True d 0
        ¦ in ( 1 2 ) { ( True 2 ) 1 } → True d 0 ¦ in 3 range:0:9:2 → False - 5 ¦ in 'a range:0:2:1 → False - 2
        ¦ in ( [ 1 ] ) { 1 2 } → TypeError('wrong kind') A 0 ¦ in range:0:1:1 { 1 2 } → TypeError('wrong kind') A 0
        ¦ in 1 None → TypeError('wrong kind') A 0 ¦ in 1 instance → TypeError('wrong kind') A 0
        ¦ in 1 @len → TypeError('wrong kind') A 0 ¦ in None 'abc → TypeError('wrong kind') A 0
        ¦ in ( ) 'abc → TypeError('wrong kind') A 0";
    rows(&rt, rt.alloc(), table)?;
    Ok(())
}

#[test]
fn operators(rt: HostRuntime) -> Result<(), Fail> {
    let table = "+ 5 True → 6 - 0 ¦ + 'ab 'cd → 'abcd' - 4 ¦ + ( 1 2 ) ( 3 ) → (1, 2, 3) - 3
        ¦ + [ 1 2 ] [ 3 ] → [1, 2, 3] cccccIIIS 6 ¦ + [ 1 2 ] ( 3 ) → TypeError('wrong kind') A 0
        ¦ + 'ab 1 → TypeError('wrong kind') A 0 ¦ + 170141183460469231731687303715884105727 1 → range - 0
        ¦ - 5 7 → -2 - 0 ¦ - [ 1 ] [ 1 ] → TypeError('wrong kind') A 0 ¦ // -7 2 → -4 - 0
        ¦ // 1 0 → ZeroDivisionError('division by zero') A 0 ¦ % -7 2 → 1 - 0 ¦ % 7 -2 → -1 - 0
        ¦ % 7 False → ZeroDivisionError('division by zero') A 0 ¦ ** 2 10 → 1024 - 0
        ¦ ** 2 -1 → ValueError('wrong value') A 0 ¦ ** 2 127 → range - 0 ¦ * 6 -7 → -42 - 0 ¦ * 'ab 3 → 'ababab' - 6
        ¦ * 2 ( 1 2 ) → (1, 2, 1, 2) - 4 ¦ * [ 1 2 ] 2 → [1, 2, 1, 2] cccIIIIS 6 ¦ * [ 1 2 ] -2 → [] cccS 2
        ¦ * ' 1000000000000000000000000000000 → '' - 0 ¦ * 'ab 1000000000000000000000000000000 → steps - 1000
        ¦ * 'ab 'ab → TypeError('wrong kind') A 0 ¦ + True 1 → 2 - 0 ¦ + -5 5 → 0 - 0 ¦ + 'a ' → 'a' - 1
        ¦ + ' ' → '' - 0 ¦ + ( ) ( ) → () - 0 ¦ + [ ] [ ] → [] ccS 0 ¦ + [ 1 ] dup → [1, 1] ccccIIS 4
        ¦ - -170141183460469231731687303715884105728 1 → range - 0 ¦ - True True → 0 - 0 ¦ // 7 2 → 3 - 0
        ¦ // 7 -2 → -4 - 0 ¦ // -7 -2 → 3 - 0 ¦ // True True → 1 - 0
        ¦ // -170141183460469231731687303715884105728 -1 → range - 0 ¦ % -7 -2 → -1 - 0 ¦ % 7 7 → 0 - 0
        ¦ % -170141183460469231731687303715884105728 -1 → 0 - 0 ¦ ** 0 0 → 1 - 0 ¦ ** -2 3 → -8 - 0
        ¦ ** True False → 1 - 0 ¦ ** 2 126 → 85070591730234615865843651857942052864 - 0
        ¦ ** -2 127 → -170141183460469231731687303715884105728 - 0
        ¦ ** 1 170141183460469231731687303715884105727 → 1 - 0 ¦ ** -1 170141183460469231731687303715884105727 → -1 - 0
        ¦ ** 0 170141183460469231731687303715884105727 → 0 - 0 ¦ ** 0 -1 → ValueError('wrong value') A 0
        ¦ * 170141183460469231731687303715884105727 2 → range - 0 ¦ * 0 -5 → 0 - 0 ¦ * True 'ab → 'ab' - 2
        ¦ * 'ab -1 → '' - 0 ¦ * ( 1 ) 0 → () - 0 ¦ * 2 [ 1 ] → [1, 1] ccIIS 3 ¦ * [ ] 3 → [] cS 0 ¦ * [ 1 ] 0 → [] ccS 1
        ¦ * ( 1 2 ) 1000000000000000000000000000000 → steps - 1000 ¦ * [ 1 2 ] 10000 → steps ccc 1000
        ¦ + None None → TypeError('wrong kind') A 0 ¦ + { } { } → TypeError('wrong kind') A 0
        ¦ + ( 1 ) [ 1 ] → TypeError('wrong kind') A 0 ¦ + range:0:1:1 range:0:1:1 → TypeError('wrong kind') A 0
        ¦ - 'a 'a → TypeError('wrong kind') A 0 ¦ // 'a 2 → TypeError('wrong kind') A 0
        ¦ % 'a 2 → TypeError('wrong kind') A 0 ¦ ** 'a 2 → TypeError('wrong kind') A 0
        ¦ * [ 1 ] [ 1 ] → TypeError('wrong kind') A 0 ¦ * None 2 → TypeError('wrong kind') A 0
        ¦ * { } 2 → TypeError('wrong kind') A 0";
    rows(&rt, rt.alloc(), table)?;
    Ok(())
}

#[test]
fn items(rt: HostRuntime) -> Result<(), Fail> {
    let table =
        "at [ 10 20 ] 0 → 10 c 0 ¦ at [ 10 20 ] -1 → 20 ec 0 ¦ at [ 10 20 ] 2 → IndexError('index out of range') cA 0
        ¦ at [ 10 20 ] -3 → IndexError('index out of range') eA 0 ¦ at [ 10 20 ] 'a → TypeError('wrong kind') A 0
        ¦ at ( 10 20 ) -1 → 20 - 0 ¦ at ( 10 20 ) True → 20 - 0 ¦ at ( 10 20 ) 2 → IndexError('index out of range') A 0
        ¦ at 'abc 1 → 'b' - 0 ¦ at range:0:10:3 -1 → 9 - 0 ¦ at range:0:10:3 4 → IndexError('index out of range') A 0
        ¦ at { 1 10 } True → 10 c 0 ¦ at { 1 10 } 2 → KeyError(2) cA 0 ¦ at { 1 10 } [ 1 ] → TypeError('wrong kind') A 0
        ¦ at None 0 → TypeError('wrong kind') A 0 ¦ store [ 10 20 ] 1 99 → [10, 99] jI 0
        ¦ store [ 10 20 ] -1 99 → [10, 99] eI 0 ¦ store [ 10 20 ] 2 99 → IndexError('index out of range') jA 0
        ¦ store [ 10 20 ] -3 99 → IndexError('index out of range') eA 0
        ¦ store [ 10 20 ] None 99 → TypeError('wrong kind') A 0 ¦ store { 1 10 } True 99 → {1: 99} iI 0
        ¦ store { 1 10 } 2 99 → {1: 10, 2: 99} ijIPS 0 ¦ store { 1 10 } [ 1 ] 99 → TypeError('wrong kind') A 0
        ¦ store ( 1 2 ) 0 99 → TypeError('wrong kind') A 0 ¦ delete [ 10 20 30 ] 0 → [20, 30] ecccIIIS 5
        ¦ delete [ 10 20 30 ] -1 → [10, 20] ecIS 1 ¦ delete [ 10 20 30 ] 3 → IndexError('index out of range') eA 0
        ¦ delete [ 10 ] 'a → TypeError('wrong kind') A 0 ¦ delete { 1 10 } True → {} djIPS 0
        ¦ delete { 1 10 } 2 → KeyError(2) dA 0 ¦ delete { 1 10 } [ 1 ] → TypeError('wrong kind') A 0
        ¦ delete 'abc 0 → TypeError('wrong kind') A 0 ¦ at [ 10 20 ] True → 20 c 0 ¦ at [ 10 20 ] 1 → 20 c 0
        ¦ at [ 10 20 ] -2 → 10 ec 0 ¦ at 'abc -1 → 'c' - 0 ¦ at range:0:10:3 0 → 0 - 0 ¦ at range:5:0:-2 1 → 3 - 0
        ¦ at { 'a 1 } 'a → 1 c 0 ¦ at { None 1 } None → 1 c 0 ¦ at { ( 1 2 ) 3 } ( True 2 ) → 3 c 0
        ¦ at { 1 10 } 'x → KeyError('x') cA 0 ¦ at { } chain → RecursionError('too deep') cA 0
        ¦ at [ ] 0 → IndexError('index out of range') cA 0
        ¦ at [ 1 ] 170141183460469231731687303715884105727 → IndexError('index out of range') cA 0
        ¦ at [ ] -1 → IndexError('index out of range') eA 0
        ¦ at [ 1 ] -170141183460469231731687303715884105728 → IndexError('index out of range') eA 0
        ¦ at ( 10 20 ) -3 → IndexError('index out of range') A 0
        ¦ at ( 1 ) -170141183460469231731687303715884105728 → IndexError('index out of range') A 0
        ¦ at ( ) 0 → IndexError('index out of range') A 0 ¦ at 'abc 3 → IndexError('index out of range') A 0
        ¦ at range:0:10:3 -5 → IndexError('index out of range') A 0
        ¦ at range:0:0:1 0 → IndexError('index out of range') A 0 ¦ at ( 1 ) 'a → TypeError('wrong kind') A 0
        ¦ at 'abc 'a → TypeError('wrong kind') A 0 ¦ at range:0:10:3 None → TypeError('wrong kind') A 0
        ¦ at { 1 10 } ( [ ] ) → TypeError('wrong kind') A 0 ¦ at instance 0 → TypeError('wrong kind') A 0
        ¦ at @len 0 → TypeError('wrong kind') A 0 ¦ at 5 0 → TypeError('wrong kind') A 0";
    rows(&rt, rt.alloc(), table)?;
    Ok(())
}

#[test]
fn changes(rt: HostRuntime) -> Result<(), Fail> {
    let table = "store [ 10 20 ] True 99 → [10, 99] jI 0 ¦ store { } None 99 → {None: 99} ijIPS 0
        ¦ store { 1 10 2 20 } 1 99 → {1: 99, 2: 20} iI 0 ¦ store { 1 'a } True 'b → {1: 'b'} iI 0
        ¦ store [ ] 0 99 → IndexError('index out of range') jA 0
        ¦ store [ 1 ] 170141183460469231731687303715884105727 99 → IndexError('index out of range') jA 0
        ¦ store [ ] -1 99 → IndexError('index out of range') eA 0
        ¦ store [ 1 ] -170141183460469231731687303715884105728 99 → IndexError('index out of range') eA 0
        ¦ delete [ 10 20 30 ] 1 → [10, 30] eccIIS 3 ¦ delete [ 10 ] 0 → [] ecIS 1 ¦ delete [ 10 20 ] -2 → [20] eccIIS 3
        ¦ delete [ 10 20 ] True → [10] ecIS 1 ¦ delete [ ] 0 → IndexError('index out of range') eA 0
        ¦ delete [ 10 20 ] -3 → IndexError('index out of range') eA 0 ¦ delete { 1 10 2 20 } 1 → {2: 20} djIPS 0
        ¦ delete { } chain → RecursionError('too deep') dA 0 ¦ splice [ 1 2 3 ] 1 ( 7 8 9 ) → [1, 7, 8, 9] IIIS 3
        ¦ splice [ 1 2 3 ] 1 ( 7 8 ) → [1, 7, 8] II 2 ¦ splice [ 1 2 3 ] 0 ( ) → [] IIIS 0
        ¦ splice [ 1 ] 1 ( 2 ) → [1, 2] IS 1 ¦ splice [ 1 2 ] 2 ( ) → [1, 2] - 0
        ¦ store 'abc 0 99 → TypeError('wrong kind') A 0 ¦ store None 0 99 → TypeError('wrong kind') A 0
        ¦ store range:0:3:1 0 99 → TypeError('wrong kind') A 0 ¦ store instance 0 99 → TypeError('wrong kind') A 0
        ¦ delete ( 1 ) 0 → TypeError('wrong kind') A 0 ¦ delete None 0 → TypeError('wrong kind') A 0
        ¦ delete range:0:2:1 0 → TypeError('wrong kind') A 0 ¦ store 5 0 99 → TypeError('wrong kind') A 0
        ¦ store True 0 99 → TypeError('wrong kind') A 0 ¦ store @len 0 99 → TypeError('wrong kind') A 0
        ¦ store method 0 99 → TypeError('wrong kind') A 0 ¦ store class 0 99 → TypeError('wrong kind') A 0
        ¦ delete 5 0 → TypeError('wrong kind') A 0 ¦ delete @len 0 → TypeError('wrong kind') A 0
        ¦ delete instance 0 → TypeError('wrong kind') A 0 ¦ delete class 0 → TypeError('wrong kind') A 0
        ¦ delete [ 1 ] 170141183460469231731687303715884105727 → IndexError('index out of range') eA 0
        ¦ delete [ 1 ] -170141183460469231731687303715884105728 → IndexError('index out of range') eA 0
        ¦ store { } ( [ ] ) 1 → TypeError('wrong kind') A 0 ¦ delete { 1 2 } ( [ ] ) → TypeError('wrong kind') A 0
        ¦ put-again { 1 10 2 20 } 1 99 → {2: 20, 1: 99} djIPSijIPS 0
        ¦ put-again { 1 10 2 20 } True 99 → {2: 20, True: 99} djIPSijIPS 0
        ¦ put-again { 1 10 2 20 } 2 99 → {1: 10, 2: 99} djIPSijIPS 0";
    rows(&rt, rt.alloc(), table)?;
    Ok(())
}
