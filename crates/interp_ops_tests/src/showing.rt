// The texts of values, their events and their steps.
use crate::tables::rows;
use std::test::Fail;

#[test]
fn plain_values(rt: HostRuntime) -> Result<(), Fail> {
    let table =
        "repr None → None - 4 ¦ str True → True - 4 ¦ repr -12 → -12 - 3 ¦ repr 'abc → 'abc' - 5 ¦ str 'abc → abc - 3
        ¦ repr 'it's → \"it's\" - 6 ¦ repr 'a\n\u{1} → 'a\\n\\x01' - 9 ¦ repr range:0:4:1 → range(0, 4) - 11
        ¦ repr range:0:4:2 → range(0, 4, 2) - 14 ¦ repr ( ) → () - 0 ¦ repr ( 7 ) → (7,) - 2 ¦ str ( 7 8 ) → (7, 8) - 4
        ¦ repr [ ] → [] c 0 ¦ repr [ 1 2 ] → [1, 2] ccc 4 ¦ str [ 1 2 ] → [1, 2] ccc 4 ¦ repr { } → {} e 0
        ¦ repr { 1 10 2 20 } → {1: 10, 2: 20} ecc 8 ¦ repr False → False - 5 ¦ repr 0 → 0 - 1 ¦ repr ' → '' - 2
        ¦ str ' → - 0 ¦ str 'it's → it's - 4 ¦ repr 'a\"b → 'a\"b' - 5 ¦ repr 'a'b\"c → 'a\\'b\"c' - 8
        ¦ repr '\\ → '\\\\' - 4 ¦ repr 'é → 'é' - 3 ¦ repr '\ta → '\\ta' - 5 ¦ repr '\ra → '\\ra' - 5
        ¦ repr '\u{7f}a → '\\x7fa' - 7 ¦ repr range:5:0:-2 → range(5, 0, -2) - 15 ¦ repr ( ( 1 ) ( ) ) → ((1,), ()) - 4
        ¦ repr ( [ 1 ] 'a ) → ([1], 'a') cc 7 ¦ repr { 'a [ 1 ] 'b { } } → {'a': [1], 'b': {}} ecccce 10
        ¦ repr [ { } dup ] → [{}, {}] cecec 2";
    rows(&rt, rt.alloc(), table)?;
    Ok(())
}

#[test]
fn objects(rt: HostRuntime) -> Result<(), Fail> {
    let table =
        "repr @len → <built-in len> - 14 ¦ repr @int → <class 'int'> - 13 ¦ str @ValueError → <class 'ValueError'> - 20
        ¦ repr class → <class 'C'> - 11 ¦ str instance → <C object> - 10 ¦ repr lambda → <function lambda> - 17
        ¦ repr bound → <method lambda> - 15 ¦ repr method → <method append> - 15 ¦ repr list-in-itself → [[...]] cc 6
        ¦ str dict-in-itself → {1: {...}} ec 7 ¦ repr [ [ 1 ] dup ] → [[1], [1]] ccccccc 6
        ¦ repr [ ( 1 [ 2 ] ) ] → [(1, [2])] cccc 6 ¦ repr ValueError( ) → ValueError() b 0 ¦ str ValueError( ) →  b 0
        ¦ repr KeyError( 'x ) → KeyError('x') b 4 ¦ str KeyError( 'x ) → 'x' b 3
        ¦ repr ValueError( 'a 1 ) → ValueError('a', 1) b 6 ¦ str ValueError( 'a 1 ) → ('a', 1) b 6
        ¦ repr E( 'x ) → E('x') b 4 ¦ str E( 'x ) → 'x' b 3
        ¦ repr error-in-itself → ValueError([<ValueError object>]) bcc 21 ¦ repr below → <C object> - 10
        ¦ repr [ instance ] → [<C object>] cc 11 ¦ repr text-method → <method strip> - 14
        ¦ repr @Exception → <class 'Exception'> - 19 ¦ repr @print → <built-in print> - 16
        ¦ repr @str → <class 'str'> - 13 ¦ repr @bool → <class 'bool'> - 14 ¦ repr @list → <class 'list'> - 14
        ¦ repr @dict → <class 'dict'> - 14 ¦ repr @tuple → <class 'tuple'> - 15 ¦ repr @range → <class 'range'> - 15
        ¦ repr @object → <class 'object'> - 16 ¦ repr [ list-in-itself ] → [[[...]]] cccc 7
        ¦ repr ( list-in-itself ) → ([[...]],) cc 7 ¦ repr { 1 list-in-itself } → {1: [[...]]} eccc 8
        ¦ repr ValueError( [ 1 ] ) → ValueError([1]) bcc 3
        ¦ repr ValueError( ValueError( ) ) → ValueError(ValueError()) bb 1 ¦ repr error-by-number → ValueError() b 0
        ¦ str error-by-number → b 0 ¦ repr error-without-args → ValueError() b 0 ¦ str error-without-args → b 0
        ¦ str ValueError( 5 ) → 5 b 1 ¦ str ValueError( 'ab ) → ab b 2 ¦ str ValueError( ValueError( 'a ) ) → a bb 1
        ¦ str KeyError( KeyError( 'x ) ) → KeyError('x') bb 4 ¦ str KeyError( 'a 'b ) → ('a', 'b') b 8
        ¦ str Exception( 'a 'b ) → ('a', 'b') b 8 ¦ str error-in-itself → [ValueError([...])] bcbc 7
        ¦ repr function → <function f> - 12 ¦ repr bound:1:3 function instance → <method f> - 10
        ¦ repr list-of-dict → [{1: [...]}] cecc 8 ¦ repr tuple-in-list → ([([...],)],) cc 8
        ¦ repr error-of-itself → ValueError(<ValueError object>) b 20 ¦ str KeyError( ) → b 0
        ¦ str ValueError( [ 1 ] ) → [1] bcc 2 ¦ str KeyError( [ 1 ] ) → [1] bcc 2
        ¦ repr class-below-error → <class 'E'> - 11 ¦ repr count-of( 'a ) → <method count> - 14
        ¦ str-of-division 1 0 → 'division by zero' Ab 16";
    rows(&rt, rt.alloc(), table)?;
    Ok(())
}
