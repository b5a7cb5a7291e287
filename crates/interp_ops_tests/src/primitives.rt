// The primitive operations of the machine, and the errors that the language raises by itself.
use crate::tables::rows;
use std::test::Fail;

#[test]
fn primitives(rt: HostRuntime) -> Result<(), Fail> {
    let table =
        "read-attribute below 'x → 2 b 0 ¦ read-attribute below 'y → None b 0 ¦ read-item [ 5 ] 0 → 5 c 0
        ¦ read-item [ 5 ] 1 → None c 0 ¦ read-item { 1 10 } True → 10 c 0 ¦ present { 1 10 } 1 → True d 0
        ¦ present { 1 10 } 2 → False d 0 ¦ shape [ 5 6 ] → 2 e 0 ¦ shape { 1 10 } → 1 e 0 ¦ place-shape [ 5 ] → 1 j 0
        ¦ key-at { True 10 } 0 → True - 0 ¦ key-at { True 10 } 1 → None - 0
        ¦ write-attribute instance 'x 5 → <C object> A 0 ¦ list-put [ 1 2 ] 1 9 → [1, 9] I 0
        ¦ list-splice [ 1 2 ] 1 ( 7 8 ) → [1, 7, 8] IIS 0 ¦ dict-put { 1 10 } True 99 → {1: 99} iI 0
        ¦ dict-put { 1 10 } 2 20 → {1: 10, 2: 20} ijIPS 0 ¦ dict-remove { 1 10 2 20 } 1 → {2: 20} jIPS 0
        ¦ new-list ( 1 2 ) → [1, 2] IIS 0 ¦ new-list ( ) → [] S 0 ¦ new-dict ( 1 True ) ( 10 20 ) → {1: 20} IPS 0
        ¦ new-dict ( 1 2 ) ( 10 20 ) → {1: 10, 2: 20} IPIPS 0 ¦ new-instance class → <C object> - 0
        ¦ new-tuple ( 1 2 ) → (1, 2) - 0 ¦ kind [ ] → 'list' - 0 ¦ kind { } → 'dict' - 0
        ¦ kind instance → 'instance' - 0 ¦ kind class → 'class' - 0 ¦ kind lambda → 'function' - 0
        ¦ kind frame → 'frame' - 0 ¦ kind nobody → 'nothing' - 0 ¦ step 7 → 7 - 1 ¦ steps 0 → 0 - 0
        ¦ steps 1000 → 1000 - 1000 ¦ steps 1001 → steps - 1000 ¦ size range:0:10:3 → 4 - 0 ¦ size range:10:0:-3 → 4 - 0
        ¦ size range:0:0:1 → 0 - 0
        ¦ size range:-170141183460469231731687303715884105728:170141183460469231731687303715884105727:1 → None - 0";
    rows(&rt, rt.alloc(), table)?;
    Ok(())
}

#[test]
fn errors(rt: HostRuntime) -> Result<(), Fail> {
    let table =
        "raise-index → IndexError('index out of range') A 0 ¦ raise-division → ZeroDivisionError('division by zero') A 0
        ¦ raise-depth → RecursionError('too deep') A 0
        ¦ raise-changed → RuntimeError('dictionary changed during iteration') A 0
        ¦ raise-no-exception → RuntimeError('no exception to raise') A 0 ¦ raise-kind → TypeError('wrong kind') A 0
        ¦ raise-count → TypeError('wrong number of arguments') A 0 ¦ raise-value → ValueError('wrong value') A 0
        ¦ raise-name 'x → NameError(\"name 'x' is not defined\") A 0
        ¦ raise-local 'x → UnboundLocalError(\"local name 'x' is not bound\") A 0
        ¦ raise-attribute 'x → AttributeError(\"no attribute 'x'\") A 0 ¦ raise-key 5 → KeyError(5) A 0
        ¦ raise-key chain → RecursionError('too deep') A 0 ¦ last-name → 'lambda' - 0 ¦ exception-class 'int → None - 0
        ¦ exception-class 'object → None - 0 ¦ exception-class 'Exception → True - 0
        ¦ exception-class 'ArithmeticError → True - 0 ¦ exception-class 'ZeroDivisionError → True - 0
        ¦ exception-class 'LookupError → True - 0 ¦ exception-class 'IndexError → True - 0
        ¦ exception-class 'KeyError → True - 0 ¦ exception-class 'NameError → True - 0
        ¦ exception-class 'UnboundLocalError → True - 0 ¦ exception-class 'RuntimeError → True - 0
        ¦ exception-class 'RecursionError → True - 0 ¦ exception-class 'AttributeError → True - 0
        ¦ exception-class 'TypeError → True - 0 ¦ exception-class 'ValueError → True - 0
        ¦ exception-class 'AssertionError → True - 0";
    rows(&rt, rt.alloc(), table)?;
    Ok(())
}
