// Attributes of values.
use crate::tables::rows;
use std::test::Fail;

#[test]
fn attributes(rt: HostRuntime) -> Result<(), Fail> {
    let table =
        "attribute below 'x → 2 b 0 ¦ attribute below 'f → <method lambda> bb 0 ¦ attribute below 'g → 1 bbb 0
        ¦ attribute below 'y → AttributeError(\"no attribute 'y'\") bbbA 0
        ¦ attribute class-below 'f → <function lambda> b 0 ¦ attribute class-below 'g → 1 bb 0
        ¦ attribute class-below 'x → AttributeError(\"no attribute 'x'\") bbA 0
        ¦ attribute [ 1 ] 'append → <method append> - 0
        ¦ attribute [ 1 ] 'keys → AttributeError(\"no attribute 'keys'\") A 0
        ¦ attribute { 1 2 } 'keys → <method keys> - 0
        ¦ attribute { 1 2 } 'append → AttributeError(\"no attribute 'append'\") A 0
        ¦ attribute 'a 'strip → <method strip> - 0 ¦ attribute ( 1 ) 'count → <method count> - 0
        ¦ attribute ( 1 ) 'sort → AttributeError(\"no attribute 'sort'\") A 0
        ¦ attribute 1 'count → AttributeError(\"no attribute 'count'\") A 0 ¦ attribute below 'h → <function lambda> b 0
        ¦ attribute below 'k → <class 'B'> bbb 0 ¦ attribute class-below 'k → <class 'B'> bb 0
        ¦ attribute ValueError( 1 ) 'args → (1,) b 0 ¦ attribute E( 'x ) 'args → ('x',) b 0
        ¦ attribute ValueError( 1 ) 'x → AttributeError(\"no attribute 'x'\") bA 0
        ¦ attribute E( 'x ) 'y → AttributeError(\"no attribute 'y'\") bbA 0
        ¦ attribute instance 'x → AttributeError(\"no attribute 'x'\") bbA 0
        ¦ attribute class 'x → AttributeError(\"no attribute 'x'\") bA 0
        ¦ attribute None 'x → AttributeError(\"no attribute 'x'\") A 0
        ¦ attribute True 'x → AttributeError(\"no attribute 'x'\") A 0
        ¦ attribute range:0:1:1 'count → AttributeError(\"no attribute 'count'\") A 0
        ¦ attribute @len 'x → AttributeError(\"no attribute 'x'\") A 0
        ¦ attribute @int 'x → AttributeError(\"no attribute 'x'\") A 0
        ¦ attribute lambda 'x → AttributeError(\"no attribute 'x'\") A 0
        ¦ attribute bound 'x → AttributeError(\"no attribute 'x'\") A 0
        ¦ attribute method 'append → AttributeError(\"no attribute 'append'\") A 0
        ¦ attribute 'a 'index → AttributeError(\"no attribute 'index'\") A 0
        ¦ attribute { } 'count → AttributeError(\"no attribute 'count'\") A 0
        ¦ attribute [ ] 'get → AttributeError(\"no attribute 'get'\") A 0
        ¦ attribute ( ) 'append → AttributeError(\"no attribute 'append'\") A 0
        ¦ attribute holder 'f → <method lambda> bb 0 ¦ attribute holder 'm → <method append> bb 0
        ¦ attribute holder 'g → <built-in len> bb 0
        ¦ attribute class-below-error 'x → AttributeError(\"no attribute 'x'\") bA 0
        ¦ attribute class-below-error 'args → AttributeError(\"no attribute 'args'\") bA 0
        ¦ attribute @KeyError 'args → AttributeError(\"no attribute 'args'\") A 0
        ¦ attribute error-without-args 'args → AttributeError(\"no attribute 'args'\") bA 0";
    rows(&rt, rt.alloc(), table)?;
    Ok(())
}

#[test]
fn methods(rt: HostRuntime) -> Result<(), Fail> {
    let table =
        "attribute [ ] 'append → <method append> - 0 ¦ attribute [ ] 'clear → <method clear> - 0
        ¦ attribute [ ] 'copy → <method copy> - 0 ¦ attribute [ ] 'count → <method count> - 0
        ¦ attribute [ ] 'extend → <method extend> - 0 ¦ attribute [ ] 'index → <method index> - 0
        ¦ attribute [ ] 'insert → <method insert> - 0 ¦ attribute [ ] 'pop → <method pop> - 0
        ¦ attribute [ ] 'remove → <method remove> - 0 ¦ attribute [ ] 'reverse → <method reverse> - 0
        ¦ attribute [ ] 'sort → <method sort> - 0 ¦ attribute { } 'clear → <method clear> - 0
        ¦ attribute { } 'copy → <method copy> - 0 ¦ attribute { } 'get → <method get> - 0
        ¦ attribute { } 'items → <method items> - 0 ¦ attribute { } 'keys → <method keys> - 0
        ¦ attribute { } 'pop → <method pop> - 0 ¦ attribute { } 'setdefault → <method setdefault> - 0
        ¦ attribute { } 'update → <method update> - 0 ¦ attribute { } 'values → <method values> - 0
        ¦ attribute 'a 'count → <method count> - 0 ¦ attribute 'a 'endswith → <method endswith> - 0
        ¦ attribute 'a 'find → <method find> - 0 ¦ attribute 'a 'join → <method join> - 0
        ¦ attribute 'a 'replace → <method replace> - 0 ¦ attribute 'a 'split → <method split> - 0
        ¦ attribute 'a 'startswith → <method startswith> - 0 ¦ attribute 'a 'strip → <method strip> - 0
        ¦ attribute ( 1 ) 'count → <method count> - 0 ¦ attribute ( 1 ) 'index → <method index> - 0";
    rows(&rt, rt.alloc(), table)?;
    Ok(())
}
