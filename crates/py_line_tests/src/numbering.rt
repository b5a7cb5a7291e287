// The numbers of nodes: in the order in which they begin, a parent before its parts.
use crate::tables::numbered;
use std::test::Fail;

#[test]
fn numbers_of_statements(rt: HostRuntime) -> Result<(), Fail> {
    let rows =
        "x → 1:(expr 2:x) ¦ (x) → 1:(expr 2:x) ¦ x = y = 1, 2, → 1:(assign 2:x 3:y 4:(tuple 5:1 6:2))
        ¦ [a, (b)] = c → 1:(assign 2:(tuple 3:a 4:b) 5:c) ¦ x.y += z → 1:(augment + 2:(attr 3:x y) 4:z)
        ¦ pass; break; continue → 1:(pass); 2:(break); 3:(continue) ¦ return; return x → 1:(return); 2:(return 3:x)
        ¦ raise; raise x → 1:(raise); 2:(raise 3:x) ¦ global x; nonlocal y; z → 1:(global x); 2:(nonlocal y); 3:(expr 4:z)
        ¦ del (a, b), c → 1:(del 2:(tuple 3:(tuple 4:a 5:b) 6:c))
        ¦ assert a; assert b, c → 1:(assert 2:a); 3:(assert 4:b 5:c)";
    numbered(&rt, rt.alloc(), rows)?;
    Ok(())
}

#[test]
fn numbers_of_headers(rt: HostRuntime) -> Result<(), Fail> {
    let rows =
        "if x: y; z → 1:if 2:x: 3:(expr 4:y) 5:(expr 6:z) ¦ elif x: y → elif 1:x: 2:(expr 3:y)
        ¦ else: x → else: 1:(expr 2:x) ¦ while x: pass → 1:while 2:x: 3:(pass)
        ¦ for x, in y: pass → 1:for 2:(tuple 3:x) 4:y: 5:(pass) ¦ try: x → 1:try: 2:(expr 3:x)
        ¦ finally: x → finally: 1:(expr 2:x) ¦ except: x → 1:except: 2:(expr 3:x)
        ¦ except E as e: x → 1:except 2:E as e: 3:(expr 4:x)
        ¦ def f(a, b=1, c=-2): return a → 1:def f ( a b c ) ( 2:1 3:(neg 4:2) ): 5:(return 6:a)
        ¦ class C: pass → 1:class C: 2:(pass) ¦ class C(B): pass → 1:class C 2:B: 3:(pass)";
    numbered(&rt, rt.alloc(), rows)?;
    Ok(())
}

#[test]
fn numbers_of_expressions(rt: HostRuntime) -> Result<(), Fail> {
    let rows = "-x ** -y ** z → 1:(expr 2:(neg 3:(** 4:x 5:(neg 6:(** 7:y 8:z)))))
        ¦ a + b * c → 1:(expr 2:(+ 3:a 4:(* 5:b 6:c))) ¦ a * b + c → 1:(expr 2:(+ 3:(* 4:a 5:b) 6:c))
        ¦ a or b and not c → 1:(expr 2:(or 3:a 4:(and 5:b 6:(not 7:c))))
        ¦ a < b in c → 1:(expr 2:(compare < in 3:a 4:b 5:c)) ¦ a if b else c → 1:(expr 2:(choice 3:a 4:b 5:c))
        ¦ lambda x, y=1, z=2: x → 1:(expr 2:(lambda ( x y z ) ( 3:1 4:2 ) 5:x))
        ¦ f(a, b)[c].d → 1:(expr 2:(attr 3:(item 4:(call 5:f 6:a 7:b) 8:c) d))
        ¦ {1: [2], 'a': ()} → 1:(expr 2:(dict 3:1 4:(list 5:2) 6:'a' 7:(tuple)))
        ¦ None, True, False → 1:(expr 2:(tuple 3:None 4:True 5:False))";
    numbered(&rt, rt.alloc(), rows)?;
    Ok(())
}
