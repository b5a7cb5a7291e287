// Headers, with and without statements behind the colon.
use crate::tables::{lines, no_lines};
use std::test::Fail;

#[test]
fn ifs(rt: HostRuntime) -> Result<(), Fail> {
    let rows = "if x: → if x: ¦ if x: y → if x: (expr y) ¦ if x: y; z; → if x: (expr y) (expr z)
        ¦ if x: y = 1; return → if x: (assign y 1) (return) ¦ if x if y else z: → if (choice x y z):
        ¦ if lambda: x: y → if (lambda ( ) ( ) x): (expr y) ¦ if (x, y): z → if (tuple x y): (expr z)
        ¦ if {1: 2}: x → if (dict 1 2): (expr x) ¦ if not x in y: pass → if (not (compare in x y)): (pass)
        ¦ elif x: → elif x: ¦ elif x: y; z; → elif x: (expr y) (expr z) ¦ elif not x: pass → elif (not x): (pass)";
    lines(&rt, rt.alloc(), rows)?;
    Ok(())
}

#[test]
fn no_ifs(rt: HostRuntime) -> Result<(), Fail> {
    let texts =
        "if ¦ if x ¦ if: x ¦ if x, y: z ¦ if x,: y ¦ if x = 1: y ¦ if x: if y: z ¦ if x: y: z ¦ if x: else: y
        ¦ if x: ; ¦ if x:: y ¦ if x: pass else: pass ¦ if x y: z ¦ if x: y;; ¦ if pass: x ¦ if x: y z ¦ elif
        ¦ elif x ¦ elif: x ¦ elif x, y: z ¦ elif x: if y: z ¦ if x; y ¦ if (x: y)";
    no_lines(&rt, rt.alloc(), texts)?;
    Ok(())
}

#[test]
fn words_before_a_colon(rt: HostRuntime) -> Result<(), Fail> {
    let rows =
        "else: → else: ¦ else: x; y → else: (expr x) (expr y) ¦ try: → try: ¦ try: x → try: (expr x)
        ¦ finally: → finally: ¦ finally: x; → finally: (expr x)";
    lines(&rt, rt.alloc(), rows)?;
    let texts =
        "else ¦ else x: ¦ else pass ¦ else: if x: y ¦ try ¦ try x: ¦ try pass ¦ try: try: x ¦ finally
        ¦ finally x: ¦ finally () ¦ else:: ¦ try = 1";
    no_lines(&rt, rt.alloc(), texts)?;
    Ok(())
}

#[test]
fn whiles(rt: HostRuntime) -> Result<(), Fail> {
    let rows = "while x: → while x: ¦ while x: pass → while x: (pass)
        ¦ while x < y: x += 1; break → while (compare < x y): (augment + x 1) (break)
        ¦ while True: continue; → while True: (continue) ¦ while x or y if z else w: → while (choice (or x y) z w):";
    lines(&rt, rt.alloc(), rows)?;
    let texts =
        "while ¦ while x ¦ while: pass ¦ while x, y: z ¦ while x = 1: y ¦ while x: while y: z";
    no_lines(&rt, rt.alloc(), texts)?;
    Ok(())
}

#[test]
fn fors(rt: HostRuntime) -> Result<(), Fail> {
    let rows =
        "for x in y: → for x y: ¦ for x in y: pass → for x y: (pass) ¦ for x, in y: pass → for (tuple x) y: (pass)
        ¦ for x, y in z: → for (tuple x y) z: ¦ for x, y, in z: → for (tuple x y) z: ¦ for (x, y) in z: → for (tuple x y) z:
        ¦ for [x] in y: → for (tuple x) y: ¦ for (x) in y: → for x y:
        ¦ for [x, (y, z)], w in v: → for (tuple (tuple x (tuple y z)) w) v: ¦ for x.y in z: → for (attr x y) z:
        ¦ for x[1] in y: → for (item x 1) y: ¦ for x[a in b] in c: pass → for (item x (compare in a b)) c: (pass)
        ¦ for f(a in b).c in d: pass → for (attr (call f (compare in a b)) c) d: (pass)
        ¦ for x in a in b: pass → for x (compare in a b): (pass) ¦ for x in y, z: pass → for x (tuple y z): (pass)
        ¦ for x in y,: → for x (tuple y): ¦ for x in lambda: y: z → for x (lambda ( ) ( ) y): (expr z)
        ¦ for x in y if z else w: x; y → for x (choice y z w): (expr x) (expr y)";
    lines(&rt, rt.alloc(), rows)?;
    Ok(())
}

#[test]
fn no_fors(rt: HostRuntime) -> Result<(), Fail> {
    let texts =
        "for ¦ for x ¦ for x: y ¦ for in y: z ¦ for x in: y ¦ for x in y ¦ for x, y: z ¦ for () in y: z
        ¦ for [] in y: z ¦ for f() in y: z ¦ for 1 in x: y ¦ for None in x: y ¦ for x + y in z: w
        ¦ for -x in y: z ¦ for not x in y: z ¦ for x not in y: z ¦ for x = 1 in y: z ¦ for x in y in: z
        ¦ for x if y else z in w: v ¦ for *x in y: z ¦ for (x in y): z ¦ for x, 1 in y: z ¦ for x,, in y: z
        ¦ for lambda: x in y: z ¦ for x < y in z: w ¦ for x in y = z: w ¦ for x in y: for z in w: v
        ¦ for x in in y: z ¦ for x in y z: w";
    no_lines(&rt, rt.alloc(), texts)?;
    Ok(())
}

#[test]
fn excepts(rt: HostRuntime) -> Result<(), Fail> {
    let rows = "except: → except: ¦ except: pass → except: (pass) ¦ except E: → except E:
        ¦ except E: x; y → except E: (expr x) (expr y) ¦ except E as e: pass → except E as e: (pass)
        ¦ except E as E: → except E as E: ¦ except (A, B): pass → except (tuple A B): (pass)
        ¦ except (A, B) as e: → except (tuple A B) as e: ¦ except a.b as c: raise → except (attr a b) as c: (raise)
        ¦ except a if b else c as d: pass → except (choice a b c) as d: (pass)
        ¦ except lambda: x: y → except (lambda ( ) ( ) x): (expr y)";
    lines(&rt, rt.alloc(), rows)?;
    let texts =
        "except ¦ except E ¦ except E as e ¦ except A, B: pass ¦ except as e: pass ¦ except E as: pass
        ¦ except E as e.f: pass ¦ except E as (e): pass ¦ except E e: pass ¦ except E as 1: pass
        ¦ except E as None: pass ¦ except E as e, f: pass ¦ except *E: pass ¦ except E as e as f: pass
        ¦ except E: except F: pass ¦ except E = 1: pass";
    no_lines(&rt, rt.alloc(), texts)?;
    Ok(())
}

#[test]
fn defs(rt: HostRuntime) -> Result<(), Fail> {
    let rows = "def f(): → def f ( ) ( ): ¦ def f(): pass → def f ( ) ( ): (pass)
        ¦ def f(a): return a; → def f ( a ) ( ): (return a) ¦ def f(a,): pass → def f ( a ) ( ): (pass)
        ¦ def f(a, b): pass → def f ( a b ) ( ): (pass) ¦ def f(a, b=1,): pass → def f ( a b ) ( 1 ): (pass)
        ¦ def f(a=1, b=2): x; y → def f ( a b ) ( 1 2 ): (expr x) (expr y)
        ¦ def f(a, b, c=1, d=2): → def f ( a b c d ) ( 1 2 ): ¦ def f(a=(1, 2)): pass → def f ( a ) ( (tuple 1 2) ): (pass)
        ¦ def f(a=b if c else d): pass → def f ( a ) ( (choice b c d) ): (pass)
        ¦ def f(a=lambda a: a, b=c): pass → def f ( a b ) ( (lambda ( a ) ( ) a) c ): (pass)
        ¦ def f(a=lambda a=1: a): pass → def f ( a ) ( (lambda ( a ) ( 1 ) a) ): (pass)
        ¦ def f(f): pass → def f ( f ) ( ): (pass) ¦ def f(a=a == a): pass → def f ( a ) ( (compare == a a) ): (pass)";
    lines(&rt, rt.alloc(), rows)?;
    Ok(())
}

#[test]
fn no_parameters(rt: HostRuntime) -> Result<(), Fail> {
    let texts =
        "def f(a=1, b): pass ¦ def f(a=1, b,): pass ¦ def f(a, b=1, c): pass ¦ def f(a, a): pass
        ¦ def f(a, b, a): pass ¦ def f(a, b=1, a=2): pass ¦ def f(a=1, a=2): pass ¦ def f(,): pass
        ¦ def f(a,,): pass ¦ def f(a, , b): pass ¦ def f(a b): pass ¦ def f(1): pass ¦ def f(*a): pass
        ¦ def f(**a): pass ¦ def f(a, *, b): pass ¦ def f(a: int): pass ¦ def f(a=): pass ¦ def f(a=1=2): pass
        ¦ def f(a.b): pass ¦ def f((a)): pass ¦ def f(None): pass ¦ def f(fi, \u{fb01}): pass
        ¦ def f(a=1, 2): pass";
    no_lines(&rt, rt.alloc(), texts)?;
    Ok(())
}

#[test]
fn no_defs(rt: HostRuntime) -> Result<(), Fail> {
    let texts =
        "def ¦ def f ¦ def f: ¦ def f: pass ¦ def (a): pass ¦ def f(a) ¦ def f(a: pass ¦ def f(a) x: pass
        ¦ def f(a)(b): pass ¦ def f(): def g(): pass ¦ def f.g(): pass ¦ def None(): pass ¦ def f[a]: pass
        ¦ def f(]: pass ¦ def f() pass ¦ def 1(): pass ¦ def f(): if x: y ¦ def f() = 1";
    no_lines(&rt, rt.alloc(), texts)?;
    Ok(())
}

#[test]
fn classes(rt: HostRuntime) -> Result<(), Fail> {
    let rows =
        "class C: → class C: ¦ class C: pass → class C: (pass) ¦ class C(): x; y; → class C: (expr x) (expr y)
        ¦ class C(B): → class C B: ¦ class C(B): pass → class C B: (pass) ¦ class C(a.b): → class C (attr a b):
        ¦ class C((a, b)): → class C (tuple a b): ¦ class C(a if b else c): pass → class C (choice a b c): (pass)
        ¦ class C(lambda: x): → class C (lambda ( ) ( ) x):";
    lines(&rt, rt.alloc(), rows)?;
    let texts =
        "class ¦ class C ¦ class C() ¦ class : pass ¦ class C(A, B): pass ¦ class C(A,): pass ¦ class C(,): pass
        ¦ class C(A=B): pass ¦ class C.d: pass ¦ class C[A]: pass ¦ class (A): pass ¦ class 1: pass
        ¦ class C() (): pass ¦ class C(*A): pass ¦ class C(A: pass ¦ class C(: pass ¦ class C: class D: pass
        ¦ class None: pass ¦ class C(A] pass";
    no_lines(&rt, rt.alloc(), texts)?;
    Ok(())
}
