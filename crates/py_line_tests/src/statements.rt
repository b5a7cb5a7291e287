// Simple statements, and the targets in them.
use crate::tables::{lines, no_lines};
use std::test::Fail;

#[test]
fn assignments(rt: HostRuntime) -> Result<(), Fail> {
    let rows =
        "x = 1 → (assign x 1) ¦ x = y = 1, 2, → (assign x y (tuple 1 2)) ¦ x = 1, → (assign x (tuple 1))
        ¦ x = () → (assign x (tuple)) ¦ x = [y] → (assign x (list y)) ¦ x = lambda: y → (assign x (lambda ( ) ( ) y))
        ¦ x = y if z else w → (assign x (choice y z w)) ¦ x = y == z → (assign x (compare == y z))
        ¦ x, y = z → (assign (tuple x y) z) ¦ x, = z → (assign (tuple x) z) ¦ x, y, = z = w → (assign (tuple x y) z w)
        ¦ x = y, = z → (assign x (tuple y) z) ¦ x = (y, z) = w → (assign x (tuple y z) w)
        ¦ x = [y] = z → (assign x (tuple y) z)";
    lines(&rt, rt.alloc(), rows)?;
    Ok(())
}

#[test]
fn targets_in_brackets(rt: HostRuntime) -> Result<(), Fail> {
    let rows = "(x) = 1 → (assign x 1) ¦ ((x)) = 1 → (assign x 1) ¦ (x,) = z → (assign (tuple x) z)
        ¦ (x, y) = z → (assign (tuple x y) z) ¦ (x, y,) = z → (assign (tuple x y) z) ¦ [x] = z → (assign (tuple x) z)
        ¦ [x,] = z → (assign (tuple x) z) ¦ [x, y] = z → (assign (tuple x y) z) ¦ [(x)] = z → (assign (tuple x) z)
        ¦ [(x,)] = z → (assign (tuple (tuple x)) z) ¦ ([x]) = z → (assign (tuple x) z)
        ¦ [a, [b]] = c → (assign (tuple a (tuple b)) c) ¦ [a], b = c → (assign (tuple (tuple a) b) c)
        ¦ a, (b, c) = d → (assign (tuple a (tuple b c)) d) ¦ (a, [b, (c)]) = d → (assign (tuple a (tuple b c)) d)
        ¦ [x] = [y] → (assign (tuple x) (list y)) ¦ [x[[y][0]]] = z → (assign (tuple (item x (item (list y) 0))) z)";
    lines(&rt, rt.alloc(), rows)?;
    Ok(())
}

#[test]
fn places(rt: HostRuntime) -> Result<(), Fail> {
    let rows = "x.y = 1 → (assign (attr x y) 1) ¦ x[1] = 2 → (assign (item x 1) 2)
        ¦ x[1, 2] = 3 → (assign (item x (tuple 1 2)) 3) ¦ x.y[z](w).v = 1 → (assign (attr (call (item (attr x y) z) w) v) 1)
        ¦ (x.y) = 1 → (assign (attr x y) 1) ¦ f().x = 1 → (assign (attr (call f) x) 1) ¦ 'a'.b = 1 → (assign (attr 'a' b) 1)
        ¦ (a, b).c = 1 → (assign (attr (tuple a b) c) 1) ¦ [a].b = 1 → (assign (attr (list a) b) 1)
        ¦ {}[1] = 2 → (assign (item (dict) 1) 2) ¦ (lambda: x).y = 1 → (assign (attr (lambda ( ) ( ) x) y) 1)
        ¦ (x + y).z, w[0] = 1 → (assign (tuple (attr (+ x y) z) (item w 0)) 1) ¦ ().x = 1 → (assign (attr (tuple) x) 1)";
    lines(&rt, rt.alloc(), rows)?;
    Ok(())
}

#[test]
fn no_targets(rt: HostRuntime) -> Result<(), Fail> {
    let texts =
        "() = x ¦ [] = x ¦ [()] = x ¦ x, () = y ¦ ([], x) = y ¦ None = 1 ¦ True = 1 ¦ 1 = x ¦ 'a' = x ¦ x + y = 1
        ¦ x ** y = 1 ¦ -x = 1 ¦ f() = 1 ¦ (f()) = 1 ¦ x.y() = 1 ¦ x(y) = 1 ¦ x if y else z = 1 ¦ {} = x
        ¦ {x: y} = z ¦ not x = 1 ¦ x < y = 1 ¦ x and y = 1 ¦ x or y = 1 ¦ (x, 1) = y ¦ [x, f()] = y
        ¦ x, y + z = w ¦ (lambda: x) = y";
    no_lines(&rt, rt.alloc(), texts)?;
    Ok(())
}

#[test]
fn no_assignments(rt: HostRuntime) -> Result<(), Fail> {
    let texts =
        "x = 1 = y ¦ x = y = 1 = z ¦ x = f() = y ¦ x = () = y ¦ x = ¦ = 1 ¦ x = = y ¦ x = y = ¦ x == 1 = y
        ¦ x y = 1 ¦ x = 1 y ¦ x = pass ¦ x = *y ¦ *x, y = z ¦ x, *y = z ¦ x: y = 1 ¦ x: y ¦ pass = 1 ¦ if = 1
        ¦ \u{ff49}f = 1 ¦ x = y if z ¦ x = y z = w";
    no_lines(&rt, rt.alloc(), texts)?;
    Ok(())
}

#[test]
fn augmented_assignments(rt: HostRuntime) -> Result<(), Fail> {
    let rows =
        "x += 1 → (augment + x 1) ¦ x -= 1 → (augment - x 1) ¦ x *= 1 → (augment * x 1) ¦ x //= 1 → (augment // x 1)
        ¦ x %= 1 → (augment % x 1) ¦ x **= 1 → (augment ** x 1) ¦ x += 1, 2 → (augment + x (tuple 1 2))
        ¦ x += 1, → (augment + x (tuple 1)) ¦ x.y -= 1 → (augment - (attr x y) 1) ¦ x[1] += 2 → (augment + (item x 1) 2)
        ¦ x[(1)] += 2 → (augment + (item x 1) 2) ¦ (a).b += 1 → (augment + (attr a b) 1)
        ¦ (a)[(b)] += 1 → (augment + (item a b) 1) ¦ (a, b)[0] += 1 → (augment + (item (tuple a b) 0) 1)
        ¦ f(a).b += 1 → (augment + (attr (call f a) b) 1) ¦ x += lambda: y → (augment + x (lambda ( ) ( ) y))
        ¦ x += -y if z else w → (augment + x (choice (neg y) z w))";
    lines(&rt, rt.alloc(), rows)?;
    Ok(())
}

#[test]
fn no_augmented_assignments(rt: HostRuntime) -> Result<(), Fail> {
    let texts =
        "x, y += 1 ¦ x, += 1 ¦ (a) += 1 ¦ ((a)) += 1 ¦ (x.y) += 1 ¦ (x[1]) += 1 ¦ [a] += 1 ¦ (a, b) += 1
        ¦ () += 1 ¦ x += y += 1 ¦ x += y = 1 ¦ x = y += 1 ¦ 1 += x ¦ None += 1 ¦ f() += 1 ¦ x.y() += 1
        ¦ x + y += 1 ¦ -x += 1 ¦ x ** y **= 1 ¦ x += ¦ += 1 ¦ x += += 1 ¦ x if y else z += 1 ¦ lambda: x += 1";
    no_lines(&rt, rt.alloc(), texts)?;
    Ok(())
}

#[test]
fn words_alone(rt: HostRuntime) -> Result<(), Fail> {
    let rows =
        "pass → (pass) ¦ break → (break) ¦ continue → (continue) ¦ return → (return) ¦ raise → (raise)";
    lines(&rt, rt.alloc(), rows)?;
    let texts = "pass x ¦ break x ¦ continue 1 ¦ pass pass ¦ pass() ¦ x pass ¦ pass.x ¦ break,";
    no_lines(&rt, rt.alloc(), texts)?;
    Ok(())
}

// With each sign with which an expression may begin.
#[test]
fn returns(rt: HostRuntime) -> Result<(), Fail> {
    let rows =
        "return x → (return x) ¦ return x, y → (return (tuple x y)) ¦ return x, → (return (tuple x))
        ¦ return 1 → (return 1) ¦ return 'a' → (return 'a') ¦ return None → (return None) ¦ return True → (return True)
        ¦ return False → (return False) ¦ return (x) → (return x) ¦ return() → (return (tuple))
        ¦ return [x] → (return (list x)) ¦ return {} → (return (dict)) ¦ return not x → (return (not x))
        ¦ return -x → (return (neg x)) ¦ return +x → (return (pos x)) ¦ return lambda: x → (return (lambda ( ) ( ) x))";
    lines(&rt, rt.alloc(), rows)?;
    let texts =
        "return x = 1 ¦ return return ¦ return x y ¦ return , ¦ return *x ¦ return pass ¦ return if";
    no_lines(&rt, rt.alloc(), texts)?;
    Ok(())
}

#[test]
fn raises(rt: HostRuntime) -> Result<(), Fail> {
    let rows =
        "raise x → (raise x) ¦ raise E('a') → (raise (call E 'a')) ¦ raise (x, y) → (raise (tuple x y))
        ¦ raise x if y else z → (raise (choice x y z)) ¦ raise lambda: x → (raise (lambda ( ) ( ) x))";
    lines(&rt, rt.alloc(), rows)?;
    let texts = "raise x, y ¦ raise x, ¦ raise x y ¦ raise raise ¦ raise x = y ¦ raise ,";
    no_lines(&rt, rt.alloc(), texts)?;
    Ok(())
}

#[test]
fn declarations(rt: HostRuntime) -> Result<(), Fail> {
    let rows =
        "global x → (global x) ¦ global x, y → (global x y) ¦ global x, x → (global x x) ¦ nonlocal x → (nonlocal x)
        ¦ nonlocal x, y, z → (nonlocal x y z)";
    lines(&rt, rt.alloc(), rows)?;
    let texts =
        "global ¦ global x, ¦ global , ¦ global x y ¦ global x.y ¦ global (x) ¦ global 1 ¦ global None
        ¦ global x = 1 ¦ nonlocal ¦ nonlocal x, ¦ nonlocal x, 1 ¦ nonlocal x()";
    no_lines(&rt, rt.alloc(), texts)?;
    Ok(())
}

#[test]
fn deletions(rt: HostRuntime) -> Result<(), Fail> {
    let rows =
        "del x → (del x) ¦ del x, → (del (tuple x)) ¦ del x, y → (del (tuple x y)) ¦ del (x) → (del x)
        ¦ del (x,) → (del (tuple x)) ¦ del [x] → (del (tuple x)) ¦ del (a, b), c → (del (tuple (tuple a b) c))
        ¦ del x.y, z[1], w → (del (tuple (attr x y) (item z 1) w)) ¦ del f().x → (del (attr (call f) x))";
    lines(&rt, rt.alloc(), rows)?;
    let texts =
        "del ¦ del () ¦ del [] ¦ del f() ¦ del 1 ¦ del None ¦ del x + y ¦ del -x ¦ del not x ¦ del x = 1
        ¦ del x if y else z ¦ del lambda: x ¦ del *x ¦ del (x, 1) ¦ del x,, ¦ del x y ¦ del x < y ¦ del x += 1
        ¦ del x ** y ¦ del x, 1";
    no_lines(&rt, rt.alloc(), texts)?;
    Ok(())
}

#[test]
fn assertions(rt: HostRuntime) -> Result<(), Fail> {
    let rows =
        "assert a → (assert a) ¦ assert a, b → (assert a b) ¦ assert (a, b) → (assert (tuple a b))
        ¦ assert a, (b, c) → (assert a (tuple b c)) ¦ assert not a, lambda: b → (assert (not a) (lambda ( ) ( ) b))
        ¦ assert a if b else c, d → (assert (choice a b c) d)";
    lines(&rt, rt.alloc(), rows)?;
    let texts =
        "assert ¦ assert a, ¦ assert a, b, ¦ assert a, b, c ¦ assert , a ¦ assert a = b ¦ assert a b ¦ assert *a";
    no_lines(&rt, rt.alloc(), texts)?;
    Ok(())
}

#[test]
fn statements_in_a_row(rt: HostRuntime) -> Result<(), Fail> {
    let rows = "x; y → (expr x); (expr y) ¦ x; → (expr x) ¦ x; y; → (expr x); (expr y)
        ¦ x = 1; y += 2; del z → (assign x 1); (augment + y 2); (del z) ¦ return; raise; → (return); (raise)
        ¦ pass; break; continue → (pass); (break); (continue)
        ¦ global x; nonlocal y; assert z → (global x); (nonlocal y); (assert z) ¦ x,; y → (expr (tuple x)); (expr y)";
    lines(&rt, rt.alloc(), rows)?;
    let texts =
        "; ¦ x;; ¦ ; x ¦ x;; y ¦ x; if y: z ¦ x; y z ¦ x; 1 = y ¦ x; def f(): pass ¦ (x; y) ¦ x; else:
        ¦ x = 1; = 2";
    no_lines(&rt, rt.alloc(), texts)?;
    Ok(())
}
