// Expressions, from the loosest rung to the tightest.
use crate::tables::{all_are, exprs, no_lines};
use std::test::Fail;

#[test]
fn tuples_without_brackets(rt: HostRuntime) -> Result<(), Fail> {
    let rows =
        "x → x ¦ x, → (tuple x) ¦ x, y → (tuple x y) ¦ x, y, → (tuple x y) ¦ x, (y, z) → (tuple x (tuple y z))
        ¦ x if y else z, w → (tuple (choice x y z) w) ¦ lambda: x, y → (tuple (lambda ( ) ( ) x) y)";
    exprs(&rt, rt.alloc(), rows)?;
    let texts = "¦ , ¦ x,, ¦ x,, y ¦ , x ¦ x y ¦ print x ¦ x, y z";
    no_lines(&rt, rt.alloc(), texts)?;
    Ok(())
}

#[test]
fn choices(rt: HostRuntime) -> Result<(), Fail> {
    let rows =
        "a if b else c → (choice a b c) ¦ a if b else c if d else e → (choice a b (choice c d e))
        ¦ (a if b else c) if d else e → (choice (choice a b c) d e)
        ¦ a if (b if c else d) else e → (choice a (choice b c d) e)
        ¦ a or b if c and d else not e → (choice (or a b) (and c d) (not e))
        ¦ a if b else lambda: c → (choice a b (lambda ( ) ( ) c))
        ¦ a if (lambda: b) else c → (choice a (lambda ( ) ( ) b) c)";
    exprs(&rt, rt.alloc(), rows)?;
    Ok(())
}

#[test]
fn no_choices(rt: HostRuntime) -> Result<(), Fail> {
    let texts = "a if b ¦ a if b else ¦ a if else c ¦ a if b, c else d ¦ a if b if c else d else e
        ¦ a if lambda: b else c ¦ lambda: a if b ¦ a else b ¦ else b ¦ a if b elif c else d ¦ a or if b else c";
    no_lines(&rt, rt.alloc(), texts)?;
    Ok(())
}

#[test]
fn lambdas(rt: HostRuntime) -> Result<(), Fail> {
    let rows =
        "lambda: x → (lambda ( ) ( ) x) ¦ lambda x: x → (lambda ( x ) ( ) x) ¦ lambda x,: x → (lambda ( x ) ( ) x)
        ¦ lambda x, y: x → (lambda ( x y ) ( ) x) ¦ lambda x, y=2: x → (lambda ( x y ) ( 2 ) x)
        ¦ lambda x=1, y=2,: x → (lambda ( x y ) ( 1 2 ) x)
        ¦ lambda: lambda x, y=2: x → (lambda ( ) ( ) (lambda ( x y ) ( 2 ) x))
        ¦ lambda x: a if b else c → (lambda ( x ) ( ) (choice a b c))
        ¦ lambda x=a if b else c: x → (lambda ( x ) ( (choice a b c) ) x)
        ¦ lambda x=lambda: y: x → (lambda ( x ) ( (lambda ( ) ( ) y) ) x)
        ¦ lambda x=(1, 2): x → (lambda ( x ) ( (tuple 1 2) ) x) ¦ (lambda: x)() → (call (lambda ( ) ( ) x))";
    exprs(&rt, rt.alloc(), rows)?;
    Ok(())
}

#[test]
fn no_lambdas(rt: HostRuntime) -> Result<(), Fail> {
    let texts =
        "lambda ¦ lambda: ¦ lambda x ¦ lambda x: ¦ lambda x x: y ¦ lambda ,: x ¦ lambda x,,: x ¦ lambda x=1, y: x
        ¦ lambda x=1, y,: x ¦ lambda x, y=1, z: x ¦ lambda x, x: x ¦ lambda x, y, x: x ¦ lambda x, x=1: x
        ¦ lambda x=1, x=2: x ¦ lambda x=: x ¦ lambda x=1=2: x ¦ lambda (x): x ¦ lambda x.y: x ¦ lambda 1: x
        ¦ lambda None: x ¦ lambda *x: x";
    no_lines(&rt, rt.alloc(), texts)?;
    Ok(())
}

#[test]
fn lambdas_as_operands(rt: HostRuntime) -> Result<(), Fail> {
    let texts =
        "not lambda: x ¦ a or lambda: b ¦ a and lambda: b ¦ a < lambda: b ¦ a + lambda: b ¦ a * lambda: b
        ¦ a ** lambda: b ¦ -lambda: b ¦ lambda: x = 1";
    no_lines(&rt, rt.alloc(), texts)?;
    Ok(())
}

#[test]
fn conjunctions(rt: HostRuntime) -> Result<(), Fail> {
    let rows =
        "a or b → (or a b) ¦ a or b or c → (or (or a b) c) ¦ a or (b or c) → (or a (or b c)) ¦ a and b → (and a b)
        ¦ a and b and c → (and (and a b) c) ¦ a and (b and c) → (and a (and b c)) ¦ a or b and c → (or a (and b c))
        ¦ a and b or c → (or (and a b) c) ¦ (a or b) and c → (and (or a b) c) ¦ a or b and c or d → (or (or a (and b c)) d)
        ¦ a or not b → (or a (not b)) ¦ a and not b and c → (and (and a (not b)) c)
        ¦ a < b and c in d or e → (or (and (compare < a b) (compare in c d)) e)";
    exprs(&rt, rt.alloc(), rows)?;
    let texts = "a or ¦ or a ¦ a and ¦ and a ¦ a and or b ¦ a or or b ¦ a and and b";
    no_lines(&rt, rt.alloc(), texts)?;
    Ok(())
}

#[test]
fn negations(rt: HostRuntime) -> Result<(), Fail> {
    let rows = "not a → (not a) ¦ not not a → (not (not a)) ¦ not a and b → (and (not a) b)
        ¦ not (a and b) → (not (and a b)) ¦ not a or b → (or (not a) b) ¦ not a in b → (not (compare in a b))
        ¦ not a == b → (not (compare == a b)) ¦ not -a + b → (not (+ (neg a) b)) ¦ (not a) in b → (compare in (not a) b)
        ¦ not a if b else c → (choice (not a) b c)";
    exprs(&rt, rt.alloc(), rows)?;
    let texts =
        "not ¦ a not b ¦ a == not b ¦ a in not b ¦ a + not b ¦ a * not b ¦ a ** not b ¦ - not a ¦ not in b
        ¦ a not";
    no_lines(&rt, rt.alloc(), texts)?;
    Ok(())
}

#[test]
fn comparisons(rt: HostRuntime) -> Result<(), Fail> {
    let rows = "a < b → (compare < a b) ¦ 1 < 2 < 3 → (compare < < 1 2 3)
        ¦ a not in b is not c → (compare not-in is-not a b c)
        ¦ a < b > c == d >= e <= f != g in h not in i is j is not k → (compare < > == >= <= != in not-in is is-not a b c d e f g h i j k)
        ¦ (a < b) < c → (compare < (compare < a b) c) ¦ a < (b < c) → (compare < a (compare < b c))
        ¦ a + 1 < b * 2 → (compare < (+ a 1) (* b 2)) ¦ a is not b → (compare is-not a b)
        ¦ a is (not b) → (compare is a (not b)) ¦ a not in -b → (compare not-in a (neg b))
        ¦ a == b == c → (compare == == a b c)";
    exprs(&rt, rt.alloc(), rows)?;
    Ok(())
}

#[test]
fn no_comparisons(rt: HostRuntime) -> Result<(), Fail> {
    let texts =
        "a < ¦ < a ¦ a < < b ¦ a <> b ¦ a == == b ¦ a is is b ¦ a is not not b ¦ a not is b ¦ a not not in b
        ¦ a in in b ¦ a is ¦ a is not ¦ a not in";
    no_lines(&rt, rt.alloc(), texts)?;
    all_are(&rt, rt.alloc(), "a ! b ¦ $ ¦ 1x ¦ 'a", "lex")?;
    Ok(())
}

#[test]
fn sums_and_terms(rt: HostRuntime) -> Result<(), Fail> {
    let rows =
        "a + b → (+ a b) ¦ a - b - c → (- (- a b) c) ¦ a - (b - c) → (- a (- b c)) ¦ a + b - c → (- (+ a b) c)
        ¦ a + b * c → (+ a (* b c)) ¦ a * b + c → (+ (* a b) c) ¦ (a + b) * c → (* (+ a b) c)
        ¦ a // b % c * d → (* (% (// a b) c) d) ¦ a // (b % c) → (// a (% b c)) ¦ a * b - c // d → (- (* a b) (// c d))
        ¦ a + -b → (+ a (neg b)) ¦ a--b → (- a (neg b)) ¦ a - + - b → (- a (pos (neg b))) ¦ a * -b → (* a (neg b))
        ¦ a % b ** c → (% a (** b c))";
    exprs(&rt, rt.alloc(), rows)?;
    let texts = "a + ¦ * a ¦ a + * b ¦ a * * b ¦ a % % b ¦ a - ¦ a // ¦ // a ¦ % a ¦ 1 1";
    no_lines(&rt, rt.alloc(), texts)?;
    Ok(())
}

#[test]
fn signs_and_powers(rt: HostRuntime) -> Result<(), Fail> {
    let rows =
        "-x → (neg x) ¦ +x → (pos x) ¦ --x → (neg (neg x)) ¦ -+x → (neg (pos x)) ¦ -2 → (neg 2) ¦ x ** y → (** x y)
        ¦ x ** y ** z → (** x (** y z)) ¦ (x ** y) ** z → (** (** x y) z) ¦ -x ** -y ** z → (neg (** x (neg (** y z))))
        ¦ (-x) ** y → (** (neg x) y) ¦ x ** -y → (** x (neg y)) ¦ x ** + - y → (** x (pos (neg y))) ¦ -x * y → (* (neg x) y)
        ¦ x ** y * z → (* (** x y) z) ¦ x * y ** z → (* x (** y z)) ¦ x ** -y * z → (* (** x (neg y)) z)
        ¦ -x.y → (neg (attr x y)) ¦ x.y ** z[0] → (** (attr x y) (item z 0))";
    exprs(&rt, rt.alloc(), rows)?;
    let texts = "- ¦ + ¦ x ** ¦ ** x ¦ x ** ** y ¦ x ** * y ¦ x ** // y ¦ x --  ¦ x * ** y";
    no_lines(&rt, rt.alloc(), texts)?;
    Ok(())
}

#[test]
fn attributes_and_items(rt: HostRuntime) -> Result<(), Fail> {
    let rows =
        "x.y → (attr x y) ¦ x . y.z → (attr (attr x y) z) ¦ x[1] → (item x 1) ¦ x[1, 2] → (item x (tuple 1 2))
        ¦ x[1,] → (item x (tuple 1)) ¦ x[(1, 2)] → (item x (tuple 1 2)) ¦ x[y][z] → (item (item x y) z)
        ¦ x[y[z]] → (item x (item y z)) ¦ x[lambda: y] → (item x (lambda ( ) ( ) y))
        ¦ x[y if z else w] → (item x (choice y z w)) ¦ [a][0] → (item (list a) 0) ¦ {1: 2}[1] → (item (dict 1 2) 1)
        ¦ 'a'.b → (attr 'a' b) ¦ 'a' 'b'[0] → (item 'ab' 0) ¦ (1).a → (attr 1 a) ¦ 1 .a → (attr 1 a)
        ¦ ().x → (attr (tuple) x) ¦ None.x → (attr None x)";
    exprs(&rt, rt.alloc(), rows)?;
    Ok(())
}

#[test]
fn no_attributes_and_items(rt: HostRuntime) -> Result<(), Fail> {
    let texts =
        "x. ¦ x. .y ¦ x.'a' ¦ x.(y) ¦ x.None ¦ x.if ¦ .x ¦ x.y z ¦ x[] ¦ x[,] ¦ x[1,,] ¦ x[1:2] ¦ x[:] ¦ x[1
        ¦ x[1) ¦ x] ¦ x[1 2] ¦ x[y=1] ¦ x[*y]";
    no_lines(&rt, rt.alloc(), texts)?;
    Ok(())
}

#[test]
fn calls(rt: HostRuntime) -> Result<(), Fail> {
    let rows =
        "f() → (call f) ¦ f(a) → (call f a) ¦ f(a,) → (call f a) ¦ f(a, b) → (call f a b) ¦ f(a, b,) → (call f a b)
        ¦ f((a, b)) → (call f (tuple a b)) ¦ f((a),) → (call f a) ¦ f(a if b else c) → (call f (choice a b c))
        ¦ f(lambda: x, y) → (call f (lambda ( ) ( ) x) y) ¦ f(a)(b) → (call (call f a) b)
        ¦ f(g(a), b) → (call f (call g a) b) ¦ (a)(b) → (call a b) ¦ ()() → (call (tuple))
        ¦ f()()[0].x → (attr (item (call (call f)) 0) x) ¦ x.y[z](w).v → (attr (call (item (attr x y) z) w) v)";
    exprs(&rt, rt.alloc(), rows)?;
    let texts =
        "f(,) ¦ f(a,,) ¦ f(,a) ¦ f(a b) ¦ f(a ¦ f(a] ¦ f) ¦ f(a)) ¦ f(a=1) ¦ f(a=b) ¦ f(a, b=c) ¦ f(a=1, b) ¦ f(*a)
        ¦ f(**a) ¦ f(a for b in c) ¦ f(pass) ¦ f(a;)";
    no_lines(&rt, rt.alloc(), texts)?;
    Ok(())
}

#[test]
fn names_and_literals(rt: HostRuntime) -> Result<(), Fail> {
    let rows =
        "None → None ¦ True → True ¦ False → False ¦ _ → _ ¦ 0 → 0 ¦ 00 → 0 ¦ 1_000 → 1000 ¦ 0x_fF → 255 ¦ 0B11 → 3
        ¦ 0o17 → 15 ¦ '' → '' ¦ 'a' \"b\" 'c' → 'abc' ¦ 'a' '' \"\"\"b\"\"\" → 'ab' ¦ '\\x41\\102\\u0043' → 'ABC'
        ¦ ('a'\n 'b') → 'ab' ¦ x # y → x ¦ x + \\\n y → (+ x y) ¦ \u{1d431} + \u{fb01} → (+ x fi)";
    exprs(&rt, rt.alloc(), rows)?;
    let texts =
        "'a' 1 ¦ 1 'a' ¦ 'a' b ¦ b 'a' ¦ True False ¦ if ¦ in ¦ \u{ff49}f ¦ x + \u{fb01}nally ¦ x.\u{ff49}f";
    no_lines(&rt, rt.alloc(), texts)?;
    Ok(())
}

#[test]
fn round_brackets(rt: HostRuntime) -> Result<(), Fail> {
    let rows =
        "() → (tuple) ¦ (x) → x ¦ ((x)) → x ¦ (x,) → (tuple x) ¦ ((x,),) → (tuple (tuple x)) ¦ (x, y) → (tuple x y)
        ¦ (x, y,) → (tuple x y) ¦ ((), (x)) → (tuple (tuple) x) ¦ (lambda: x, y) → (tuple (lambda ( ) ( ) x) y)";
    exprs(&rt, rt.alloc(), rows)?;
    let texts =
        "(,) ¦ (x,,) ¦ (, x) ¦ (x y) ¦ (x ¦ x) ¦ (x] ¦ (x} ¦ ( ¦ ) ¦ (x = 1) ¦ (*x) ¦ (x for x in y) ¦ (pass)";
    no_lines(&rt, rt.alloc(), texts)?;
    Ok(())
}

#[test]
fn lists(rt: HostRuntime) -> Result<(), Fail> {
    let rows =
        "[] → (list) ¦ [x] → (list x) ¦ [x,] → (list x) ¦ [x, y] → (list x y) ¦ [x, y,] → (list x y)
        ¦ [(x, y)] → (list (tuple x y)) ¦ [[], (), {}] → (list (list) (tuple) (dict))
        ¦ [x if y else z] → (list (choice x y z))";
    exprs(&rt, rt.alloc(), rows)?;
    let texts = "[,] ¦ [x,,] ¦ [x y] ¦ [x ¦ [x) ¦ [ ¦ ] ¦ [*x] ¦ [x for x in y] ¦ [x: y]";
    no_lines(&rt, rt.alloc(), texts)?;
    Ok(())
}

#[test]
fn dicts(rt: HostRuntime) -> Result<(), Fail> {
    let rows =
        "{} → (dict) ¦ {1: 2} → (dict 1 2) ¦ {1: 2,} → (dict 1 2) ¦ {1: 2, 'a': b} → (dict 1 2 'a' b)
        ¦ {1: 2, 3: 4,} → (dict 1 2 3 4) ¦ {(1, 2): [3]} → (dict (tuple 1 2) (list 3)) ¦ {{}: {}} → (dict (dict) (dict))
        ¦ {a if b else c: lambda: d} → (dict (choice a b c) (lambda ( ) ( ) d))
        ¦ {lambda: e: f} → (dict (lambda ( ) ( ) e) f)";
    exprs(&rt, rt.alloc(), rows)?;
    let texts =
        "{,} ¦ {1} ¦ {1,} ¦ {1, 2} ¦ {1:} ¦ {: 1} ¦ {:} ¦ {1: 2 3: 4} ¦ {1: 2,,} ¦ {1: 2, 3} ¦ {1: 2: 3} ¦ {1: 2
        ¦ {1: 2] ¦ { ¦ } ¦ {**x} ¦ {x: y for x in z}";
    no_lines(&rt, rt.alloc(), texts)?;
    Ok(())
}
