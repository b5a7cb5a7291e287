// Texts that are parsed and printed.
ghost use Rattle.std.specs.Prelude.{◌<◌, ◌-◌, ◌^◌, length};

use flow_base::{NoMemory, PyText};
use py_block::{SyntaxFault, parse};
use py_print::print_cell;
use std::alloc::Global;
use std::test::Fail;

// The printed text of the cell that a text spells; none where it spells none.
fn shown(a: Global, text: &PyText) -> Result<Option<PyText>, NoMemory> {
    if text.len() >= 100_000 {
        return Err(NoMemory);
    }
    match parse(a, text) {
        Ok(cell) => Ok(Some(print_cell(a, &cell)?)),
        Err(SyntaxFault::At { .. }) => Ok(None),
        Err(SyntaxFault::NoMemory) => Err(NoMemory),
    }
}

// Whether a text spells a cell, and what is printed of it is printed again as it stands.
fn is_kept(a: Global, text: &str) -> Result<bool, NoMemory> {
    let text = PyText::from_str(a, text)?;
    let Some(once) = shown(a, &text)? else {
        return Ok(false);
    };
    let Some(again) = shown(a, &once)? else {
        return Ok(false);
    };
    Ok(once.same(&again))
}

// Whether this is printed of the text.
fn is_shown(a: Global, text: &str, want: &str) -> Result<bool, NoMemory> {
    let text = PyText::from_str(a, text)?;
    let Some(shown) = shown(a, &text)? else {
        return Ok(false);
    };
    let want = PyText::from_str(a, want)?;
    Ok(shown.same(&want))
}

// Whether a text spells no cell.
fn is_refused(a: Global, text: &str) -> Result<bool, NoMemory> {
    let text = PyText::from_str(a, text)?;
    Ok(shown(a, &text)?.is_none())
}

// What is printed of texts, by the rules of printing.
#[test]
fn prints_statements(rt: HostRuntime) -> Result<(), Fail> {
    for (text, want) in [
        ("", ""),
        ("x=1;y = (2)", "x = 1\ny = 2\n"),
        ("x = 1 .a", "x = (1).a\n"),
        ("[y] = z", "(y,) = z\n"),
        ("x = 1,", "x = (1,)\n"),
        ("x = y = (1, 2,)", "x = y = (1, 2)\n"),
        ("x+=1; del (a),b", "x += 1\ndel (a, b)\n"),
        ("f((a,b),)", "f((a, b))\n"),
        ("x[1,2]", "x[(1, 2)]\n"),
        ("-(-x)", "--x\n"),
        ("-(a+b)*c", "-(a + b) * c\n"),
        ("a-(b-c)", "a - (b - c)\n"),
        ("(a-b)-c", "a - b - c\n"),
        ("(a**b)**-c", "(a ** b) ** -c\n"),
        ("a**b**c", "a ** b ** c\n"),
        ("not(a and b)", "not (a and b)\n"),
        ("a<b<=c not in d is not e", "a < b <= c not in d is not e\n"),
        ("(a<b)<c", "(a < b) < c\n"),
        ("(lambda x,y=2:x)(1)", "(lambda x, y=2: x)(1)\n"),
        (
            "(a if b else c) if d else e if f else g",
            "(a if b else c) if d else e if f else g\n",
        ),
        ("x={'a':1,'b':{}, }", "x = {'a': 1, 'b': {}}\n"),
        ("x = 0x_ff", "x = 255\n"),
        ("x = 'a' \"b'\"", "x = \"ab'\"\n"),
    ] {
        assert!(rt; is_shown(rt.alloc(), text, want)?, "{text}");
    }
    Ok(())
}

#[test]
fn prints_blocks(rt: HostRuntime) -> Result<(), Fail> {
    for (text, want) in [
        (
            "if a : b\nelif c : d\nelse : e",
            "if a:\n    b\nelif c:\n    d\nelse:\n    e\n",
        ),
        (
            "if a:\n  b\nelse:\n  if c: d",
            "if a:\n    b\nelse:\n    if c:\n        d\n",
        ),
        (
            "try : a\nexcept E as e : b\nexcept : c\nelse : d\nfinally : f",
            "try:\n    a\nexcept E as e:\n    b\nexcept:\n    c\nelse:\n    d\nfinally:\n    f\n",
        ),
        (
            "for a,b in c,d : break\nelse: pass",
            "for (a, b) in (c, d):\n    break\nelse:\n    pass\n",
        ),
        ("while(a):\n\n # c\n b;c", "while a:\n    b\n    c\n"),
        (
            "def f(x,y=1,):\n global z,w\n return",
            "def f(x, y=1):\n    global z, w\n    return\n",
        ),
        (
            "class C():\n x=1\nclass D(C): pass",
            "class C:\n    x = 1\nclass D(C):\n    pass\n",
        ),
        (
            "assert a,'b'\r\nraise\rraise E()",
            "assert a, 'b'\nraise\nraise E()\n",
        ),
    ] {
        assert!(rt; is_shown(rt.alloc(), text, want)?, "{text}");
    }
    Ok(())
}

// The cells of the worked logs.
#[test]
fn keeps_cells(rt: HostRuntime) -> Result<(), Fail> {
    for text in [
        "def f(x, y=2, z=3): return x * 100 + y * 10 + z",
        "xs = [1, 2]",
        "xs[0] = 5",
        "print(ys[1])",
        "x = 1",
        "y = x",
        "z = y",
        "x = 2",
        "print(z)",
        "xs = [1]",
        "ys = xs",
        "n = 1",
        "ys[0] = n",
        "n = 2",
        "print(xs[0])",
        "d = {}",
        "try: v = d['k']\nexcept KeyError: v = 0",
        "d['k'] = 5",
        "print(v)",
        "xs = []",
        "xs.append(1)",
        "xs.append(2)",
        "x = 0",
        "x = x + 1",
        "print(x)",
        "k = 1",
        "def f(): return g",
        "g = k",
        "k = 2",
        "f()",
        "if False: print(z)",
        "if x == 9: z = 0\nelse: z = 1\nprint(z)",
    ] {
        assert!(rt; is_kept(rt.alloc(), text)?, "{text}");
    }
    Ok(())
}

#[test]
fn keeps_more_cells(rt: HostRuntime) -> Result<(), Fail> {
    for text in [
        "if x == 9: z = 0\nprint(z)",
        "fs = []\nn = 0\nfor i in range(64):\n    def f():\n        return 1\n    fs.append(f)",
        "fs[n + 0]()",
        "fs = []\nn = 0\nfor i in range(65):\n    def f():\n        return 1\n    fs.append(f)",
        "class C:\n    pass\no = C()\nb = 'x'",
        "getattr(o, b + 'y')",
        "d['a'] = 1",
        "d['b'] = 2",
        "y = xs[1]",
        "x = 1\ny = 2\nz = w",
        "x = 170141183460469231731687303715884105727",
        "y = 1\nx = x + 1",
        "n = len([1])",
        "len = 3",
        "print(n)",
        "xs.append(xs)",
        "print(xs)",
        "rate = 5",
        "class Account:\n    def __init__(self, owner):\n        self.owner = owner\n        self.balance = 0\n    def deposit(self, n):\n        self.balance = self.balance + n",
        "accounts = [Account('ann'), Account('bob')]",
        "for a in accounts: a.deposit(100)",
        "def report():\n    t = 0\n    for a in accounts:\n        t = t + a.balance\n    return t",
        "total = report()",
        "print(total)",
        "fee = rate * 2",
        "accounts[0].deposit(fee)",
        "rate = 7",
        "print(fee)",
        "x = 1 .a",
        "[y] = z",
        "x=1;y = (2)",
        "nonlocal x",
    ] {
        assert!(rt; is_kept(rt.alloc(), text)?, "{text}");
    }
    Ok(())
}

#[test]
fn keeps_still_more_cells(rt: HostRuntime) -> Result<(), Fail> {
    for text in [
        "d = {1: 'a'}\nd[True] = 'b'\nprint(d)",
        "def f():\n  try:\n    return 1\n  finally:\n    return 2\nprint(f())",
        "try: 1 // 0\nexcept ZeroDivisionError as e: print(e)\nprint(e)",
        "def f(n): return f(n + 1)\nf(0)",
        "print(-7 // 2, -7 % 2, 2 ** 10, True + 1, 1 < 3 < 2)",
        "def f(x, y=2):\n    return x + y",
        "x = 1\ny = 2\nz = x",
        "y = x\nx = 2",
        "print(y)",
        "d = {'a': 1, 'b': 2}",
        "del d['a']",
        "x = 1\nX = 1",
        "x = 1 + 1 + 1 + 1 + 1 + 1 + 1 + 1 + 1 + 1 + 1 + 1 + 1 + 1 + 1 + 1 + 1 + 1 + 1 + 1 + 1",
        "x = 1 + 1 + 1 + 1 + 1 + 1 + 1 + 1 + 1 + 1 + 1 + 1 + 1 + 1 + 1 + 1 + 1 + 1 + 1 + 1",
        "x = 1\n",
        "x = 1\n\n",
        "x =  1",
        "x1 = y2 + 0",
        "\n",
        "x = 1\nx = 1\nx = 1\nx = 1\nx = 1\nx = 1\nx = 1\nx = 1\nx = 1\nx = 1\nx = 1\nx = 1\nx = 1\nx = 1\nx = 1\nx = 1\nx = 1\nx = 1\nx = 1\nx = 1\nx = 1\nx = 1\nx = 1\nx = 1\nx = 1\nx = 1\nx = 1\nx = 1\nx = 1\nx = 1\nx = 1\nx = 1\nx = 1\nx = 1\nx = 1\nx = 1\nx = 1\nx = 1\nx = 1\nx = 1\nx = 1\nx = 1\nx = 1\nx = 1\nx = 1\nx = 1\nx = 1\nx = 1\nx = 1\nx = 1\nx = 1\nx = 1\nx = 1\nx = 1\nx = 1\nx = 1\nx = 1\nx = 1\nx = 1\nx = 1\nx = 1\nx = 1\nx = 1\nx = 1\nx = 1\nx = 1\nx = 1\nx = 1\nx = 1\nx = 1\nx = 1\nx = 1\nx = 1\nx = 1\nx = 1\nx = 1\nx = 1\nx = 1\nx = 1\nx = 1\nx = 1\nx = 1\nx = 1\nx = 1\nx = 1\nx = 1\nx = 1\nx = 1\nx = 1\nx = 1\nx = 1\nx = 1\nx = 1\nx = 1\nx = 1\nx = 1\nx = 1\nx = 1\nx = 1\nx = 1",
        "x = 1\nx = 1\nx = 1\nx = 1\nx = 1\nx = 1\nx = 1\nx = 1\nx = 1\nx = 1\nx = 1\nx = 1\nx = 1\nx = 1\nx = 1\nx = 1\nx = 1\nx = 1\nx = 1\nx = 1\nx = 1\nx = 1\nx = 1\nx = 1\nx = 1\nx = 1\nx = 1\nx = 1\nx = 1\nx = 1\nx = 1\nx = 1\nx = 1\nx = 1\nx = 1\nx = 1\nx = 1\nx = 1\nx = 1\nx = 1\nx = 1\nx = 1\nx = 1\nx = 1\nx = 1\nx = 1\nx = 1\nx = 1\nx = 1\nx = 1\nx = 1\nx = 1\nx = 1\nx = 1\nx = 1\nx = 1\nx = 1\nx = 1\nx = 1\nx = 1\nx = 1\nx = 1\nx = 1\nx = 1\nx = 1\nx = 1\nx = 1\nx = 1\nx = 1\nx = 1\nx = 1\nx = 1\nx = 1\nx = 1\nx = 1\nx = 1\nx = 1\nx = 1\nx = 1\nx = 1\nx = 1\nx = 1\nx = 1\nx = 1\nx = 1\nx = 1\nx = 1\nx = 1\nx = 1\nx = 1\nx = 1\nx = 1\nx = 1\nx = 1\nx = 1\nx = 1\nx = 1\nx = 1\nx = 1\nx = 1\nx = 1",
        "",
        "y = q",
        "w = z",
        "x = ((((((((((((((((((((((((((((((((((((((((((((((((((((((((((((((((((((((((((((((((((((((((((((((((((((((((((((((((((((((((((((((((((((((((((((((((((((((((((((((((((((((((((((((((((((((((((((((((((((((((1))))))))))))))))))))))))))))))))))))))))))))))))))))))))))))))))))))))))))))))))))))))))))))))))))))))))))))))))))))))))))))))))))))))))))))))))))))))))))))))))))))))))))))))))))))))))))))))))))))))))",
        "if 1:\n if 1:\n  if 1:\n   if 1:\n    if 1:\n     if 1:\n      if 1:\n       if 1:\n        if 1:\n         if 1:\n          if 1:\n           if 1:\n            if 1:\n             if 1:\n              if 1:\n               if 1:\n                if 1:\n                 if 1:\n                  if 1:\n                   if 1:\n                    if 1:\n                     if 1:\n                      if 1:\n                       if 1:\n                        if 1:\n                         if 1:\n                          if 1:\n                           if 1:\n                            if 1:\n                             if 1:\n                              if 1:\n                               if 1:\n                                if 1:\n                                 if 1:\n                                  if 1:\n                                   if 1:\n                                    if 1:\n                                     if 1:\n                                      if 1:\n                                       if 1:\n                                        if 1:\n                                         if 1:\n                                          if 1:\n                                           if 1:\n                                            if 1:\n                                             if 1:\n                                              if 1:\n                                               if 1:\n                                                if 1:\n                                                 if 1:\n                                                  if 1:\n                                                   if 1:\n                                                    if 1:\n                                                     if 1:\n                                                      if 1:\n                                                       if 1:\n                                                        if 1:\n                                                         if 1:\n                                                          if 1:\n                                                           if 1:\n                                                            x",
        "x = -----------------------------------------------------------1",
        "t = (0,)\nfor i in range(50): t = (t,)",
        "t = (0,)\nfor i in range(49): t = (t,)",
        "def mk():\n    n = 0\n    def up():\n        nonlocal n\n        n = n + 1\n        return n\n    return up",
        "f = mk()\na = f()\nb = f()",
    ] {
        assert!(rt; is_kept(rt.alloc(), text)?, "{text}");
    }
    Ok(())
}

// Texts of the worked logs that spell no cell of the language as it is today.
#[test]
fn texts_without_a_cell(rt: HostRuntime) -> Result<(), Fail> {
    for text in [
        "x = s[1:]\n",
        "x = 'a' f'{ {1: 2} }' \"b\"",
        "x = f\"a{ {1: 2}}b\"\n",
        "x = f'\\{y}'",
        "x = f\"\\\\{y}\"\n",
        "f''",
        "f\"\"\n",
        "x = s[ 1 : ]",
        "n = 'a'\nprint(f'{n}-{n!r}-{{}}')",
        "x = s[::2]",
        "x = f'{n:3}'",
        "x = f'}'",
        "x = rf'a'",
        "s = 'abcd'\nprint(s[1:-1], [1, 2, 3][:2], (1, 2)[5:])",
        "f(a=1)",
        "[x for x in y]",
        "print(f(1, z=5))",
        "f(1, x=2)",
        "ys = [x + 1 for x in xs]",
        "print([a * b for a in [1, 2] for b in [3, 4] if b > 3])",
        "if x",
        "if x:\n  y\n z",
        "import os",
        "x = 170141183460469231731687303715884105728",
        "x =",
        "x = $",
        "x = 01",
        "x = ------------------------------------------------------------1",
        "x = (((((((((((((((((((((((((((((((((((((((((((((((((((((((((((((((((((((((((((((((((((((((((((((((((((((((((((((((((((((((((((((((((((((((((((((((((((((((((((((((((((((((((((((((((((((((((((((((((((((((((1)))))))))))))))))))))))))))))))))))))))))))))))))))))))))))))))))))))))))))))))))))))))))))))))))))))))))))))))))))))))))))))))))))))))))))))))))))))))))))))))))))))))))))))))))))))))))))))))))))))))))",
        "if 1:\n if 1:\n  if 1:\n   if 1:\n    if 1:\n     if 1:\n      if 1:\n       if 1:\n        if 1:\n         if 1:\n          if 1:\n           if 1:\n            if 1:\n             if 1:\n              if 1:\n               if 1:\n                if 1:\n                 if 1:\n                  if 1:\n                   if 1:\n                    if 1:\n                     if 1:\n                      if 1:\n                       if 1:\n                        if 1:\n                         if 1:\n                          if 1:\n                           if 1:\n                            if 1:\n                             if 1:\n                              if 1:\n                               if 1:\n                                if 1:\n                                 if 1:\n                                  if 1:\n                                   if 1:\n                                    if 1:\n                                     if 1:\n                                      if 1:\n                                       if 1:\n                                        if 1:\n                                         if 1:\n                                          if 1:\n                                           if 1:\n                                            if 1:\n                                             if 1:\n                                              if 1:\n                                               if 1:\n                                                if 1:\n                                                 if 1:\n                                                  if 1:\n                                                   if 1:\n                                                    if 1:\n                                                     if 1:\n                                                      if 1:\n                                                       if 1:\n                                                        if 1:\n                                                         if 1:\n                                                          if 1:\n                                                           if 1:\n                                                            if 1: x",
    ] {
        assert!(rt; is_refused(rt.alloc(), text)?, "{text}");
    }
    Ok(())
}
