// Cells printed. Each is written as words that put together its parts, the parts before what they are parts of; the text is that of the
// rules: parentheses only where the grammar asks for them, one space round operators, four for each block.
use flow_base::{Held, NoMemory, PyText, Shared};
use py_ast::{
    BinaryOp, Branch, Cell, CompareOp, Expr, Handler, SignOp, Stmt, Stmts, Texts, is_numbered,
};
use py_print::{is_code, print_cell, print_code};
use std::alloc::Global;
use std::test::Fail;

// The parts so far.
#[derive(Drop)]
struct Parts {
    a: Global,
    // a count, which the next word takes that asks for one
    count: usize,
    names: Vec<PyText>,
    ops: Vec<CompareOp>,
    exprs: Vec<Expr>,
    stmts: Vec<Stmt>,
    blocks: Vec<Stmts>,
    branches: Vec<Branch>,
    handlers: Vec<Handler>,
}

// The last parts of a list.
fn last<T: Drop>(a: Global, all: &mut Vec<T>, count: usize) -> Result<Shared<T>, NoMemory> {
    if count > all.len() {
        return Err(NoMemory);
    }
    let at = all.len() - count;
    Shared::from_vec(a, all.split_off(at)?)
}

fn popped<T: Drop>(all: &mut Vec<T>) -> Result<T, NoMemory> {
    match all.pop() {
        Some(part) => Ok(part),
        None => Err(NoMemory),
    }
}

impl Parts {
    fn new(a: Global) -> Parts {
        Parts {
            a,
            count: 0,
            names: Vec::new(a),
            ops: Vec::new(a),
            exprs: Vec::new(a),
            stmts: Vec::new(a),
            blocks: Vec::new(a),
            branches: Vec::new(a),
            handlers: Vec::new(a),
        }
    }

    fn expr(&mut self, e: Expr) -> Result<(), NoMemory> {
        self.exprs.push(e)?;
        Ok(())
    }

    fn stmt(&mut self, s: Stmt) -> Result<(), NoMemory> {
        self.stmts.push(s)?;
        Ok(())
    }

    fn held(&mut self) -> Result<Held<Expr>, NoMemory> {
        Held::new(self.a, popped(&mut self.exprs)?)
    }

    fn parts(&mut self) -> Result<Shared<Expr>, NoMemory> {
        last(self.a, &mut self.exprs, self.count)
    }

    fn maybe(&mut self) -> Result<Option<Expr>, NoMemory> {
        if self.count == 0 {
            return Ok(None);
        }
        Ok(Some(popped(&mut self.exprs)?))
    }

    fn all_names(&mut self) -> Result<Texts, NoMemory> {
        let count = self.names.len();
        last(self.a, &mut self.names, count)
    }

    fn binary(&mut self, o: BinaryOp) -> Result<(), NoMemory> {
        let right = self.held()?;
        let left = self.held()?;
        self.expr(Expr::Binary(0, left, o, right))
    }

    fn sign(&mut self, o: SignOp) -> Result<(), NoMemory> {
        let part = self.held()?;
        self.expr(Expr::Sign(0, o, part))
    }

    fn and(&mut self) -> Result<(), NoMemory> {
        let right = self.held()?;
        let left = self.held()?;
        self.expr(Expr::And(0, left, right))
    }

    fn or(&mut self) -> Result<(), NoMemory> {
        let right = self.held()?;
        let left = self.held()?;
        self.expr(Expr::Or(0, left, right))
    }

    fn not(&mut self) -> Result<(), NoMemory> {
        let part = self.held()?;
        self.expr(Expr::Not(0, part))
    }

    fn choice(&mut self) -> Result<(), NoMemory> {
        let otherwise = self.held()?;
        let test = self.held()?;
        let value = self.held()?;
        self.expr(Expr::Choice(0, value, test, otherwise))
    }

    fn op(&mut self, o: CompareOp) -> Result<(), NoMemory> {
        self.ops.push(o)?;
        Ok(())
    }

    fn compare(&mut self) -> Result<(), NoMemory> {
        let count = self.ops.len();
        let ops = last(self.a, &mut self.ops, count)?;
        if count >= self.exprs.len() {
            return Err(NoMemory);
        }
        let parts = last(self.a, &mut self.exprs, count + 1)?;
        self.expr(Expr::Compare(0, ops, parts))
    }

    fn attr(&mut self) -> Result<(), NoMemory> {
        let part = self.held()?;
        let name = popped(&mut self.names)?;
        self.expr(Expr::Attr(0, part, name))
    }

    fn item(&mut self) -> Result<(), NoMemory> {
        let index = self.held()?;
        let part = self.held()?;
        self.expr(Expr::Item(0, part, index))
    }

    fn call(&mut self) -> Result<(), NoMemory> {
        let arguments = self.parts()?;
        let function = self.held()?;
        self.expr(Expr::Call(0, function, arguments))
    }

    fn lambda(&mut self) -> Result<(), NoMemory> {
        let value = self.held()?;
        let defaults = self.parts()?;
        let names = self.all_names()?;
        self.expr(Expr::Lambda(0, names, defaults, value))
    }

    fn tuple(&mut self) -> Result<(), NoMemory> {
        let parts = self.parts()?;
        self.expr(Expr::Tuple(0, parts))
    }

    fn list(&mut self) -> Result<(), NoMemory> {
        let parts = self.parts()?;
        self.expr(Expr::List(0, parts))
    }

    fn dict(&mut self) -> Result<(), NoMemory> {
        let parts = self.parts()?;
        self.expr(Expr::Dict(0, parts))
    }

    fn assign(&mut self) -> Result<(), NoMemory> {
        let value = popped(&mut self.exprs)?;
        let targets = self.parts()?;
        self.stmt(Stmt::Assign(0, targets, value))
    }

    fn augment(&mut self, o: BinaryOp) -> Result<(), NoMemory> {
        let value = popped(&mut self.exprs)?;
        let target = popped(&mut self.exprs)?;
        self.stmt(Stmt::Augment(0, target, o, value))
    }

    fn assert(&mut self) -> Result<(), NoMemory> {
        let message = self.maybe()?;
        let test = popped(&mut self.exprs)?;
        self.stmt(Stmt::Assert(0, test, message))
    }

    fn block(&mut self) -> Result<(), NoMemory> {
        let block = last(self.a, &mut self.stmts, self.count)?;
        self.blocks.push(block)?;
        Ok(())
    }

    fn branch(&mut self) -> Result<(), NoMemory> {
        let test = popped(&mut self.exprs)?;
        let body = popped(&mut self.blocks)?;
        self.branches.push(Branch { test, body })?;
        Ok(())
    }

    fn except(&mut self) -> Result<(), NoMemory> {
        let class = self.maybe()?;
        let name = self.names.pop();
        let body = popped(&mut self.blocks)?;
        self.handlers.push(Handler {
            node: 0,
            class,
            name,
            body,
        })?;
        Ok(())
    }

    fn choose(&mut self) -> Result<(), NoMemory> {
        let otherwise = popped(&mut self.blocks)?;
        let count = self.branches.len();
        let branches = last(self.a, &mut self.branches, count)?;
        self.stmt(Stmt::If(0, branches, otherwise))
    }

    fn repeat(&mut self) -> Result<(), NoMemory> {
        let otherwise = popped(&mut self.blocks)?;
        let body = popped(&mut self.blocks)?;
        let test = popped(&mut self.exprs)?;
        self.stmt(Stmt::While(0, test, body, otherwise))
    }

    fn go_over(&mut self) -> Result<(), NoMemory> {
        let otherwise = popped(&mut self.blocks)?;
        let body = popped(&mut self.blocks)?;
        let value = popped(&mut self.exprs)?;
        let target = popped(&mut self.exprs)?;
        self.stmt(Stmt::For(0, target, value, body, otherwise))
    }

    fn attempt(&mut self) -> Result<(), NoMemory> {
        let finally = popped(&mut self.blocks)?;
        let otherwise = popped(&mut self.blocks)?;
        let body = popped(&mut self.blocks)?;
        let count = self.handlers.len();
        let handlers = last(self.a, &mut self.handlers, count)?;
        self.stmt(Stmt::Try(0, body, handlers, otherwise, finally))
    }

    fn define(&mut self) -> Result<(), NoMemory> {
        let body = popped(&mut self.blocks)?;
        let name = popped(&mut self.names)?;
        let params = self.all_names()?;
        let defaults = self.parts()?;
        self.stmt(Stmt::Def(0, name, params, defaults, body))
    }

    fn class(&mut self) -> Result<(), NoMemory> {
        let body = popped(&mut self.blocks)?;
        let name = popped(&mut self.names)?;
        let base = self.maybe()?;
        self.stmt(Stmt::Class(0, name, base, body))
    }

    fn stmt_word(&mut self, word: &str) -> Result<(), NoMemory> {
        match word {
            "expr" => {
                let e = popped(&mut self.exprs)?;
                self.stmt(Stmt::Expr(0, e))
            }
            "assign" => self.assign(),
            "+=" => self.augment(BinaryOp::Add),
            "**=" => self.augment(BinaryOp::Pow),
            "pass" => self.stmt(Stmt::Pass(0)),
            "break" => self.stmt(Stmt::Break(0)),
            "continue" => self.stmt(Stmt::Continue(0)),
            "return" => {
                let e = self.maybe()?;
                self.stmt(Stmt::Return(0, e))
            }
            "raise" => {
                let e = self.maybe()?;
                self.stmt(Stmt::Raise(0, e))
            }
            "global" => {
                let names = self.all_names()?;
                self.stmt(Stmt::Global(0, names))
            }
            "nonlocal" => {
                let names = self.all_names()?;
                self.stmt(Stmt::Nonlocal(0, names))
            }
            "del" => {
                let e = popped(&mut self.exprs)?;
                self.stmt(Stmt::Del(0, e))
            }
            "assert" => self.assert(),
            "block" => self.block(),
            "branch" => self.branch(),
            "except" => self.except(),
            "if" => self.choose(),
            "while" => self.repeat(),
            "for" => self.go_over(),
            "try" => self.attempt(),
            "def" => self.define(),
            "class" => self.class(),
            _ => self.leaf(word),
        }
    }

    fn expr_word(&mut self, word: &str) -> Result<(), NoMemory> {
        match word {
            "+" => self.binary(BinaryOp::Add),
            "-" => self.binary(BinaryOp::Sub),
            "*" => self.binary(BinaryOp::Mul),
            "//" => self.binary(BinaryOp::FloorDiv),
            "%" => self.binary(BinaryOp::Mod),
            "**" => self.binary(BinaryOp::Pow),
            "neg" => self.sign(SignOp::Minus),
            "pos" => self.sign(SignOp::Plus),
            "and" => self.and(),
            "or" => self.or(),
            "not" => self.not(),
            "choice" => self.choice(),
            "<" => self.op(CompareOp::Less),
            "==" => self.op(CompareOp::Equal),
            "not-in" => self.op(CompareOp::NotIn),
            "is-not" => self.op(CompareOp::IsNot),
            "compare" => self.compare(),
            "attr" => self.attr(),
            "item" => self.item(),
            "call" => self.call(),
            "lambda" => self.lambda(),
            "tuple" => self.tuple(),
            "list" => self.list(),
            "dict" => self.dict(),
            "None" => self.expr(Expr::Nil(0)),
            "True" => self.expr(Expr::Truth(0, true)),
            _ => self.stmt_word(word),
        }
    }

    // `#2` is a count, `$x` a name, `'t` a text, `1` a number, and any other word the expression of a name.
    fn leaf(&mut self, word: &str) -> Result<(), NoMemory> {
        if let Some(count) = word.strip_prefix('#') {
            self.count = count.parse::<usize>().unwrap_or(0);
            return Ok(());
        }
        if let Some(name) = word.strip_prefix('$') {
            self.names.push(PyText::from_str(self.a, name)?)?;
            return Ok(());
        }
        if let Some(text) = word.strip_prefix('\'') {
            return self.expr(Expr::Text(0, PyText::from_str(self.a, text)?));
        }
        match word.parse::<i128>() {
            Ok(n) => self.expr(Expr::Number(0, n)),
            Err(_) => self.expr(Expr::Name(0, PyText::from_str(self.a, word)?)),
        }
    }
}

fn cell_of(a: Global, words: &str) -> Result<Cell, NoMemory> {
    let mut parts = Parts::new(a);
    for word in words.split(' ') {
        parts.expr_word(word)?;
    }
    let count = parts.stmts.len();
    Ok(Cell {
        statements: last(a, &mut parts.stmts, count)?,
    })
}

fn prints(a: Global, words: &str, want: &str) -> Result<bool, NoMemory> {
    let c = cell_of(a, words)?;
    let text = print_cell(a, &c)?.to_text(a)?;
    Ok(text.as_str() == want)
}

#[test]
fn expressions(rt: HostRuntime) -> Result<(), Fail> {
    for (words, want) in [
        ("a b c - - expr", "a - (b - c)\n"),
        ("a b - c - expr", "a - b - c\n"),
        ("a b * c + expr", "a * b + c\n"),
        ("a b c + * expr", "a * (b + c)\n"),
        ("a b // c % expr", "a // b % c\n"),
        ("a b + neg expr", "-(a + b)\n"),
        ("a neg neg expr", "--a\n"),
        ("a pos b * expr", "+a * b\n"),
        ("a b and not expr", "not (a and b)\n"),
        ("a not not expr", "not not a\n"),
        ("a not b and expr", "not a and b\n"),
        ("a b or c and expr", "(a or b) and c\n"),
        ("a b c and and expr", "a and (b and c)\n"),
        ("a b ** c ** expr", "(a ** b) ** c\n"),
        ("a b c ** ** expr", "a ** b ** c\n"),
        ("a b neg ** expr", "a ** -b\n"),
        ("a neg b ** expr", "(-a) ** b\n"),
        (
            "a b c d < not-in is-not compare expr",
            "a < b not in c is not d\n",
        ),
        ("a b < compare c == compare expr", "(a < b) == c\n"),
        (
            "a t b choice u c choice expr",
            "(a if t else b) if u else c\n",
        ),
        ("2 x $x $y #1 lambda expr", "lambda x, y=2: x\n"),
        ("1 #0 lambda expr", "lambda: 1\n"),
        ("1 #0 lambda #0 call expr", "(lambda: 1)()\n"),
        ("#0 tuple expr", "()\n"),
        ("a #1 tuple expr", "(a,)\n"),
        ("a b #2 tuple expr", "(a, b)\n"),
        ("a None #2 list expr", "[a, None]\n"),
        ("#0 dict expr", "{}\n"),
        ("k v l True #4 dict expr", "{k: v, l: True}\n"),
        ("f a b #2 call expr", "f(a, b)\n"),
        ("a $x attr b item $y attr #0 call expr", "a.x[b].y()\n"),
        ("1 $a attr expr", "(1).a\n"),
        ("'it's expr", "\"it's\"\n"),
        ("'it's\"x\"\n\\ expr", "'it\\'s\"x\"\\n\\\\'\n"),
    ] {
        assert!(rt; prints(rt.alloc(), words, want)?, "{words}");
    }
    Ok(())
}

#[test]
fn statements(rt: HostRuntime) -> Result<(), Fail> {
    for (words, want) in [
        ("x 1 #1 assign y 2 assign", "x = 1\ny = 2\n"),
        ("x 1 $a attr #1 assign", "x = (1).a\n"),
        ("y #1 tuple z assign", "(y,) = z\n"),
        ("a b c #2 assign", "a = b = c\n"),
        ("a 1 += b 2 **=", "a += 1\nb **= 2\n"),
        ("break continue", "break\ncontinue\n"),
        ("return x #1 return", "return\nreturn x\n"),
        ("raise E #1 raise", "raise\nraise E\n"),
        ("$x $y global $z nonlocal", "global x, y\nnonlocal z\n"),
        ("x 0 item del", "del x[0]\n"),
        ("x assert x 'm #1 assert", "assert x\nassert x, 'm'\n"),
        (
            "x pass #1 block branch y break block branch pass block if",
            "if x:\n    pass\nelif y:\n    break\nelse:\n    pass\n",
        ),
        (
            "pass #1 block E $e pass block except break block #0 except continue #1 block pass block try",
            "try:\n    pass\nexcept E as e:\n    pass\nexcept:\n    break\nelse:\n    continue\nfinally:\n    pass\n",
        ),
        (
            "i xs pass #1 block break block for",
            "for i in xs:\n    pass\nelse:\n    break\n",
        ),
        (
            "1 x #1 return block $x $y $f def",
            "def f(x, y=1):\n    return x\n",
        ),
        (
            "pass #1 block B $C class pass block $D #0 class",
            "class C(B):\n    pass\nclass D:\n    pass\n",
        ),
        (
            "x y pass #1 block branch #0 block if z expr #2 block #0 block while #1 block $f #0 def",
            "def f():\n    while x:\n        if y:\n            pass\n        z\n",
        ),
    ] {
        assert!(rt; prints(rt.alloc(), words, want)?, "{words}");
    }
    Ok(())
}

fn one<T: Drop>(a: Global, item: T) -> Result<Shared<T>, NoMemory> {
    let mut items = Vec::new(a);
    items.push(item)?;
    Shared::from_vec(a, items)
}

fn none<T: Drop>(a: Global) -> Result<Shared<T>, NoMemory> {
    Shared::from_vec(a, Vec::new(a))
}

// `if x:` with `def f():` and `lambda x: x` in it.
fn numbered(a: Global) -> Result<Cell, NoMemory> {
    let x = PyText::from_str(a, "x")?;
    let value = Held::new(a, Expr::Name(6, x.copy()?))?;
    let lambda = Expr::Lambda(5, one(a, x.copy()?)?, none(a)?, value);
    let inside = one(a, Stmt::Expr(4, lambda))?;
    let def = Stmt::Def(3, PyText::from_str(a, "f")?, none(a)?, none(a)?, inside);
    let branch = Branch {
        test: Expr::Name(2, x),
        body: one(a, def)?,
    };
    Ok(Cell {
        statements: one(a, Stmt::If(1, one(a, branch)?, none(a)?))?,
    })
}

// The printed code of the nodes 0 to 7, with a bar behind each that has code.
fn codes(a: Global, c: &Cell) -> Result<String, NoMemory> {
    let mut out = String::new(a);
    if is_numbered(c) {
        for node in 0..8 {
            if is_code(c, node) {
                out.push_str(print_code(a, c, node)?.to_text(a)?.as_str())?;
                out.push('|')?;
            }
        }
    }
    Ok(out)
}

#[test]
fn code_of_functions(rt: HostRuntime) -> Result<(), Fail> {
    let c = numbered(rt.alloc())?;
    let found = codes(rt.alloc(), &c)?;
    assert_eq!(rt; found.as_str(), "def f():\n    lambda x: x\n|lambda x: x|");
    Ok(())
}
