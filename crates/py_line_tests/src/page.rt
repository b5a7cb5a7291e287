// Lines as texts. A node is `(word part ..)`, a name or a number is itself, and a text stands in quotes. Simple statements have
// semicolons between them, and those of a header stand behind its colon.
use flow_base::{NoMemory, PyText};
use py_ast::{BinaryOp, CompareOp, Expr, SignOp, Stmt};
use py_line::{LineFault, LineForm};
use std::alloc::Global;

// A text in the making, or want of memory; and whether each node has its number before it.
#[derive(Drop)]
pub(crate) struct Page {
    a: Global,
    out: String,
    is_lost: bool,
    is_numbered: bool,
}

impl Page {
    pub(crate) fn new(a: Global, is_numbered: bool) -> Page {
        Page {
            a,
            out: String::new(a),
            is_lost: false,
            is_numbered,
        }
    }

    fn put(&mut self, word: &str) {
        if self.out.push_str(word).is_err() {
            self.is_lost = true;
        }
    }

    fn name(&mut self, x: &PyText) {
        match x.to_text(self.a) {
            Ok(text) => self.put(text.as_str()),
            Err(_) => self.is_lost = true,
        }
    }

    fn number(&mut self, n: i128) {
        match n.to_string(self.a) {
            Ok(text) => self.put(text.as_str()),
            Err(_) => self.is_lost = true,
        }
    }

    // The number of a node, where numbers are shown.
    fn node(&mut self, node: u32) {
        if self.is_numbered {
            self.number(node as i128);
            self.put(":");
        }
    }

    // The first word of a form, behind the number of its node.
    fn begin(&mut self, node: u32, word: &str) {
        self.node(node);
        self.put(word);
    }

    // Names, each with a space before it.
    fn names(&mut self, all: &[PyText]) {
        for x in all {
            self.put(" ");
            self.name(x);
        }
    }

    fn quoted(&mut self, x: &PyText) {
        self.put("'");
        self.name(x);
        self.put("'");
    }

    pub(crate) fn done(self) -> Result<String, NoMemory> {
        if self.is_lost {
            return Err(NoMemory);
        }
        Ok(self.out)
    }
}

// ---- expressions

fn binary(o: BinaryOp) -> &'static str {
    match o {
        BinaryOp::Add => "+",
        BinaryOp::Sub => "-",
        BinaryOp::Mul => "*",
        BinaryOp::FloorDiv => "//",
        BinaryOp::Mod => "%",
        BinaryOp::Pow => "**",
    }
}

fn comparing(o: CompareOp) -> &'static str {
    match o {
        CompareOp::Less => " <",
        CompareOp::Greater => " >",
        CompareOp::Equal => " ==",
        CompareOp::AtLeast => " >=",
        CompareOp::AtMost => " <=",
        CompareOp::NotEqual => " !=",
        CompareOp::In => " in",
        CompareOp::NotIn => " not-in",
        CompareOp::Is => " is",
        CompareOp::IsNot => " is-not",
    }
}

fn sign(o: SignOp) -> &'static str {
    match o {
        SignOp::Plus => "pos",
        SignOp::Minus => "neg",
    }
}

// The word of a form that has parts.
fn word(e: &Expr) -> &'static str {
    match e {
        Expr::Tuple(..) => "tuple",
        Expr::List(..) => "list",
        Expr::Dict(..) => "dict",
        Expr::Lambda(..) => "lambda",
        Expr::Choice(..) => "choice",
        Expr::And(..) => "and",
        Expr::Or(..) => "or",
        Expr::Not(..) => "not",
        Expr::Compare(..) => "compare",
        Expr::Binary(_, _, o, _) => binary(*o),
        Expr::Sign(_, o, _) => sign(*o),
        Expr::Attr(..) => "attr",
        Expr::Item(..) => "item",
        Expr::Call(..) => "call",
        _ => "a form without parts",
    }
}

#[cycle(shown)]
fn expr(p: &mut Page, e: &Expr) {
    p.node(e.node());
    match e {
        Expr::Name(_, x) => p.name(x),
        Expr::Number(_, n) => p.number(*n),
        Expr::Text(_, x) => p.quoted(x),
        Expr::Nil(_) => p.put("None"),
        Expr::Truth(_, true) => p.put("True"),
        Expr::Truth(_, false) => p.put("False"),
        _ => {
            p.put("(");
            p.put(word(e));
            parts(p, e);
            p.put(")");
        }
    }
}

// The parts of an expression, each with a space before it.
#[cycle(shown)]
fn parts(p: &mut Page, e: &Expr) {
    match e {
        Expr::Tuple(_, all) | Expr::List(_, all) | Expr::Dict(_, all) => exprs(p, all.as_slice()),
        Expr::Lambda(_, names, defaults, body) => {
            p.put(" (");
            p.names(names.as_slice());
            p.put(" ) (");
            exprs(p, defaults.as_slice());
            p.put(" )");
            part(p, body.get());
        }
        Expr::Choice(_, value, test, otherwise) => {
            part(p, value.get());
            part(p, test.get());
            part(p, otherwise.get());
        }
        Expr::And(_, left, right)
        | Expr::Or(_, left, right)
        | Expr::Binary(_, left, _, right)
        | Expr::Item(_, left, right) => {
            part(p, left.get());
            part(p, right.get());
        }
        Expr::Not(_, operand) | Expr::Sign(_, _, operand) => part(p, operand.get()),
        Expr::Compare(_, ops, all) => {
            compare_ops(p, ops.as_slice());
            exprs(p, all.as_slice());
        }
        Expr::Attr(_, value, x) => {
            part(p, value.get());
            p.put(" ");
            p.name(x);
        }
        Expr::Call(_, function, all) => {
            part(p, function.get());
            exprs(p, all.as_slice());
        }
        _ => {}
    }
}

#[cycle(shown)]
fn part(p: &mut Page, e: &Expr) {
    p.put(" ");
    expr(p, e);
}

#[cycle(shown)]
fn exprs(p: &mut Page, all: &[Expr]) {
    for e in all {
        part(p, e);
    }
}

fn compare_ops(p: &mut Page, all: &[CompareOp]) {
    for o in all {
        p.put(comparing(*o));
    }
}

fn maybe(p: &mut Page, e: &Option<Expr>) {
    match e {
        Some(e) => part(p, e),
        None => {}
    }
}

// ---- simple statements

fn stmt_word(s: &Stmt) -> &'static str {
    match s {
        Stmt::Expr(..) => "(expr",
        Stmt::Assign(..) => "(assign",
        Stmt::Augment(..) => "(augment",
        Stmt::Pass(..) => "(pass",
        Stmt::Break(..) => "(break",
        Stmt::Continue(..) => "(continue",
        Stmt::Return(..) => "(return",
        Stmt::Raise(..) => "(raise",
        Stmt::Global(..) => "(global",
        Stmt::Nonlocal(..) => "(nonlocal",
        Stmt::Del(..) => "(del",
        Stmt::Assert(..) => "(assert",
        _ => "(no simple statement",
    }
}

fn stmt(p: &mut Page, s: &Stmt) {
    p.node(s.node());
    p.put(stmt_word(s));
    stmt_parts(p, s);
    p.put(")");
}

fn stmt_parts(p: &mut Page, s: &Stmt) {
    match s {
        Stmt::Expr(_, e) | Stmt::Del(_, e) => part(p, e),
        Stmt::Assign(_, targets, e) => {
            exprs(p, targets.as_slice());
            part(p, e);
        }
        Stmt::Augment(_, place, o, e) => {
            p.put(" ");
            p.put(binary(*o));
            part(p, place);
            part(p, e);
        }
        Stmt::Return(_, e) | Stmt::Raise(_, e) => maybe(p, e),
        Stmt::Global(_, names) | Stmt::Nonlocal(_, names) => p.names(names.as_slice()),
        Stmt::Assert(_, test, e) => {
            part(p, test);
            maybe(p, e);
        }
        _ => {}
    }
}

fn stmts(p: &mut Page, all: &[Stmt]) {
    for (i, s) in all.iter().enumerate() {
        if i != 0 {
            p.put("; ");
        }
        stmt(p, s);
    }
}

// ---- lines

fn line(p: &mut Page, form: &LineForm) {
    match form {
        LineForm::Simples(all) => stmts(p, all.as_slice()),
        LineForm::If(i, test, all) => tested(p, *i, "if", test, all.as_slice()),
        LineForm::Elif(test, all) => {
            p.put("elif");
            part(p, test);
            behind(p, all.as_slice());
        }
        LineForm::Else(all) => {
            p.put("else");
            behind(p, all.as_slice());
        }
        LineForm::While(i, test, all) => tested(p, *i, "while", test, all.as_slice()),
        LineForm::For(i, target, e, all) => {
            p.begin(*i, "for");
            part(p, target);
            part(p, e);
            behind(p, all.as_slice());
        }
        LineForm::Try(i, all) => {
            p.begin(*i, "try");
            behind(p, all.as_slice());
        }
        LineForm::Finally(all) => {
            p.put("finally");
            behind(p, all.as_slice());
        }
        LineForm::Except(i, class, name, all) => {
            p.begin(*i, "except");
            maybe(p, class);
            maybe_name(p, name);
            behind(p, all.as_slice());
        }
        LineForm::Def(i, name, names, defaults, all) => {
            p.begin(*i, "def ");
            p.name(name);
            p.put(" (");
            p.names(names.as_slice());
            p.put(" ) (");
            exprs(p, defaults.as_slice());
            p.put(" )");
            behind(p, all.as_slice());
        }
        LineForm::Class(i, name, base, all) => {
            p.begin(*i, "class ");
            p.name(name);
            maybe(p, base);
            behind(p, all.as_slice());
        }
    }
}

fn tested(p: &mut Page, node: u32, word: &str, test: &Expr, all: &[Stmt]) {
    p.begin(node, word);
    part(p, test);
    behind(p, all);
}

fn maybe_name(p: &mut Page, name: &Option<PyText>) {
    match name {
        Some(name) => {
            p.put(" as ");
            p.name(name);
        }
        None => {}
    }
}

fn behind(p: &mut Page, all: &[Stmt]) {
    p.put(":");
    for s in all {
        p.put(" ");
        stmt(p, s);
    }
}

fn fault(p: &mut Page, fault: LineFault) {
    match fault {
        LineFault::Unsupported => p.put("unsupported"),
        LineFault::Limit => p.put("limit"),
        LineFault::NotALine => p.put("no line"),
        LineFault::NoMemory => p.is_lost = true,
    }
}

// What is answered to tokens.
pub(crate) fn answer(p: &mut Page, answer: &Result<LineForm, LineFault>) {
    match answer {
        Ok(form) => line(p, form),
        Err(why) => fault(p, *why),
    }
}
