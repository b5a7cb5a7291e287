// How marks are written.
ghost use Rattle.std.specs.Prelude.{◌≡◌};
ghost use Rattle.py_print.specs.Expressions.{operator, sign_mark, truth_mark};
ghost use Rattle.py_print.specs.Lines.{augmented};
ghost use Rattle.py_print.specs.Pieces.{mark_text};

use py_ast::{BinaryOp, SignOp};
use py_grammar::Mark;

/// A keyword, an operator or a delimiter as it is written.
pub(crate) fn spelling(k: Mark) -> &'static str
    ensures { result.now ≡ mark_text k }
{
    match k {
        Mark::False => "False",
        Mark::None => "None",
        Mark::True => "True",
        Mark::And => "and",
        Mark::As => "as",
        Mark::Assert => "assert",
        Mark::Break => "break",
        Mark::Class => "class",
        Mark::Continue => "continue",
        Mark::Def => "def",
        Mark::Del => "del",
        Mark::Elif => "elif",
        Mark::Else => "else",
        Mark::Except => "except",
        Mark::Finally => "finally",
        Mark::For => "for",
        Mark::Global => "global",
        Mark::If => "if",
        Mark::In => "in",
        Mark::Is => "is",
        Mark::Lambda => "lambda",
        Mark::Nonlocal => "nonlocal",
        Mark::Not => "not",
        Mark::Or => "or",
        Mark::Pass => "pass",
        Mark::Raise => "raise",
        Mark::Return => "return",
        Mark::Try => "try",
        Mark::While => "while",
        Mark::Plus => "+",
        Mark::Minus => "-",
        Mark::Star => "*",
        Mark::Slashes => "//",
        Mark::Percent => "%",
        Mark::Stars => "**",
        Mark::Less => "<",
        Mark::Greater => ">",
        Mark::AtMost => "<=",
        Mark::AtLeast => ">=",
        Mark::Same => "==",
        Mark::Differs => "!=",
        Mark::Open => "(",
        Mark::Close => ")",
        Mark::OpenSquare => "[",
        Mark::CloseSquare => "]",
        Mark::OpenCurly => "{",
        Mark::CloseCurly => "}",
        Mark::Comma => ",",
        Mark::Colon => ":",
        Mark::Semicolon => ";",
        Mark::Dot => ".",
        Mark::Equals => "=",
        Mark::PlusEquals => "+=",
        Mark::MinusEquals => "-=",
        Mark::StarEquals => "*=",
        Mark::SlashesEquals => "//=",
        Mark::PercentEquals => "%=",
        Mark::StarsEquals => "**=",
    }
}

/// The mark of an arithmetic operator.
pub(crate) fn operator(o: BinaryOp) -> Mark
    ensures { result ≡ operator o }
{
    match o {
        BinaryOp::Add => Mark::Plus,
        BinaryOp::Sub => Mark::Minus,
        BinaryOp::Mul => Mark::Star,
        BinaryOp::FloorDiv => Mark::Slashes,
        BinaryOp::Mod => Mark::Percent,
        BinaryOp::Pow => Mark::Stars,
    }
}

/// The mark of a sign.
pub(crate) fn sign_mark(o: SignOp) -> Mark
    ensures { result ≡ sign_mark o }
{
    match o {
        SignOp::Plus => Mark::Plus,
        SignOp::Minus => Mark::Minus,
    }
}

/// The mark of an assignment by an operator.
pub(crate) fn augmented(o: BinaryOp) -> Mark
    ensures { result ≡ augmented o }
{
    match o {
        BinaryOp::Add => Mark::PlusEquals,
        BinaryOp::Sub => Mark::MinusEquals,
        BinaryOp::Mul => Mark::StarEquals,
        BinaryOp::FloorDiv => Mark::SlashesEquals,
        BinaryOp::Mod => Mark::PercentEquals,
        BinaryOp::Pow => Mark::StarsEquals,
    }
}

/// The mark of a truth value.
pub(crate) fn truth_mark(v: bool) -> Mark
    ensures { result ≡ truth_mark v }
{
    if v { Mark::True } else { Mark::False }
}
