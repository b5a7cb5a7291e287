// What stands first among signs.
ghost use Rattle.std.specs.Prelude.{◌≡◌, ◌∷◌, None, Some, if◌then◌else◌, option_map};
ghost use Rattle.py_grammar.specs.Reading.{ands, arithmetic, begins, begins_name, compare_at, compare_of, conjunction, disjunction, is_same, join_of, mark_at, mark_begins, marked, name_at, next_at, next_name_at, number_of_mark, ors, sign_op, suffix_of, sums, terms};
ghost use Rattle.py_grammar.specs.declared.sign.Sign.TheVariants.{Mark as The};
ghost use Rattle.py_line.specs.Joined.{suffix};

use flow_base::PyText;
use py_ast::{BinaryOp, CompareOp, SignOp};
use py_grammar::{Mark, Sign};

/// What goes on with a value.
#[derive(Clone, Copy, Debug, PartialEq, Eq)]
pub(crate) enum Suffix {
    /// `.`
    Attribute,
    /// `[`
    Subscript,
    /// `(`
    Call,
}

/// Whether two marks are the same.
pub(crate) fn is_same(k: Mark, l: Mark) -> bool
    ensures { result ≡ is_same k l }
{
    number_of_mark(k) == number_of_mark(l)
}

// The place of a mark in a list of all.
fn number_of_mark(k: Mark) -> u32
    ensures { result ≡ number_of_mark k }
{
    match k {
        Mark::False => 0,
        Mark::None => 1,
        Mark::True => 2,
        Mark::And => 3,
        Mark::As => 4,
        Mark::Assert => 5,
        Mark::Break => 6,
        Mark::Class => 7,
        Mark::Continue => 8,
        Mark::Def => 9,
        Mark::Del => 10,
        Mark::Elif => 11,
        Mark::Else => 12,
        Mark::Except => 13,
        Mark::Finally => 14,
        Mark::For => 15,
        Mark::Global => 16,
        Mark::If => 17,
        Mark::In => 18,
        Mark::Is => 19,
        Mark::Lambda => 20,
        Mark::Nonlocal => 21,
        Mark::Not => 22,
        Mark::Or => 23,
        Mark::Pass => 24,
        Mark::Raise => 25,
        Mark::Return => 26,
        Mark::Try => 27,
        Mark::While => 28,
        Mark::Plus => 29,
        Mark::Minus => 30,
        Mark::Star => 31,
        Mark::Slashes => 32,
        Mark::Percent => 33,
        Mark::Stars => 34,
        Mark::Less => 35,
        Mark::Greater => 36,
        Mark::AtMost => 37,
        Mark::AtLeast => 38,
        Mark::Same => 39,
        Mark::Differs => 40,
        Mark::Open => 41,
        Mark::Close => 42,
        Mark::OpenSquare => 43,
        Mark::CloseSquare => 44,
        Mark::OpenCurly => 45,
        Mark::CloseCurly => 46,
        Mark::Comma => 47,
        Mark::Colon => 48,
        Mark::Semicolon => 49,
        Mark::Dot => 50,
        Mark::Equals => 51,
        Mark::PlusEquals => 52,
        Mark::MinusEquals => 53,
        Mark::StarEquals => 54,
        Mark::SlashesEquals => 55,
        Mark::PercentEquals => 56,
        Mark::StarsEquals => 57,
    }
}

/// The signs after a mark, where it stands first.
pub(crate) fn mark_at(k: Mark, tokens: &[Sign]) -> Option<&[Sign]>
    ensures { option_map (λ rest. rest.now) result ≡ mark_at k tokens.now }
{
    match tokens {
        [Sign::Mark(l), rest @ ..] => if is_same(k, *l) { Some(rest) } else { None },
        _ => None,
    }
}

/// A name that stands first, and the signs after it.
pub(crate) fn name_at(tokens: &[Sign]) -> Option<(&PyText, &[Sign])>
    ensures { option_map (λ o. (o.0.now, o.1.now)) result ≡ name_at tokens.now }
{
    match tokens {
        [Sign::Name(x), rest @ ..] => Some((x, rest)),
        _ => None,
    }
}

/// Whether an expression may begin here.
pub(crate) fn begins(tokens: &[Sign]) -> bool
    ensures { result ≡ begins tokens.now }
{
    match tokens {
        [Sign::Name(_) | Sign::Number(_) | Sign::Text(_), ..] => true,
        [Sign::Mark(k), ..] => mark_begins(*k),
        _ => false,
    }
}

fn mark_begins(k: Mark) -> bool
    ensures { result ≡ mark_begins k }
{
    matches!(
        k,
        Mark::None
            | Mark::True
            | Mark::False
            | Mark::Open
            | Mark::OpenSquare
            | Mark::OpenCurly
            | Mark::Plus
            | Mark::Minus
            | Mark::Not
            | Mark::Lambda
    )
}

/// Whether a name stands first.
pub(crate) fn begins_name(tokens: &[Sign]) -> bool
    ensures { result ≡ begins_name tokens.now }
{
    matches!(tokens, [Sign::Name(_), ..])
}

/// The signs after a comma that stands first, where another expression may begin behind it.
pub(crate) fn next_at(tokens: &[Sign]) -> Option<&[Sign]>
    ensures { option_map (λ rest. (tt, rest.now)) result ≡ next_at tokens.now }
{
    match mark_at(Mark::Comma, tokens) {
        Some(rest) => if begins(rest) { Some(rest) } else { None },
        None => None,
    }
}

/// The signs after a comma that stands first, where a name stands behind it.
pub(crate) fn next_name_at(tokens: &[Sign]) -> Option<&[Sign]>
    ensures { option_map (λ rest. (tt, rest.now)) result ≡ next_name_at tokens.now }
{
    match mark_at(Mark::Comma, tokens) {
        Some(rest) => if begins_name(rest) { Some(rest) } else { None },
        None => None,
    }
}

/// A sign of an operand that stands first, and the signs after it.
pub(crate) fn sign_at(tokens: &[Sign]) -> Option<(SignOp, &[Sign])>
    ensures { option_map (λ o. (o.0, o.1.now)) result ≡ marked sign_op tokens.now }
{
    match tokens {
        [Sign::Mark(k), rest @ ..] => match sign_op(*k) {
            Some(o) => Some((o, rest)),
            None => None,
        },
        _ => None,
    }
}

fn sign_op(k: Mark) -> Option<SignOp>
    ensures { result ≡ sign_op k }
{
    match k {
        Mark::Plus => Some(SignOp::Plus),
        Mark::Minus => Some(SignOp::Minus),
        _ => None,
    }
}

/// `*`, `//` or `%` that stands first, and the signs after it.
pub(crate) fn term_at(tokens: &[Sign]) -> Option<(BinaryOp, &[Sign])>
    ensures { option_map (λ o. (arithmetic o.0, o.1.now)) result ≡ marked (join_of terms) tokens.now }
{
    match tokens {
        [Sign::Mark(k), rest @ ..] => match term_op(*k) {
            Some(o) => Some((o, rest)),
            None => None,
        },
        _ => None,
    }
}

fn term_op(k: Mark) -> Option<BinaryOp>
    ensures { option_map arithmetic result ≡ join_of terms k }
{
    match k {
        Mark::Star => Some(BinaryOp::Mul),
        Mark::Slashes => Some(BinaryOp::FloorDiv),
        Mark::Percent => Some(BinaryOp::Mod),
        _ => None,
    }
}

/// `+` or `-` that stands first, and the signs after it.
pub(crate) fn sum_at(tokens: &[Sign]) -> Option<(BinaryOp, &[Sign])>
    ensures { option_map (λ o. (arithmetic o.0, o.1.now)) result ≡ marked (join_of sums) tokens.now }
{
    match tokens {
        [Sign::Mark(k), rest @ ..] => match sum_op(*k) {
            Some(o) => Some((o, rest)),
            None => None,
        },
        _ => None,
    }
}

fn sum_op(k: Mark) -> Option<BinaryOp>
    ensures { option_map arithmetic result ≡ join_of sums k }
{
    match k {
        Mark::Plus => Some(BinaryOp::Add),
        Mark::Minus => Some(BinaryOp::Sub),
        _ => None,
    }
}

/// The signs after `and`, where it stands first.
pub(crate) fn and_at(tokens: &[Sign]) -> Option<&[Sign]>
    ensures { option_map (λ rest. (conjunction, rest.now)) result ≡ marked (join_of ands) tokens.now }
{
    match tokens {
        [Sign::Mark(k), rest @ ..] => if is_and(*k) { Some(rest) } else { None },
        _ => None,
    }
}

fn is_and(k: Mark) -> bool
    ensures { (if result then Some conjunction else None) ≡ join_of ands k }
{
    matches!(k, Mark::And)
}

/// The signs after `or`, where it stands first.
pub(crate) fn or_at(tokens: &[Sign]) -> Option<&[Sign]>
    ensures { option_map (λ rest. (disjunction, rest.now)) result ≡ marked (join_of ors) tokens.now }
{
    match tokens {
        [Sign::Mark(k), rest @ ..] => if is_or(*k) { Some(rest) } else { None },
        _ => None,
    }
}

fn is_or(k: Mark) -> bool
    ensures { (if result then Some disjunction else None) ≡ join_of ors k }
{
    matches!(k, Mark::Or)
}

/// An operator of a comparison that stands first, and the signs after it.
pub(crate) fn compare_at(tokens: &[Sign]) -> Option<(CompareOp, &[Sign])>
    ensures { option_map (λ o. (o.0, o.1.now)) result ≡ compare_at tokens.now }
{
    match tokens {
        [Sign::Mark(k), rest @ ..] => compare_after(*k, rest),
        _ => None,
    }
}

fn compare_after(k: Mark, rest: &[Sign]) -> Option<(CompareOp, &[Sign])>
    ensures { option_map (λ o. (o.0, o.1.now)) result ≡ compare_at (The k ∷ rest.now) }
{
    if is_same(Mark::Not, k) {
        return match mark_at(Mark::In, rest) {
            Some(after) => Some((CompareOp::NotIn, after)),
            None => None,
        };
    }
    if is_same(Mark::Is, k) {
        return match mark_at(Mark::Not, rest) {
            Some(after) => Some((CompareOp::IsNot, after)),
            None => Some((CompareOp::Is, rest)),
        };
    }
    match compare_op(k) {
        Some(o) => Some((o, rest)),
        None => None,
    }
}

fn compare_op(k: Mark) -> Option<CompareOp>
    ensures { result ≡ compare_of k }
{
    match k {
        Mark::Less => Some(CompareOp::Less),
        Mark::Greater => Some(CompareOp::Greater),
        Mark::Same => Some(CompareOp::Equal),
        Mark::AtLeast => Some(CompareOp::AtLeast),
        Mark::AtMost => Some(CompareOp::AtMost),
        Mark::Differs => Some(CompareOp::NotEqual),
        Mark::In => Some(CompareOp::In),
        _ => None,
    }
}

/// What goes on with a value, where it stands first, and the signs after it.
pub(crate) fn suffix_at(tokens: &[Sign]) -> Option<(Suffix, &[Sign])>
    ensures { option_map (λ o. (suffix o.0, o.1.now)) result ≡ marked suffix_of tokens.now }
{
    match tokens {
        [Sign::Mark(k), rest @ ..] => match suffix_of(*k) {
            Some(s) => Some((s, rest)),
            None => None,
        },
        _ => None,
    }
}

fn suffix_of(k: Mark) -> Option<Suffix>
    ensures { option_map suffix result ≡ suffix_of k }
{
    match k {
        Mark::Dot => Some(Suffix::Attribute),
        Mark::OpenSquare => Some(Suffix::Subscript),
        Mark::Open => Some(Suffix::Call),
        _ => None,
    }
}
