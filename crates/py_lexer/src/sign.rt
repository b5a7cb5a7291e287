// Operators and other signs, after "Operators" and "Delimiters" of the Python language reference.
ghost use Rattle.std.specs.Prelude.{◌≡◌, ◌∷◌, [], ◌==◌, codes};
ghost use Rattle.py_lexer.specs.Form.{is_one_of, is_operator, is_unsupported_sign, sign_kind};
ghost use Rattle.py_lexer.specs.Scan.{sign_of_one, sign_of_two, sign_of_three, sign_front};

use crate::token::TokenKind;

/// The longest sign at the front, if one fits.
pub(crate) fn sign_front(text: &[char]) -> Option<(TokenKind, usize)>
    ensures { result ≡ sign_front text.now }
{
    if let Some(found) = sign_of_three(text) {
        return Some(found);
    }
    if let Some(found) = sign_of_two(text) {
        return Some(found);
    }
    sign_of_one(text)
}

fn sign_of_three(text: &[char]) -> Option<(TokenKind, usize)>
    ensures { result ≡ sign_of_three text.now }
{
    let [a, b, c, ..] = text else {
        return None;
    };
    let kind = kind_of_three(*a, *b, *c)?;
    Some((kind, 3))
}

fn sign_of_two(text: &[char]) -> Option<(TokenKind, usize)>
    ensures { result ≡ sign_of_two text.now }
{
    let [a, b, ..] = text else {
        return None;
    };
    let kind = kind_of_two(*a, *b)?;
    Some((kind, 2))
}

fn sign_of_one(text: &[char]) -> Option<(TokenKind, usize)>
    ensures { result ≡ sign_of_one text.now }
{
    let [a, ..] = text else {
        return None;
    };
    let kind = kind_of_one(*a)?;
    Some((kind, 1))
}

fn kind_of_three(a: char, b: char, c: char) -> Option<TokenKind>
    ensures { result ≡ sign_kind (a ∷ b ∷ c ∷ []) }
{
    if is_slash_or_star(a) && b == a && c == '=' {
        return Some(TokenKind::Op);
    }
    if is_angle(a) && b == a && c == '=' || a == '.' && b == '.' && c == '.' {
        return Some(TokenKind::Unsupported);
    }
    None
}

fn kind_of_two(a: char, b: char) -> Option<TokenKind>
    ensures { result ≡ sign_kind (a ∷ b ∷ []) }
{
    if is_before_equals(a) && b == '=' || is_slash_or_star(a) && b == a {
        return Some(TokenKind::Op);
    }
    if is_other_before_equals(a) && b == '=' || is_angle(a) && b == a || a == '-' && b == '>' {
        return Some(TokenKind::Unsupported);
    }
    None
}

fn kind_of_one(a: char) -> Option<TokenKind>
    ensures { result ≡ sign_kind (a ∷ []) }
{
    if is_single(a) {
        return Some(TokenKind::Op);
    }
    if is_other_single(a) {
        return Some(TokenKind::Unsupported);
    }
    None
}

fn is_slash_or_star(a: char) -> bool
    ensures { result ≡ is_one_of (codes "/*") a }
{
    a == '/' || a == '*'
}

fn is_angle(a: char) -> bool
    ensures { result ≡ is_one_of (codes "<>") a }
{
    a == '<' || a == '>'
}

fn is_before_equals(a: char) -> bool
    ensures { result ≡ is_one_of (codes "+-*%<>=!") a }
{
    matches!(a, '+' | '-' | '*' | '%' | '<' | '>' | '=' | '!')
}

fn is_other_before_equals(a: char) -> bool
    ensures { result ≡ is_one_of (codes "/@&|^:") a }
{
    matches!(a, '/' | '@' | '&' | '|' | '^' | ':')
}

fn is_single(a: char) -> bool
    ensures { result ≡ is_one_of (codes "+-*%<>()[]{},:;.=") a }
{
    is_bracket(a)
        || matches!(
            a,
            '+' | '-' | '*' | '%' | '<' | '>' | ',' | ':' | ';' | '.' | '='
        )
}

fn is_bracket(a: char) -> bool
    ensures { result ≡ is_one_of (codes "()[]{}") a }
{
    matches!(a, '(' | ')' | '[' | ']' | '{' | '}')
}

fn is_other_single(a: char) -> bool
    ensures { result ≡ is_one_of (codes "/@&|^~") a }
{
    matches!(a, '/' | '@' | '&' | '|' | '^' | '~')
}
