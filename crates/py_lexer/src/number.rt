// Numbers at the front of a text, after "Numeric literals" of the Python language reference.
ghost use Rattle.std.specs.Prelude.{◌≡◌, ◌<◌, ◌≤◌, ◌+◌, ◌∷◌, [], ◌&&◌, length};
ghost use Rattle.py_scalars.specs.NumberForm.{base_behind, is_zeros, is_spaced, begins_with_digit, is_filled};
ghost use Rattle.py_lexer.specs.Form.{is_number};
ghost use Rattle.py_lexer.specs.Scan.{has_digit, spaced_len, digits_len, begins_with_one, one_len, if_more, signed_len, exponent_len, tail_len, fraction_len, behind_digits_len, real_len, number_front};

use crate::token::TokenKind;
use crate::word::name_len;

/// The number at the front of a text that begins with a digit, if one fits.
pub(crate) fn number_front(text: &[char]) -> Option<(TokenKind, usize)>
    ensures is { result ≡ number_front text.now }
{
    let long = name_len(text);
    let real = real_len(text);
    if is_number(&text[..long]) && real < long {
        return Some((TokenKind::Number, long));
    }
    if 0 < real {
        Some((TokenKind::Unsupported, real))
    } else {
        None
    }
}

// Whether a whole text is a whole number.
fn is_number(text: &[char]) -> bool
    ensures { result ≡ is_number text.now }
{
    let [first, rest @ ..] = text else {
        return false;
    };
    if *first != '0' {
        return first.is_digit(10) && is_spaced(10, rest);
    }
    let base = base_behind(rest);
    if base != 0 {
        return is_based(base, &rest[1..]);
    }
    is_spaced(10, rest) && all_zeros(rest)
}

fn is_based(base: u32, text: &[char]) -> bool
    requires low { 2 ≤ base }
    requires high { base ≤ 16 }
    ensures { result ≡ (is_filled text.now && is_spaced base text.now) }
{
    !text.is_empty() && is_spaced(base, text)
}

// The base that a letter behind a first 0 names, and 0 for none.
fn base_behind(text: &[char]) -> u32
    ensures value { result ≡ base_behind text.now }
    ensures small { result ≤ 16 }
    ensures letter { 0 < result → (2 ≤ result) × (1 ≤ length text.now) }
{
    let [letter, ..] = text else {
        return 0;
    };
    match *letter {
        'x' | 'X' => 16,
        'o' | 'O' => 8,
        'b' | 'B' => 2,
        _ => 0,
    }
}

fn all_zeros(text: &[char]) -> bool
    ensures { result ≡ is_zeros text.now }
{
    text.iter().all(|c| *c == '0' || *c == '_')
}

fn is_spaced(base: u32, text: &[char]) -> bool
    requires low { 2 ≤ base }
    requires high { base ≤ 16 }
    ensures { result ≡ is_spaced base text.now }
{
    spaced_len(base, text) == text.len()
}

pub(crate) fn begins_with_digit(base: u32, text: &[char]) -> bool
    requires low { 2 ≤ base }
    requires high { base ≤ 16 }
    ensures { result ≡ begins_with_digit base text.now }
{
    match text {
        [c, ..] => c.is_digit(base),
        [] => false,
    }
}

fn has_digit(base: u32, text: &[char]) -> bool
    requires low { 2 ≤ base }
    requires high { base ≤ 16 }
    ensures { result ≡ has_digit base text.now }
{
    match text {
        [c, rest @ ..] => c.is_digit(base) || *c == '_' && begins_with_digit(base, rest),
        [] => false,
    }
}

fn spaced_len(base: u32, text: &[char]) -> usize
    requires low { 2 ≤ base }
    requires high { base ≤ 16 }
    ensures value { result ≡ spaced_len base text.now }
    ensures within { result ≤ length text.now }
{
    let mut at = 0;
    while at < text.len() {
        if !has_digit(base, &text[at..]) {
            return at;
        }
        at += 1;
    }
    at
}

fn digits_len(text: &[char]) -> usize
    ensures value { result ≡ digits_len text.now }
    ensures within { result ≤ length text.now }
{
    if begins_with_digit(10, text) {
        spaced_len(10, text)
    } else {
        0
    }
}

// Whether one of two code points is at the front.
fn begins_with_one(a: char, b: char, text: &[char]) -> bool
    ensures { result ≡ begins_with_one (a ∷ b ∷ []) text.now }
{
    match text {
        [c, ..] => *c == a || *c == b,
        [] => false,
    }
}

fn one_len(a: char, b: char, text: &[char]) -> usize
    ensures value { result ≡ one_len (a ∷ b ∷ []) text.now }
    ensures within { result ≤ length text.now }
{
    if begins_with_one(a, b, text) { 1 } else { 0 }
}

fn signed_len(text: &[char]) -> usize
    ensures value { result ≡ signed_len text.now }
    ensures within { result ≤ length text.now }
{
    let sign = one_len('+', '-', text);
    let digits = digits_len(&text[sign..]);
    if digits == 0 { 0 } else { sign + digits }
}

fn exponent_len(text: &[char]) -> usize
    ensures value { result ≡ exponent_len text.now }
    ensures within { result ≤ length text.now }
{
    if !begins_with_one('e', 'E', text) {
        return 0;
    }
    let signed = signed_len(&text[1..]);
    if signed == 0 { 0 } else { 1 + signed }
}

fn tail_len(text: &[char]) -> usize
    ensures value { result ≡ tail_len text.now }
    ensures within { result ≤ length text.now }
{
    let exponent = exponent_len(text);
    exponent + one_len('j', 'J', &text[exponent..])
}

fn fraction_len(text: &[char]) -> usize
    ensures value { result ≡ fraction_len text.now }
    ensures within { result ≤ length text.now }
{
    let digits = digits_len(text);
    digits + tail_len(&text[digits..])
}

fn behind_digits_len(text: &[char]) -> usize
    ensures value { result ≡ behind_digits_len text.now }
    ensures within { result ≤ length text.now }
{
    match text {
        ['.', rest @ ..] => 1 + fraction_len(rest),
        _ => tail_len(text),
    }
}

/// How long the number with a point, an exponent or a final `j` at the front is; 0 where there is none.
pub(crate) fn real_len(text: &[char]) -> usize
    ensures value { result ≡ real_len text.now }
    ensures within { result ≤ length text.now }
{
    if let ['.', rest @ ..] = text {
        return if begins_with_digit(10, rest) {
            1 + fraction_len(rest)
        } else {
            0
        };
    }
    let digits = digits_len(text);
    let behind = behind_digits_len(&text[digits..]);
    if behind == 0 { 0 } else { digits + behind }
}
