// The literals of whole numbers, after "Integer literals" of the Python language reference.
ghost use Rattle.std.specs.Prelude.{◌≡◌, ◌+◌, ◌*◌, ◌<◌, ◌≤◌, ◌^◌, length, IfOk, SomeIff};
ghost use Rattle.std.specs.Fmt.{signed_decimal};
ghost use Rattle.py_scalars.specs.NumberForm.{number_within, base_behind, is_zeros, based_within, digits_within};

use flow_base::{NoMemory, PyText};
use std::alloc::Global;

/// The number that a literal writes: decimal digits with single underscores between them and no leading zero unless all
/// digits are zeros, or `0x`, `0o` or `0b` in either case and digits, each with at most one underscore before it. `None`
/// exactly where the text is no such literal or its number is over i128. Takes no memory.
pub fn read_number(t: &PyText) -> Option<i128>
    ensures { result ≡ number_within t.now }
{
    let text = t.as_slice();
    let [first, rest @ ..] = text else {
        return None;
    };
    if !first.is_digit(10) {
        return None;
    }
    if *first == '0' {
        let base = base_behind(rest);
        if base != 0 {
            return read_based(base, &rest[1..]);
        }
        if !all_zeros(rest) {
            return None;
        }
    }
    read_digits(10, text)
}

/// The decimal text of a number, with `-` before the digits of a negative one.
pub fn number_text(alloc: Global, n: i128) -> Result<PyText, NoMemory>
    ensures { IfOk result (λ text. text ≡ signed_decimal n) }
{
    let text = format!(in alloc; "{n}")?;
    PyText::from_str(alloc, text.as_str())
}

// The base that a letter behind a first 0 names, and 0 for none.
fn base_behind(text: &[char]) -> u32
    ensures value { result ≡ base_behind text.now }
    ensures small { result ≤ 16 }
    ensures letter { 0 < result → (2 ≤ result) × (1 ≤ length text.now) }
{
    let [letter, ..] = text else {
        return 0;
    };
    match *letter {
        'x' | 'X' => 16,
        'o' | 'O' => 8,
        'b' | 'B' => 2,
        _ => 0,
    }
}

fn all_zeros(text: &[char]) -> bool
    ensures { result ≡ is_zeros text.now }
{
    text.iter().all(|c| *c == '0' || *c == '_')
}

// The number of at least one digit behind a base.
fn read_based(base: u32, text: &[char]) -> Option<i128>
    requires low { 2 ≤ base }
    requires high { base ≤ 16 }
    ensures { result ≡ based_within base text.now }
{
    if text.is_empty() {
        None
    } else {
        read_digits(base, text)
    }
}

// The number that digits with underscores write.
fn read_digits(base: u32, text: &[char]) -> Option<i128>
    requires low { 2 ≤ base }
    requires high { base ≤ 16 }
    ensures { result ≡ digits_within base text.now }
{
    let mut number: u128 = 0;
    let mut gap = false;
    for c in text {
        if *c == '_' {
            if gap {
                return None;
            }
            gap = true;
            continue;
        }
        let Some(digit) = c.to_digit(base) else {
            return None;
        };
        let Some(next) = appended(number, base, digit) else {
            return None;
        };
        number = next;
        gap = false;
    }
    if gap {
        return None;
    }
    Some(number as i128)
}

// The number with one digit more, if an i128 holds it.
fn appended(number: u128, base: u32, digit: u32) -> Option<u128>
    ensures { SomeIff result (number * base + digit < 2 ^ 127) (number * base + digit) }
{
    let scaled = number.checked_mul(base as u128)?;
    let next = scaled.checked_add(digit as u128)?;
    if next > i128::MAX as u128 {
        return None;
    }
    Some(next)
}
