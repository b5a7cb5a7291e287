// The literals of texts, after "String and Bytes literals" of the Python language reference and `repr` of its library.
ghost use Rattle.std.specs.Prelude.{◌≡◌, ◌<◌, ◌≤◌, ◌+◌, ◌++◌, ◌∷◌, [], ℕ, List, Some, length, take, ◌==◌, ◌&&◌, IfOk, OnOk};
ghost use Rattle.std.specs.List.{list_any};
ghost use Rattle.std.specs.Str.Parse.{digits_value};
ghost use Rattle.std.specs.Char.{digit_char};
ghost use Rattle.py_scalars.specs.TextForm.{text_of, repr_of, quote_for, shown, shown_other, escape_at, hex_escape, octal_escape, letter_escape, simple_escape, scalar_behind, digit_count, content};
ghost use Rattle.py_scalars.specs.Search.{begins_with};
ghost use Rattle.py_scalars.specs.Answers.{IsRead, IsEscape, IsContent};

use flow_base::{NoMemory, PyText};
use std::alloc::{AllocError, AllocFailed, Global};

/// Why a literal is not read: it is none, or memory is wanting.
#[derive(Clone, Copy, Debug, PartialEq, Eq)]
pub enum TextFault {
    Malformed,
    NoMemory,
}

impl From<AllocError> for TextFault {
    ghost use Rattle.py_scalars.specs.declared.text_form.TextFault.TheVariants.{NoMemory};
    ghost use Rattle.std.specs.Prelude.{◌≡◌};

    ghost from_gives = { λ _ fault. fault ≡ NoMemory };

    fn from(_: AllocError) -> Self {
        TextFault::NoMemory
    }
}

impl<T: Drop> From<AllocFailed<T>> for TextFault {
    ghost use Rattle.py_scalars.specs.declared.text_form.TextFault.TheVariants.{NoMemory};
    ghost use Rattle.std.specs.Prelude.{◌≡◌};

    ghost from_gives = { λ _ fault. fault ≡ NoMemory };

    fn from(_: AllocFailed<T>) -> Self {
        TextFault::NoMemory
    }
}

impl From<NoMemory> for TextFault {
    ghost use Rattle.py_scalars.specs.declared.text_form.TextFault.TheVariants.{NoMemory};
    ghost use Rattle.std.specs.Prelude.{◌≡◌};

    ghost from_gives = { λ _ fault. fault ≡ NoMemory };

    fn from(_: NoMemory) -> Self {
        TextFault::NoMemory
    }
}

/// The text that a literal stands for: in one or three quotes of one kind, with the escapes of the language reference.
/// `Malformed` exactly where the text is no literal: its quotes do not close it as a whole, a short one holds a line end,
/// or an escape is `\N`, has too few digits or names no Unicode scalar value.
pub fn read_text(alloc: Global, t: &PyText) -> Result<PyText, TextFault>
    ensures { IsRead (text_of t.now) result }
{
    let text = t.as_slice();
    let [quote, rest @ ..] = text else {
        return Err(TextFault::Malformed);
    };
    if *quote != '\'' && *quote != '"' {
        return Err(TextFault::Malformed);
    }
    if starts_with_two(rest, *quote) {
        return read_quoted(alloc, [*quote, *quote, *quote].as_slice(), &rest[2..]);
    }
    read_quoted(alloc, [*quote].as_slice(), rest)
}

/// The literal that `repr` gives: in double quotes for a text that holds a single and no double quote, else in single
/// ones, with the quote, the backslash, line ends, tabs and other control characters escaped.
pub fn repr_text(alloc: Global, t: &PyText) -> Result<PyText, NoMemory>
    ensures { IfOk result (λ text. text ≡ repr_of t.now) }
{
    let quote = quote_of(t.as_slice());
    let mut out = Vec::new(alloc);
    out.push(quote)?;
    for c in t.as_slice() {
        push_shown(&mut out, quote, *c)?;
    }
    out.push(quote)?;
    PyText::from_points(alloc, out)
}

/// The law of literals: what `repr_text` writes, `read_text` reads back.
pub fn literal_law()
    ensures { (t : List ℕ) → text_of (repr_of t) ≡ Some t }
{}

fn quote_of(text: &[char]) -> char
    ensures { result ≡ quote_for text.now }
{
    if holds(text, '\'') && !holds(text, '"') {
        '"'
    } else {
        '\''
    }
}

fn holds(text: &[char], quote: char) -> bool
    ensures { result ≡ list_any (λ c. c == quote) text.now }
{
    text.iter().any(|c| *c == quote)
}

// What stands for a code point between quotes of a kind.
fn push_shown(out: &mut Vec<char>, quote: char, c: char) -> Result<(), NoMemory>
    ensures { OnOk result (out.new.items ≡ out.old.items ++ shown quote c) }
{
    if c == '\\' || c == quote {
        return push_pair(out, c);
    }
    match c {
        '\n' => push_pair(out, 'n'),
        '\r' => push_pair(out, 'r'),
        '\t' => push_pair(out, 't'),
        _ => push_other(out, c),
    }
}

fn push_pair(out: &mut Vec<char>, c: char) -> Result<(), NoMemory>
    ensures { OnOk result (out.new.items ≡ out.old.items ++ 92 ∷ c ∷ []) }
{
    out.push('\\')?;
    out.push(c)?;
    Ok(())
}

fn push_other(out: &mut Vec<char>, c: char) -> Result<(), NoMemory>
    ensures { OnOk result (out.new.items ≡ out.old.items ++ shown_other c) }
{
    if c < ' ' || c == '\x7f' {
        push_pair(out, 'x')?;
        out.push(hex_digit(c as u32 / 16))?;
        out.push(hex_digit(c as u32 % 16))?;
        return Ok(());
    }
    out.push(c)?;
    Ok(())
}

fn hex_digit(n: u32) -> char
    requires { n < 16 }
    ensures { result ≡ digit_char n }
{
    if n < 10 {
        (b'0' + n as u8) as char
    } else {
        (b'W' + n as u8) as char
    }
}

fn starts_with_two(text: &[char], quote: char) -> bool
    ensures { result ≡ begins_with (quote ∷ quote ∷ []) text.now }
{
    match text {
        [a, b, ..] => *a == quote && *b == quote,
        _ => false,
    }
}

// The text behind opening quotes.
fn read_quoted(alloc: Global, quotes: &[char], text: &[char]) -> Result<PyText, TextFault>
    ensures { IsRead (content quotes.now 0 text.now) result }
{
    let mut out = Vec::new(alloc);
    read_content(&mut out, quotes, text)?;
    Ok(PyText::from_points(alloc, out)?)
}

// Reads the content up to the quotes, which end the text.
fn read_content(out: &mut Vec<char>, quotes: &[char], text: &[char]) -> Result<(), TextFault>
    requires { out.old.items ≡ [] }
    ensures { IsContent (content quotes.now 0 text.now) out.new.items result }
{
    let mut at = 0;
    while at < text.len() {
        if begins(&text[at..], quotes) {
            if text.len() - at == quotes.len() {
                return Ok(());
            }
            return Err(TextFault::Malformed);
        }
        let c = text[at];
        if ends_line(c, quotes) {
            return Err(TextFault::Malformed);
        }
        at += 1;
        if c != '\\' {
            out.push(c)?;
            continue;
        }
        at += push_escape(out, &text[at..])?;
    }
    Err(TextFault::Malformed)
}

fn begins(text: &[char], part: &[char]) -> bool
    ensures { result ≡ begins_with part.now text.now }
{
    if text.len() < part.len() {
        return false;
    }
    &text[..part.len()] == part
}

// Whether a code point is a line end, which no short literal holds.
fn ends_line(c: char, quotes: &[char]) -> bool
    ensures { result ≡ ((c == 10) && (length quotes.now == 1)) }
{
    c == '\n' && quotes.len() == 1
}

// Reads what stands behind a backslash, and answers how many code points belong to it.
fn push_escape(out: &mut Vec<char>, text: &[char]) -> Result<usize, TextFault>
    ensures value { IsEscape (escape_at text.now) out.old.items out.new.items result }
    ensures within { IfOk result (λ n. n ≤ length text.now) }
{
    let [c, rest @ ..] = text else {
        return Err(TextFault::Malformed);
    };
    let c = *c;
    if c.is_digit(8) {
        return push_octal(out, text);
    }
    if c == 'x' {
        return push_hex(out, rest, 2);
    }
    if c == 'u' {
        return push_hex(out, rest, 4);
    }
    if c == 'U' {
        return push_hex(out, rest, 8);
    }
    if c == 'N' {
        return Err(TextFault::Malformed);
    }
    push_letter(out, c)
}

fn push_letter(out: &mut Vec<char>, c: char) -> Result<usize, TextFault>
    ensures value { IsEscape (Some (letter_escape c)) out.old.items out.new.items result }
    ensures one { IfOk result (λ n. n ≡ 1) }
{
    if c == '\n' {
        return Ok(1);
    }
    match meaning(c) {
        Some(d) => out.push(d)?,
        None => push_pair(out, c)?,
    }
    Ok(1)
}

// The control character or quote that a letter behind a backslash means.
fn meaning(c: char) -> Option<char>
    ensures { result ≡ simple_escape c }
{
    match c {
        '\\' | '\'' | '"' => Some(c),
        'a' => Some('\x07'),
        'b' => Some('\x08'),
        'f' => Some('\x0c'),
        'n' => Some('\n'),
        'r' => Some('\r'),
        't' => Some('\t'),
        'v' => Some('\x0b'),
        _ => None,
    }
}

// One to three octal digits.
fn push_octal(out: &mut Vec<char>, text: &[char]) -> Result<usize, TextFault>
    ensures value { IsEscape (octal_escape text.now) out.old.items out.new.items result }
    ensures within { IfOk result (λ n. n ≤ length text.now) }
{
    let (n, code) = octal(text);
    let Some(c) = char::from_u32(code) else {
        return Err(TextFault::Malformed);
    };
    out.push(c)?;
    Ok(n)
}

// How many of the first three code points are octal digits, and the number that they write.
fn octal(text: &[char]) -> (usize, u32)
    ensures count { result.0 ≡ digit_count 8 3 text.now }
    ensures code { result.1 ≡ digits_value 8 (take result.0 text.now) }
    ensures small { result.1 < 512 }
    ensures within { result.0 ≤ length text.now }
{
    let mut code: u32 = 0;
    for (i, c) in text.iter().enumerate() {
        if i == 3 {
            return (3, code);
        }
        let Some(digit) = c.to_digit(8) else {
            return (i, code);
        };
        code = code * 8 + digit;
    }
    (text.len(), code)
}

// Just n hexadecimal digits, behind the letter that asks for them.
fn push_hex(out: &mut Vec<char>, text: &[char], n: usize) -> Result<usize, TextFault>
    requires { n ≤ 8 }
    ensures value { IsEscape (hex_escape n text.now) out.old.items out.new.items result }
    ensures within { IfOk result (λ k. k ≤ length text.now + 1) }
{
    if text.len() < n {
        return Err(TextFault::Malformed);
    }
    let Some(c) = hex_scalar(&text[..n]) else {
        return Err(TextFault::Malformed);
    };
    out.push(c)?;
    Ok(n + 1)
}

fn hex_scalar(text: &[char]) -> Option<char>
    ensures { result ≡ scalar_behind 0 text.now }
{
    let mut code: u32 = 0;
    for c in text {
        code = code * 16 + c.to_digit(16)?;
        if code > 0x10ffff {
            return None;
        }
    }
    char::from_u32(code)
}
