// Texts of lines with what is answered to them. Where texts stand in one, `¦` stands between them.
ghost use Rattle.std.specs.Prelude.{◌<◌, ◌^◌, ◌-◌, length};

use crate::page::{Page, answer};
use flow_base::{NoMemory, PyText};
use py_lexer::{LexFault, lex, span_law};
use py_line::parse_line;
use std::alloc::Global;
use std::process::Abort;

fn told(a: Global, text: &PyText, is_numbered: bool) -> Result<String, NoMemory>
    requires { length text.now < 2 ^ 32 - 1 }
{
    let tokens = match lex(a, text) {
        Ok(tokens) => tokens,
        Err(LexFault::At(_)) => return Ok(String::from_str(a, "lex")?),
        Err(LexFault::NoMemory) => return Err(NoMemory),
    };
    span_law();
    let mut page = Page::new(a, is_numbered);
    let form = parse_line(a, text, tokens.as_slice());
    answer(&mut page, &form);
    drop(form);
    page.done()
}

// What is answered to a text.
fn shown(a: Global, text: &str, is_numbered: bool) -> Result<String, NoMemory> {
    let text = PyText::from_str(a, text)?;
    if text.len() >= 4_000_000 {
        return Ok(String::from_str(a, "long")?);
    }
    told(a, &text, is_numbered)
}

// ---- texts, and behind `→` their lines

fn told_so(rt: &impl Abort, a: Global, row: &str, is_numbered: bool) -> Result<(), NoMemory> {
    let (text, want) = row.split_once('→').expect(rt, "a row");
    let got = shown(a, text.trim(), is_numbered)?;
    assert_eq!(rt; got.as_str(), want.trim(), "{text}");
    Ok(())
}

pub(crate) fn lines(rt: &impl Abort, a: Global, rows: &str) -> Result<(), NoMemory> {
    for row in rows.split('¦') {
        told_so(rt, a, row, false)?;
    }
    Ok(())
}

// Each node has its number before it.
pub(crate) fn numbered(rt: &impl Abort, a: Global, rows: &str) -> Result<(), NoMemory> {
    for row in rows.split('¦') {
        told_so(rt, a, row, true)?;
    }
    Ok(())
}

// Each line is an expression.
pub(crate) fn exprs(rt: &impl Abort, a: Global, rows: &str) -> Result<(), NoMemory> {
    for row in rows.split('¦') {
        let (text, want) = row.split_once('→').expect(rt, "a row");
        let got = shown(a, text.trim(), false)?;
        let want = format!(in a; "(expr {})", want.trim())?;
        assert_eq!(rt; got.as_str(), want.as_str(), "{text}");
    }
    Ok(())
}

// ---- texts that are answered in one way

pub(crate) fn all_are(rt: &impl Abort, a: Global, texts: &str, want: &str) -> Result<(), NoMemory> {
    for text in texts.split('¦') {
        let got = shown(a, text.trim(), false)?;
        assert_eq!(rt; got.as_str(), want, "{text}");
    }
    Ok(())
}

pub(crate) fn no_lines(rt: &impl Abort, a: Global, texts: &str) -> Result<(), NoMemory> {
    all_are(rt, a, texts, "no line")
}

// ---- texts with parts that stand many times in them: those in `«` and `»`

fn repeat(out: &mut String, part: &str, count: usize) -> Result<(), NoMemory> {
    for _ in 0..count {
        out.push_str(part)?;
    }
    Ok(())
}

fn spread(a: Global, text: &str, count: usize) -> Result<String, NoMemory> {
    let mut out = String::new(a);
    for (i, part) in text.split(['«', '»']).enumerate() {
        repeat(&mut out, part, if i % 2 == 0 { 1 } else { count })?;
    }
    Ok(out)
}

// An answer without its tree.
fn kind(answer: &str) -> &str {
    if answer == "limit" || answer == "no line" || answer == "unsupported" || answer == "lex" {
        answer
    } else {
        "kept"
    }
}

pub(crate) fn deep(
    rt: &impl Abort,
    a: Global,
    texts: &str,
    count: usize,
    want: &str,
) -> Result<(), NoMemory> {
    for text in texts.split('¦') {
        let spread = spread(a, text.trim(), count)?;
        let got = shown(a, spread.as_str(), false)?;
        assert_eq!(rt; kind(got.as_str()), want, "{text}");
    }
    Ok(())
}
