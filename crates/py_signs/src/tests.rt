// Texts with the signs of their tokens, and the limits that are seen on tokens.
use crate::{SignFault, has_unsupported, is_crowded, read_signs};
use flow_base::{NoMemory, PyText};
use py_grammar::Sign;
use py_lexer::{LexFault, Tokens, lex, span_law};
use std::alloc::Global;
use std::test::Fail;

// Marks as what their names are, names and texts with what they hold, and `?` for what stands in no form of a line.
fn said(a: Global, sign: &Sign) -> Result<String, NoMemory> {
    match sign {
        Sign::Name(x) => {
            let x = x.to_text(a)?;
            Ok(format!(in a; "name {}|", x.as_str())?)
        }
        Sign::Number(n) => Ok(format!(in a; "number {n}|")?),
        Sign::Text(x) => {
            let x = x.to_text(a)?;
            Ok(format!(in a; "text {}|", x.as_str())?)
        }
        Sign::Mark(k) => Ok(format!(in a; "{k:?}|")?),
        Sign::Other => Ok(format!(in a; "?|")?),
    }
}

fn all_said(a: Global, signs: &[Sign]) -> Result<String, NoMemory> {
    let mut out = String::new(a);
    for sign in signs {
        out.push_str(said(a, sign)?.as_str())?;
    }
    Ok(out)
}

// The signs of a text and the limits that its tokens are over.
fn signs_of(a: Global, text: &str) -> Result<String, NoMemory> {
    let text = PyText::from_str(a, text)?;
    if text.len() >= 1000 {
        return Ok(String::new(a));
    }
    let tokens = match lex(a, &text) {
        Ok(tokens) => tokens,
        Err(LexFault::At(line)) => return Ok(format!(in a; "lex {line}")?),
        Err(LexFault::NoMemory) => return Err(NoMemory),
    };
    span_law();
    if has_unsupported(tokens.as_slice()) {
        return Ok(format!(in a; "unsupported")?);
    }
    if is_crowded(&text, tokens.as_slice()) {
        return Ok(format!(in a; "crowded")?);
    }
    match read_signs(a, &text, tokens.as_slice()) {
        Ok(signs) => all_said(a, signs.as_slice()),
        Err(SignFault::Wide) => Ok(format!(in a; "wide")?),
        Err(SignFault::NoMemory) => Err(NoMemory),
    }
}

#[test]
fn signs(rt: HostRuntime) -> Result<(), Fail> {
    for (text, want) in [
        ("", ""),
        ("x = 1", "name x|Equals|number 1|"),
        ("None True False not", "None|True|False|Not|"),
        ("if elif else while for in", "If|Elif|Else|While|For|In|"),
        (
            "try except finally as def class",
            "Try|Except|Finally|As|Def|Class|",
        ),
        (
            "pass break continue return raise",
            "Pass|Break|Continue|Return|Raise|",
        ),
        (
            "global nonlocal del assert lambda",
            "Global|Nonlocal|Del|Assert|Lambda|",
        ),
        ("and or is", "And|Or|Is|"),
        (
            "iff Is none _ is_",
            "name iff|name Is|name none|name _|name is_|",
        ),
        ("+ - * // % **", "Plus|Minus|Star|Slashes|Percent|Stars|"),
        (
            "< > <= >= == !=",
            "Less|Greater|AtMost|AtLeast|Same|Differs|",
        ),
        (
            "( ) [ ] { }",
            "Open|Close|OpenSquare|CloseSquare|OpenCurly|CloseCurly|",
        ),
        (", : ; . =", "Comma|Colon|Semicolon|Dot|Equals|"),
        (
            "+= -= *= //= %= **=",
            "PlusEquals|MinusEquals|StarEquals|SlashesEquals|PercentEquals|StarsEquals|",
        ),
        (
            "0x_ff 0b1 0o17 1_000 00",
            "number 255|number 1|number 15|number 1000|number 0|",
        ),
        ("'a\\n' \"b\" ''", "text a\n|text b|text |"),
        ("a\nb", "name a|?|name b|"),
        // a name is its NFKC form, and one whose form is a keyword stands in no line
        ("\u{fb01} \u{2168}", "name fi|name IX|"),
        ("\u{ff49}f \u{1d422}f i\u{fb00}", "?|?|name iff|"),
        ("\u{ff49}mport", "?|"),
        ("import x", "unsupported"),
        ("x = 1.5", "unsupported"),
        ("x @ y", "unsupported"),
        (
            "170141183460469231731687303715884105727",
            "number 170141183460469231731687303715884105727|",
        ),
        ("170141183460469231731687303715884105728", "wide"),
        ("0x80000000000000000000000000000000", "wide"),
        // an unsupported token comes before a number that is too wide, and brackets too
        (
            "170141183460469231731687303715884105728 import",
            "unsupported",
        ),
    ] {
        assert!(rt; signs_of(rt.alloc(), text)?.as_str() == want, "{text}");
    }
    Ok(())
}

// A text of some opening brackets and as many closing ones.
fn brackets(a: Global, n: usize, open: char, close: char) -> Result<String, NoMemory> {
    let mut out = String::new(a);
    for _ in 0..n {
        out.push(open)?;
    }
    for _ in 0..n {
        out.push(close)?;
    }
    Ok(out)
}

#[test]
fn crowded(rt: HostRuntime) -> Result<(), Fail> {
    let a = rt.alloc();
    for (n, open, close, want) in [
        (200, '(', ')', false),
        (201, '(', ')', true),
        (200, '[', '}', false),
        (201, '{', ']', true),
    ] {
        let text = brackets(a, n, open, close)?;
        let told = signs_of(a, text.as_str())?;
        assert!(rt; (told.as_str() == "crowded") == want, "{n}");
    }
    Ok(())
}
