// Tables of texts and their tokens, by the lexical rules of the Python language reference where this language follows
// them.
use crate::{LexFault, Token, TokenKind, lex};
use flow_base::{NoMemory, PyText};
use std::alloc::Global;
use std::test::Fail;

fn letter(kind: TokenKind) -> char {
    match kind {
        TokenKind::Word => 'W',
        TokenKind::Number => 'N',
        TokenKind::Text => 'T',
        TokenKind::Op => 'O',
        TokenKind::LineEnd => 'E',
        TokenKind::Unsupported => 'U',
    }
}

// Writes a token's kind and its text.
fn push_token(a: Global, out: &mut String, text: &PyText, token: &Token) -> Result<(), NoMemory> {
    out.push(letter(token.kind))?;
    if token.kind != TokenKind::LineEnd && token.start <= token.end && token.end <= text.len() {
        out.push_str(text.part(a, token.start, token.end)?.to_text(a)?.as_str())?;
    }
    out.push('|')?;
    Ok(())
}

// The tokens of a text, or the line on which nothing fits.
fn tokens_of(a: Global, text: &str) -> Result<String, NoMemory> {
    let text = PyText::from_str(a, text)?;
    let mut out = String::new(a);
    if text.len() >= 1000 {
        return Ok(out);
    }
    match lex(a, &text) {
        Ok(tokens) => {
            for token in tokens.as_slice() {
                push_token(a, &mut out, &text, token)?;
            }
            Ok(out)
        }
        Err(LexFault::At(line)) => Ok(format!(in a; "line {line}")?),
        Err(LexFault::NoMemory) => Err(NoMemory),
    }
}

#[test]
fn names_numbers_and_signs(rt: HostRuntime) -> Result<(), Fail> {
    for (text, want) in [
        ("x = 0777", "line 1"),
        ("a\n$", "line 2"),
        ("1__0", "line 1"),
        ("x = 0x_ff", "Wx|O=|N0x_ff|"),
        ("01", "line 1"),
        ("0_0 0b1_0 0O17", "N0_0|N0b1_0|N0O17|"),
        ("0b12", "line 1"),
        ("1if", "line 1"),
        ("1.if", "U1.|Wif|"),
        (
            "1e5 1.5e-3j .5 0777. 1_0.0_1J",
            "U1e5|U1.5e-3j|U.5|U0777.|U1_0.0_1J|",
        ),
        ("1_.5", "line 1"),
        ("1e", "line 1"),
        ("1.e", "U1.|We|"),
        ("x.y", "Wx|O.|Wy|"),
        ("..", "O.|O.|"),
        ("...", "U...|"),
        ("a**b", "Wa|O**|Wb|"),
        ("a * *b", "Wa|O*|O*|Wb|"),
        ("**= //= <<= := ->", "O**=|O//=|U<<=|U:=|U->|"),
        ("<> ! ", "line 1"),
        ("a<>b!=c", "Wa|O<|O>|Wb|O!=|Wc|"),
        ("async asynchronous", "Uasync|Wasynchronous|"),
        ("\u{ff49}f é_1 _", "W\u{ff49}f|Wé_1|W_|"),
        ("x\x0c", "line 1"),
        ("x\r", "line 1"),
        ("a?b", "line 1"),
    ] {
        assert!(rt; tokens_of(rt.alloc(), text)?.as_str() == want, "{text}");
    }
    Ok(())
}

#[test]
fn literals(rt: HostRuntime) -> Result<(), Fail> {
    for (text, want) in [
        (r"x = '''a'", "Wx|O=|T''|T'a'|"),
        (r"'''a", "line 1"),
        (r"'\N{BULLET}'", "line 1"),
        (r#"'''\N{BULLET}'''"#, "line 1"),
        (r"rb'\N{BULLET}'", r"Urb'\N{BULLET}'|"),
        (r"'a' 'b\'c'", r"T'a'|T'b\'c'|"),
        ("'a\\\nb' c", "T'a\\\nb'|Wc|"),
        ("'a\nb'", "line 1"),
        ("'''a\nb'''\n$", "line 3"),
        ("\"a\\", "line 1"),
        ("f'a'f", "Uf'a'|Wf|"),
        ("f'a", "line 1"),
        ("b'''a'", "Ub''|T'a'|"),
        ("xb'a'", "Wxb|T'a'|"),
        ("''''''''", "T''''''|T''|"),
    ] {
        assert!(rt; tokens_of(rt.alloc(), text)?.as_str() == want, "{text}");
    }
    Ok(())
}

#[test]
fn lines(rt: HostRuntime) -> Result<(), Fail> {
    for (text, want) in [
        ("", ""),
        ("x # c\ny", "Wx|E|Wy|"),
        ("\n\n", "E|E|"),
        ("\tx", "Wx|"),
        ("(\n#)\n)\nx", "O(|O)|E|Wx|"),
        (")\n(]\nx", "O)|E|O(|O]|E|Wx|"),
        ("a\\\nb", "Wa|Wb|"),
        ("a\\", "line 1"),
        ("a\\\n", "Wa|"),
        ("a\n\\ b", "line 2"),
        ("# a\\\nb", "E|Wb|"),
    ] {
        assert!(rt; tokens_of(rt.alloc(), text)?.as_str() == want, "{text}");
    }
    Ok(())
}

#[test]
fn lines_of_tokens(rt: HostRuntime) -> Result<(), Fail> {
    let text = PyText::from_str(rt.alloc(), "a\n\n'''x\ny''' b\\\nc(\n)\nd")?;
    let mut seen = String::new(rt.alloc());
    if text.len() < 100 {
        if let Ok(tokens) = lex(rt.alloc(), &text) {
            for token in tokens.as_slice() {
                seen.push_str(format!(in rt.alloc(); "{} ", token.line)?.as_str())?;
            }
            assert_eq!(rt; tokens.len(), 10);
        }
    }
    assert!(rt; seen.as_str() == "1 1 2 3 4 5 5 6 6 7 ");
    Ok(())
}
