// Tables of outside examples: the answers are those of the Python references.
use flow_base::{NoMemory, PyText};
use py_scalars::{
    NumFault, TextFault, Texts, add, find, floor_div, modulo, mul, negate, number_text, power,
    read_number, read_text, replace, repr_text, split, split_white, strip, sub,
};
use std::alloc::Global;
use std::test::Fail;

#[test]
fn numbers(rt: HostRuntime) {
    for (a, b, quotient, rest) in [
        (-7, 2, -4, 1),
        (7, 2, 3, 1),
        (7, -2, -4, -1),
        (-7, -2, 3, -1),
        (6, -3, -2, 0),
        (0, -5, 0, 0),
    ] {
        assert_eq!(rt; floor_div(a, b), Ok(quotient), "{a} // {b}");
        assert_eq!(rt; modulo(a, b), Ok(rest), "{a} % {b}");
    }
    assert_eq!(rt; floor_div(1, 0), Err(NumFault::ZeroDiv));
    assert_eq!(rt; floor_div(i128::MIN, -1), Err(NumFault::Range));
    assert_eq!(rt; modulo(i128::MIN, -1), Ok(0));
}

#[test]
fn powers(rt: HostRuntime) {
    for (a, b, want) in [
        (2, 10, 1024),
        (-2, 127, i128::MIN),
        (0, 0, 1),
        (-1, i128::MAX, -1),
        (1, i128::MAX, 1),
        (-3, 3, -27),
    ] {
        assert_eq!(rt; power(a, b), Ok(want), "{a} ** {b}");
    }
    assert_eq!(rt; power(2, 127), Err(NumFault::Range));
    assert_eq!(rt; power(-2, i128::MAX), Err(NumFault::Range));
    assert_eq!(rt; add(i128::MAX, 1), Err(NumFault::Range));
    assert_eq!(rt; sub(i128::MIN, 1), Err(NumFault::Range));
    assert_eq!(rt; mul(-4, 5), Ok(-20));
    assert_eq!(rt; negate(i128::MIN), Err(NumFault::Range));
}

fn number(a: Global, text: &str) -> Result<Option<i128>, NoMemory> {
    Ok(read_number(&PyText::from_str(a, text)?))
}

#[test]
fn number_literals(rt: HostRuntime) -> Result<(), Fail> {
    for (text, want) in [
        ("0x_ff", Some(255)),
        ("00", Some(0)),
        ("0_0", Some(0)),
        ("01", None),
        ("1__0", None),
        ("1_000", Some(1000)),
        ("1_", None),
        ("0b101", Some(5)),
        ("0O17", Some(15)),
        ("0o8", None),
        ("0x", None),
        ("", None),
        ("_1", None),
        ("170141183460469231731687303715884105727", Some(i128::MAX)),
        ("170141183460469231731687303715884105728", None),
    ] {
        assert_eq!(rt; number(rt.alloc(), text)?, want, "{text}");
    }
    let text = number_text(rt.alloc(), i128::MIN)?.to_text(rt.alloc())?;
    assert!(rt; text.as_str() == "-170141183460469231731687303715884105728");
    Ok(())
}

// Whether a literal stands for a text, and a refused one for none.
fn stands_for(a: Global, literal: &str, want: Option<&str>) -> Result<bool, TextFault> {
    let text = match read_text(a, &PyText::from_str(a, literal)?) {
        Ok(text) => text.to_text(a)?,
        Err(TextFault::Malformed) => return Ok(want.is_none()),
        Err(TextFault::NoMemory) => return Err(TextFault::NoMemory),
    };
    match want {
        Some(want) => Ok(text.as_str() == want),
        None => Ok(false),
    }
}

#[test]
fn text_literals(rt: HostRuntime) -> Result<(), Fail> {
    for (literal, want) in [
        (r"'a\x41\q'", Some(r"aA\q")),
        (r"'\x4'", None),
        ("''", Some("")),
        ("''''''", Some("")),
        ("'''a'b''c'''", Some("a'b''c")),
        ("'''a''''", None),
        ("'''", None),
        ("'a", None),
        ("'a'b'", None),
        ("'a\nb'", None),
        ("'''a\nb'''", Some("a\nb")),
        ("'a\\\nb'", Some("ab")),
        (r"'\101\1012\8'", Some(r"AA2\8")),
        (
            r#""\a\b\f\n\r\t\v\\\'\"""#,
            Some("\x07\x08\x0c\n\r\t\x0b\\'\""),
        ),
        (r"'\u20ac\U0001F600'", Some("\u{20ac}\u{1F600}")),
        (r"'\ud800'", None),
        (r"'\U00110000'", None),
        (r"'\N{BULLET}'", None),
        ("'\\", None),
        ("x", None),
    ] {
        assert!(rt; stands_for(rt.alloc(), literal, want)?, "{literal}");
    }
    Ok(())
}

fn shows(a: Global, text: &str, want: &str) -> Result<bool, NoMemory> {
    Ok(
        repr_text(a, &PyText::from_str(a, text)?)?
            .to_text(a)?
            .as_str()
            == want,
    )
}

#[test]
fn shown_texts(rt: HostRuntime) -> Result<(), Fail> {
    for (text, want) in [
        ("", "''"),
        ("it's", r#""it's""#),
        (r#"say "x""#, r#"'say "x"'"#),
        (r#"it's "x""#, r#"'it\'s "x"'"#),
        ("a\n\r\t\\", r"'a\n\r\t\\'"),
        ("\0\x1f\x7f\u{80}é", "'\\x00\\x1f\\x7f\u{80}é'"),
    ] {
        assert!(rt; shows(rt.alloc(), text, want)?, "{text}");
    }
    Ok(())
}

fn place(a: Global, text: &str, part: &str) -> Result<Option<usize>, NoMemory> {
    Ok(find(&PyText::from_str(a, text)?, &PyText::from_str(a, part)?))
}

#[test]
fn places(rt: HostRuntime) -> Result<(), Fail> {
    for (text, part, want) in [
        ("abcabc", "ca", Some(2)),
        ("abc", "", Some(0)),
        ("", "", Some(0)),
        ("aab", "ab", Some(1)),
        ("abc", "abcd", None),
        ("éa€a", "€a", Some(2)),
        ("aaa", "b", None),
    ] {
        assert_eq!(rt; place(rt.alloc(), text, part)?, want, "{text} {part}");
    }
    Ok(())
}

// Parts that almost stand at many places: they repeat, or differ late.
#[test]
fn places_of_repeats(rt: HostRuntime) -> Result<(), Fail> {
    for (text, part, want) in [
        ("yxvucypfyxvucypfyxvucypfyxvucypf", "yxvucypfhfphusht", None),
        (
            "yxvucypfyxvucypfyxvucypfhfphusht",
            "yxvucypfhfphusht",
            Some(16),
        ),
        ("aabaabaaaabaabaabaa", "aabaabaabaa", Some(8)),
        ("aabaabbaabaab", "aabaabaabaa", None),
        ("aaabaaaabaaaaa", "aaaaa", Some(9)),
        ("aaaaaaaa", "aaab", None),
        ("aaaa", "aaaaa", None),
        ("abaababaabaababaababa", "abaababaababa", Some(8)),
        ("abacabadabacabae", "abacabae", Some(8)),
        ("babbabab", "abab", Some(4)),
        ("éaéaéb", "éaéb", Some(2)),
    ] {
        assert_eq!(rt; place(rt.alloc(), text, part)?, want, "{text} {part}");
    }
    Ok(())
}

// The texts with a bar behind each.
fn barred(a: Global, texts: &Texts) -> Result<String, NoMemory> {
    let mut out = String::new(a);
    for text in texts.as_slice() {
        out.push_str(text.to_text(a)?.as_str())?;
        out.push('|')?;
    }
    Ok(out)
}

fn pieces(a: Global, text: &str, part: &str) -> Result<String, NoMemory> {
    let part = PyText::from_str(a, part)?;
    if part.len() == 0 {
        return Ok(String::new(a));
    }
    barred(a, &split(a, &PyText::from_str(a, text)?, &part)?)
}

#[test]
fn pieces_of_texts(rt: HostRuntime) -> Result<(), Fail> {
    for (text, part, want) in [
        ("1,2,3", ",", "1|2|3|"),
        ("1,2,,3,", ",", "1|2||3||"),
        ("1<>2<>3<4", "<>", "1|2|3<4|"),
        ("", ",", "|"),
        ("aaa", "aa", "|a|"),
        ("abaabaababaaba", "abaaba", "|ab||"),
    ] {
        assert!(rt;
            pieces(rt.alloc(), text, part)?.as_str() == want,
            "{text} {part}"
        );
    }
    for (text, want) in [
        ("1 2 3", "1|2|3|"),
        ("   1   2   3   ", "1|2|3|"),
        ("", ""),
        (" \u{a0}\t", ""),
        ("a\u{3000}b", "a|b|"),
    ] {
        let words = split_white(rt.alloc(), &PyText::from_str(rt.alloc(), text)?)?;
        assert!(rt; barred(rt.alloc(), &words)?.as_str() == want, "{text}");
    }
    Ok(())
}

fn replaced(a: Global, text: &str, old: &str, new: &str) -> Result<String, NoMemory> {
    let (text, old, new) = (
        PyText::from_str(a, text)?,
        PyText::from_str(a, old)?,
        PyText::from_str(a, new)?,
    );
    replace(a, &text, &old, &new)?.to_text(a)
}

fn stripped(a: Global, text: &str) -> Result<String, NoMemory> {
    strip(a, &PyText::from_str(a, text)?)?.to_text(a)
}

#[test]
fn changed_texts(rt: HostRuntime) -> Result<(), Fail> {
    for (text, old, new, want) in [
        ("abcabc", "b", "xx", "axxcaxxc"),
        ("aaa", "aa", "b", "ba"),
        ("abc", "", "-", "-a-b-c-"),
        ("", "", "x", "x"),
        ("abc", "d", "x", "abc"),
        ("aabaabaaabaabaa", "aabaa", "x", "xbaxbaa"),
    ] {
        assert!(rt;
            replaced(rt.alloc(), text, old, new)?.as_str() == want,
            "{text} {old}"
        );
    }
    Ok(())
}

#[test]
fn stripped_texts(rt: HostRuntime) -> Result<(), Fail> {
    for (text, want) in [
        ("   spacious   ", "spacious"),
        ("", ""),
        (" \n", ""),
        ("\u{2003}a b\u{85}", "a b"),
    ] {
        assert!(rt; stripped(rt.alloc(), text)?.as_str() == want, "{text}");
    }
    Ok(())
}
