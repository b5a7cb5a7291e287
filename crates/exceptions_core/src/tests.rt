// Each class with those that it is under, and each text. The trees are those of CPython's own classes, where it has them.
use crate::{ExcClass, FaultKind, class_named, class_of, matches, name_of, rest_of, text_of};
use flow_base::{NoMemory, PyText};
use std::alloc::Global;
use std::test::Fail;

// The classes, each with what it is under.
const TREE: [(&str, &str); 14] = [
    ("Exception", ""),
    ("ArithmeticError", "Exception"),
    ("ZeroDivisionError", "ArithmeticError Exception"),
    ("LookupError", "Exception"),
    ("IndexError", "LookupError Exception"),
    ("KeyError", "LookupError Exception"),
    ("NameError", "Exception"),
    ("UnboundLocalError", "NameError Exception"),
    ("RuntimeError", "Exception"),
    ("RecursionError", "RuntimeError Exception"),
    ("AttributeError", "Exception"),
    ("TypeError", "Exception"),
    ("ValueError", "Exception"),
    ("AssertionError", "Exception"),
];

fn named(a: Global, name: &str) -> Result<Option<ExcClass>, NoMemory> {
    Ok(class_named(&PyText::from_str(a, name)?))
}

// Whether the class is known by its name, and whether it is the other one or under it.
fn found(a: Global, name: &str, other: &str) -> Result<(bool, bool), NoMemory> {
    match (named(a, name)?, named(a, other)?) {
        (Some(c), Some(of)) => Ok((name_of(c) == name, matches(c, of))),
        _ => Ok((false, false)),
    }
}

fn is_among(name: &str, words: &str) -> bool {
    words.split_whitespace().any(|word| word == name)
}

#[test]
fn classes(rt: HostRuntime) -> Result<(), Fail> {
    for (name, above) in TREE {
        for (other, _) in TREE {
            let under = other == name || is_among(other, above);
            let (known, matched) = found(rt.alloc(), name, other)?;
            assert!(rt; known && matched == under);
        }
    }
    for name in [
        "",
        "Error",
        "exception",
        "Exceptions",
        "BaseException",
        "OSError",
        "int",
    ] {
        assert!(rt; named(rt.alloc(), name)?.is_none(), "{name}");
    }
    Ok(())
}

// Whether the error has the class, and the texts before and after its name.
fn told(kind: FaultKind, class: ExcClass, text: &str, rest: &str) -> bool {
    class_of(kind) == class && text_of(kind) == text && rest_of(kind) == rest
}

#[test]
fn texts_with_a_name(rt: HostRuntime) {
    assert!(rt;
        told(
            FaultKind::Name,
            ExcClass::NameError,
            "name '",
            "' is not defined"
        )
    );
    assert!(rt;
        told(
            FaultKind::Local,
            ExcClass::UnboundLocalError,
            "local name '",
            "' is not bound"
        )
    );
    assert!(rt;
        told(
            FaultKind::Attribute,
            ExcClass::AttributeError,
            "no attribute '",
            "'"
        )
    );
}

#[test]
fn texts_without_a_name(rt: HostRuntime) {
    for (kind, class, text) in [
        (FaultKind::Index, ExcClass::IndexError, "index out of range"),
        (
            FaultKind::ZeroDiv,
            ExcClass::ZeroDivisionError,
            "division by zero",
        ),
        (FaultKind::Depth, ExcClass::RecursionError, "too deep"),
        (
            FaultKind::Changed,
            ExcClass::RuntimeError,
            "dictionary changed during iteration",
        ),
        (
            FaultKind::NoException,
            ExcClass::RuntimeError,
            "no exception to raise",
        ),
        (FaultKind::Kind, ExcClass::TypeError, "wrong kind"),
        (
            FaultKind::Count,
            ExcClass::TypeError,
            "wrong number of arguments",
        ),
        (FaultKind::Value, ExcClass::ValueError, "wrong value"),
    ] {
        assert!(rt; told(kind, class, text, ""), "{text}");
    }
}
