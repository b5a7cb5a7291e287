// The names that every table of names begins with.
ghost use Rattle.std.specs.Prelude.{◌≡◌, [], IfOk, map};
ghost use Rattle.std.specs.Option.{option_copied};
ghost use Rattle.interp_machine.specs.Symbols as spec;

use crate::draft::Draft;
use exceptions_core::ExcClass;
use flow_base::{Names, NoMemory, PyText, Sym};
use std::alloc::Global;

/// The symbol of `args`, the attribute of an exception that holds its arguments.
pub const ARGS: Sym = Sym(63);

/// The symbol of `__init__`, the function of a class that is called when an instance is made.
pub const INIT: Sym = Sym(64);

/// The symbol of `lambda`, the name of each function that a lambda makes.
pub const LAMBDA: Sym = Sym(65);

const KNOWN: [&str; 66] = [
    "abs",
    "all",
    "any",
    "bool",
    "chr",
    "delattr",
    "dict",
    "getattr",
    "hasattr",
    "int",
    "isinstance",
    "len",
    "list",
    "max",
    "min",
    "object",
    "ord",
    "print",
    "range",
    "repr",
    "setattr",
    "sorted",
    "str",
    "sum",
    "tuple",
    "Exception",
    "ArithmeticError",
    "ZeroDivisionError",
    "LookupError",
    "IndexError",
    "KeyError",
    "NameError",
    "UnboundLocalError",
    "RuntimeError",
    "RecursionError",
    "AttributeError",
    "TypeError",
    "ValueError",
    "AssertionError",
    "append",
    "clear",
    "copy",
    "count",
    "endswith",
    "extend",
    "find",
    "get",
    "index",
    "insert",
    "items",
    "join",
    "keys",
    "pop",
    "remove",
    "replace",
    "reverse",
    "setdefault",
    "sort",
    "split",
    "startswith",
    "strip",
    "update",
    "values",
    "args",
    "__init__",
    "lambda",
];

const CLASSES: [ExcClass; 14] = [
    ExcClass::Exception,
    ExcClass::ArithmeticError,
    ExcClass::ZeroDivisionError,
    ExcClass::LookupError,
    ExcClass::IndexError,
    ExcClass::KeyError,
    ExcClass::NameError,
    ExcClass::UnboundLocalError,
    ExcClass::RuntimeError,
    ExcClass::RecursionError,
    ExcClass::AttributeError,
    ExcClass::TypeError,
    ExcClass::ValueError,
    ExcClass::AssertionError,
];

/// The table of names before every session: the built-in functions and classes, the exception classes, the methods, and `args`,
/// `__init__` and `lambda`, so that their symbols are the same in every session.
pub fn fresh_names(alloc: Global) -> Result<Names, NoMemory>
    ensures { IfOk result (λ names. names ≡ spec.known_texts) }
{
    names_of(alloc, &KNOWN)
}

// The table with each of these words, which are ASCII.
fn names_of(alloc: Global, words: &[&str]) -> Result<Names, NoMemory>
    ensures { IfOk result (λ names. names ≡ spec.interned [] (map (λ word. word.now) words.now)) }
{
    let mut names = Names::new(alloc);
    for word in words {
        let text = Draft::new(alloc).with_word(word)?.into_text(alloc)?;
        names.intern(&text)?;
    }
    Ok(names)
}

/// The symbol of an exception class.
pub fn class_symbol(c: ExcClass) -> Sym
    ensures { result ≡ spec.class_symbol c }
{
    match c {
        ExcClass::Exception => Sym(25),
        ExcClass::ArithmeticError => Sym(26),
        ExcClass::ZeroDivisionError => Sym(27),
        ExcClass::LookupError => Sym(28),
        ExcClass::IndexError => Sym(29),
        ExcClass::KeyError => Sym(30),
        ExcClass::NameError => Sym(31),
        ExcClass::UnboundLocalError => Sym(32),
        ExcClass::RuntimeError => Sym(33),
        ExcClass::RecursionError => Sym(34),
        ExcClass::AttributeError => Sym(35),
        ExcClass::TypeError => Sym(36),
        ExcClass::ValueError => Sym(37),
        ExcClass::AssertionError => Sym(38),
    }
}

/// The exception class that a symbol is, and `None` exactly where it is none. Takes no memory.
pub fn class_of_symbol(s: Sym) -> Option<ExcClass>
    ensures { result ≡ spec.class_of_symbol s }
{
    class_among(&CLASSES, s)
}

fn class_among(classes: &[ExcClass], s: Sym) -> Option<ExcClass>
    ensures { result ≡ spec.class_among classes.now s }
{
    for c in classes {
        if class_symbol(*c) == s {
            return Some(*c);
        }
    }
    None
}

/// The text of a symbol that the table has. Takes no memory.
pub fn text_of(names: &Names, s: Sym) -> Option<&PyText>
    ensures { spec.or_empty (option_copied result) ≡ spec.text_of names.now s }
{
    if s.0 < names.len() as u64 {
        Some(names.text(s))
    } else {
        None
    }
}

/// Whether the number of a symbol is one of these. Takes no memory.
pub fn is_among(numbers: &[u64], s: Sym) -> bool
    ensures { result ≡ spec.is_among numbers.now s }
{
    for n in numbers {
        if *n == s.0 {
            return true;
        }
    }
    false
}
