// The built-in exception classes.
ghost use Rattle.std.specs.Prelude.{◌≡◌, ◌↔◌, ◌<◌, IsTrue, length, Some, bytes_eq, slice_index, option_map};
ghost use Rattle.exceptions_core.specs.Classes.{IsUnder, class_name, first_named, parent};
ghost use Rattle.exceptions_core.specs.declared.class.ExcClass.{ExcClass};

use flow_base::PyText;

/// A built-in exception class (Python library reference, "Built-in Exceptions"): `Exception` and those of the classes under it that the
/// language of cells has.
#[derive(Clone, Copy, Debug, PartialEq, Eq)]
pub enum ExcClass {
    Exception,
    ArithmeticError,
    ZeroDivisionError,
    LookupError,
    IndexError,
    KeyError,
    NameError,
    UnboundLocalError,
    RuntimeError,
    RecursionError,
    AttributeError,
    TypeError,
    ValueError,
    AssertionError,
}

/// The name of a class, as a cell writes it.
pub fn name_of(c: ExcClass) -> &'static str
    ensures { result.now ≡ class_name c }
{
    match c {
        ExcClass::Exception => "Exception",
        ExcClass::ArithmeticError => "ArithmeticError",
        ExcClass::ZeroDivisionError => "ZeroDivisionError",
        ExcClass::LookupError => "LookupError",
        ExcClass::IndexError => "IndexError",
        ExcClass::KeyError => "KeyError",
        ExcClass::NameError => "NameError",
        ExcClass::UnboundLocalError => "UnboundLocalError",
        ExcClass::RuntimeError => "RuntimeError",
        ExcClass::RecursionError => "RecursionError",
        ExcClass::AttributeError => "AttributeError",
        ExcClass::TypeError => "TypeError",
        ExcClass::ValueError => "ValueError",
        ExcClass::AssertionError => "AssertionError",
    }
}

/// The class that has a name, and `None` exactly where none has it. Takes no memory.
pub fn class_named(s: &PyText) -> Option<ExcClass>
    ensures { (c : ExcClass) → (result ≡ Some c) ↔ (s.now ≡ class_name c) }
{
    first_named(
        s.as_slice(),
        &[
            ExcClass::Exception,
            ExcClass::ArithmeticError,
            ExcClass::ZeroDivisionError,
            ExcClass::LookupError,
            ExcClass::IndexError,
            ExcClass::KeyError,
            ExcClass::NameError,
            ExcClass::UnboundLocalError,
            ExcClass::RuntimeError,
            ExcClass::RecursionError,
            ExcClass::AttributeError,
            ExcClass::TypeError,
            ExcClass::ValueError,
            ExcClass::AssertionError,
        ],
    )
}

// The first of the classes that has the name.
fn first_named(name: &[char], classes: &[ExcClass]) -> Option<ExcClass>
    ensures { result ≡ first_named name.now classes.now }
{
    for c in classes {
        if spells(name, name_of(*c)) {
            return Some(*c);
        }
    }
    None
}

// Whether the code points are those of the word, which is ASCII.
fn spells(name: &[char], word: &str) -> bool
    ensures { IsTrue result ↔ (name.now ≡ word.now) }
{
    let word = word.as_bytes();
    if name.len() != word.len() {
        return false;
    }
    for (i, c) in name.iter().enumerate() {
        if *c != char::from(word[i]) {
            return false;
        }
    }
    true
}

/// Whether a class is another one or under it, so that an `except` clause with the second takes an exception of the first (Python
/// reference 8.4). Takes no memory.
pub fn matches(c: ExcClass, of: ExcClass) -> bool
    ensures { IsTrue result ↔ IsUnder c of }
{
    if c == of {
        return true;
    }
    match parent(c) {
        Some(above) => matches(above, of),
        None => false,
    }
}

// The class that a class is directly under.
fn parent(c: ExcClass) -> Option<ExcClass>
    ensures { result ≡ parent c }
{
    match c {
        ExcClass::Exception => None,
        ExcClass::ArithmeticError
        | ExcClass::LookupError
        | ExcClass::NameError
        | ExcClass::RuntimeError
        | ExcClass::AttributeError
        | ExcClass::TypeError
        | ExcClass::ValueError
        | ExcClass::AssertionError => Some(ExcClass::Exception),
        ExcClass::ZeroDivisionError => Some(ExcClass::ArithmeticError),
        ExcClass::IndexError | ExcClass::KeyError => Some(ExcClass::LookupError),
        ExcClass::UnboundLocalError => Some(ExcClass::NameError),
        ExcClass::RecursionError => Some(ExcClass::RuntimeError),
    }
}
