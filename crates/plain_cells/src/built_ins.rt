// The names that the language itself has.
ghost use Rattle.std.specs.Prelude.{◌≡◌};
ghost use Rattle.std.specs.List.{list_any};
ghost use Rattle.std.specs.Str.{bytes_eq};
ghost use Rattle.plain_cells.specs.BuiltIns as spec;

use flow_base::PyText;

const BUILT_INS: [&str; 39] = [
    "abs",
    "all",
    "any",
    "bool",
    "chr",
    "delattr",
    "dict",
    "getattr",
    "hasattr",
    "int",
    "isinstance",
    "len",
    "list",
    "max",
    "min",
    "object",
    "ord",
    "print",
    "range",
    "repr",
    "setattr",
    "sorted",
    "str",
    "sum",
    "tuple",
    "ArithmeticError",
    "AssertionError",
    "AttributeError",
    "Exception",
    "IndexError",
    "KeyError",
    "LookupError",
    "NameError",
    "RecursionError",
    "RuntimeError",
    "TypeError",
    "UnboundLocalError",
    "ValueError",
    "ZeroDivisionError",
];

// Whether the language has this name. Takes no memory.
#[tactic(auto, unfolding(crate::specs::BuiltIns::is_built_in))]
pub(crate) fn is_built_in(name: &PyText) -> bool
    ensures { result ≡ spec.is_built_in name.now }
{
    is_among(&BUILT_INS, name)
}

// Whether a name is one of some words.
fn is_among(words: &[&str], name: &PyText) -> bool
    ensures { result ≡ list_any (λ word. bytes_eq word.now name.now) words.now }
{
    for word in words {
        if is_word(word, name) {
            return true;
        }
    }
    false
}

// Whether a name is a word, whose bytes are its code points.
fn is_word(word: &str, name: &PyText) -> bool
    ensures { result ≡ bytes_eq word.now name.now }
{
    let points = name.as_slice();
    let bytes = word.as_bytes();
    if bytes.len() != points.len() {
        return false;
    }
    for (i, byte) in bytes.iter().enumerate() {
        if u32::from(*byte) != u32::from(points[i]) {
            return false;
        }
    }
    true
}
