// Operators and delimiters (Python reference 2.5 and 2.6).
ghost use Rattle.std.specs.Prelude.{◌≡◌, ◌∷◌, []};
ghost use Rattle.py_signs.specs.Signs.{among, of_length, operators, operator_of};

use py_grammar::Mark;

/// The operator or delimiter that a text writes, if it writes one of this language.
pub(crate) fn operator_of(text: &[char]) -> Option<Mark>
    ensures { result ≡ operator_of text.now }
{
    match text {
        [a] => of_one(*a),
        [a, b] => of_two(*a, *b),
        [a, b, c] => of_three(*a, *b, *c),
        _ => None,
    }
}

// The operators of each length.

fn of_one(a: char) -> Option<Mark>
    ensures { result ≡ among (of_length 1 operators) (a ∷ []) }
{
    match a {
        '+' => Some(Mark::Plus),
        '-' => Some(Mark::Minus),
        '*' => Some(Mark::Star),
        '%' => Some(Mark::Percent),
        '<' => Some(Mark::Less),
        '>' => Some(Mark::Greater),
        '(' => Some(Mark::Open),
        ')' => Some(Mark::Close),
        '[' => Some(Mark::OpenSquare),
        ']' => Some(Mark::CloseSquare),
        '{' => Some(Mark::OpenCurly),
        '}' => Some(Mark::CloseCurly),
        ',' => Some(Mark::Comma),
        ':' => Some(Mark::Colon),
        ';' => Some(Mark::Semicolon),
        '.' => Some(Mark::Dot),
        '=' => Some(Mark::Equals),
        _ => None,
    }
}

fn of_two(a: char, b: char) -> Option<Mark>
    ensures { result ≡ among (of_length 2 operators) (a ∷ b ∷ []) }
{
    match (a, b) {
        ('/', '/') => Some(Mark::Slashes),
        ('*', '*') => Some(Mark::Stars),
        ('<', '=') => Some(Mark::AtMost),
        ('>', '=') => Some(Mark::AtLeast),
        ('=', '=') => Some(Mark::Same),
        ('!', '=') => Some(Mark::Differs),
        ('+', '=') => Some(Mark::PlusEquals),
        ('-', '=') => Some(Mark::MinusEquals),
        ('*', '=') => Some(Mark::StarEquals),
        ('%', '=') => Some(Mark::PercentEquals),
        _ => None,
    }
}

fn of_three(a: char, b: char, c: char) -> Option<Mark>
    ensures { result ≡ among (of_length 3 operators) (a ∷ b ∷ c ∷ []) }
{
    match (a, b, c) {
        ('/', '/', '=') => Some(Mark::SlashesEquals),
        ('*', '*', '=') => Some(Mark::StarsEquals),
        _ => None,
    }
}
