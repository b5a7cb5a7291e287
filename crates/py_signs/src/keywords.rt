// Keywords (Python reference 2.3.1).
ghost use Rattle.std.specs.Prelude.{◌≡◌, bytes_eq};
ghost use Rattle.py_lexer.specs.Form.{is_unsupported_word};
ghost use Rattle.py_signs.specs.Signs.{among, of_length, keywords, keyword_of, is_keyword};

use py_grammar::Mark;

/// The keyword that a text writes in its own ASCII spelling, if it writes one of this language.
pub(crate) fn keyword_of(word: &[char]) -> Option<Mark>
    ensures { result ≡ keyword_of word.now }
{
    match word.len() {
        2 => of_two(word),
        3 => of_three(word),
        4 => of_four(word),
        5 => of_five(word),
        6 => of_six(word),
        7 => of_seven(word),
        8 => of_eight(word),
        _ => None,
    }
}

/// Whether a text writes a keyword, one that this language has not included.
pub(crate) fn is_keyword(word: &[char]) -> bool
    ensures { result ≡ is_keyword word.now }
{
    keyword_of(word).is_some() || is_unsupported_word(word)
}

fn is_unsupported_word(word: &[char]) -> bool
    ensures { result ≡ is_unsupported_word word.now }
{
    spells(word, ['a', 's', 'y', 'n', 'c'].as_slice())
        || spells(word, ['a', 'w', 'a', 'i', 't'].as_slice())
        || spells(word, ['f', 'r', 'o', 'm'].as_slice())
        || spells(word, ['i', 'm', 'p', 'o', 'r', 't'].as_slice())
        || spells(word, ['w', 'i', 't', 'h'].as_slice())
        || spells(word, ['y', 'i', 'e', 'l', 'd'].as_slice())
}

fn spells(text: &[char], word: &[char]) -> bool
    ensures { result ≡ bytes_eq text.now word.now }
{
    text == word
}

// The keywords of each length.

fn of_two(word: &[char]) -> Option<Mark>
    ensures { result ≡ among (of_length 2 keywords) word.now }
{
    if spells(word, ['a', 's'].as_slice()) {
        return Some(Mark::As);
    }
    if spells(word, ['i', 'f'].as_slice()) {
        return Some(Mark::If);
    }
    if spells(word, ['i', 'n'].as_slice()) {
        return Some(Mark::In);
    }
    if spells(word, ['i', 's'].as_slice()) {
        return Some(Mark::Is);
    }
    if spells(word, ['o', 'r'].as_slice()) {
        return Some(Mark::Or);
    }
    None
}

fn of_three(word: &[char]) -> Option<Mark>
    ensures { result ≡ among (of_length 3 keywords) word.now }
{
    if spells(word, ['a', 'n', 'd'].as_slice()) {
        return Some(Mark::And);
    }
    if spells(word, ['d', 'e', 'f'].as_slice()) {
        return Some(Mark::Def);
    }
    if spells(word, ['d', 'e', 'l'].as_slice()) {
        return Some(Mark::Del);
    }
    if spells(word, ['f', 'o', 'r'].as_slice()) {
        return Some(Mark::For);
    }
    if spells(word, ['n', 'o', 't'].as_slice()) {
        return Some(Mark::Not);
    }
    if spells(word, ['t', 'r', 'y'].as_slice()) {
        return Some(Mark::Try);
    }
    None
}

fn of_four(word: &[char]) -> Option<Mark>
    ensures { result ≡ among (of_length 4 keywords) word.now }
{
    if spells(word, ['N', 'o', 'n', 'e'].as_slice()) {
        return Some(Mark::None);
    }
    if spells(word, ['T', 'r', 'u', 'e'].as_slice()) {
        return Some(Mark::True);
    }
    if spells(word, ['e', 'l', 'i', 'f'].as_slice()) {
        return Some(Mark::Elif);
    }
    if spells(word, ['e', 'l', 's', 'e'].as_slice()) {
        return Some(Mark::Else);
    }
    if spells(word, ['p', 'a', 's', 's'].as_slice()) {
        return Some(Mark::Pass);
    }
    None
}

fn of_five(word: &[char]) -> Option<Mark>
    ensures { result ≡ among (of_length 5 keywords) word.now }
{
    if spells(word, ['F', 'a', 'l', 's', 'e'].as_slice()) {
        return Some(Mark::False);
    }
    if spells(word, ['b', 'r', 'e', 'a', 'k'].as_slice()) {
        return Some(Mark::Break);
    }
    if spells(word, ['c', 'l', 'a', 's', 's'].as_slice()) {
        return Some(Mark::Class);
    }
    if spells(word, ['r', 'a', 'i', 's', 'e'].as_slice()) {
        return Some(Mark::Raise);
    }
    if spells(word, ['w', 'h', 'i', 'l', 'e'].as_slice()) {
        return Some(Mark::While);
    }
    None
}

fn of_six(word: &[char]) -> Option<Mark>
    ensures { result ≡ among (of_length 6 keywords) word.now }
{
    if spells(word, ['a', 's', 's', 'e', 'r', 't'].as_slice()) {
        return Some(Mark::Assert);
    }
    if spells(word, ['e', 'x', 'c', 'e', 'p', 't'].as_slice()) {
        return Some(Mark::Except);
    }
    if spells(word, ['g', 'l', 'o', 'b', 'a', 'l'].as_slice()) {
        return Some(Mark::Global);
    }
    if spells(word, ['l', 'a', 'm', 'b', 'd', 'a'].as_slice()) {
        return Some(Mark::Lambda);
    }
    if spells(word, ['r', 'e', 't', 'u', 'r', 'n'].as_slice()) {
        return Some(Mark::Return);
    }
    None
}

fn of_seven(word: &[char]) -> Option<Mark>
    ensures { result ≡ among (of_length 7 keywords) word.now }
{
    if spells(word, ['f', 'i', 'n', 'a', 'l', 'l', 'y'].as_slice()) {
        return Some(Mark::Finally);
    }
    None
}

fn of_eight(word: &[char]) -> Option<Mark>
    ensures { result ≡ among (of_length 8 keywords) word.now }
{
    if spells(word, ['c', 'o', 'n', 't', 'i', 'n', 'u', 'e'].as_slice()) {
        return Some(Mark::Continue);
    }
    if spells(word, ['n', 'o', 'n', 'l', 'o', 'c', 'a', 'l'].as_slice()) {
        return Some(Mark::Nonlocal);
    }
    None
}
