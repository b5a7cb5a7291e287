// Names, keywords and literals with a prefix, after "Names" of the Python language reference and Unicode Standard Annex 31.
ghost use Rattle.std.specs.Prelude.{◌≡◌, ◌≤◌, length, bytes_eq};
ghost use Rattle.std.specs.List.{prefix_len};
ghost use Rattle.unicode_ident.specs.Ident.{is_xid_continue};
ghost use Rattle.py_lexer.specs.Form.{is_name_start, is_unsupported_word, is_prefix_letter};
ghost use Rattle.py_lexer.specs.Scan.{word_of, prefixed_len, word_front};

use crate::quoted::quoted_len;
use crate::token::TokenKind;

/// Whether a code point begins a name.
pub(crate) fn is_name_start(c: char) -> bool
    ensures { result ≡ is_name_start c }
{
    unicode_ident::is_xid_start(c) || c == '_'
}

/// How many code points at the front may continue a name.
pub(crate) fn name_len(text: &[char]) -> usize
    ensures value { result ≡ prefix_len is_xid_continue text.now }
    ensures within { result ≤ length text.now }
{
    for (i, c) in text.iter().enumerate() {
        if !unicode_ident::is_xid_continue(*c) {
            return i;
        }
    }
    text.len()
}

/// The word or the literal with a prefix at the front of a text that begins as a name.
pub(crate) fn word_front(text: &[char]) -> (TokenKind, usize)
    ensures { result ≡ word_front text.now }
{
    if let Some(n) = prefixed_len(text) {
        return (TokenKind::Unsupported, n);
    }
    let n = name_len(text);
    (word_of(&text[..n]), n)
}

fn word_of(text: &[char]) -> TokenKind
    ensures { result ≡ word_of text.now }
{
    if is_unsupported_word(text) {
        TokenKind::Unsupported
    } else {
        TokenKind::Word
    }
}

fn is_unsupported_word(text: &[char]) -> bool
    ensures { result ≡ is_unsupported_word text.now }
{
    spells(text, ['a', 's', 'y', 'n', 'c'].as_slice())
        || spells(text, ['a', 'w', 'a', 'i', 't'].as_slice())
        || spells(text, ['f', 'r', 'o', 'm'].as_slice())
        || spells(text, ['i', 'm', 'p', 'o', 'r', 't'].as_slice())
        || spells(text, ['w', 'i', 't', 'h'].as_slice())
        || spells(text, ['y', 'i', 'e', 'l', 'd'].as_slice())
}

fn spells(text: &[char], word: &[char]) -> bool
    ensures { result ≡ bytes_eq text.now word.now }
{
    text == word
}

fn prefixed_len(text: &[char]) -> Option<usize>
    ensures { result ≡ prefixed_len text.now }
{
    let letters = prefix_letters(text);
    if letters == 0 {
        return None;
    }
    let n = quoted_len(&text[letters..])?;
    Some(letters + n)
}

fn prefix_letters(text: &[char]) -> usize
    ensures value { result ≡ prefix_len is_prefix_letter text.now }
    ensures within { result ≤ length text.now }
{
    for (i, c) in text.iter().enumerate() {
        if !is_prefix_letter(*c) {
            return i;
        }
    }
    text.len()
}

fn is_prefix_letter(c: char) -> bool
    ensures { result ≡ is_prefix_letter c }
{
    matches!(c, 'b' | 'B' | 'f' | 'F' | 'r' | 'R' | 'u' | 'U')
}
