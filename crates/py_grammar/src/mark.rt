// Keywords, operators and delimiters.

/// A keyword, an operator or a delimiter (Python reference 2.3.1, 2.5 and 2.6, in the subset of this language).
#[derive(Clone, Copy, Debug, PartialEq, Eq)]
pub enum Mark {
    False,
    None,
    True,
    And,
    As,
    Assert,
    Break,
    Class,
    Continue,
    Def,
    Del,
    Elif,
    Else,
    Except,
    Finally,
    For,
    Global,
    If,
    In,
    Is,
    Lambda,
    Nonlocal,
    Not,
    Or,
    Pass,
    Raise,
    Return,
    Try,
    While,
    /// `+`
    Plus,
    /// `-`
    Minus,
    /// `*`
    Star,
    /// `//`
    Slashes,
    /// `%`
    Percent,
    /// `**`
    Stars,
    /// `<`
    Less,
    /// `>`
    Greater,
    /// `<=`
    AtMost,
    /// `>=`
    AtLeast,
    /// `==`
    Same,
    /// `!=`
    Differs,
    /// `(`
    Open,
    /// `)`
    Close,
    /// `[`
    OpenSquare,
    /// `]`
    CloseSquare,
    /// `{`
    OpenCurly,
    /// `}`
    CloseCurly,
    /// `,`
    Comma,
    /// `:`
    Colon,
    /// `;`
    Semicolon,
    /// `.`
    Dot,
    /// `=`
    Equals,
    /// `+=`
    PlusEquals,
    /// `-=`
    MinusEquals,
    /// `*=`
    StarEquals,
    /// `//=`
    SlashesEquals,
    /// `%=`
    PercentEquals,
    /// `**=`
    StarsEquals,
}
