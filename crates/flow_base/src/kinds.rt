// Why a mark is unknown, and why a text is refused.

/// What the analysis could not follow: the callee of a call, the base of a subscript or an attribute, or the name of
/// an attribute that is made from a text.
#[derive(Clone, Copy, Debug, PartialEq, Eq, PartialOrd, Ord)]
pub enum Kind {
    Callee,
    Base,
    Name,
}

/// What a text is refused for: a character that begins no token, indentation, a token that is not supported, a limit,
/// the form of a line or its place, and a declaration of a name.
#[derive(Clone, Copy, Debug, PartialEq, Eq)]
pub enum SyntaxKind {
    Lex,
    Layout,
    Unsupported,
    Limit,
    Syntax,
    Scope,
}
