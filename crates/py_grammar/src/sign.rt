// What a token stands for in a line.
use crate::Mark;
use flow_base::PyText;

/// What a token stands for.
#[derive(Drop)]
pub enum Sign {
    /// A name, in its NFKC form (UAX 15).
    Name(PyText),
    /// The value of a whole number.
    Number(i128),
    /// The value of a text literal.
    Text(PyText),
    /// A keyword, an operator or a delimiter.
    Mark(Mark),
    /// What stands in no form of a line.
    Other,
}
