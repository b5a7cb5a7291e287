// The names of one body.
ghost use Rattle.std.specs.Prelude.{◌≡◌};

use crate::NameList;

/// What a body is the body of.
#[derive(Clone, Copy, Debug, PartialEq, Eq)]
pub enum Kind {
    Cell,
    /// A `def` or a lambda.
    Function,
    Class,
}

/// The names of a body: those that are local to it, the parameters first, and those that it declares `global`. In the body of a class the
/// first are the names that it binds.
#[derive(Drop)]
pub struct Scope {
    pub kind: Kind,
    pub locals: NameList,
    pub globals: NameList,
}
