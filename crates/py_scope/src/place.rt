// The place of a name.

/// The place of a name (Python reference 4.2.2), as the scopes of the cell have it.
#[derive(Clone, Copy, Debug, PartialEq, Eq)]
pub enum NamePlace {
    /// Local to the function whose frame runs: its place, from 0, in the slots of that frame.
    Local(u32),
    /// Local to a function round the place where it is used: how many frames up its frame is, and its place in the slots of that frame.
    /// It is 0 frames up where it is used in the body of a class that stands in that function.
    Free(u32, u32),
    /// A name of the global frame, or else a built-in.
    Global,
    /// Bound in the body of the class that runs: an attribute of the class, and where the class does not have it yet, a name of the
    /// global frame or a built-in.
    ClassBody,
}
