// The errors that the language raises by itself.
ghost use Rattle.std.specs.Prelude.{◌≡◌};
ghost use Rattle.exceptions_core.specs.Errors.{class_of, text_after, text_before};

use crate::ExcClass;

/// An error that the language raises by itself, with a text as its only argument: one for each text. (A `KeyError` has the key in place
/// of a text.)
#[derive(Clone, Copy, Debug, PartialEq, Eq)]
pub enum FaultKind {
    /// A name that no scope and no built-in has.
    Name,
    /// A local name that is not bound when it is read.
    Local,
    /// An attribute that an object does not have.
    Attribute,
    /// A place outside a sequence.
    Index,
    /// A divisor of zero.
    ZeroDiv,
    /// Too many open evaluations, or a value that is nested too deep.
    Depth,
    /// A dictionary whose keys changed while a loop went over it.
    Changed,
    /// `raise` alone where no exception is handled.
    NoException,
    /// A value of a kind that the operation does not take.
    Kind,
    /// A wrong number of arguments of a call.
    Count,
    /// A value of the right kind that the operation does not take.
    Value,
}

/// The text of an error, up to the name that stands in it; the whole text where no name stands in it.
pub fn text_of(f: FaultKind) -> &'static str
    ensures { result.now ≡ text_before f }
{
    match f {
        FaultKind::Name => "name '",
        FaultKind::Local => "local name '",
        FaultKind::Attribute => "no attribute '",
        FaultKind::Index => "index out of range",
        FaultKind::ZeroDiv => "division by zero",
        FaultKind::Depth => "too deep",
        FaultKind::Changed => "dictionary changed during iteration",
        FaultKind::NoException => "no exception to raise",
        FaultKind::Kind => "wrong kind",
        FaultKind::Count => "wrong number of arguments",
        FaultKind::Value => "wrong value",
    }
}

/// The text of an error after the name that stands in it; empty where no name stands in it.
pub fn rest_of(f: FaultKind) -> &'static str
    ensures { result.now ≡ text_after f }
{
    match f {
        FaultKind::Name => "' is not defined",
        FaultKind::Local => "' is not bound",
        FaultKind::Attribute => "'",
        FaultKind::Index
        | FaultKind::ZeroDiv
        | FaultKind::Depth
        | FaultKind::Changed
        | FaultKind::NoException
        | FaultKind::Kind
        | FaultKind::Count
        | FaultKind::Value => "",
    }
}

/// The class of an error.
pub fn class_of(f: FaultKind) -> ExcClass
    ensures { result ≡ class_of f }
{
    match f {
        FaultKind::Name => ExcClass::NameError,
        FaultKind::Local => ExcClass::UnboundLocalError,
        FaultKind::Attribute => ExcClass::AttributeError,
        FaultKind::Index => ExcClass::IndexError,
        FaultKind::ZeroDiv => ExcClass::ZeroDivisionError,
        FaultKind::Depth => ExcClass::RecursionError,
        FaultKind::Changed | FaultKind::NoException => ExcClass::RuntimeError,
        FaultKind::Kind | FaultKind::Count => ExcClass::TypeError,
        FaultKind::Value => ExcClass::ValueError,
    }
}
