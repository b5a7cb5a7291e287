// What is multiplied.
ghost use Rattle.std.specs.Prelude.{◌≡◌};
ghost use Rattle.interp_ops.specs.Operators as spec;

use flow_base::{ObjRef, PyText};
use heap_objects::Values;
use interp_machine::Kind;

/// What two values are that are multiplied: two numbers, a text, a tuple or a list with a number, or what is left.
#[derive(Drop)]
pub enum Product {
    Numbers(i128, i128),
    Text(PyText, i128),
    Tuple(Values, i128),
    List(ObjRef, i128),
    Others,
}

/// What two values are that are multiplied. Takes no memory.
pub(crate) fn times(first: Kind, second: Kind) -> Product
    ensures { result ≡ spec.product_with first second }
{
    match first {
        Kind::Number(n) => match second {
            Kind::Number(x) => Product::Numbers(n, x),
            Kind::Text(t) => Product::Text(t, n),
            Kind::Tuple(parts) => Product::Tuple(parts, n),
            Kind::List(o) => Product::List(o, n),
            _ => Product::Others,
        },
        Kind::Text(t) => match second {
            Kind::Number(n) => Product::Text(t, n),
            _ => Product::Others,
        },
        Kind::Tuple(parts) => match second {
            Kind::Number(n) => Product::Tuple(parts, n),
            _ => Product::Others,
        },
        Kind::List(o) => match second {
            Kind::Number(n) => Product::List(o, n),
            _ => Product::Others,
        },
        _ => Product::Others,
    }
}
