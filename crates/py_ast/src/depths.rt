// How deep an expression is.
ghost use Rattle.std.specs.Prelude.{◌≡◌, ◌<◌, ◌^◌};
ghost use Rattle.py_ast.specs.Tree as tree;
ghost use Rattle.py_ast.specs.View.{view, views};

use crate::Expr;

/// How deep the tree is: 1 for a name, a literal or an empty display, and otherwise one more than its deepest part.
#[cycle(depth)]
pub fn depth(e: &Expr) -> u32
    requires { tree.depth (view e.now) < 2 ^ 32 }
    ensures { result ≡ tree.depth (view e.now) }
{
    match e {
        Expr::Name(..) | Expr::Number(..) | Expr::Text(..) | Expr::Nil(..) | Expr::Truth(..) => 1,
        Expr::Tuple(_, parts)
        | Expr::List(_, parts)
        | Expr::Dict(_, parts)
        | Expr::Compare(_, _, parts) => { 1 + deepest(parts.as_slice()) }
        Expr::Lambda(_, _, defaults, body) => 1
            + deepest(defaults.as_slice()).max(depth(body.get())),
        Expr::Choice(_, value, test, otherwise) => {
            1 + depth(value.get()).max(depth(test.get()).max(depth(otherwise.get())))
        }
        Expr::And(_, left, right)
        | Expr::Or(_, left, right)
        | Expr::Binary(_, left, _, right)
        | Expr::Item(_, left, right) => 1 + depth(left.get()).max(depth(right.get())),
        Expr::Not(_, part) | Expr::Sign(_, _, part) | Expr::Attr(_, part, _) => 1
            + depth(part.get()),
        Expr::Call(_, function, arguments) => 1
            + depth(function.get()).max(deepest(arguments.as_slice())),
    }
}

// The depth of the deepest, or 0.
#[cycle(depth)]
fn deepest(all: &[Expr]) -> u32
    requires { tree.deepest (views all.now) < 2 ^ 32 }
    ensures { result ≡ tree.deepest (views all.now) }
{
    let mut most = 0;
    for e in all {
        most = depth(e).max(most);
    }
    most
}
