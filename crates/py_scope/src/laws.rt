// What the definitions mean.
ghost use Rattle.std.specs.Prelude.{◌≡◌, ℕ, List, [], length, option_map, slice_get, take, Some};
ghost use Rattle.py_ast.specs.Nodes.{Node, node_at, nodes_of_cell};
ghost use Rattle.py_ast.specs.declared.cell.Cell.{Cell};
ghost use Rattle.py_ast.specs.Lawful.{AreDistinct};
ghost use Rattle.py_scope.specs.Chart.{IsAligned, code_of, own_in, seat_at, seats_of_cell, spots_of_cell};
ghost use Rattle.py_scope.specs.Faults.{faults_of};
ghost use Rattle.py_scope.specs.Scopes.{Code, IsBoundInClass, IsSlot, functions, locals_of, place_of, scope_of};
ghost use Rattle.py_scope.specs.declared.place.NamePlace.TheVariants as place;
ghost use Rattle.py_scope.specs.declared.scope.Scope.{Scope};

use flow_base::names_law;

/// What is kept of a cell is kept of each of its nodes, in their order: the own names of the node with a number are those of its body, if
/// it is a `def`, a lambda or a `class`.
pub fn nodes_law()
    ensures in_order { (c : Cell) → IsAligned (spots_of_cell c) (nodes_of_cell c) }
    ensures as_many { (c : Cell) → length (seats_of_cell c) ≡ length (nodes_of_cell c) }
    ensures own { (c : Cell) (i : ℕ) (node : Node) → node_at (nodes_of_cell c) i ≡ Some node
        → own_in (seat_at (seats_of_cell c) i) ≡ option_map scope_of (code_of node) }
{}

/// A place names a slot in which the name stands: a local one of the innermost function round the node that uses it, and a free one of
/// the function that is so many functions further out, counted from the innermost, whose frame is so many frames up. A name that a class
/// has is bound in the innermost body.
pub fn place_law()
    ensures local { (round : List Scope) (name : List ℕ) (slot : ℕ) → place_of round name ≡ place.Local slot
        → IsSlot (slice_get (functions round) 0) slot name }
    ensures free { (round : List Scope) (name : List ℕ) (hops slot : ℕ) → place_of round name ≡ place.Free hops slot
        → IsSlot (slice_get (functions round) hops) slot name }
    ensures in_class { (round : List Scope) (name : List ℕ) → place_of round name ≡ place.ClassBody → IsBoundInClass round name }
{
    names_law();
}

/// The parameters of a function, which differ from one another, are its first slots in their order, where no declaration in its body has
/// a fault.
pub fn params_law()
    ensures { (round : List Scope) (code : Code) → AreDistinct code.params → faults_of round code ≡ []
        → take (length code.params) (locals_of code) ≡ code.params }
{}
