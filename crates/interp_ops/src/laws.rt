// What the definitions mean.
ghost use Rattle.std.specs.Prelude.{◌≡◌, ◌↔◌, IsTrue};
ghost use Rattle.heap_objects.specs.Tree.{tree_of};
ghost use Rattle.heap_objects.specs.declared.value.Value.{Value};
ghost use Rattle.interp_ops.specs.Truths.{identical};

/// Values are identical exactly where they stand for the same tree.
pub fn identity_law()
    ensures { (a b : Value) → (IsTrue (identical a b) ↔ (tree_of a ≡ tree_of b)) }
{}
