// What some short texts are accepted as.
ghost use Rattle.std.specs.Prelude.{◌≡◌, Ok, Err, codes};
ghost use Rattle.flow_base.specs.declared.kinds.SyntaxKind.TheVariants.{Syntax};
ghost use Rattle.py_accepted.specs.Accepted.{cell_of};
ghost use Rattle.py_accepted.specs.Examples.{x_is_1, y_is_x, z_is_y};

/// The cells of `x = 1`, `y = x` and `z = y`; and `t = = 2`, which spells none, is refused at its first line.
pub fn examples_law()
    ensures number { cell_of (codes "x = 1") ≡ Ok x_is_1 }
    ensures name { cell_of (codes "y = x") ≡ Ok y_is_x }
    ensures another { cell_of (codes "z = y") ≡ Ok z_is_y }
    ensures refused { cell_of (codes "t = = 2") ≡ Err (1, Syntax) }
{}
