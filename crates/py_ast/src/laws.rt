// What the definitions mean.
ghost use Rattle.std.specs.Prelude.{◌≡◌, ℕ, Option, Some};
ghost use Rattle.py_ast.specs.Lawful.{IsLawful, IsStatement, IsTarget, top};
ghost use Rattle.py_ast.specs.Nodes.{IsNumbered, Node, node_at, nodes_of_cell, number_of};
ghost use Rattle.py_ast.specs.Statement as t;
ghost use Rattle.py_ast.specs.Statement.{Block};
ghost use Rattle.py_ast.specs.Tree as tree;
ghost use Rattle.py_ast.specs.Tree.{Tree};
ghost use Rattle.py_ast.specs.declared.cell.Cell.{Cell};

/// Lawful cells are numbered, and the i-th node of a numbered cell holds the number i.
pub fn numbers_law()
    ensures lawful { (c : Cell) → IsLawful c → IsNumbered c }
    ensures place { (c : Cell) (i : ℕ) (n : Node) → IsNumbered c → node_at (nodes_of_cell c) i ≡ Some n → number_of n ≡ i }
{}

/// Forms that no lawful cell has.
pub fn lawful_law()
    ensures return_outside { (x : Option Tree) → IsStatement top (t.return x) → ⊥ }
    ensures break_after_else { (test : Tree) (body : Block) → IsStatement top (t.while test body (t.then t.break t.empty)) → ⊥ }
    ensures empty_target { IsTarget (tree.tuple tree.none) → ⊥ }
    ensures key_without_value { (x : Tree) → IsStatement top (t.expression (tree.dict (tree.more x tree.none))) → ⊥ }
{}
