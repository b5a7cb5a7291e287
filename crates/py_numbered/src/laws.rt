// What the definition means.
ghost use Rattle.std.specs.Prelude.{◌≡◌, ◌<◌, ◌^◌, length};
ghost use Rattle.py_ast.specs.Nodes.{IsNumbered, nodes_of_cell};
ghost use Rattle.py_ast.specs.Statement.{Block, view_cell};
ghost use Rattle.py_ast.specs.declared.cell.Cell.{Cell};
ghost use Rattle.py_numbered.specs.Numbered.{numbered};

/// The numbered cell of a plain tree has that tree, and its nodes are numbered by the rule where they are fewer than 2^32. It is the one
/// such cell: a cell whose nodes are numbered is the numbered cell of its plain tree.
pub fn numbered_law()
    ensures same { (c : Cell) → IsNumbered c → c ≡ numbered (view_cell c) }
    ensures tree { (b : Block) → view_cell (numbered b) ≡ b }
    ensures in_order { (b : Block) → length (nodes_of_cell (numbered b)) < 2 ^ 32 → IsNumbered (numbered b) }
{}
