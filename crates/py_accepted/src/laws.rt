// What the definitions mean.
ghost use Rattle.std.specs.Prelude.{◌≡◌, ◌↔◌, ℕ, List, [], Ok, Err, Some};
ghost use Rattle.flow_base.specs.declared.kinds.SyntaxKind.{SyntaxKind};
ghost use Rattle.flow_base.specs.declared.kinds.SyntaxKind.TheVariants.{Scope};
ghost use Rattle.py_ast.specs.Statement.{Block};
ghost use Rattle.py_ast.specs.declared.cell.Cell.{Cell};
ghost use Rattle.py_block.specs.Answer.{IsCellOf};
ghost use Rattle.py_block.specs.NodeLines.{HasNode};
ghost use Rattle.py_block.specs.Parsed.{parsed};
ghost use Rattle.py_numbered.specs.Numbered.{numbered};
ghost use Rattle.py_scope.specs.Chart.{faults_of_cell, first_fault};
ghost use Rattle.py_accepted.specs.Accepted.{cell_of};
ghost use Rattle.py_accepted.specs.Faults.{HasScopeFault};

use py_block::cell_law;

/// A text is accepted as a cell exactly where it spells that cell, and no declaration of the cell has a scope fault. It has a scope fault in
/// a line exactly where it spells a cell of which the first declaration that has a scope fault begins in that line, and another fault exactly
/// where it spells no cell by that fault. The first declaration that has a scope fault is a node of the cell.
pub fn accepted_law()
    ensures cell { (text : List ℕ) (b : Block) → (cell_of text ≡ Ok b) ↔ ((parsed text ≡ Ok b) × (faults_of_cell (numbered b) ≡ [])) }
    ensures scope { (text : List ℕ) (line : ℕ) → (cell_of text ≡ Err (line, Scope)) ↔ HasScopeFault text line }
    ensures other { (text : List ℕ) (line : ℕ) (kind : SyntaxKind) → (kind ≡ Scope → ⊥)
        → (cell_of text ≡ Err (line, kind)) ↔ (parsed text ≡ Err (line, kind)) }
    ensures node { (text : List ℕ) (c : Cell) (node : ℕ) → IsCellOf text c → first_fault c ≡ Some node → HasNode text node }
{
    cell_law();
}
