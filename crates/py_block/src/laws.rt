// What the definitions of cells mean.
ghost use Rattle.std.specs.Prelude.{◌≡◌, ℕ, List, length, Result, Ok, Some};
ghost use Rattle.py_ast.specs.Nodes.{nodes_of_cell};
ghost use Rattle.py_ast.specs.Statement.{Block, view_cell};
ghost use Rattle.py_ast.specs.declared.cell.Cell.{Cell};
ghost use Rattle.py_layout.specs.declared.line.LogicalLine.{LogicalLine};
ghost use Rattle.py_ast.specs.Lawful.{IsBlock, top};
ghost use Rattle.py_grammar.specs.Blocks.{Begins, Placed, Stands};
ghost use Rattle.py_block.specs.Cell.{Cut, IsParsed, SpellsText};
ghost use Rattle.py_block.specs.Machine.{State, accepted, block_read, run, start};
ghost use Rattle.py_block.specs.NodeLines.{HasNode, line_at};
ghost use Rattle.py_block.specs.NodePlaces.{BeginsIn, nodes_of};
ghost use Rattle.py_block.specs.Parsed.{Fault, parsed};

/// The law of blocks: lines stand as a block exactly where the levels, run over them one after another, end as it, and they begin a cell
/// exactly where the levels can be run over them. So lines stand as one block at most.
pub fn block_law()
    ensures read { (lines : List Placed) (b : Block) → Stands top lines b → block_read lines ≡ Some b }
    ensures stands { (lines : List Placed) (n : State) (b : Block) → run start lines ≡ Some n → accepted n ≡ Some b → Stands top lines b }
    ensures one_block { (lines : List Placed) (a b : Block) → Stands top lines a → Stands top lines b → a ≡ b }
    ensures begins { (lines : List Placed) (n : State) → run start lines ≡ Some n → Begins lines }
    ensures runs { (lines : List Placed) → Begins lines → (n : State) × (run start lines ≡ Some n) }
{}

/// The law of cells: what is answered to a text is what the text is - the cell that it spells, or its first fault by the order of the
/// kinds - and nothing else is. So a text spells one cell at most, has a fault exactly where it spells none, and what it spells is lawful.
pub fn cell_law()
    ensures sound { (text : List ℕ) → IsParsed text (parsed text) }
    ensures exact { (text : List ℕ) (r : Result Block Fault) → IsParsed text r → r ≡ parsed text }
    ensures complete { (text : List ℕ) (b : Block) → SpellsText text b → parsed text ≡ Ok b }
    ensures one_cell { (text : List ℕ) (a b : Block) → SpellsText text a → SpellsText text b → a ≡ b }
    ensures lawful { (text : List ℕ) (b : Block) → SpellsText text b → IsBlock top b }
{}

/// The law of nodes: a cell has as many nodes as the lines that spell it, and a node begins in one line: fewer nodes than its number begin in
/// the lines before, and no fewer in these and the line. Its number is that of the line.
pub fn line_law()
    ensures as_many { (text : List ℕ) (c : Cell) (s : SpellsText text (view_cell c)) → length (nodes_of_cell c) ≡ nodes_of s.lines }
    ensures begins { (text : List ℕ) (cut : Cut text) (node : ℕ) → HasNode text node → (line : LogicalLine) × BeginsIn text cut.tokens cut.lines node line × (line_at text node ≡ line.line) }
    ensures one_line { (text : List ℕ) (cut : Cut text) (node : ℕ) (a b : LogicalLine) → BeginsIn text cut.tokens cut.lines node a → BeginsIn text cut.tokens cut.lines node b → a ≡ b }
{}
