// What printing means.
ghost use Rattle.std.specs.Prelude.{◌≡◌, ◌<◌, ℕ, All, List, Ok, Some, false, map};
ghost use Rattle.py_ast.specs.Lawful.{IsBlock, IsForm, top};
ghost use Rattle.py_ast.specs.Statement.{Block};
ghost use Rattle.py_ast.specs.Tree.{Tree};
ghost use Rattle.py_block.specs.Cell.{SpellsText};
ghost use Rattle.py_block.specs.Parsed.{parsed};
ghost use Rattle.py_grammar.specs.Blocks.{Stands};
ghost use Rattle.py_grammar.specs.Grammar.{Level, Spells};
ghost use Rattle.py_print.specs.Expressions.{expr_at};
ghost use Rattle.py_print.specs.Pieces.{signs_in};
ghost use Rattle.py_print.specs.Printed.{lines_of, placed, printed};
ghost use Rattle.py_lexer.specs.Form.{kind_of};
ghost use Rattle.py_lexer.specs.declared.token.TokenKind.TheVariants.{Word};
ghost use Rattle.py_signs.specs.Signs.{is_keyword};
ghost use Rattle.py_print.specs.Spelled.{AreSpelled, AreWritten, HasOwnNames, IsOwnName};

/// The law of printed expressions: what is printed at a place that asks for a level spells the tree at that level.
pub fn expression_law()
    ensures spelled { (l : Level) (a : Tree) → IsForm a → Spells l (signs_in (expr_at l a)) a }
{}

/// The law of printed lines: what stands on each line of a lawful block spells the line of the grammar.
pub fn line_law()
    ensures spelled { (b : Block) → IsBlock top b → AreSpelled (lines_of 0 b) }
{}

/// The law of printed blocks: the lines of a lawful block stand as the block.
pub fn block_law()
    ensures stands { (b : Block) → IsBlock top b → Stands top (map placed (lines_of 0 b)) b }
{}

/// The law of printed cells: for each block that some text spells and whose names are tokens equal to their NFKC form, the printed text
/// spells it and is parsed as it. So it is for each lawful block with such names whose numbers are below 2^127.
pub fn print_law()
    ensures spelled { (b : Block) → IsBlock top b → AreWritten b → SpellsText (printed b) b }
    ensures spelled_again { (text : List ℕ) (b : Block) → SpellsText text b → HasOwnNames b → SpellsText (printed b) b }
    ensures parsed_again { (text : List ℕ) (b : Block) → SpellsText text b → HasOwnNames b → parsed (printed b) ≡ Ok b }
{}

/// A name of ASCII characters that is a token and no keyword is equal to its NFKC form.
pub fn ascii_law()
    ensures own { (x : List ℕ) → kind_of x ≡ Some Word → All (λ c. c < 128) x → is_keyword x ≡ false → IsOwnName x }
{}
