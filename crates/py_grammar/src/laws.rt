// What the grammar means.
ghost use Rattle.std.specs.Prelude.{◌≡◌, ◌<◌, ◌≤◌, ℕ, List, None, Some};
ghost use Rattle.py_ast.specs.Tree.{Tree, Trees};
ghost use Rattle.py_grammar.specs.Grammar.{Level, PairRow, Params, Row, Spells};
ghost use Rattle.py_grammar.specs.Line.{Line, SpellsLine, line_depth};
ghost use Rattle.py_grammar.specs.LineReading.{read_line};
ghost use Rattle.py_grammar.specs.declared.sign.Sign.{Sign};

/// Signs spell one tree of each level at most, one list of members in brackets, and one list of
/// parameters.
pub fn grammar_law()
    ensures one_tree { (l : Level) (xs : List Sign) (a b : Tree) → Spells l xs a → Spells l xs b → a ≡ b }
    ensures one_row { (xs : List Sign) (a b : Trees) → Row xs a → Row xs b → a ≡ b }
    ensures one_pair_row { (xs : List Sign) (a b : Trees) → PairRow xs a → PairRow xs b → a ≡ b }
    ensures one_names { (xs : List Sign) (n m : List (List ℕ)) (a b : Trees) → Params xs n a → Params xs m b → n ≡ m }
    ensures one_defaults { (xs : List Sign) (n m : List (List ℕ)) (a b : Trees) → Params xs n a → Params xs m b → a ≡ b }
{}

/// Signs spell one line at most. Reading up to a number of levels finds the line that they spell where no expression of it has more,
/// tells where one has more, and tells where they spell no line.
pub fn line_law()
    ensures one_line { (xs : List Sign) (a b : Line) → SpellsLine xs a → SpellsLine xs b → a ≡ b }
    ensures found { (most : ℕ) (xs : List Sign) (a : Line)
        → 0 < most → read_line most xs ≡ Some (Some a) → SpellsLine xs a × (line_depth a ≤ most) }
    ensures deep { (most : ℕ) (xs : List Sign)
        → 0 < most → read_line most xs ≡ Some None → (a : Line) × SpellsLine xs a × (most < line_depth a) }
    ensures none { (most : ℕ) (xs : List Sign) (a : Line) → 0 < most → read_line most xs ≡ None → SpellsLine xs a → ⊥ }
{}
