// Some lines and what they spell: which expressions are targets, how statements stand on a line, and headers.
ghost use Rattle.std.specs.Prelude.{List, [], ◌∷◌, None, Some};
ghost use Rattle.py_ast.specs.Statement as s;
ghost use Rattle.py_ast.specs.Tree as t;
ghost use Rattle.py_ast.specs.Tree.{more, none};
ghost use Rattle.py_ast.specs.declared.expr.BinaryOp.TheVariants as b;
ghost use Rattle.py_ast.specs.declared.expr.CompareOp.TheVariants as c;
ghost use Rattle.py_grammar.specs.Examples.{both, number, value, x, y, z};
ghost use Rattle.py_grammar.specs.Line as l;
ghost use Rattle.py_grammar.specs.Line.{Line, SpellsLine};
ghost use Rattle.py_grammar.specs.declared.mark.Mark.TheVariants as m;
ghost use Rattle.py_grammar.specs.declared.sign.Sign.TheVariants.{Name, Mark as The};

/// What `x = y = 1`, `x, y = z`, `[x] = y`, `(x) = y` and `x += y` assign (Python reference 7.2 and 7.2.1), and that `(x) += y`,
/// `x, y += z`, `x = y += z`, `x + y = z`, `1 = x` and `() = x` are no lines.
pub fn assignments_law()
    ensures chain { SpellsLine (Name x ∷ The m.Equals ∷ Name y ∷ The m.Equals ∷ number 1 ∷ [])
        (l.simples (s.assign (both (t.name x) (t.name y)) (value 1) ∷ [])) }
    ensures several { SpellsLine (Name x ∷ The m.Comma ∷ Name y ∷ The m.Equals ∷ Name z ∷ [])
        (l.simples (s.assign (more (t.tuple (both (t.name x) (t.name y))) none) (t.name z) ∷ [])) }
    ensures in_squares { SpellsLine (The m.OpenSquare ∷ Name x ∷ The m.CloseSquare ∷ The m.Equals ∷ Name y ∷ [])
        (l.simples (s.assign (more (t.tuple (more (t.name x) none)) none) (t.name y) ∷ [])) }
    ensures in_parens { SpellsLine (The m.Open ∷ Name x ∷ The m.Close ∷ The m.Equals ∷ Name y ∷ [])
        (l.simples (s.assign (more (t.name x) none) (t.name y) ∷ [])) }
    ensures augmented { SpellsLine (Name x ∷ The m.PlusEquals ∷ Name y ∷ [])
        (l.simples (s.augment (t.name x) b.Add (t.name y) ∷ [])) }
    ensures no_place_in_parens { (a : Line) → SpellsLine (The m.Open ∷ Name x ∷ The m.Close ∷ The m.PlusEquals ∷ Name y ∷ []) a → ⊥ }
    ensures no_several_augmented { (a : Line) → SpellsLine (Name x ∷ The m.Comma ∷ Name y ∷ The m.PlusEquals ∷ Name z ∷ []) a → ⊥ }
    ensures no_assigned_augmented { (a : Line) → SpellsLine (Name x ∷ The m.Equals ∷ Name y ∷ The m.PlusEquals ∷ Name z ∷ []) a → ⊥ }
    ensures no_sum_assigned { (a : Line) → SpellsLine (Name x ∷ The m.Plus ∷ Name y ∷ The m.Equals ∷ Name z ∷ []) a → ⊥ }
    ensures no_number_assigned { (a : Line) → SpellsLine (number 1 ∷ The m.Equals ∷ Name x ∷ []) a → ⊥ }
    ensures no_empty_assigned { (a : Line) → SpellsLine (The m.Open ∷ The m.Close ∷ The m.Equals ∷ Name x ∷ []) a → ⊥ }
{}

/// What `x; pass;`, `return x, y`, `del x, [y]` and `assert x, y` are (Python reference 7.3 to 7.6), and that `;`, `x y`, `raise x, y` and
/// `global x,` are no lines.
pub fn statements_law()
    ensures two { SpellsLine (Name x ∷ The m.Semicolon ∷ The m.Pass ∷ The m.Semicolon ∷ [])
        (l.simples (s.expression (t.name x) ∷ s.pass ∷ [])) }
    ensures returned { SpellsLine (The m.Return ∷ Name x ∷ The m.Comma ∷ Name y ∷ [])
        (l.simples (s.return (Some (t.tuple (both (t.name x) (t.name y)))) ∷ [])) }
    ensures deleted { SpellsLine (The m.Del ∷ Name x ∷ The m.Comma ∷ The m.OpenSquare ∷ Name y ∷ The m.CloseSquare ∷ [])
        (l.simples (s.delete (t.tuple (both (t.name x) (t.tuple (more (t.name y) none)))) ∷ [])) }
    ensures asserted { SpellsLine (The m.Assert ∷ Name x ∷ The m.Comma ∷ Name y ∷ [])
        (l.simples (s.assert (t.name x) (Some (t.name y)) ∷ [])) }
    ensures no_statement { (a : Line) → SpellsLine (The m.Semicolon ∷ []) a → ⊥ }
    ensures no_mark_between { (a : Line) → SpellsLine (Name x ∷ Name y ∷ []) a → ⊥ }
    ensures one_raised { (a : Line) → SpellsLine (The m.Raise ∷ Name x ∷ The m.Comma ∷ Name y ∷ []) a → ⊥ }
    ensures no_last_comma { (a : Line) → SpellsLine (The m.Global ∷ Name x ∷ The m.Comma ∷ []) a → ⊥ }
{}

/// What `if x: y`, `for x in y in z:`, `except x as y:`, `def x(y, z=1):` and `class x():` are (Python reference 8.1 to 8.4, 8.7 and
/// 8.8), and that `def x(y, y):`, `except x, y:`, `if x: if y:` and `x: y` are no lines.
pub fn headers_law()
    ensures with_statement { SpellsLine (The m.If ∷ Name x ∷ The m.Colon ∷ Name y ∷ [])
        (l.header (l.if (t.name x)) (s.expression (t.name y) ∷ [])) }
    ensures looped { SpellsLine (The m.For ∷ Name x ∷ The m.In ∷ Name y ∷ The m.In ∷ Name z ∷ The m.Colon ∷ [])
        (l.header (l.for (t.name x) (t.compare (c.In ∷ []) (both (t.name y) (t.name z)))) []) }
    ensures caught { SpellsLine (The m.Except ∷ Name x ∷ The m.As ∷ Name y ∷ The m.Colon ∷ [])
        (l.header (l.except (Some (t.name x)) (Some y)) []) }
    ensures defined { SpellsLine (The m.Def ∷ Name x ∷ The m.Open ∷ Name y ∷ The m.Comma
        ∷ Name z ∷ The m.Equals ∷ number 1 ∷ The m.Close ∷ The m.Colon ∷ [])
        (l.header (l.define x (y ∷ z ∷ []) (more (value 1) none)) []) }
    ensures no_base { SpellsLine (The m.Class ∷ Name x ∷ The m.Open ∷ The m.Close ∷ The m.Colon ∷ []) (l.header (l.class x None) []) }
    ensures no_same_names { (a : Line)
        → SpellsLine (The m.Def ∷ Name x ∷ The m.Open ∷ Name y ∷ The m.Comma ∷ Name y ∷ The m.Close ∷ The m.Colon ∷ []) a → ⊥ }
    ensures one_class { (a : Line) → SpellsLine (The m.Except ∷ Name x ∷ The m.Comma ∷ Name y ∷ The m.Colon ∷ []) a → ⊥ }
    ensures no_header_after_colon { (a : Line)
        → SpellsLine (The m.If ∷ Name x ∷ The m.Colon ∷ The m.If ∷ Name y ∷ The m.Colon ∷ []) a → ⊥ }
    ensures no_annotation { (a : Line) → SpellsLine (Name x ∷ The m.Colon ∷ Name y ∷ []) a → ⊥ }
{}
