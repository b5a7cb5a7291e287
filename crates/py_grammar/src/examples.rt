// Some forms and their trees: how operators group, and what a comma makes.
ghost use Rattle.std.specs.Prelude.{[], ◌∷◌};
ghost use Rattle.py_ast.specs.Tree as t;
ghost use Rattle.py_ast.specs.Tree.{Tree, more, none};
ghost use Rattle.py_grammar.specs.Examples as example;
ghost use Rattle.py_grammar.specs.Examples.{x, y};
ghost use Rattle.py_grammar.specs.Grammar.{Exprs, Spells};
ghost use Rattle.py_grammar.specs.declared.mark.Mark.TheVariants as m;
ghost use Rattle.py_grammar.specs.declared.sign.Sign.TheVariants.{Name, Text, Mark as The};

/// How `1 + 2 * 3`, `3 - 2 - 1`, `2 ** 3 ** 2`, `-2 ** 2`, `2 ** -1` and `not x in y` group (Python reference 6.5 to 6.7, 6.10
/// and 6.11), and that `3 - 2 - 1` groups in no other way.
pub fn operators_law()
    ensures product_first { Spells Exprs example.sum_and_product example.sum_of_product }
    ensures left_first { Spells Exprs example.differences example.left_first }
    ensures not_right_first { Spells Exprs example.differences example.right_first → ⊥ }
    ensures right_power_first { Spells Exprs example.powers example.power_of_power }
    ensures power_before_sign { Spells Exprs example.sign_and_power example.sign_of_power }
    ensures sign_in_power { Spells Exprs example.power_and_sign example.power_of_sign }
    ensures test_before_not { Spells Exprs example.not_and_in example.negated_test }
{}

/// The comparisons of `x < y not in z` are one, and not a comparison of a comparison (Python reference 6.10).
pub fn comparisons_law()
    ensures one { Spells Exprs example.comparisons example.one_comparison }
    ensures no_nesting { Spells Exprs example.comparisons example.nested_comparison → ⊥ }
{}

/// A comma makes a tuple, parentheses alone make nothing, adjacent text literals are one, the last part of a conditional expression is
/// as long as can be, and the parameters of a lambda have different names (Python reference 6.2.3, 6.15, 2.4.2, 6.13 and 6.14).
pub fn displays_law()
    ensures comma_alone { Spells Exprs (Name x ∷ The m.Comma ∷ []) (t.tuple (more (t.name x) none)) }
    ensures parentheses { Spells Exprs (The m.Open ∷ Name x ∷ The m.Close ∷ []) (t.name x) }
    ensures texts { Spells Exprs (Text x ∷ Text y ∷ []) (t.text (120 ∷ 121 ∷ [])) }
    ensures right_choice { Spells Exprs example.choices example.right_choice }
    ensures lambda { Spells Exprs example.lambda_of_two example.lambda_tree }
    ensures same_names { (a : Tree) → Spells Exprs example.lambda_of_same a → ⊥ }
{}
