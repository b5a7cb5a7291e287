// What the symbols that every table of names has stand for.
ghost use Rattle.std.specs.Prelude.{◌≡◌, ℕ, List, [], ◌∷◌, codes, map};
ghost use Rattle.exceptions_core.specs.Classes.{class_name};
ghost use Rattle.exceptions_core.specs.declared.class.ExcClass.{ExcClass};
ghost use Rattle.interp_machine.specs.Symbols as symbols;
ghost use Rattle.interp_machine.specs.Symbols.{known_texts, symbol, text_of};
ghost use Rattle.interp_machine.specs.declared.symbols.TheConstants as constant;

/// In the table that each session begins with, the symbol of an exception class is its name, those of `args`, `__init__` and `lambda` are these
/// names, and the symbols of the classes of values and of the built-in methods of each kind are the names of these.
pub fn symbols_law()
    ensures exceptions { (c : ExcClass) → text_of known_texts (symbols.class_symbol c) ≡ class_name c }
    ensures args { text_of known_texts constant.ARGS ≡ codes "args" }
    ensures init { text_of known_texts constant.INIT ≡ codes "__init__" }
    ensures lambda { text_of known_texts constant.LAMBDA ≡ codes "lambda" }
    ensures classes { map (λ n. text_of known_texts (symbol n)) symbols.value_classes
        ≡ codes "int" ∷ codes "str" ∷ codes "bool" ∷ codes "list" ∷ codes "dict" ∷ codes "tuple" ∷ codes "range" ∷ codes "object" ∷ [] }
    ensures lists { map (λ n. text_of known_texts (symbol n)) symbols.list_methods
        ≡ codes "append" ∷ codes "clear" ∷ codes "copy" ∷ codes "count" ∷ codes "extend" ∷ codes "index" ∷ codes "insert" ∷ codes "pop"
        ∷ codes "remove" ∷ codes "reverse" ∷ codes "sort" ∷ [] }
    ensures dicts { map (λ n. text_of known_texts (symbol n)) symbols.dict_methods
        ≡ codes "clear" ∷ codes "copy" ∷ codes "get" ∷ codes "items" ∷ codes "keys" ∷ codes "pop" ∷ codes "setdefault" ∷ codes "update"
        ∷ codes "values" ∷ [] }
    ensures texts { map (λ n. text_of known_texts (symbol n)) symbols.text_methods
        ≡ codes "count" ∷ codes "endswith" ∷ codes "find" ∷ codes "join" ∷ codes "replace" ∷ codes "split" ∷ codes "startswith"
        ∷ codes "strip" ∷ [] }
    ensures tuples { map (λ n. text_of known_texts (symbol n)) symbols.tuple_methods ≡ codes "count" ∷ codes "index" ∷ [] }
{}
