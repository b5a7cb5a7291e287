// What the definitions mean.
ghost use Rattle.std.specs.List.{All};
ghost use Rattle.std.specs.Prelude.{◌≡◌, ◌<◌, ◌≤◌, IsTrue, ℕ, List, [], ◌∷◌, ◌++◌, Option, Some, length, map};
ghost use Rattle.flow_base.specs.declared.event.Event.{Event};
ghost use Rattle.flow_base.specs.declared.event.Event.TheVariants.{Place, Write};
ghost use Rattle.flow_base.specs.declared.key.Key.{Key};
ghost use Rattle.flow_base.specs.declared.loc.Loc.{Loc};
ghost use Rattle.flow_base.specs.declared.loc.Loc.TheVariants.{Attr, Name, Shape};
ghost use Rattle.flow_base.specs.declared.numbers.CodeRef.{CodeRef};
ghost use Rattle.flow_base.specs.declared.numbers.ObjRef.{ObjRef};
ghost use Rattle.flow_base.specs.declared.numbers.Sym.{Sym};
ghost use Rattle.heap_objects.specs.Calls.{clear_events, dict_clear, dict_put, dict_remove, entry_writes, item_writes, list_put, new_class, new_dict, new_frame, new_function, new_instance, new_list, put_at, put_events, remove_events, splice_events, spliced, spliced_items, stored};
ghost use Rattle.heap_objects.specs.Changes.{Keeps, Made, Wrote, clear_change, dict_change, list_change, put_change, put_reads, remove_change, splice_change, told};
ghost use Rattle.heap_objects.specs.Entries.{has_key, with_all};
ghost use Rattle.heap_objects.specs.Keyed.{key_of};
ghost use Rattle.heap_objects.specs.Nesting.{kept_nesting, nesting, tuple_of};
ghost use Rattle.flow_base.specs.declared.numbers.RunNo.{RunNo};
ghost use Rattle.heap_objects.specs.State.{State, begun, cell_at, count_at, held, item, keys_at, logged, next_object, object_at, start};
ghost use Rattle.heap_objects.specs.Storable.{HasAttrs, HoldsName};
ghost use Rattle.heap_objects.specs.WellFormed.{AreSteady, IsAllowed, IsAllowedIf, IsBase, IsClassValue, IsFrame, IsLawful, IsNoFrame, IsSound, IsWellFormed, Refers, RefersIf, Rules};
ghost use Rattle.heap_objects.specs.Tree.{depth, key_of_tree, tree_of};
ghost use Rattle.heap_objects.specs.declared.object.Cell.TheVariants as cell;
ghost use Rattle.heap_objects.specs.declared.object.Object.TheVariants as object;
ghost use Rattle.heap_objects.specs.declared.tree.Entry.{Entry};
ghost use Rattle.heap_objects.specs.declared.value.Value.{Value};

/// An event changes no object and no location. A write of a name, an attribute or an item of a list changes that location
/// alone, which holds then what was written. A splice changes the items from its place on, up to the longer of both lists, and
/// where the length changes the shape. A put changes the item, and where the key is new its presence and the shape; a removal
/// changes these three, and a clear the item and the presence of each key, and the shape.
pub fn writes_law()
    ensures event { (s : State) (e : Event) → Wrote [] s (logged e s) }
    ensures name { (s : State) (f : ObjRef) (n : Sym) (v : Option Value) → HoldsName (cell_at s f) n
        → Wrote ((Name f n, held v) ∷ []) s (stored (Name f n) v s) }
    ensures attr { (s : State) (o : ObjRef) (n : Sym) (v : Option Value) → HasAttrs (cell_at s o)
        → Wrote ((Attr o n, held v) ∷ []) s (stored (Attr o n) v s) }
    ensures item { (s : State) (o : ObjRef) (items : List Value) (i : ℕ) (v : Value) → cell_at s o ≡ cell.List items → i < length items
        → Wrote ((item o i, held (Some v)) ∷ []) s (list_put o i v s) }
    ensures put { (s : State) (d : ObjRef) (es : List Entry) (k : Key) (spelled v : Value) → cell_at s d ≡ cell.Dict es
        → Wrote (put_change d k spelled v es (has_key es k)) s (dict_put d k spelled v s) }
    ensures remove { (s : State) (d : ObjRef) (es : List Entry) (k : Key) → cell_at s d ≡ cell.Dict es
        → Wrote (remove_change d k es) s (dict_remove d k s) }
    ensures splice { (s : State) (o : ObjRef) (items : List Value) (i : ℕ) (tail : List Value) → cell_at s o ≡ cell.List items → i ≤ length items
        → Wrote (splice_change o i items (spliced_items items i tail)) s (spliced o i tail s) }
    ensures clear { (s : State) (d : ObjRef) (es : List Entry) → cell_at s d ≡ cell.Dict es → Wrote (clear_change d es) s (dict_clear d s) }
{}

/// Those calls tell what they write by their events, in the same order: a splice and a clear by these alone, and a put and a
/// removal read places first.
pub fn events_law()
    ensures splice { (o : ObjRef) (items : List Value) (i : ℕ) (tail : List Value)
        → splice_events o i tail (cell.List items) ≡ told (splice_change o i items (spliced_items items i tail)) }
    ensures put { (d : ObjRef) (k : Key) (spelled v : Value) (es : List Entry)
        → put_events d k (cell.Dict es) ≡ put_reads d k (has_key es k) ++ told (put_change d k spelled v es (has_key es k)) }
    ensures remove { (d : ObjRef) (k : Key) (es : List Entry) → remove_events d k (cell.Dict es) ≡ Place (Shape d) ∷ told (remove_change d k es) }
    ensures clear { (d : ObjRef) (es : List Entry) → clear_events d (cell.Dict es) ≡ told (clear_change d es) }
    ensures list { (o : ObjRef) (items : List Value) → item_writes o 0 (length items) ++ Write (Shape o) ∷ [] ≡ told (list_change o items) }
    ensures dict { (d : ObjRef) (es : List Entry) → entry_writes d es ≡ told (dict_change d es) }
{}

/// A new object is the next one, which has slots of the names that are given if it is a frame, and no other object changes. A
/// frame, an instance, a class and a function hold nothing when they are made. A list has its items and its shape, and a
/// dictionary the item and the presence of each key, and its shape; and no other location changes.
pub fn makes_law()
    ensures frame { (s : State) (parent : ObjRef) (names : List Sym) → Made (object.Frame (Some parent)) names [] s (new_frame parent names s) }
    ensures list { (s : State) (items : List Value) → Made object.List [] (list_change (next_object s) items) s (new_list items s) }
    ensures dict { (s : State) (keys values : List Value)
        → Made object.Dict [] (dict_change (next_object s) (with_all [] keys values)) s (new_dict keys values s) }
    ensures instance { (s : State) (class : Value) → Made (object.Instance class) [] [] s (new_instance class s) }
    ensures class { (s : State) (name : Sym) (base : Option Value) → Made (object.Class name base) [] [] s (new_class name base s) }
    ensures function { (s : State) (name : Sym) (code : CodeRef) (defaults : List Value) (parent : ObjRef)
        → Made (object.Function name code defaults parent) [] [] s (new_function name code defaults parent s) }
{}

/// Each call keeps the objects that are there, with the names of their slots.
pub fn keeps_law()
    ensures event { (s : State) (e : Event) → Keeps s (logged e s) }
    ensures run { (s : State) (run : RunNo) → Keeps s (begun run s) }
    ensures store { (s : State) (l : Loc) (v : Option Value) → Keeps s (stored l v s) }
    ensures item { (s : State) (o : ObjRef) (i : ℕ) (v : Value) → Keeps s (list_put o i v s) }
    ensures splice { (s : State) (o : ObjRef) (i : ℕ) (tail : List Value) → Keeps s (spliced o i tail s) }
    ensures put { (s : State) (d : ObjRef) (k : Option Key) (spelled v : Value) → Keeps s (put_at d k spelled v s) }
    ensures remove { (s : State) (d : ObjRef) (k : Key) → Keeps s (dict_remove d k s) }
    ensures clear { (s : State) (d : ObjRef) → Keeps s (dict_clear d s) }
    ensures frame { (s : State) (parent : ObjRef) (names : List Sym) → Keeps s (new_frame parent names s) }
    ensures list { (s : State) (items : List Value) → Keeps s (new_list items s) }
    ensures dict { (s : State) (keys values : List Value) → Keeps s (new_dict keys values s) }
    ensures instance { (s : State) (class : Value) → Keeps s (new_instance class s) }
    ensures class { (s : State) (name : Sym) (base : Option Value) → Keeps s (new_class name base s) }
    ensures function { (s : State) (name : Sym) (code : CodeRef) (defaults : List Value) (parent : ObjRef)
        → Keeps s (new_function name code defaults parent s) }
{}

/// A tuple that is made of parts with their true nesting has its true nesting beside its parts. The nesting of a value is the
/// depth of its tree, and its key is that of its tree.
pub fn values_law()
    ensures nesting { (parts : List Value) → map kept_nesting parts ≡ map nesting parts
        → kept_nesting (tuple_of parts) ≡ nesting (tuple_of parts) }
    ensures depth { (v : Value) → nesting v ≡ depth (tree_of v) }
    ensures key { (v : Value) → key_of v ≡ key_of_tree (tree_of v) }
{}

/// The first state is sound, and each call keeps a state sound where the values that it is given refer to objects that are
/// there: of a kind that a value may refer to, a frame as the parent of a frame or a function, and a class as the class of an
/// instance or the base of a class. In a sound state the count of a dictionary is the number of its keys, and a reference in a
/// value is below the number of objects.
pub fn sound_law()
    ensures start { IsSound start }
    ensures event { (s : State) (e : Event) → IsSound s → IsSound (logged e s) }
    ensures run { (s : State) (run : RunNo) → IsSound s → IsSound (begun run s) }
    ensures store { (s : State) (l : Loc) (v : Option Value) → IsSound s → RefersIf (object_at s) v → IsSound (stored l v s) }
    ensures item { (s : State) (o : ObjRef) (i : ℕ) (v : Value) → IsSound s → Refers (object_at s) v → IsSound (list_put o i v s) }
    ensures splice { (s : State) (o : ObjRef) (i : ℕ) (tail : List Value) → IsSound s → All (Refers (object_at s)) tail → IsSound (spliced o i tail s) }
    ensures put { (s : State) (d : ObjRef) (k v : Value) → IsSound s → Refers (object_at s) k → Refers (object_at s) v
        → IsSound (put_at d (key_of k) k v s) }
    ensures remove { (s : State) (d : ObjRef) (k : Key) → IsSound s → IsSound (dict_remove d k s) }
    ensures clear { (s : State) (d : ObjRef) → IsSound s → IsSound (dict_clear d s) }
    ensures frame { (s : State) (parent : ObjRef) (names : List Sym) → IsSound s → IsFrame (object_at s parent) → IsSound (new_frame parent names s) }
    ensures list { (s : State) (items : List Value) → IsSound s → All (Refers (object_at s)) items → IsSound (new_list items s) }
    ensures dict { (s : State) (keys values : List Value) → IsSound s → All (Refers (object_at s)) keys → All (Refers (object_at s)) values
        → IsSound (new_dict keys values s) }
    ensures instance { (s : State) (class : Value) → IsSound s → IsClassValue (object_at s) class → IsSound (new_instance class s) }
    ensures class { (s : State) (name : Sym) (base : Option Value) → IsSound s → IsBase (object_at s) base → IsSound (new_class name base s) }
    ensures function { (s : State) (name : Sym) (code : CodeRef) (defaults : List Value) (parent : ObjRef) → IsSound s
        → All (Refers (object_at s)) defaults → IsFrame (object_at s parent) → IsSound (new_function name code defaults parent s) }
    ensures keys { (s : State) (d : ObjRef) → IsSound s → object_at s d ≡ Some object.Dict → count_at s d ≡ length (keys_at s d) }
    ensures there { (s : State) (o : ObjRef) → IsNoFrame (object_at s o) → o.0 < length s.nodes }
    ensures full { (rules : Rules) (s : State) → IsWellFormed rules s → IsSound s }
{}

/// The first state is well formed, and each call keeps a state well formed where it is given values that refer to objects that
/// are there and are lawful, as `sound_law` says of which kinds, and code that is known to a new function. The rules let stand
/// what they let stand while objects are added.
pub fn formed_law()
    ensures start { (rules : Rules) → IsWellFormed rules start }
    ensures event { (rules : Rules) (s : State) (e : Event) → AreSteady rules → IsWellFormed rules s → IsWellFormed rules (logged e s) }
    ensures run { (rules : Rules) (s : State) (run : RunNo) → AreSteady rules → IsWellFormed rules s → IsWellFormed rules (begun run s) }
    ensures store { (rules : Rules) (s : State) (l : Loc) (v : Option Value) → AreSteady rules → IsWellFormed rules s → IsAllowedIf rules s v
        → IsWellFormed rules (stored l v s) }
    ensures item { (rules : Rules) (s : State) (o : ObjRef) (i : ℕ) (v : Value) → AreSteady rules → IsWellFormed rules s → IsAllowed rules s v
        → IsWellFormed rules (list_put o i v s) }
    ensures splice { (rules : Rules) (s : State) (o : ObjRef) (i : ℕ) (tail : List Value) → AreSteady rules → IsWellFormed rules s
        → All (IsAllowed rules s) tail → IsWellFormed rules (spliced o i tail s) }
    ensures put { (rules : Rules) (s : State) (d : ObjRef) (k v : Value) → AreSteady rules → IsWellFormed rules s → IsAllowed rules s k
        → IsAllowed rules s v → IsWellFormed rules (put_at d (key_of k) k v s) }
    ensures remove { (rules : Rules) (s : State) (d : ObjRef) (k : Key) → AreSteady rules → IsWellFormed rules s → IsWellFormed rules (dict_remove d k s) }
    ensures clear { (rules : Rules) (s : State) (d : ObjRef) → AreSteady rules → IsWellFormed rules s → IsWellFormed rules (dict_clear d s) }
    ensures frame { (rules : Rules) (s : State) (parent : ObjRef) (names : List Sym) → AreSteady rules → IsWellFormed rules s
        → IsFrame (object_at s parent) → IsWellFormed rules (new_frame parent names s) }
    ensures list { (rules : Rules) (s : State) (items : List Value) → AreSteady rules → IsWellFormed rules s → All (IsAllowed rules s) items
        → IsWellFormed rules (new_list items s) }
    ensures dict { (rules : Rules) (s : State) (keys values : List Value) → AreSteady rules → IsWellFormed rules s → All (IsAllowed rules s) keys
        → All (IsAllowed rules s) values → IsWellFormed rules (new_dict keys values s) }
    ensures instance { (rules : Rules) (s : State) (class : Value) → AreSteady rules → IsWellFormed rules s → IsClassValue (object_at s) class
        → IsLawful rules s class → IsWellFormed rules (new_instance class s) }
    ensures class { (rules : Rules) (s : State) (name : Sym) (base : Option Value) → AreSteady rules → IsWellFormed rules s → IsBase (object_at s) base
        → ((x : Value) → base ≡ Some x → IsLawful rules s x) → IsWellFormed rules (new_class name base s) }
    ensures function { (rules : Rules) (s : State) (name : Sym) (code : CodeRef) (defaults : List Value) (parent : ObjRef) → AreSteady rules
        → IsWellFormed rules s → All (IsAllowed rules s) defaults → IsFrame (object_at s parent) → IsTrue (rules.is_code s name code (length defaults) parent)
        → IsWellFormed rules (new_function name code defaults parent s) }
{}
