// What the operations keep of a machine.
ghost use Rattle.std.specs.Prelude.{ℕ, List};
ghost use Rattle.exceptions_core.specs.declared.class.ExcClass.{ExcClass};
ghost use Rattle.exceptions_core.specs.declared.error.FaultKind.{FaultKind};
ghost use Rattle.flow_base.specs.declared.numbers.ObjRef.{ObjRef};
ghost use Rattle.flow_base.specs.declared.numbers.Sym.{Sym};
ghost use Rattle.heap_objects.specs.declared.value.Value.{Value};
ghost use Rattle.interp_laws.specs.Formed.{Allowed, AllowedAll, AllowedObject, AllowedStep, AllowedWalk, Any, AreSteadyCodes, Codes, Ends, IsFormed};
ghost use Rattle.interp_machine.specs.Meaning as meaning;
ghost use Rattle.interp_machine.specs.Walks as walks;
ghost use Rattle.interp_machine.specs.declared.machine.Machine.{Machine};
ghost use Rattle.interp_machine.specs.declared.walks.Walker.{Walker};
ghost use Rattle.interp_ops.specs.Equality as equality;
ghost use Rattle.interp_ops.specs.Lookups as lookups;
ghost use Rattle.interp_ops.specs.Making as making;
ghost use Rattle.interp_ops.specs.Operators as operators;
ghost use Rattle.interp_ops.specs.Orders as orders;
ghost use Rattle.interp_ops.specs.Subscripts as subscripts;
ghost use Rattle.interp_ops.specs.Truths as truths;
ghost use Rattle.interp_ops.specs.declared.operators.BinaryOp.{BinaryOp};
ghost use Rattle.interp_texts.specs.Shown as shown;

/// From a formed machine, whose objects are well formed and whose names begin with those that are known, each operation comes to a formed
/// machine, with a value that it allows where it gives or raises one, where the values that it is given are allowed.
pub fn formed_law()
    ensures truth { (codes : Codes) (v : Value) (m : Machine) → AreSteadyCodes codes → IsFormed codes m → Ends codes Any (truths.truth v m) }
    ensures equal { (codes : Codes) (a b : Value) (m : Machine) → AreSteadyCodes codes → IsFormed codes m → Ends codes Any (equality.equal a b m) }
    ensures less { (codes : Codes) (a b : Value) (m : Machine) → AreSteadyCodes codes → IsFormed codes m → Ends codes Any (orders.less a b m) }
    ensures less_or_equal { (codes : Codes) (a b : Value) (m : Machine) → AreSteadyCodes codes → IsFormed codes m → Ends codes Any (orders.less_or_equal a b m) }
    ensures show { (codes : Codes) (v : Value) (m : Machine) → AreSteadyCodes codes → IsFormed codes m → Ends codes Any (shown.show v m) }
    ensures to_str { (codes : Codes) (v : Value) (m : Machine) → AreSteadyCodes codes → IsFormed codes m → Ends codes Any (shown.to_str v m) }
    ensures binary { (codes : Codes) (op : BinaryOp) (a b : Value) (m : Machine) → AreSteadyCodes codes → IsFormed codes m → Allowed codes m.heap a → Allowed codes m.heap b → Ends codes (Allowed codes) (operators.binary op a b m) }
    ensures negate { (codes : Codes) (v : Value) (m : Machine) → AreSteadyCodes codes → IsFormed codes m → Ends codes (Allowed codes) (operators.negate v m) }
    ensures plus { (codes : Codes) (v : Value) (m : Machine) → AreSteadyCodes codes → IsFormed codes m → Ends codes (Allowed codes) (operators.plus v m) }
    ensures contains { (codes : Codes) (v c : Value) (m : Machine) → AreSteadyCodes codes → IsFormed codes m → Ends codes Any (operators.contains v c m) }
    ensures subscript { (codes : Codes) (a i : Value) (m : Machine) → AreSteadyCodes codes → IsFormed codes m → Allowed codes m.heap a → Allowed codes m.heap i → Ends codes (Allowed codes) (subscripts.subscript a i m) }
    ensures store_item { (codes : Codes) (a i v : Value) (m : Machine) → AreSteadyCodes codes → IsFormed codes m → Allowed codes m.heap i → Allowed codes m.heap v → Ends codes Any (subscripts.store_item a i v m) }
    ensures delete_item { (codes : Codes) (a i : Value) (m : Machine) → AreSteadyCodes codes → IsFormed codes m → Allowed codes m.heap i → Ends codes Any (subscripts.delete_item a i m) }
    ensures splice { (codes : Codes) (o : ObjRef) (from : ℕ) (tail : List Value) (m : Machine) → AreSteadyCodes codes → IsFormed codes m → AllowedAll codes m.heap tail → Ends codes Any (subscripts.splice o from tail m) }
    ensures lookup { (codes : Codes) (v : Value) (a : Sym) (m : Machine) → AreSteadyCodes codes → IsFormed codes m → Allowed codes m.heap v → Ends codes (Allowed codes) (lookups.lookup v a m) }
    ensures walk { (codes : Codes) (v : Value) (m : Machine) → AreSteadyCodes codes → IsFormed codes m → Allowed codes m.heap v → Ends codes (AllowedWalk codes) (walks.walk v m) }
    ensures next { (codes : Codes) (w : Walker) (m : Machine) → AreSteadyCodes codes → IsFormed codes m → AllowedWalk codes m.heap w → Ends codes (AllowedStep codes) (walks.next w m) }
    ensures collect { (codes : Codes) (w : Walker) (m : Machine) → AreSteadyCodes codes → IsFormed codes m → AllowedWalk codes m.heap w → Ends codes (AllowedAll codes) (walks.collect w m) }
    ensures make_list { (codes : Codes) (items : List Value) (m : Machine) → AreSteadyCodes codes → IsFormed codes m → AllowedAll codes m.heap items → Ends codes (Allowed codes) (making.make_list items m) }
    ensures make_tuple { (codes : Codes) (parts : List Value) (m : Machine) → AreSteadyCodes codes → IsFormed codes m → AllowedAll codes m.heap parts → Ends codes (Allowed codes) (making.make_tuple parts m) }
    ensures tuple { (codes : Codes) (parts : List Value) (m : Machine) → AreSteadyCodes codes → IsFormed codes m → AllowedAll codes m.heap parts → Ends codes (Allowed codes) (making.tuple parts m) }
    ensures make_text { (codes : Codes) (t : List ℕ) (m : Machine) → AreSteadyCodes codes → IsFormed codes m → Ends codes (Allowed codes) (making.make_text t m) }
    ensures make_dict { (codes : Codes) (keys values : List Value) (m : Machine) → AreSteadyCodes codes → IsFormed codes m → AllowedAll codes m.heap keys → AllowedAll codes m.heap values → Ends codes (Allowed codes) (making.make_dict keys values m) }
    ensures error_of { (codes : Codes) (kind : FaultKind) (name : List ℕ) (m : Machine) → AreSteadyCodes codes → IsFormed codes m → Ends codes (AllowedObject codes) (meaning.error_of kind name m) }
    ensures error_with { (codes : Codes) (class : ExcClass) (v : Value) (m : Machine) → AreSteadyCodes codes → IsFormed codes m → Allowed codes m.heap v → Ends codes (AllowedObject codes) (meaning.error_with class v m) }
{}
