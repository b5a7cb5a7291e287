// What the definitions of the operations mean.
ghost use Rattle.std.specs.Prelude.{ℕ, List, Option};
ghost use Rattle.exceptions_core.specs.declared.class.ExcClass.{ExcClass};
ghost use Rattle.exceptions_core.specs.declared.error.FaultKind.{FaultKind};
ghost use Rattle.flow_base.specs.declared.numbers.ObjRef.{ObjRef};
ghost use Rattle.flow_base.specs.declared.numbers.Sym.{Sym};
ghost use Rattle.heap_objects.specs.declared.value.Value.{Value};
ghost use Rattle.interp_machine.specs.Later.{IsLater};
ghost use Rattle.interp_machine.specs.Meaning as meaning;
ghost use Rattle.interp_machine.specs.Walks as walks;
ghost use Rattle.interp_machine.specs.declared.machine.Machine.{Machine};
ghost use Rattle.interp_machine.specs.declared.walks.Walker.{Walker};
ghost use Rattle.interp_ops.specs.Equality as equality;
ghost use Rattle.interp_ops.specs.Lookups as lookups;
ghost use Rattle.interp_ops.specs.Making as making;
ghost use Rattle.interp_ops.specs.Operators as operators;
ghost use Rattle.interp_ops.specs.Orders as orders;
ghost use Rattle.interp_ops.specs.Subscripts as subscripts;
ghost use Rattle.interp_ops.specs.Truths as truths;
ghost use Rattle.interp_ops.specs.declared.operators.BinaryOp.{BinaryOp};
ghost use Rattle.interp_texts.specs.Shown as shown;

/// No operation takes anything back: in the machine after it the objects of before are there with their slots, the events of before are
/// the first ones, no more steps are left, and the names, what is open and what was printed are the same.
pub fn added_law()
    ensures truth { (v : Value) (m : Machine) → IsLater m (truths.truth v m).1 }
    ensures equal { (a b : Value) (m : Machine) → IsLater m (equality.equal a b m).1 }
    ensures less { (a b : Value) (m : Machine) → IsLater m (orders.less a b m).1 }
    ensures less_or_equal { (a b : Value) (m : Machine) → IsLater m (orders.less_or_equal a b m).1 }
    ensures show { (v : Value) (m : Machine) → IsLater m (shown.show v m).1 }
    ensures to_str { (v : Value) (m : Machine) → IsLater m (shown.to_str v m).1 }
    ensures binary { (op : BinaryOp) (a b : Value) (m : Machine) → IsLater m (operators.binary op a b m).1 }
    ensures negate { (v : Value) (m : Machine) → IsLater m (operators.negate v m).1 }
    ensures plus { (v : Value) (m : Machine) → IsLater m (operators.plus v m).1 }
    ensures contains { (v c : Value) (m : Machine) → IsLater m (operators.contains v c m).1 }
    ensures subscript { (a i : Value) (m : Machine) → IsLater m (subscripts.subscript a i m).1 }
    ensures store_item { (a i v : Value) (m : Machine) → IsLater m (subscripts.store_item a i v m).1 }
    ensures delete_item { (a i : Value) (m : Machine) → IsLater m (subscripts.delete_item a i m).1 }
    ensures splice { (o : ObjRef) (from : ℕ) (tail : List Value) (m : Machine) → IsLater m (subscripts.splice o from tail m).1 }
    ensures lookup { (v : Value) (a : Sym) (m : Machine) → IsLater m (lookups.lookup v a m).1 }
    ensures walk { (v : Value) (m : Machine) → IsLater m (walks.walk v m).1 }
    ensures next { (w : Walker) (m : Machine) → IsLater m (walks.next w m).1 }
    ensures collect { (w : Walker) (m : Machine) → IsLater m (walks.collect w m).1 }
    ensures make_list { (items : List Value) (m : Machine) → IsLater m (making.make_list items m).1 }
    ensures make_tuple { (parts : List Value) (m : Machine) → IsLater m (making.make_tuple parts m).1 }
    ensures tuple { (parts : List Value) (m : Machine) → IsLater m (making.tuple parts m).1 }
    ensures make_text { (t : List ℕ) (m : Machine) → IsLater m (making.make_text t m).1 }
    ensures make_dict { (keys values : List Value) (m : Machine) → IsLater m (making.make_dict keys values m).1 }
    ensures error_of { (kind : FaultKind) (name : List ℕ) (m : Machine) → IsLater m (meaning.error_of kind name m).1 }
    ensures error_with { (class : ExcClass) (v : Value) (m : Machine) → IsLater m (meaning.error_with class v m).1 }
{}
