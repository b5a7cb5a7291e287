// Laws of the answers.
ghost use Rattle.std.specs.Prelude.{◌≡◌, ◌∷◌, ℕ, List, [], Ok, Some, true, codes};
ghost use Rattle.flow_wire.specs.declared.ask.Ask.{Ask};
ghost use Rattle.flow_wire.specs.Replied.{is_refusal};
ghost use Rattle.flow_wire.specs.declared.reply.MarkText.TheVariants.{Clean};
ghost use Rattle.py_accepted.specs.Accepted.{cell_of};
ghost use Rattle.py_ast.specs.Statement.{Block};
ghost use Rattle.py_print.specs.Printed.{printed};
ghost use Rattle.py_print.specs.Spelled.{HasOwnNames};
ghost use Rattle.plain_cells.specs.Run.{events_from};
ghost use Rattle.kernel_core.specs.declared.accepted.Accepted.{Accepted};
ghost use Rattle.kernel_core.specs.Answer.{answer_of, show_reply};
ghost use Rattle.kernel_core.specs.Clean.{HasNoStaleUse, KeepsClean, LeavesNoStale};
ghost use Rattle.kernel_core.specs.Examples.{UsesRun, reply_after, uses_another, uses_outdated};
ghost use Rattle.kernel_core.specs.Kernel.{Held};
ghost use Rattle.kernel_core.specs.Lineage.{mark_of, stale_paths};
ghost use Rattle.kernel_core.specs.State.{state_of};

use flow_wire::{EndText, MarkText, Reply};
use py_accepted::accepted_law;
use py_block::cell_law;
use py_print::print_law;

/// A refusal leaves the kernel as it was.
pub fn answer_law()
    ensures { (k : Held) (a : Ask)
        → is_refusal (answer_of k a).reply ≡ true → (answer_of k a).kernel ≡ k }
{}

/// A run that is marked clean uses nothing stale, names nothing stale, and leaves nothing stale, over the history that the
/// log has, whatever steps it was allowed.
pub fn clean_law()
    ensures uses { (log : List Accepted) (b : Block) (steps : ℕ) → let s = state_of log in
        mark_of s.names s.versions b ≡ Clean
        → HasNoStaleUse s.versions (events_from s.names s.values steps b) }
    ensures leaves { (log : List Accepted) (b : Block) (steps : ℕ) → let s = state_of log in
        mark_of s.names s.versions b ≡ Clean
        → LeavesNoStale s.versions (events_from s.names s.values steps b) }
    ensures names { (log : List Accepted) (b : Block) (steps : ℕ) → let s = state_of log in
        mark_of s.names s.versions b ≡ Clean
        → stale_paths s.names s.versions (events_from s.names s.values steps b) ≡ [] }
{}

/// A reply that says `clean` of a run keeps what that promises, over the history that the log before it has.
pub fn clean_reply_law()
    ensures { (k : Held) (a : Ask) → KeepsClean (state_of k.log) (answer_of k a).reply }
{}

/// What is shown of an accepted text whose names are tokens equal to their NFKC form is accepted as the same cell. So it is shown as it
/// stands.
pub fn show_law()
    ensures again { (text : List ℕ) (b : Block) → cell_of text ≡ Ok b → HasOwnNames b → cell_of (printed b) ≡ Ok b }
    ensures same { (cell text : List ℕ) (b : Block) → cell_of text ≡ Ok b → HasOwnNames b
        → show_reply cell (Some (printed b)) ≡ show_reply cell (Some text) }
{
    accepted_law();
    print_law();
    cell_law();
}

/// A run that uses what another run wrote, and is clean.
pub fn clean_run_law()
    ensures uses { UsesRun uses_another (codes "b") 100 1 }
    ensures reply { reply_after uses_another (codes "b") ≡ Reply.Ran (codes "b") EndText.Ok MarkText.Clean [] 2 [] }
{}

/// A run that uses what is outdated: run 2 computed it from `x`, which run 3 has overwritten.
pub fn stale_run_law()
    ensures uses { UsesRun uses_outdated (codes "c") 100 2 }
    ensures reply { reply_after uses_outdated (codes "c")
        ≡ Reply.Ran (codes "c") EndText.Ok (MarkText.Stale 2 (codes "x") 3 (codes "y")) [] 4 (codes "y" ∷ []) }
{}
