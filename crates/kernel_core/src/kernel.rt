// The kernel, one ask at a time.
ghost use Rattle.std.specs.Prelude.{◌≡◌, ◌↔◌, ◌≤◌, true, IfOk, OnOk, OnErr, IsErr};
ghost use Rattle.kernel_core.specs.Kernel.{new_kernel};

use crate::accepted::Accepted;
use crate::answer::answer;
use crate::law::clean_reply_law;
use crate::state::State;
use containers::Sequence;
use dependence_graph::Graph;
use flow_base::NoMemory;
use flow_wire::{Ask, Reply};
use std::alloc::Global;
use std::marker::Model;

/// The most steps that a run may be allowed.
pub const STEPS_LIMIT: u32 = 10_000_000;

/// The kernel of a notebook. Contracts see what it has accepted, the allowance of a run that names none, and whether it
/// has failed; all else that it keeps is what that list comes to.
#[derive(Drop)]
pub struct Kernel {
    alloc: Global,
    steps: u32,
    log: Sequence<Accepted>,
    state: State,
    graph: Graph,
    failed: bool,
}

impl Model for Kernel {
    ghost use Rattle.std.specs.Prelude.{◌≡◌, ◌≤◌, false};
    ghost use Rattle.kernel_core.specs.Kernel.{Held};

    ghost Value = { Held };

    ghost use Rattle.kernel_core.specs.State.{state_of};
    ghost use Rattle.dependence_graph.specs.Marks.{IsExact};

    ghost view = { λ k. record { log = k.log; steps = k.steps; failed = k.failed } };

    ghost invariant = { λ k. k.failed ≡ false → (k.state ≡ state_of k.log) × IsExact k.state.versions k.graph.stale };
}

impl Kernel {
    ghost use Rattle.kernel_core.specs.Answer.{answer_of};
    ghost use Rattle.kernel_core.specs.Clean.{KeepsClean};
    ghost use Rattle.kernel_core.specs.State.{state_of};

    /// A kernel that has accepted nothing. A run that names no steps is allowed this many.
    pub fn new(alloc: Global, steps: u32) -> Result<Kernel, NoMemory>
        requires { steps ≤ STEPS_LIMIT }
        ensures { IfOk result (λ kernel. kernel ≡ new_kernel steps) }
    {
        Ok(Kernel {
            alloc,
            steps,
            log: Sequence::new(alloc),
            state: State::new(alloc),
            graph: Graph::new(alloc),
            failed: false,
        })
    }

    /// Whether a step found no memory. Each later step finds none either.
    pub fn failed(&self) -> bool
        ensures { result ≡ self.now.failed }
    {
        self.failed
    }

    /// Answers an ask. After want of memory the kernel has failed, and has accepted what it had accepted before.
    pub fn step(&mut self, a: &Ask) -> Result<Reply, NoMemory>
        ensures reply { IfOk result (λ reply. reply ≡ (answer_of self.old a.now).reply) }
        ensures ok { OnOk result (self.new ≡ (answer_of self.old a.now).kernel) }
        ensures err { OnErr result (self.new ≡ record self.old { failed = true }) }
        ensures failed { IsErr result ↔ (self.new.failed ≡ true) }
        ensures stays { self.old.failed ≡ true → IsErr result }

        // A run that is answered `clean` used nothing stale, and leaves nothing stale, over the history of what was accepted.
        ensures clean { IfOk result (λ reply. KeepsClean (state_of self.old.log) reply) }
    {
        clean_reply_law();
        if self.failed {
            return Err(NoMemory);
        }
        let answered = answer(
            self.alloc,
            self.steps,
            &mut self.log,
            &mut self.state,
            &mut self.graph,
            a,
        );
        self.failed = answered.is_err();
        answered
    }
}
