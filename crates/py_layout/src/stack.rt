// The widths of the lines round a line.
ghost use Rattle.std.specs.Prelude.{◌≡◌, ◌+◌, ◌≤◌, ◌==◌, ◌∷◌, [], IfOk, filter, length, nat_le, nat_lt};
ghost use Rattle.std.specs.List.{list_any, list_all};
ghost use Rattle.py_layout.specs.Layout.{stack_after, IsEntered};

use flow_base::NoMemory;
use std::alloc::Global;
use std::marker::Model;

/// The stack of widths, the first width first.
#[derive(Drop)]
pub(crate) struct Stack {
    widths: Vec<usize>,
}

impl Model for Stack {
    ghost use Rattle.std.specs.Prelude.{ℕ, List};

    ghost Value = { List ℕ };

    ghost view = { λ s. s.widths.items };
}

impl Stack {
    pub(crate) fn new(alloc: Global) -> Result<Stack, NoMemory>
        ensures { IfOk result (λ s. s ≡ 0 ∷ []) }
    {
        let mut widths = Vec::new(alloc);
        widths.push(0)?;
        Ok(Stack { widths })
    }

    pub(crate) fn len(&self) -> usize
        ensures { result ≡ length self.now }
    {
        self.widths.len()
    }

    /// Pops the widths above one that is on the stack, or pushes one that is above all; false for any other.
    pub(crate) fn enter(&mut self, width: usize) -> Result<bool, NoMemory>
        ensures is { IfOk result (λ done. IsEntered (stack_after self.old width) self.new done) }
        ensures few { length self.new ≤ length self.old + 1 }
    {
        if holds(self.widths.as_slice(), width) {
            self.pop_above(width);
            return Ok(true);
        }
        if are_below(self.widths.as_slice(), width) {
            self.widths.push(width)?;
            return Ok(true);
        }
        Ok(false)
    }

    fn pop_above(&mut self, width: usize)
        ensures { self.new ≡ filter (λ v. nat_le v width) self.old }
    {
        self.widths.retain(|v| *v <= width);
    }
}

fn holds(widths: &[usize], width: usize) -> bool
    ensures { result ≡ list_any (λ v. v == width) widths.now }
{
    widths.iter().any(|v| *v == width)
}

fn are_below(widths: &[usize], width: usize) -> bool
    ensures { result ≡ list_all (λ v. nat_lt v width) widths.now }
{
    widths.iter().all(|v| *v < width)
}
