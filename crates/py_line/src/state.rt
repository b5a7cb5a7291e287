// How far an expression is read.
ghost use Rattle.std.specs.Prelude.{◌≡◌, ◌++◌, ◌∷◌, [], IfOk, None};
ghost use Rattle.py_line.specs.States.{all_waiting, goal_of, with_last};
ghost use Rattle.py_line.specs.Waiting.{rank, waits, wanted};

use crate::frame::{Frame, Rung};
use crate::kept::{Kept, Parameters};
use flow_base::NoMemory;
use std::alloc::Global;

/// What waits, outermost first, and the rung of the whole.
#[derive(Drop)]
pub(crate) struct Waiting {
    pub(crate) goal: Rung,
    pub(crate) frames: Vec<Frame>,
}

/// What comes next.
#[derive(Drop)]
pub(crate) enum State {
    /// An operand.
    Before(Waiting),
    /// The end of the parameters of a lambda, or a comma and one more.
    Between(Waiting, Parameters),
    /// What follows a phrase of a rung.
    After(Waiting, Rung, Kept),
}

impl Waiting {
    pub(crate) fn new(alloc: Global, goal: Rung) -> Waiting
        ensures { (goal_of result ≡ goal) × (all_waiting result ≡ []) }
    {
        Waiting {
            goal,
            frames: Vec::new(alloc),
        }
    }

    /// One more waits.
    pub(crate) fn with(self, frame: Frame) -> Result<Waiting, NoMemory>
        ensures goal { IfOk result (λ w. goal_of w ≡ goal_of self) }
        ensures waiting { IfOk result (λ w. all_waiting w ≡ all_waiting self ++ frame ∷ []) }
    {
        let mut frames = self.frames;
        frames.push(frame)?;
        Ok(Waiting {
            goal: self.goal,
            frames,
        })
    }

    /// The rung that the innermost waits for, or that of the whole.
    pub(crate) fn wanted(&self) -> Rung
        ensures { result ≡ wanted (goal_of self.now) (all_waiting self.now) }
    {
        match self.frames.last() {
            Some(frame) => waits(frame),
            None => self.goal,
        }
    }

    /// The innermost that waits, and those round it.
    pub(crate) fn split(self) -> (Waiting, Option<Frame>)
        ensures goal { goal_of result.0 ≡ goal_of self }
        ensures waiting { all_waiting self ≡ with_last (all_waiting result.0) result.1 }
        ensures end { result.1 ≡ None → all_waiting self ≡ [] }
    {
        let mut frames = self.frames;
        let last = frames.pop();
        let waiting = Waiting {
            goal: self.goal,
            frames,
        };
        (waiting, last)
    }
}

/// The place of a rung, 0 for the tightest.
pub(crate) fn rank(rung: Rung) -> u32
    ensures { result ≡ rank rung }
{
    match rung {
        Rung::Atom => 0,
        Rung::Primary => 1,
        Rung::Power => 2,
        Rung::Factor => 3,
        Rung::Term => 4,
        Rung::Sum => 5,
        Rung::Comparison => 6,
        Rung::Not => 7,
        Rung::And => 8,
        Rung::Or => 9,
        Rung::Expr => 10,
    }
}

// The rung that one waits for.
fn waits(frame: &Frame) -> Rung
    ensures { result ≡ waits frame.now }
{
    match frame {
        Frame::Sign(..) | Frame::Power(..) | Frame::Term(..) => Rung::Factor,
        Frame::Sum(..) => Rung::Term,
        Frame::Chain(..) => Rung::Sum,
        Frame::Not | Frame::And(..) => Rung::Not,
        Frame::Or(..) => Rung::And,
        Frame::Test(..) => Rung::Or,
        Frame::Else(..)
        | Frame::Default(..)
        | Frame::Lambda(..)
        | Frame::Item(..)
        | Frame::Key(..)
        | Frame::Value(..) => Rung::Expr,
    }
}
