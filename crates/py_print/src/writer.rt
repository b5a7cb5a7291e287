// A text as it is written.
ghost use Rattle.std.specs.Prelude.{◌≡◌, ◌*◌, ◌∷◌, [], ◌++◌, Some, replicate, IfOk, OnOk};
ghost use Rattle.py_grammar.specs.declared.mark.Mark.TheVariants as m;
ghost use Rattle.py_grammar.specs.declared.sign.Sign.TheVariants.{Number, Text};
ghost use Rattle.py_print.specs.Expressions.{comparison};
ghost use Rattle.py_print.specs.Pieces.{after_space, mark, name, sign, space};
ghost use Rattle.py_print.specs.Writing.{separator, with_piece, with_pieces};

use crate::spelling::spelling;
use flow_base::{NoMemory, PyText};
use py_ast::CompareOp;
use py_grammar::Mark;
use py_scalars::{number_text, repr_text};
use std::alloc::Global;
use std::marker::Model;

/// A text that is being written. Contracts see its code points so far.
#[derive(Drop)]
pub struct Writer {
    alloc: Global,
    points: Vec<char>,
}

impl Model for Writer {
    ghost use Rattle.std.specs.Prelude.{ℕ, List};

    ghost Value = { List ℕ };

    ghost view = { λ w. w.points.items };
}

impl Writer {
    pub fn new(alloc: Global) -> Writer
        ensures { result ≡ [] }
    {
        Writer {
            alloc,
            points: Vec::new(alloc),
        }
    }

    /// The text that was written.
    pub fn into_text(self) -> Result<PyText, NoMemory>
        ensures { IfOk result (λ text. text ≡ self) }
    {
        PyText::from_points(self.alloc, self.points)
    }

    #[tactic(auto, unfolding(crate::specs::Writing::with_piece))]
    pub fn mark(&mut self, k: Mark) -> Result<(), NoMemory>
        ensures { OnOk result (self.new ≡ with_piece self.old (mark k)) }
    {
        self.ascii(spelling(k).as_bytes())
    }

    fn ascii(&mut self, text: &[u8]) -> Result<(), NoMemory>
        ensures { OnOk result (self.new ≡ self.old ++ text.now) }
    {
        for b in text {
            self.points.push(*b as char)?;
        }
        Ok(())
    }

    #[tactic(auto, unfolding(crate::specs::Writing::with_piece))]
    pub fn space(&mut self) -> Result<(), NoMemory>
        ensures { OnOk result (self.new ≡ with_piece self.old space) }
    {
        self.points.push(' ')?;
        Ok(())
    }

    #[tactic(auto, unfolding(crate::specs::Writing::with_piece))]
    pub fn name(&mut self, x: &PyText) -> Result<(), NoMemory>
        ensures { OnOk result (self.new ≡ with_piece self.old (name x.now)) }
    {
        self.points.extend_from_slice(x.as_slice())?;
        Ok(())
    }

    /// A number in decimal.
    #[tactic(auto, unfolding(crate::specs::Writing::with_piece))]
    pub fn number(&mut self, n: i128) -> Result<(), NoMemory>
        ensures { OnOk result (self.new ≡ with_piece self.old (sign (Number n))) }
    {
        let text = number_text(self.alloc, n)?;
        self.points.extend_from_slice(text.as_slice())?;
        Ok(())
    }

    /// A text between quotes.
    #[tactic(auto, unfolding(crate::specs::Writing::with_piece))]
    pub fn quoted(&mut self, x: &PyText) -> Result<(), NoMemory>
        ensures { OnOk result (self.new ≡ with_piece self.old (sign (Text x.now))) }
    {
        let text = repr_text(self.alloc, x)?;
        self.points.extend_from_slice(text.as_slice())?;
        Ok(())
    }

    /// A mark with a space on each side.
    pub fn between(&mut self, k: Mark) -> Result<(), NoMemory>
        ensures { OnOk result (self.new ≡ with_pieces self.old (space ∷ mark k ∷ space ∷ [])) }
    {
        self.space()?;
        self.mark(k)?;
        self.space()
    }

    /// A keyword with a space behind it.
    pub fn word(&mut self, k: Mark) -> Result<(), NoMemory>
        ensures { OnOk result (self.new ≡ with_pieces self.old (mark k ∷ space ∷ [])) }
    {
        self.mark(k)?;
        self.space()
    }

    /// What stands before a part of a list.
    pub fn separate(&mut self, before: Option<Mark>) -> Result<(), NoMemory>
        ensures { OnOk result (self.new ≡ with_pieces self.old (separator before)) }
    {
        match before {
            Some(k) => self.word(k),
            None => Ok(()),
        }
    }

    /// The operator of a comparison with a space on each side.
    pub fn comparison(&mut self, o: CompareOp) -> Result<(), NoMemory>
        ensures { OnOk result (self.new ≡ with_pieces self.old (space ∷ comparison o ++ space ∷ [])) }
    {
        match o {
            CompareOp::Less => self.between(Mark::Less),
            CompareOp::Greater => self.between(Mark::Greater),
            CompareOp::Equal => self.between(Mark::Same),
            CompareOp::AtLeast => self.between(Mark::AtLeast),
            CompareOp::AtMost => self.between(Mark::AtMost),
            CompareOp::NotEqual => self.between(Mark::Differs),
            CompareOp::In => self.between(Mark::In),
            CompareOp::NotIn => {
                self.space()?;
                self.word(Mark::Not)?;
                self.word(Mark::In)
            }
            CompareOp::Is => self.between(Mark::Is),
            CompareOp::IsNot => {
                self.space()?;
                self.word(Mark::Is)?;
                self.word(Mark::Not)
            }
        }
    }

    /// Four spaces for each depth.
    pub fn indent(&mut self, deep: u32) -> Result<(), NoMemory>
        ensures { OnOk result (self.new ≡ self.old ++ replicate (4 * deep) 32) }
    {
        for _ in 0..deep {
            self.points.extend_from_slice(&[' ', ' ', ' ', ' '])?;
        }
        Ok(())
    }

    /// A line end.
    pub fn end_line(&mut self) -> Result<(), NoMemory>
        ensures { OnOk result (self.new ≡ self.old ++ 10 ∷ []) }
    {
        self.points.push('\n')?;
        Ok(())
    }

    /// The end of the line of a header.
    pub fn end_header(&mut self) -> Result<(), NoMemory>
        ensures { OnOk result (self.new ≡ with_piece self.old (mark m.Colon) ++ 10 ∷ []) }
    {
        self.mark(Mark::Colon)?;
        self.end_line()
    }
}
