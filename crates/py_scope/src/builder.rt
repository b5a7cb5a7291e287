// The scopes of a cell as they are put together.
ghost use Rattle.std.specs.Prelude.{◌≡◌, ◌∷◌, [], IfOk, OnOk};
ghost use Rattle.py_scope.specs.Building.{Built, Finishes, with_spot};
ghost use Rattle.py_scope.specs.Chart.{body_code, coded, plain};
ghost use Rattle.py_scope.specs.Faults.{faults_of, least};
ghost use Rattle.py_scope.specs.Scopes.{scope_of};

use crate::chart::{Scopes, Seat};
use crate::declarations::scope_of;
use crate::fault::ScopeFault;
use crate::faults::least_fault;
use crate::gather::marks_of_body;
use crate::mark::Marks;
use crate::round::Round;
use crate::scope::{Kind, Scope};
use flow_base::{Held, NoMemory, PyText};
use py_ast::Stmt;
use std::alloc::Global;
use std::marker::Model;

/// What is kept of the nodes so far, and the first fault so far.
#[derive(Drop)]
pub struct Builder {
    alloc: Global,
    seats: Vec<Seat>,
    fault: Option<u32>,
}

impl Model for Builder {
    ghost use Rattle.py_scope.specs.Building.{Built};

    ghost Value = { Built };

    ghost view = { λ b. record { seats = b.seats.items; fault = b.fault } };
}

impl Builder {
    /// Before the nodes of a cell of these statements.
    pub fn new(alloc: Global, statements: &[Stmt], round: &Round) -> Result<Builder, NoMemory>
        ensures { IfOk result (λ b. b ≡ record {
          seats = [];
          fault = least (faults_of round.now (body_code Kind.Cell [] statements.now));
        }) }
    {
        let marks = marks_of_body(alloc, statements)?;
        let fault = least_fault(alloc, None, Kind::Cell, &[], marks.as_slice(), round)?;
        Ok(Builder {
            alloc,
            seats: Vec::new(alloc),
            fault,
        })
    }

    pub fn alloc(&self) -> Global {
        self.alloc
    }

    /// A node that has no body.
    pub fn pass(&mut self, round: &Round) -> Result<(), NoMemory>
        ensures { OnOk result (self.new ≡ with_spot self.old (plain round.now)) }
    {
        self.seats.push(Seat {
            round: round.copy()?,
            own: None,
        })?;
        Ok(())
    }

    /// A node that has a body; the answer is what is round the nodes in it.
    pub fn enter(
        &mut self,
        kind: Kind,
        params: &[PyText],
        marks: &Marks,
        round: &Round,
    ) -> Result<Round, NoMemory>
        ensures spot { OnOk result (self.new ≡ with_spot self.old (coded round.now (record {
          kind = kind;
          params = params.now;
          marks = marks.now;
        }))) }
        ensures inside { IfOk result (λ inside. inside ≡ scope_of (record {
          kind = kind;
          params = params.now;
          marks = marks.now;
        }) ∷ round.now) }
    {
        let scope = Held::new(
            self.alloc,
            scope_of(self.alloc, kind, params, marks.as_slice())?,
        )?;
        self.fault = least_fault(
            self.alloc,
            self.fault,
            kind,
            params,
            marks.as_slice(),
            round,
        )?;
        let own = scope.copy()?;
        self.seats.push(Seat {
            round: round.copy()?,
            own: Some(own),
        })?;
        round.within(self.alloc, scope)
    }

    /// A `def` or a `class`; the answer is what is round the statements of its body.
    pub fn enter_body(
        &mut self,
        kind: Kind,
        params: &[PyText],
        body: &[Stmt],
        round: &Round,
    ) -> Result<Round, NoMemory>
        ensures spot { OnOk result (self.new ≡ with_spot self.old (coded round.now (body_code kind params.now body.now))) }
        ensures inside { IfOk result (λ inside. inside ≡ scope_of (body_code kind params.now body.now) ∷ round.now) }
    {
        let marks = marks_of_body(self.alloc, body)?;
        self.enter(kind, params, &marks, round)
    }

    /// The scopes, where no declaration has a fault, and else the first that has one.
    pub fn finish(self) -> Result<Scopes, ScopeFault>
        ensures { Finishes self result }
    {
        match self.fault {
            Some(node) => Err(ScopeFault::At { node }),
            None => Ok(Scopes::new(self.alloc, self.seats)),
        }
    }
}
