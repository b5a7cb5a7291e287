// The scopes of a cell.
ghost use Rattle.std.specs.Prelude.{◌≡◌};
ghost use Rattle.std.specs.Option.{option_copied};
ghost use Rattle.py_scope.specs.Chart.{own_in, place_at, seat_at, slots_at};

use crate::round::Round;
use crate::scope::{Kind, Scope};
use crate::{NameList, NamePlace};
use flow_base::{Held, PyText};
use std::alloc::Global;
use std::marker::Model;

/// What is kept of a node: the bodies round it, and the names of its own body, if it is a `def`, a lambda or a `class`.
#[derive(Drop)]
pub struct Seat {
    pub round: Round,
    pub own: Option<Held<Scope>>,
}

/// The scopes of a cell. Contracts see what is known of each of its nodes, of node 1 first: the bodies round it, and the names of its own
/// body.
#[derive(Drop)]
pub struct Scopes {
    seats: Vec<Seat>,
    none: NameList,
}

impl Model for Scopes {
    ghost use Rattle.std.specs.Prelude.{◌≡◌, List, []};
    ghost use Rattle.py_scope.specs.declared.chart.Seat.{Seat};

    ghost Value = { List Seat };

    ghost view = { λ s. s.seats.items };

    ghost invariant = { λ s. s.none ≡ [] };
}

impl Scopes {
    pub(crate) fn new(alloc: Global, seats: Vec<Seat>) -> Scopes
        ensures { result ≡ seats.items }
    {
        Scopes {
            seats,
            none: NameList::new(alloc),
        }
    }

    /// The place of a name that is used or bound at a node. A node is in the innermost body whose statements, or whose value, it is or
    /// stands in: the defaults of a `def` or a lambda, the base of a `class`, and the `def`, lambda or `class` itself are in the body
    /// round it. A number that no node has counts as one outside every `def`, lambda and `class`. Takes no memory; its time is
    /// logarithmic in the number of names of each body round the node.
    pub fn place(&self, node: u32, name: &PyText) -> NamePlace
        ensures { result ≡ place_at self.now node name.now }
    {
        match self.seat(node) {
            Some(seat) => seat.round.place(name),
            None => NamePlace::Global,
        }
    }

    /// The local names of the `def` or lambda at a node: its parameters in order, and then the others by where each is first bound in the
    /// text. The list is empty for a node that is no `def` and no lambda. Takes no memory.
    pub fn slots(&self, node: u32) -> &NameList
        ensures { result.now ≡ slots_at self.now node }
    {
        match self.own(node) {
            Some(scope) => match scope.kind {
                Kind::Function => &scope.locals,
                Kind::Cell | Kind::Class => &self.none,
            },
            None => &self.none,
        }
    }

    fn seat(&self, node: u32) -> Option<&Seat>
        ensures { option_copied result ≡ seat_at self.now node }
    {
        if node == 0 {
            return None;
        }
        self.seats.get(node as usize - 1)
    }

    fn own(&self, node: u32) -> Option<&Scope>
        ensures { option_copied result ≡ own_in (seat_at self.now node) }
    {
        match self.seat(node) {
            Some(seat) => match &seat.own {
                Some(scope) => Some(scope.get()),
                None => None,
            },
            None => None,
        }
    }
}
