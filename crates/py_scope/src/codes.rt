// The cells that runs had.
ghost use Rattle.std.specs.Prelude.{◌≡◌, None, OnErr, OnOk};
ghost use Rattle.std.specs.Option.{option_copied};
ghost use Rattle.std.specs.FinMap as map;

use crate::Scopes;
use flow_base::{NoMemory, RunNo};
use py_ast::Cell;
use std::alloc::Global;
use std::collections::BTreeMap;
use std::marker::Model;

/// A cell with its scopes.
#[derive(Drop)]
pub struct Coded {
    pub cell: Cell,
    pub scopes: Scopes,
}

/// The cells that runs had, with their scopes. Contracts see the finite map from the numbers of the runs.
#[derive(Drop)]
pub struct Codes {
    codes: BTreeMap<u64, Coded>,
}

impl Model for Codes {
    ghost use Rattle.std.specs.Coded.{coded_ℕ};
    ghost use Rattle.std.specs.Ordering.{nat_cmp};
    ghost use Rattle.std.specs.FinMap as map;
    ghost use Rattle.py_scope.specs.contracts.codes.Coded as coded;
    ghost use Rattle.py_scope.specs.declared.codes.Coded.{Coded};

    ghost Value = { map.FinMap nat_cmp Coded };

    ghost coded = { map.code coded_ℕ coded.the_row.coded };

    ghost view = { λ c. map.from_entries c.codes.entries };
}

impl Codes {
    /// No runs. Takes no memory.
    pub fn new(alloc: Global) -> Codes
        ensures { result ≡ map.empty }
    {
        Codes {
            codes: BTreeMap::new(alloc),
        }
    }

    /// The cell of a run that is not there yet. Where memory is wanting, nothing changes.
    pub fn add(&mut self, run: RunNo, coded: Coded) -> Result<(), NoMemory>
        requires { map.get self.old run.0 ≡ None }
        ensures ok { OnOk result (self.new ≡ map.insert self.old run.0 coded) }
        ensures err { OnErr result (self.new ≡ self.old) }
    {
        self.codes.insert(run.0, coded)?;
        Ok(())
    }

    /// The cell of a run, and `None` exactly where it is not there. Takes no memory, and logarithmic time.
    pub fn get(&self, run: RunNo) -> Option<&Coded>
        ensures { option_copied result ≡ map.get self.now run.0 }
    {
        self.codes.get(&run.0)
    }
}
