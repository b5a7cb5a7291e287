// Versions of locations.
ghost use Rattle.std.specs.Prelude.{◌≡◌, IfOk};
ghost use Rattle.trace_events.specs.History.{run_of};

use flow_base::{Loc, NoMemory, RunNo};

/// A version of a location: what stood there before any write, of run 0, or what the write at a place, from 0, of the
/// events of a run put there.
#[derive(Drop)]
pub enum Version {
    Empty(Loc),
    Written(RunNo, u64),
}

impl Version {
    /// The same version, in the same memory.
    pub fn copy(&self) -> Result<Version, NoMemory>
        ensures { IfOk result (λ version. version ≡ self.now) }
    {
        match self {
            Version::Empty(location) => Ok(Version::Empty(location.copy()?)),
            Version::Written(run, place) => Ok(Version::Written(*run, *place)),
        }
    }

    /// The run that wrote it, or run 0.
    pub fn run(&self) -> RunNo
        ensures { result.0 ≡ run_of self.now }
    {
        match self {
            Version::Empty(_) => RunNo(0),
            Version::Written(run, _) => *run,
        }
    }
}

#[cfg(test)]
mod tests {
    use super::*;
    use flow_base::ObjRef;

    #[test]
    fn makes_each_kind(rt: HostRuntime) {
        let empty = Version::Empty(Loc::Shape(ObjRef(3)));
        assert!(rt; matches!(&empty, Version::Empty(Loc::Shape(ObjRef(3)))));
        let written = Version::Written(RunNo(1), 2);
        assert!(rt; matches!(&written, Version::Written(RunNo(1), 2)));
    }
}
