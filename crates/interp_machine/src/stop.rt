// Why an operation gives no value.
use flow_base::NoMemory;
use heap_objects::Value;
use std::alloc::AllocFailed;

/// Why an operation gives no value: an exception is raised, no step is left, or a whole number is outside those of 128 bits. Want of
/// memory is no part of the meaning; after it nothing is known of the machine, which is not to be used any more.
#[derive(Drop)]
pub enum Stop {
    Raised(Value),
    Steps,
    Range,
    NoMemory,
}

impl From<NoMemory> for Stop {
    ghost use Rattle.interp_machine.specs.declared.stop.Stop.TheVariants.{NoMemory};
    ghost use Rattle.std.specs.Prelude.{◌≡◌};

    ghost from_gives = { λ _ stop. stop ≡ NoMemory };

    fn from(_: NoMemory) -> Self {
        Stop::NoMemory
    }
}

impl<T: Drop> From<AllocFailed<T>> for Stop {
    ghost use Rattle.interp_machine.specs.declared.stop.Stop.TheVariants.{NoMemory};
    ghost use Rattle.std.specs.Prelude.{◌≡◌};

    ghost from_gives = { λ _ stop. stop ≡ NoMemory };

    fn from(_: AllocFailed<T>) -> Self {
        Stop::NoMemory
    }
}
