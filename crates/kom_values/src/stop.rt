use std::alloc::AllocError;

/// Why a handling went no further.
#[derive(Clone, Copy, Debug, PartialEq, Eq)]
pub enum Stop {
    /// The fault with this number ended it.
    Fault(u16),
    /// Want of memory.
    Memory,
}

impl From<AllocError> for Stop {
    ghost use Rattle.std.specs.Prelude.{◌≡◌};
    ghost use Rattle.kom_values.specs.declared.stop.Stop.TheVariants.{Memory};

    ghost from_gives = { λ _ s. s ≡ Memory };

    fn from(_: AllocError) -> Stop {
        Stop::Memory
    }
}

impl From<u16> for Stop {
    ghost use Rattle.std.specs.Prelude.{◌≡◌};
    ghost use Rattle.kom_values.specs.declared.stop.Stop.TheVariants.{Fault};

    ghost from_gives = { λ n s. s ≡ Fault n };

    fn from(number: u16) -> Stop {
        Stop::Fault(number)
    }
}
