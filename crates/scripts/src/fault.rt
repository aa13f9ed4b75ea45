use lic_types::NoMemory;
use outside::WriteFailed;
use thiserror::Error;

/// Why a script isn't played to its end.
#[derive(Clone, Copy, Debug, PartialEq, Eq, Error)]
pub enum PlayFault {
    /// The sink failed.
    #[error("write fault")]
    WriteFailed,
    /// There was too little memory for the books of the pools. Nothing was written.
    #[error("no memory")]
    NoMemory,
}

impl From<WriteFailed> for PlayFault {
    ghost use Rattle.std.specs.Prelude.{◌≡◌};
    ghost use Rattle.scripts.specs.declared.fault.PlayFault.TheVariants.{WriteFailed as Unwritten};

    ghost from_gives = { λ _ made. made ≡ Unwritten };

    fn from(_failed: WriteFailed) -> PlayFault {
        PlayFault::WriteFailed
    }
}

impl From<NoMemory> for PlayFault {
    ghost use Rattle.std.specs.Prelude.{◌≡◌};
    ghost use Rattle.scripts.specs.declared.fault.PlayFault.TheVariants.{NoMemory as Want};

    ghost from_gives = { λ _ made. made ≡ Want };

    fn from(_want: NoMemory) -> PlayFault {
        PlayFault::NoMemory
    }
}
