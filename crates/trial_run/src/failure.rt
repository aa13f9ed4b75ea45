//! Why a trial could not be held.
use daemon_outside::SiteFailed;
use no_memory::NoMemory;
use std::alloc::AllocError;
use thiserror::Error;

/// Why a trial could not be held.
#[derive(Clone, Copy, Debug, PartialEq, Eq, Error)]
pub enum TrialFailed {
    /// There was too little memory; no post was made.
    #[error("no memory")]
    NoMemory,
    /// The site had no post for a client; no session was held.
    #[error("site fault")]
    SiteFault,
}

impl From<NoMemory> for TrialFailed {
    ghost use Rattle.std.specs.Prelude.{◌≡◌};
    ghost use Rattle.trial_run.specs.declared.failure.TrialFailed.TheVariants as failed;

    ghost from_gives = { λ _ e. e ≡ failed.NoMemory };

    fn from(_failed: NoMemory) -> TrialFailed {
        TrialFailed::NoMemory
    }
}

impl From<AllocError> for TrialFailed {
    ghost use Rattle.std.specs.Prelude.{◌≡◌};
    ghost use Rattle.trial_run.specs.declared.failure.TrialFailed.TheVariants as failed;

    ghost from_gives = { λ _ e. e ≡ failed.NoMemory };

    fn from(_failed: AllocError) -> TrialFailed {
        TrialFailed::NoMemory
    }
}

impl From<SiteFailed> for TrialFailed {
    ghost use Rattle.std.specs.Prelude.{◌≡◌};
    ghost use Rattle.trial_run.specs.declared.failure.TrialFailed.TheVariants as failed;

    ghost from_gives = { λ _ e. e ≡ failed.SiteFault };

    fn from(_failed: SiteFailed) -> TrialFailed {
        TrialFailed::SiteFault
    }
}
