use no_memory::NoMemory;
use script_words::ScriptFault;
use thiserror::Error;

/// Why a log isn't audited.
#[derive(Clone, Copy, Debug, PartialEq, Eq, Error)]
pub enum AuditFault {
    /// The first line of the log that can't be read, and why.
    #[error("{0}")]
    Log(ScriptFault),
    /// There was too little memory to hold the log's entries, the books of the pools or the sums.
    #[error("no memory")]
    NoMemory,
}

impl From<ScriptFault> for AuditFault {
    ghost use Rattle.std.specs.Prelude.{◌≡◌};
    ghost use Rattle.log_audit.specs.declared.fault.AuditFault.TheVariants.{Log};

    ghost from_gives = { λ fault made. made ≡ Log fault };

    fn from(fault: ScriptFault) -> AuditFault {
        AuditFault::Log(fault)
    }
}

impl From<NoMemory> for AuditFault {
    ghost use Rattle.std.specs.Prelude.{◌≡◌};
    ghost use Rattle.log_audit.specs.declared.fault.AuditFault.TheVariants.{NoMemory as Want};

    ghost from_gives = { λ _ made. made ≡ Want };

    fn from(_want: NoMemory) -> AuditFault {
        AuditFault::NoMemory
    }
}
