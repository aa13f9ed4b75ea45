ghost use Rattle.std.specs.Prelude.{◌≡◌, ◌⊎◌, [], ◌∷◌, ◌++◌, OnOk, OnErr, map, string_bytes};

use crate::files::FileFault;
use std::alloc::{AllocError, Global};

/// The names that files were asked for, and those of them whose reading failed, each in the order in which it came.
#[derive(Debug, Drop)]
pub struct Asked {
    /// The names that were asked for.
    pub names: Vec<String>,
    /// The names whose reading failed.
    pub failed: Vec<String>,
}

/// Puts a name behind the others.
fn keep(alloc: Global, names: &mut Vec<String>, name: &str) -> Result<(), AllocError>
    ensures kept { OnOk result (map string_bytes names.new.items ≡ map string_bytes names.old.items ++ name.now ∷ []) }
    ensures same { OnErr result (map string_bytes names.new.items ≡ map string_bytes names.old.items) }
{
    names.push(String::from_str(alloc, name)?)?;
    Ok(())
}

impl Asked {
    /// No name was asked for.
    pub fn none(alloc: Global) -> Asked
        ensures names { map string_bytes result.names.items ≡ [] }
        ensures failed { map string_bytes result.failed.items ≡ [] }
    {
        Asked {
            names: Vec::new(alloc),
            failed: Vec::new(alloc),
        }
    }

    /// A name is asked for. An error is want of memory, and nothing is kept then.
    pub(crate) fn ask(&mut self, alloc: Global, name: &str) -> Result<(), AllocError>
        ensures kept { OnOk result (map string_bytes self.new.names.items ≡ map string_bytes self.old.names.items ++ name.now ∷ []) }
        ensures same { OnErr result (map string_bytes self.new.names.items ≡ map string_bytes self.old.names.items) }
        ensures failed { self.new.failed ≡ self.old.failed }
    {
        keep(alloc, &mut self.names, name)
    }

    /// The reading of a name failed: `Failed`, or `NoMemory` where the name can't be kept.
    pub(crate) fn fail(&mut self, alloc: Global, name: &str) -> FileFault
        ensures kept { ((result ≡ FileFault.Failed) × (map string_bytes self.new.failed.items ≡ map string_bytes self.old.failed.items ++ name.now ∷ []))
            ⊎ ((result ≡ FileFault.NoMemory) × (map string_bytes self.new.failed.items ≡ map string_bytes self.old.failed.items)) }
        ensures names { self.new.names ≡ self.old.names }
    {
        match keep(alloc, &mut self.failed, name) {
            Ok(()) => FileFault::Failed,
            Err(_) => FileFault::NoMemory,
        }
    }
}
