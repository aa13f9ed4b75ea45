//! The names of FEATURE lines.
ghost use Rattle.std.specs.Prelude.{◌≡◌, not, IfErr, IfOk, OnOk};
ghost use Rattle.std.specs.Bool.{OnFalse};
ghost use Rattle.lic_types.specs.NameSets.{has_name, with_name};
ghost use Rattle.feature_lines.specs.declared.fault.LicenceFault.TheVariants.{NoMemory};

use crate::fault::LicenceFault;
use lic_types::Name;
use std::collections::BTreeSet;

/// Adds the name of a FEATURE line to those of the lines before it, and says whether none of them has it.
pub(crate) fn add_name(names: &mut BTreeSet<Name>, name: Name) -> Result<bool, LicenceFault>
    ensures ok { IfOk result (λ is_first. is_first ≡ not (has_name name names.old.keys)) }
    ensures names { OnOk result (names.new.keys ≡ with_name names.old.keys name) }
    ensures same { IfOk result (λ is_first. OnFalse is_first (names.new.keys ≡ names.old.keys)) }
    ensures err { IfErr result (λ fault. fault ≡ NoMemory) }
{
    Ok(names.insert(name)?)
}
