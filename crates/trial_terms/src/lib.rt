//! What a trial serves: a licence of one pool, and an options file without lines.
#![tactic(auto)]

ghost use Rattle.std.specs.Prelude.{◌≡◌, ◌≤◌, ◌∷◌, [], IfOk, string_bytes};
ghost use Rattle.lic_types.specs.declared.limits.TheConstants.{LICENCE_LIMIT};
ghost use Rattle.trial_terms.specs.Terms.{licence_text, no_options, trial_pool};

use feature_lines::{Licence, LicenceFault, read_licence};
use no_memory::NoMemory;
use options_text::{Options, OptionsFault, read_options};
use std::alloc::{AllocError, Global};

/// The text of the licence: one line, without an LF.
fn licence_text(alloc: Global, seats: u32) -> Result<String, AllocError>
    ensures { IfOk result (λ text. string_bytes text ≡ licence_text seats) }
{
    format!(in alloc; "FEATURE trial v 1.0 permanent {seats}")
}

/// The licence of a trial with so many seats, 1 to 65,535: the file `FEATURE trial v 1.0 permanent n`, read as any
/// other. It has one pool, of the feature `trial`, the vendor `v`, the version 1.0 and these seats, which never
/// expires. It fails where memory ran out. The trial is this project's own.
pub fn trial_licence(alloc: Global, seats: u32) -> Result<Licence, NoMemory>
    requires { (1 ≤ seats) × (seats ≤ LICENCE_LIMIT) }
    ensures { IfOk result (λ licence. licence.pools ≡ trial_pool seats ∷ []) }
{
    let text = licence_text(alloc, seats)?;
    match read_licence(alloc, text.as_bytes()) {
        Ok(licence) => Ok(licence),
        Err(fault) => {
            prove!(matches!(&fault, LicenceFault::NoMemory));
            Err(NoMemory)
        }
    }
}

/// The options of a trial: those of an empty file. It fails where memory ran out.
pub fn trial_options(alloc: Global) -> Result<Options, NoMemory>
    ensures { IfOk result (λ options. options ≡ no_options) }
{
    match read_options(alloc, b"") {
        Ok(options) => Ok(options),
        Err(fault) => {
            prove!(matches!(&fault, OptionsFault::NoMemory));
            Err(NoMemory)
        }
    }
}
