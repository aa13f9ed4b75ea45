ghost use Rattle.std.specs.Prelude.{◌≡◌, ◌<◌, length, IfErr, IfSome, OnOk, Ok};
ghost use Rattle.feature_lines.specs.declared.fault.LicenceFault.TheVariants.{NoMemory};
ghost use Rattle.std.specs.List.{position_from};
ghost use Rattle.lic_text.specs.Reads.{IsFaultOf};
ghost use Rattle.feature_lines.specs.Draft.{sofar_of};
ghost use Rattle.feature_lines.specs.Licence.{date_of, fault_told, line_key, pool_key, pool_with, same_date, same_key};
ghost use Rattle.feature_lines.specs.Steps.{pools_with_line, counted_or_locked, sofar_with_note, sofar_after_line, after_feature};

use crate::fault::LicenceFault;
use crate::line::{FeatureLine, Said};
use crate::names::add_name;
use crate::pool::Pool;
use lic_types::{Expiry, LICENCE_LIMIT, Name, Note, NoteKind};
use std::collections::BTreeSet;

/// The most pools that a licence may have.
const POOL_LIMIT: usize = 64;

/// What the lines so far say.
#[derive(Drop)]
pub struct Draft {
    pub pools: Vec<Pool>,
    pub notes: Vec<Note>,
    /// The names of the FEATURE lines so far, each once.
    pub features: BTreeSet<Name>,
}

/// Whether two expiries are of the same date, or are both never.
fn same_expiry(a: &Expiry, b: &Expiry) -> bool
    ensures { result ≡ same_date (date_of a.now) (date_of b.now) }
{
    match (a, b) {
        (Expiry::Never, Expiry::Never) => true,
        (Expiry::On(a), Expiry::On(b)) => {
            a.year == b.year && a.month == b.month && a.day == b.day
        }
        (Expiry::Never, Expiry::On(_)) => false,
        (Expiry::On(_), Expiry::Never) => false,
    }
}

/// Whether a line is one of the pool.
fn is_of(feature: &FeatureLine, pool: &Pool) -> bool
    ensures { result ≡ same_key (line_key feature.now) (pool_key pool.now) }
{
    feature.name == pool.name
        && feature.version.key == pool.version.key
        && same_expiry(&feature.expiry, &pool.expiry)
}

/// The place of the pool of a line.
fn place_of(feature: &FeatureLine, pools: &[Pool]) -> Option<usize>
    ensures place { result ≡ position_from (λ pool. same_key (line_key feature.now) (pool_key pool)) 0 pools.now }
    ensures within { IfSome result (λ at. at < length pools.now) }
{
    pools.iter().position(|pool| is_of(feature, pool))
}

/// The pool of which a line is the first.
fn first_pool(feature: &FeatureLine) -> Pool
    ensures { result ≡ pool_with feature.now.count feature.now }
{
    Pool {
        name: feature.name,
        version: feature.version,
        version_text: feature.version_text,
        vendor: feature.vendor,
        expiry: feature.expiry,
        count: u32::from(feature.count),
        line: feature.line,
    }
}

/// Adds the count of a line to its pool, or makes that pool.
fn add(pools: &mut Vec<Pool>, feature: &FeatureLine) -> Result<(), LicenceFault>
    ensures ok { OnOk result (pools_with_line feature.now pools.old.items ≡ Ok pools.new.items) }
    ensures err { IfErr result (IsFaultOf fault_told (pools_with_line feature.now pools.old.items)) }
{
    let Some(at) = place_of(feature, pools.as_slice()) else {
        if pools.len() >= POOL_LIMIT {
            return Err(LicenceFault::TooManyPools(feature.line));
        }
        pools.push(first_pool(feature))?;
        return Ok(());
    };
    let more = u32::from(feature.count);
    if pools[at].count > LICENCE_LIMIT - more {
        return Err(LicenceFault::BadCount(feature.line));
    }
    pools[at].count += more;
    Ok(())
}

/// Notes something of a line.
fn note(draft: &mut Draft, line: u32, kind: NoteKind) -> Result<(), LicenceFault>
    ensures ok { OnOk result (sofar_of draft.new ≡ sofar_with_note line kind (sofar_of draft.old)) }
    ensures err { IfErr result (λ fault. fault ≡ NoMemory) }
{
    draft.notes.push(Note { line, kind })?;
    Ok(())
}

/// Takes a line whose name no FEATURE line before it has, or that is an INCREMENT line.
fn count_or_lock(draft: &mut Draft, feature: &FeatureLine) -> Result<(), LicenceFault>
    ensures ok { OnOk result (counted_or_locked (sofar_of draft.old) feature.now ≡ Ok (sofar_of draft.new)) }
    ensures err { IfErr result (IsFaultOf fault_told (counted_or_locked (sofar_of draft.old) feature.now)) }
{
    if feature.count == 0 {
        return note(draft, feature.line, NoteKind::NodeLocked);
    }
    add(&mut draft.pools, feature)
}

/// Takes a FEATURE or INCREMENT line.
fn take_feature(draft: &mut Draft, feature: &FeatureLine) -> Result<(), LicenceFault>
    ensures ok { OnOk result (after_feature (sofar_of draft.old) feature.now ≡ Ok (sofar_of draft.new)) }
    ensures err { IfErr result (IsFaultOf fault_told (after_feature (sofar_of draft.old) feature.now)) }
{
    if feature.is_feature {
        let is_first = add_name(&mut draft.features, feature.name)?;
        if !is_first {
            return note(draft, feature.line, NoteKind::SecondFeature);
        }
    }
    count_or_lock(draft, feature)
}

/// Takes what the next line says.
pub(crate) fn take(draft: &mut Draft, said: &Said) -> Result<(), LicenceFault>
    ensures ok { OnOk result (sofar_after_line (sofar_of draft.old) (Ok said.now) ≡ Ok (sofar_of draft.new)) }
    ensures err { IfErr result (IsFaultOf fault_told (sofar_after_line (sofar_of draft.old) (Ok said.now))) }
{
    match said {
        Said::Nothing => Ok(()),
        Said::NotServed(line) => note(draft, *line, NoteKind::NotServed),
        Said::Feature(feature) => take_feature(draft, feature),
    }
}
