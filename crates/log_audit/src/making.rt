//! The desks at which a log is judged.
ghost use Rattle.std.specs.Prelude.{◌≡◌, ◌<◌, ◌≤◌, ℕ, IfOk, length, map};
ghost use Rattle.std.specs.List.{AllByRecursion};
ghost use Rattle.options_machine.specs.Rules.{IsSound};
ghost use Rattle.options_machine.specs.State.{set_at};
ghost use Rattle.policy.specs.Pools.{rules_of};
ghost use Rattle.log_audit.specs.Kept.{HasLawfulSets, desk_of};

use crate::days::Days;
use crate::desk::Desk;
use feature_lines::Pool;
use lic_types::PARTY_LIMIT;
use no_memory::NoMemory;
use options_text::Options;
use policy::{DeskRules, PlainBook};
use std::alloc::Global;

/// The rule sets of a pool, one for each options file.
fn sets_of(alloc: Global, pool: &Pool, options: &[Options]) -> Result<Vec<DeskRules>, NoMemory>
    ensures rules { IfOk result (λ sets. sets.items ≡ map (rules_of pool.now) options.now) }
    ensures sound { IfOk result (λ sets. (n : ℕ) → n < length sets.items → IsSound (set_at sets.items n)) }
{
    let mut sets = Vec::new(alloc);
    for file in options {
        sets.push(DeskRules::of(alloc, file, pool)?)?;
    }
    Ok(sets)
}

fn make_desk(alloc: Global, pool: &Pool, options: &[Options]) -> Result<Desk, NoMemory>
    requires some { 0 < length options.now }
    requires few { length options.now ≤ 4 }
    ensures desk { IfOk result (λ desk. desk ≡ desk_of options.now pool.now) }
    ensures lawful { IfOk result HasLawfulSets }
{
    let sets = sets_of(alloc, pool, options)?;
    let book = PlainBook::make_many(alloc, sets, PARTY_LIMIT)?;
    Ok(Desk {
        book,
        entries: 0,
        days: Days::new(alloc),
    })
}

/// One desk for each pool, in their order, with one rule set for each options file.
pub(crate) fn make_desks(
    alloc: Global,
    pools: &[Pool],
    options: &[Options],
) -> Result<Vec<Desk>, NoMemory>
    requires some { 0 < length options.now }
    requires few { length options.now ≤ 4 }
    ensures desks { IfOk result (λ desks. desks.items ≡ map (desk_of options.now) pools.now) }
    ensures lawful { IfOk result (λ desks. AllByRecursion HasLawfulSets desks.items) }
{
    let mut desks = Vec::new(alloc);
    for pool in pools {
        desks.push(make_desk(alloc, pool, options)?)?;
    }
    Ok(desks)
}
