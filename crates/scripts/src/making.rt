ghost use Rattle.std.specs.Prelude.{◌≡◌, ◌<◌, ◌≤◌, ℕ, IfOk, length, map};
ghost use Rattle.options_machine.specs.Rules.{IsSound};
ghost use Rattle.options_machine.specs.State.{set_at};
ghost use Rattle.policy.specs.Pools.{rules_of};
ghost use Rattle.scripts.specs.PoolRuns.{run_of};

use crate::pool_run::{PARTIES, PoolRun};
use feature_lines::Pool;
use lic_types::{NoMemory, PARTY_LIMIT};
use options_text::Options;
use policy::DeskRules;
use seat_book::Book;
use std::alloc::Global;

/// The rule sets of a pool, one for each options file.
fn sets_of(alloc: Global, pool: &Pool, options: &[Options]) -> Result<Vec<DeskRules>, NoMemory>
    ensures rules { IfOk result (λ sets. sets.items ≡ map (rules_of pool.now) options.now) }
    ensures sound { IfOk result (λ sets. (n : ℕ) → n < length sets.items → IsSound (set_at sets.items n)) }
{
    let mut sets = Vec::new(alloc);
    for file in options {
        sets.push(DeskRules::of(alloc, file, pool)?)?;
    }
    Ok(sets)
}

fn make_run(alloc: Global, pool: &Pool, options: &[Options]) -> Result<PoolRun, NoMemory>
    requires some { 0 < length options.now }
    requires few { length options.now ≤ 4 }
    ensures { IfOk result (λ run. run ≡ run_of options.now pool.now) }
{
    let sets = sets_of(alloc, pool, options)?;
    let book = Book::make_many(alloc, sets, PARTY_LIMIT)?;
    Ok(PoolRun {
        pool: *pool,
        book,
        entries: 0,
        places: [false; PARTIES],
    })
}

/// One run for each pool, in their order, with one rule set for each options file. All memory for a script is taken
/// here.
pub(crate) fn make_runs(
    alloc: Global,
    pools: &[Pool],
    options: &[Options],
) -> Result<Vec<PoolRun>, NoMemory>
    requires some { 0 < length options.now }
    requires few { length options.now ≤ 4 }
    ensures { IfOk result (λ runs. runs.items ≡ map (run_of options.now) pools.now) }
{
    let mut runs = Vec::new(alloc);
    for pool in pools {
        runs.push(make_run(alloc, pool, options)?)?;
    }
    Ok(runs)
}
