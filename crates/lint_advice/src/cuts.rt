//! The RESERVE lines that the pools of a licence cut.
ghost use Rattle.std.specs.Prelude.{◌≡◌, ◌++◌, IfOk, OnOk, map};
ghost use Rattle.options_machine.specs.Rules.{cuts_of};
ghost use Rattle.policy.specs.Pools.{rules_of};
ghost use Rattle.lint_advice.specs.Cuts.{at_pool, cuts_from};

use feature_lines::Pool;
use lic_types::NoMemory;
use options_machine::Cut;
use options_text::Options;
use policy::cuts_at;
use std::alloc::Global;

/// A RESERVE line that a pool cuts.
#[derive(Clone, Copy)]
pub struct PoolCut {
    /// The number of the pool, from 0.
    pub pool: usize,
    /// The line, and how many licences it keeps there.
    pub cut: Cut,
}

/// Adds the cuts of the pool of this number.
fn add_cuts(found: &mut Vec<PoolCut>, pool: usize, cuts: &[Cut]) -> Result<(), NoMemory>
    ensures { OnOk result (found.new.items ≡ found.old.items ++ map (at_pool pool) cuts.now) }
{
    for cut in cuts {
        found.push(PoolCut { pool, cut: *cut })?;
    }
    Ok(())
}

/// The cuts of all pools, which are numbered from 0: pool by pool, and at each in the order of the lines.
pub fn cuts_of_pools(
    alloc: Global,
    options: &Options,
    pools: &[Pool],
) -> Result<Vec<PoolCut>, NoMemory>
    ensures { IfOk result (λ found. found.items ≡ cuts_from options.now 0 pools.now) }
{
    let mut found = Vec::new(alloc);
    for (at, pool) in pools.iter().enumerate() {
        let cuts = cuts_at(alloc, options, pool)?;
        add_cuts(&mut found, at, cuts.as_slice())?;
    }
    Ok(found)
}
