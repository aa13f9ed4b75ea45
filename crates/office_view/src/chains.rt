//! How the pools of a name are found among all pools.
ghost use Rattle.std.specs.Prelude.{◌≡◌, ℕ, ◌<◌, ◌+◌, IfOk, IfSome, length, get_or};
ghost use Rattle.feature_lines.specs.declared.pool.Pool.{Pool};
ghost use Rattle.office_view.specs.Chains.{AreChained, bucket_of, chained_from};
ghost use Rattle.office_view.specs.View.{first_named, named_from};

use feature_lines::Pool;
use group_roster::name_print;
use lic_types::{NameRef, same_bytes};
use no_memory::NoMemory;
use std::alloc::Global;

/// How many buckets there are for each pool: so few names share theirs.
const BUCKETS_EACH: usize = 4;

/// The pools by buckets of their names, so that those of one name are found by a few looks.
#[derive(Drop)]
pub(crate) struct Chains {
    /// Of each bucket its first pool.
    heads: Vec<Option<usize>>,
    /// Of each pool the next of its bucket.
    nexts: Vec<Option<usize>>,
}

/// The bucket of a name, among so many.
fn bucket_of(name: &[u8], buckets: usize) -> usize
    requires { 0 < buckets }
    ensures bucket { result ≡ bucket_of buckets name.now }
    ensures within { result < buckets }
{
    (name_print(name) % buckets as u64) as usize
}

impl Chains {
    /// The chains of these pools. It is refused only where there is too little memory.
    pub(crate) fn of(alloc: Global, pools: &[Pool]) -> Result<Chains, NoMemory>
        ensures { IfOk result (λ made. AreChained made.heads.items made.nexts.items pools.now) }
    {
        let buckets = pools.len().saturating_mul(BUCKETS_EACH).saturating_add(1);
        let mut heads = vec![in alloc; None; buckets]?;
        let mut nexts = vec![in alloc; None; pools.len()]?;
        for i in (0..pools.len()).rev() {
            let bucket = bucket_of(pools[i].name.bytes(), buckets);
            nexts[i] = heads[bucket];
            heads[bucket] = Some(i);
        }
        Ok(Chains { heads, nexts })
    }

    /// The first pool of a name among those that a chain leads to from here on.
    fn named_in(&self, pools: &[Pool], start: Option<usize>, name: &[u8]) -> Option<usize>
        requires chained { AreChained self.now.heads.items self.now.nexts.items pools.now }
        requires there { IfSome start (λ i. i < length pools.now) }
        ensures { (from : ℕ) → start ≡ chained_from (length self.now.heads.items) (bucket_of (length self.now.heads.items) name.now) pools.now from → result ≡ named_from pools.now name.now from }
    {
        let mut at = start;
        while let Some(i) = at {
            if same_bytes(pools[i].name.bytes(), name) {
                return Some(i);
            }
            at = self.nexts[i];
        }
        None
    }

    /// The first pool of a name.
    pub(crate) fn first(&self, pools: &[Pool], name: &NameRef<'_>) -> Option<usize>
        requires { AreChained self.now.heads.items self.now.nexts.items pools.now }
        ensures { result ≡ first_named pools.now name.now }
    {
        let name = name.bytes();
        let bucket = bucket_of(name, self.heads.len());
        self.named_in(pools, self.heads[bucket], name)
    }

    /// The next pool that has the name of this one.
    pub(crate) fn next(&self, pools: &[Pool], i: usize) -> Option<usize>
        requires chained { AreChained self.now.heads.items self.now.nexts.items pools.now }
        requires there { i < length pools.now }
        ensures { (p : Pool) → result ≡ named_from pools.now (get_or pools.now i p).name (i + 1) }
    {
        self.named_in(pools, self.nexts[i], pools[i].name.bytes())
    }
}
