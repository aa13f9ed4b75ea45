//! The pools of a licence, which are found by name.
ghost use Rattle.std.specs.Prelude.{◌≡◌, ◌<◌, ◌+◌, IfOk, IfSome, Some, length, get_or};
ghost use Rattle.feature_lines.specs.Route.{IsThere, route};
ghost use Rattle.feature_lines.specs.declared.pool.Pool.{Pool};
ghost use Rattle.office_view.specs.View.{first_named, named_from};

use crate::chains::Chains;
use feature_lines::{Found, Pool, find_pool};
use lic_types::{NameRef, Version};
use no_memory::NoMemory;
use std::alloc::Global;
use std::marker::Model;

/// The pools in the order of the licence file, which a clause sees as their list. Those of one name are found by a few
/// looks, however many pools there are.
#[derive(Drop)]
pub struct PoolList {
    pools: Vec<Pool>,
    chains: Chains,
}

impl Model for PoolList {
    ghost use Rattle.std.specs.Prelude.{List};
    ghost use Rattle.feature_lines.specs.declared.pool.Pool.{Pool};
    ghost use Rattle.office_view.specs.Chains.{AreChained};

    ghost Value = { List Pool };

    ghost view = { λ l. l.pools.items };

    ghost invariant = { λ l. AreChained l.chains.heads.items l.chains.nexts.items l.pools.items };
}

impl PoolList {
    /// The list of these pools. It is refused only where there is too little memory.
    pub fn of(alloc: Global, pools: Vec<Pool>) -> Result<PoolList, NoMemory>
        ensures { IfOk result (λ made. made ≡ pools.items) }
    {
        let chains = Chains::of(alloc, pools.as_slice())?;
        Ok(PoolList { pools, chains })
    }

    /// The pools.
    pub fn as_slice(&self) -> &[Pool]
        ensures { result.now ≡ self.now }
    {
        self.pools.as_slice()
    }

    /// The first pool of a name.
    pub fn first(&self, name: &NameRef<'_>) -> Option<usize>
        ensures first { result ≡ first_named self.now name.now }
        ensures there { IfSome result (λ i. i < length self.now) }
    {
        self.chains.first(self.pools.as_slice(), name)
    }

    /// The next pool that has the name of the one at this place.
    pub fn next(&self, i: usize) -> Option<usize>
        requires { i < length self.now }
        ensures next { (p : Pool) → result ≡ named_from self.now (get_or self.now i p).name (i + 1) }
        ensures there { IfSome result (λ j. j < length self.now) }
    {
        self.chains.next(self.pools.as_slice(), i)
    }

    /// The pool that serves a checkout at a moment, in seconds since 1970-01-01 UTC, of the name of which this pool is
    /// the first, as [`first`](PoolList::first) told.
    pub fn route(&self, first: usize, version: Version, moment: u64) -> Found
        requires there { first < length self.now }
        requires first { (p : Pool) → first_named self.now (get_or self.now first p).name ≡ Some first }
        ensures found { (p : Pool) → result ≡ route self.now (get_or self.now first p).name version.key moment }
        ensures there { IsThere (length self.now) result }
    {
        let name = &self.pools[first].name;
        match find_pool(&self.pools[first..], name, version, moment) {
            Found::Pool(i) => Found::Pool(first + i),
            other => other,
        }
    }
}
