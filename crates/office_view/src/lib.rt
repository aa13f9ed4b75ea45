//! The pools of a licence with one desk each, as a session sees them.
#![tactic(auto)]

mod chains;
mod pool_list;

ghost use Rattle.std.specs.Prelude.{◌≡◌, ◌<◌, ◌+◌, IfSome, Some, get_or, length, vec_len};
ghost use Rattle.feature_lines.specs.Route.{IsThere, route};
ghost use Rattle.feature_lines.specs.declared.pool.Pool.{Pool};
ghost use Rattle.office_view.specs.View.{first_named, named_from};

use feature_lines::{Found, Pool};
use lic_types::{NameRef, Version};
pub use pool_list::PoolList;
use std::marker::Model;

/// The pools in the order of the licence file, one desk for each, and the number of rule sets that each desk has.
#[derive(Drop)]
pub struct OfficeView<D> {
    pools: PoolList,
    desks: Vec<D>,
    sets: u32,
}

impl<D> Model for OfficeView<D> {
    ghost use Rattle.office_view.specs.View.{IsView, View};

    ghost Value = { View D };

    ghost view = { λ o. record { pools = o.pools; desks = o.desks.items; sets = o.sets } };

    ghost invariant = { λ o. IsView o.pools o.desks.items };
}

impl<D> OfficeView<D> {
    /// These pools and these desks.
    pub fn of(pools: PoolList, desks: Vec<D>, sets: u32) -> OfficeView<D>
        requires { length pools ≡ vec_len desks }
        ensures { result ≡ record { pools = pools; desks = desks.items; sets = sets } }
    {
        OfficeView { pools, desks, sets }
    }

    /// The pools.
    pub fn pools(&self) -> &[Pool]
        ensures pools { result.now ≡ self.now.pools }
        ensures desks { length self.now.desks ≡ length self.now.pools }
    {
        self.pools.as_slice()
    }

    /// The desk of a pool.
    pub fn desk(&self, i: usize) -> &D
        requires { i < length self.now.pools }
        ensures { result.now ≡ get_or self.now.desks i result.now }
    {
        &self.desks[i]
    }

    /// The desks alone, to be closed.
    pub fn into_desks(self) -> Vec<D>
        ensures { result.items ≡ self.desks }
    {
        self.desks
    }

    /// The number of rule sets.
    pub fn sets(&self) -> u32
        ensures { result ≡ self.now.sets }
    {
        self.sets
    }

    /// The first pool of a name.
    pub fn first(&self, name: &NameRef<'_>) -> Option<usize>
        ensures first { result ≡ first_named self.now.pools name.now }
        ensures there { IfSome result (λ i. i < length self.now.pools) }
    {
        self.pools.first(name)
    }

    /// The next pool that has the name of the one at this place.
    pub fn next(&self, i: usize) -> Option<usize>
        requires { i < length self.now.pools }
        ensures next { (p : Pool) → result ≡ named_from self.now.pools (get_or self.now.pools i p).name (i + 1) }
        ensures there { IfSome result (λ j. j < length self.now.pools) }
    {
        self.pools.next(i)
    }

    /// The pool that serves a checkout at a moment, in seconds since 1970-01-01 UTC, of the name of which this pool is
    /// the first, as [`first`](OfficeView::first) told.
    pub fn route(&self, first: usize, version: Version, moment: u64) -> Found
        requires there { first < length self.now.pools }
        requires first { (p : Pool) → first_named self.now.pools (get_or self.now.pools first p).name ≡ Some first }
        ensures found { (p : Pool) → result ≡ route self.now.pools (get_or self.now.pools first p).name version.key moment }
        ensures there { IsThere (length self.now.pools) result }
    {
        self.pools.route(first, version, moment)
    }
}
