ghost use Rattle.std.specs.Prelude.{◌≡◌, ◌<◌, ◌↔◌, IfSome, find, length, false};
ghost use Rattle.std.specs.List.{list_any, position_from};
ghost use Rattle.std.specs.Option.{option_map};
ghost use Rattle.feature_lines.specs.Route.{IsThere, is_good, is_new_enough, route, serves};
ghost use Rattle.feature_lines.specs.declared.route.Found.TheVariants.{Unknown};

use crate::pool::Pool;
use lic_types::{Day, Expiry, Name, Version};

/// Which pool serves a checkout.
#[derive(Clone, Copy, Debug, PartialEq, Eq)]
pub enum Found {
    /// The pool of this place, from 0.
    Pool(usize),
    /// No pool of that name has such a version.
    Unknown,
    /// All pools that would do have expired, the first of them at the end of this day.
    Expired(Day),
}

/// The seconds of a day.
const DAY: i64 = 86400;

/// Whether an expiry has not passed at a moment: a pool is good to the end of its day in UTC.
fn is_good(expiry: &Expiry, moment: u64) -> bool
    ensures { result ≡ is_good moment expiry.now }
{
    match expiry {
        Expiry::Never => true,
        Expiry::On(day) => {
            let end = (i64::from(day.number) + 1) * DAY;
            end >= 0 && moment < end as u64
        }
    }
}

/// Whether a pool is of the name, and of at least the version.
fn is_new_enough(name: &Name, version: Version, pool: &Pool) -> bool
    ensures { result ≡ is_new_enough name.now version.key pool.now }
{
    pool.name == *name && version.key <= pool.version.key
}

/// The place of the first pool that serves the checkout.
fn serving(pools: &[Pool], name: &Name, version: Version, moment: u64) -> Option<usize>
    ensures { result ≡ position_from (serves name.now version.key moment) 0 pools.now }
{
    pools.iter().position(|pool| is_new_enough(name, version, pool)
        && is_good(&pool.expiry, moment))
}

/// The expiry of the first pool that is of the name and of at least the version.
fn first_expiry(pools: &[Pool], name: &Name, version: Version) -> Option<Expiry>
    ensures { result ≡ option_map (λ (p : Pool). p.expiry) (find (is_new_enough name.now version.key) pools.now) }
{
    pools
        .iter()
        .find(|pool| is_new_enough(name, version, pool))
        .map(|pool| pool.expiry)
}

/// Which of some pools serves a checkout at a moment, in seconds since 1970-01-01 UTC: the first that is of the name,
/// of at least the version, and good at that moment. Where all that are of the name and new enough have expired, the
/// answer has the expiry of the first of them. The rule is this project's own.
pub fn find_pool(pools: &[Pool], name: &Name, version: Version, moment: u64) -> Found
    ensures found { result ≡ route pools.now name.now version.key moment }
    ensures there { IsThere (length pools.now) result }
    ensures unknown { (result ≡ Unknown) ↔ (list_any (is_new_enough name.now version.key) pools.now ≡ false) }
{
    if let Some(at) = serving(pools, name, version, moment) {
        return Found::Pool(at);
    }
    match first_expiry(pools, name, version) {
        Some(Expiry::On(day)) => Found::Expired(day),
        Some(Expiry::Never) => Found::Unknown,
        None => Found::Unknown,
    }
}
