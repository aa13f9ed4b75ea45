//! Which pool a request goes to.
ghost use Rattle.std.specs.Prelude.{◌≡◌, ◌<◌, ℕ, List, IfSome, length};
ghost use Rattle.office_view.specs.View.{first_named};
ghost use Rattle.feature_lines.specs.Route.{IsThere};
ghost use Rattle.session.specs.Acts.{Act};
ghost use Rattle.session.specs.Did.{Agrees};
ghost use Rattle.session.specs.Places.{IsPlaceIn, kept_at};
ghost use Rattle.session.specs.Table.{Setup, found_by_route, found_or, kept_pool, or_else};

use crate::asked::Whom;
use crate::asking::is_meant;
use counter::Counter;
use feature_lines::Found;
use lic_types::{NameRef, Version};
use office_view::OfficeView;

/// Which pool of a name a session's request means.
#[derive(Drop)]
enum Place {
    /// The first of the name at which the session is holding or queued.
    Kept(usize),
    /// The first of the name, if it has any: the session is holding or queued at none of them.
    First(Option<usize>),
}

/// The first pool of the name at which the session is holding or queued; where there is none, the first of the name.
fn kept_pool<C: Counter>(office: &OfficeView<C::Desk>, pass: &[C], name: &NameRef<'_>) -> Place
    requires { length pass.now ≡ length office.now.pools }
    ensures pool { (o : Setup) (before : List Act) → Agrees C.account office.now o before pass.now → kept_at result ≡ kept_pool o before name.now }
    ensures place { IsPlaceIn office.now.pools name.now result }
{
    let first = office.first(name);
    let mut next = first;
    while let Some(i) = next {
        if is_meant(Whom::Keeping, &pass[i]) {
            return Place::Kept(i);
        }
        next = office.next(i);
    }
    Place::First(first)
}

/// Where a request goes whose session keeps no place at a pool of its name, of which this is the first.
fn routed<D>(
    office: &OfficeView<D>,
    first: Option<usize>,
    at: u64,
    version: Option<Version>,
) -> Found
    requires { (name : List ℕ) × (first ≡ first_named office.now.pools name) }
    ensures found { (name : List ℕ) → first ≡ first_named office.now.pools name → result ≡ found_by_route office.now.pools name at version }
    ensures there { IsThere (length office.now.pools) result }
{
    match (first, version) {
        (None, _) => Found::Unknown,
        (Some(i), None) => Found::Pool(i),
        (Some(i), Some(version)) => office.route(i, version, at),
    }
}

/// Where a feature request goes.
pub(crate) fn find<C: Counter>(
    office: &OfficeView<C::Desk>,
    pass: &[C],
    name: &NameRef<'_>,
    at: u64,
    version: Option<Version>,
) -> Found
    requires { length pass.now ≡ length office.now.pools }
    ensures found { (o : Setup) (before : List Act) → Agrees C.account office.now o before pass.now → result ≡ found_or (kept_pool o before name.now) (found_by_route o.pools name.now at version) }
    ensures there { IsThere (length office.now.pools) result }
{
    match kept_pool(office, pass, name) {
        Place::Kept(i) => Found::Pool(i),
        Place::First(first) => routed(office, first, at, version),
    }
}

/// Where a glance goes.
pub(crate) fn find_shown<C: Counter>(
    office: &OfficeView<C::Desk>,
    pass: &[C],
    name: &NameRef<'_>,
) -> Option<usize>
    requires { length pass.now ≡ length office.now.pools }
    ensures found { (o : Setup) (before : List Act) → Agrees C.account office.now o before pass.now → result ≡ or_else (kept_pool o before name.now) (first_named o.pools name.now) }
    ensures within { IfSome result (λ i. i < length office.now.pools) }
{
    match kept_pool(office, pass, name) {
        Place::Kept(i) => Some(i),
        Place::First(first) => first,
    }
}
