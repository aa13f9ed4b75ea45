//! What a membership says, and the order in which memberships are looked up.
ghost use Rattle.std.specs.Prelude.{◌≡◌};
ghost use Rattle.group_roster.specs.Listings.{group_print, listing_cmp, member_listing, print_after};

use lic_types::Name;
use std::cmp::Ordering;
use std::marker::Model;

/// By what a print is multiplied for each byte: a multiplier of Knuth's for numbers of 64 bits.
const FACTOR: u64 = 6_364_136_223_846_793_005;

/// What a membership says: the bytes of the member's name, whether it is a host, and the bytes of the group's name. Its
/// print is a number made of them, which differs for most that differ.
#[derive(Drop)]
pub(crate) struct Listing<'a> {
    pub(crate) print: u64,
    pub(crate) member: &'a [u8],
    pub(crate) of_hosts: bool,
    pub(crate) group: &'a [u8],
}

impl<'a> Model for Listing<'a> {
    ghost use Rattle.group_roster.specs.Listings.{ListingOf};

    ghost Value = { ListingOf };

    ghost view = { λ l. record { print = l.print; member = l.member.now; of_hosts = l.of_hosts; group = l.group.now } };
}

/// The print of bytes that stand behind others, of which this is the print.
pub(crate) fn print_after(print: u64, bytes: &[u8]) -> u64
    ensures { result ≡ print_after print bytes.now }
{
    let mut after = print;
    for byte in bytes {
        after = after.wrapping_mul(FACTOR).wrapping_add(u64::from(*byte));
    }
    after
}

/// The print of a group: of users, or where `of_hosts`, of hosts.
pub(crate) fn group_print(of_hosts: bool, group: &Name) -> u64
    ensures { result ≡ group_print of_hosts group.now }
{
    let kind = if of_hosts { 1 } else { 0 };
    print_after(kind, group.bytes())
}

/// The print of a membership, by that of its group.
pub(crate) fn member_print(of_group: u64, member: &Name) -> u64
    ensures { result ≡ print_after of_group member.now }
{
    print_after(of_group, member.bytes())
}

/// What is sought where it is asked whether the group, of users, or where `of_hosts`, of hosts, has the member.
pub(crate) fn listed<'a>(of_hosts: bool, group: &'a Name, member: &'a Name) -> Listing<'a>
    ensures { result ≡ member_listing of_hosts group.now member.now }
{
    Listing {
        print: member_print(group_print(of_hosts, group), member),
        member: member.bytes(),
        of_hosts,
        group: group.bytes(),
    }
}

impl Listing<'_> {
    /// The order of listings: by their prints, and those of one print by the member's name, users before hosts, and
    /// then by the group's name.
    pub(crate) fn order(&self, other: &Listing<'_>) -> Ordering
        ensures { result ≡ listing_cmp self.now other.now }
    {
        match self.print.cmp(&other.print) {
            Ordering::Equal => {}
            unequal => return unequal,
        }
        match self.member.cmp(other.member) {
            Ordering::Equal => {}
            unequal => return unequal,
        }
        match self.of_hosts.cmp(&other.of_hosts) {
            Ordering::Equal => self.group.cmp(other.group),
            unequal => unequal,
        }
    }
}
