//! The groups of an options file, and their memberships in order.
ghost use Rattle.std.specs.Prelude.{◌≡◌, ◌++◌, IfOk, OnOk, IsPermutation};
ghost use Rattle.std.specs.List.{list_any};
ghost use Rattle.std.specs.List.Sorted.{IsSortedBy};
ghost use Rattle.std.specs.Ordering.{is_eq, is_lt};
ghost use Rattle.group_roster.specs.Listings.{listing_cmp};
ghost use Rattle.group_roster.specs.Rosters.{listing_at, lists, memberships, memberships_of};

use crate::listing::{Listing, group_print, listed, member_print};
use lic_types::{Group, Name};
use no_memory::NoMemory;
use std::alloc::{AllocError, Global};
use std::cmp::Ordering;
use std::marker::Model;
use std::sync::Arc;

/// A member of a group line: its print, and the places of both, from 0: that of the line among its file's, and that of
/// the member among the line's.
#[derive(Clone, Copy)]
struct Membership {
    print: u64,
    group: usize,
    member: usize,
}

/// What the membership says; nothing but empty names where there is no such member.
fn listing_at<'a>(groups: &'a [Group], membership: &Membership) -> Listing<'a>
    ensures { result ≡ listing_at groups.now membership.now }
{
    let Some(group) = groups.get(membership.group) else {
        return Listing {
            print: membership.print,
            member: b"",
            of_hosts: false,
            group: b"",
        };
    };
    let member = match group.members().get(membership.member) {
        Some(name) => name.bytes(),
        None => b"",
    };
    Listing {
        print: membership.print,
        member,
        of_hosts: group.of_hosts(),
        group: group.name().bytes(),
    }
}

/// The order of memberships, by what they say. Their names are looked at only where their prints are the same.
fn order(groups: &[Group], a: &Membership, b: &Membership) -> Ordering
    ensures { result ≡ listing_cmp (listing_at groups.now a.now) (listing_at groups.now b.now) }
{
    match a.print.cmp(&b.print) {
        Ordering::Equal => listing_at(groups, a).order(&listing_at(groups, b)),
        unequal => unequal,
    }
}

/// How what a membership says stands to what is sought.
fn order_to(groups: &[Group], membership: &Membership, sought: &Listing<'_>) -> Ordering
    ensures { result ≡ listing_cmp (listing_at groups.now membership.now) sought.now }
{
    match membership.print.cmp(&sought.print) {
        Ordering::Equal => listing_at(groups, membership).order(sought),
        unequal => unequal,
    }
}

/// Adds the memberships of a group line at this place, whose group has this print.
fn add_memberships(
    all: &mut Vec<Membership>,
    group: usize,
    of_group: u64,
    members: &[Name],
) -> Result<(), AllocError>
    ensures { OnOk result (all.new.items ≡ all.old.items ++ memberships_of group of_group 0 members.now) }
{
    for member in 0..members.len() {
        let print = member_print(of_group, &members[member]);
        all.push(Membership {
            print,
            group,
            member,
        })?;
    }
    Ok(())
}

/// The memberships of the groups, line by line.
fn memberships(alloc: Global, groups: &[Group]) -> Result<Vec<Membership>, AllocError>
    ensures { IfOk result (λ all. all.items ≡ memberships 0 groups.now) }
{
    let mut all = Vec::new(alloc);
    for group in 0..groups.len() {
        let line = &groups[group];
        let of_group = group_print(line.of_hosts(), line.name());
        add_memberships(&mut all, group, of_group, line.members())?;
    }
    Ok(all)
}

/// Puts memberships of the groups in the order of what they say.
fn put_in_order(groups: &[Group], all: &mut Vec<Membership>)
    ensures same { IsPermutation all.old.items all.new.items }
    ensures sorted { IsSortedBy (λ a b. is_lt (listing_cmp (listing_at groups.now a) (listing_at groups.now b))) all.new.items }
{
    all.sort_unstable_by(|a, b| order(groups, a, b));
}

/// Whether one of the memberships, which stand in the order of what they say, says this.
fn has(groups: &[Group], all: &[Membership], sought: &Listing<'_>) -> bool
    requires { IsSortedBy (λ a b. is_lt (listing_cmp (listing_at groups.now a) (listing_at groups.now b))) all.now }
    ensures { result ≡ list_any (λ m. is_eq (listing_cmp (listing_at groups.now m) sought.now)) all.now }
{
    all.binary_search_by(|m| order_to(groups, m, sought))
        .is_ok()
}

/// The groups of an options file, which a clause sees as their list, and their memberships in the order of what they
/// say.
#[derive(Drop)]
struct Members {
    groups: Vec<Group>,
    order: Vec<Membership>,
}

impl Model for Members {
    ghost use Rattle.std.specs.Prelude.{List};
    ghost use Rattle.lic_types.specs.Groups.{GroupLine};
    ghost use Rattle.group_roster.specs.Rosters.{IsInOrder};

    ghost Value = { List GroupLine };

    ghost view = { λ m. m.groups.items };

    ghost invariant = { λ m. IsInOrder m.groups.items m.order.items };
}

impl Members {
    /// These groups, with their memberships in order.
    fn of(alloc: Global, groups: Vec<Group>) -> Result<Members, AllocError>
        ensures { IfOk result (λ made. made ≡ groups.items) }
    {
        let mut order = memberships(alloc, groups.as_slice())?;
        put_in_order(groups.as_slice(), &mut order);
        Ok(Members { groups, order })
    }

    /// The groups, in their order.
    fn groups(&self) -> &[Group]
        ensures { result.now ≡ self.now }
    {
        self.groups.as_slice()
    }

    /// Whether one of the lines of the group lists the member.
    fn lists(&self, of_hosts: bool, group: &Name, member: &Name) -> bool
        ensures { result ≡ list_any (lists of_hosts group.now member.now) self.now }
    {
        has(
            self.groups.as_slice(),
            self.order.as_slice(),
            &listed(of_hosts, group, member),
        )
    }
}

/// Who is in the groups of an options file, which a clause sees as the list of the groups. Who is in a group is looked
/// up in as many steps as the number of members has bits. What it keeps is shared by those that `share` makes, so those
/// cost next to nothing.
#[derive(Drop)]
pub struct Roster {
    members: Arc<Members, Global>,
}

impl Model for Roster {
    ghost use Rattle.std.specs.Arc.{arc_value};
    ghost use Rattle.std.specs.Prelude.{List};
    ghost use Rattle.lic_types.specs.Groups.{GroupLine};

    ghost Value = { List GroupLine };

    ghost view = { λ r. arc_value r.members };
}

impl Roster {
    /// These groups, with their members sorted. The one error is want of memory.
    pub fn of(alloc: Global, groups: Vec<Group>) -> Result<Roster, NoMemory>
        ensures { IfOk result (λ made. made ≡ groups.items) }
    {
        let members = Members::of(alloc, groups)?;
        Ok(Roster {
            members: Arc::new(alloc, members)?,
        })
    }

    /// A further owner of the same groups. The one error is want of memory, which comes only at more owners than a
    /// memory has room for.
    pub fn share(&self) -> Result<Roster, NoMemory>
        ensures { IfOk result (λ other. other ≡ self.now) }
    {
        Ok(Roster {
            members: Arc::try_clone(&self.members)?,
        })
    }

    /// The groups, in their order.
    pub fn groups(&self) -> &[Group]
        ensures { result.now ≡ self.now }
    {
        self.members.groups()
    }

    /// Whether one of the GROUP lines of the name lists the member, or, where `of_hosts`, one of the HOST_GROUP lines.
    pub fn lists(&self, of_hosts: bool, group: &Name, member: &Name) -> bool
        ensures { result ≡ list_any (lists of_hosts group.now member.now) self.now }
    {
        self.members.lists(of_hosts, group, member)
    }
}
