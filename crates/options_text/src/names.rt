//! The names of groups, in the order of their bytes.
ghost use Rattle.std.specs.Prelude.{◌≡◌, ℕ, List, ◌||◌, ◌&&◌, not, IfOk, OnOk};
ghost use Rattle.lic_types.specs.Groups.{same_name};
ghost use Rattle.lic_types.specs.NameSets.{has_name};
ghost use Rattle.options_text.specs.Options.{has_hosts, has_users};

use lic_types::{Group, Name, NoMemory};
use std::alloc::Global;
use std::collections::BTreeSet;

/// The names of groups, those of users apart from those of hosts.
#[derive(Drop)]
pub struct GroupNames {
    pub users: BTreeSet<Name>,
    pub hosts: BTreeSet<Name>,
}

/// Adds a name.
fn add_name(names: &mut BTreeSet<Name>, name: Name) -> Result<(), NoMemory>
    ensures { OnOk result ((other : List ℕ) → has_name other names.new.keys ≡ (has_name other names.old.keys || same_name name other)) }
{
    names.insert(name)?;
    Ok(())
}

/// Whether one of the names is this one.
pub fn has_name(names: &BTreeSet<Name>, name: &Name) -> bool
    ensures { result ≡ has_name name.now names.now.keys }
{
    names.contains(name)
}

/// Adds the name of a group.
fn add_group(names: &mut GroupNames, group: &Group) -> Result<(), NoMemory>
    ensures users { OnOk result ((name : List ℕ) → has_name name names.new.users.keys ≡ (has_name name names.old.users.keys || (not group.now.of_hosts && same_name group.now.name name))) }
    ensures hosts { OnOk result ((name : List ℕ) → has_name name names.new.hosts.keys ≡ (has_name name names.old.hosts.keys || (group.now.of_hosts && same_name group.now.name name))) }
{
    if group.of_hosts() {
        add_name(&mut names.hosts, *group.name())
    } else {
        add_name(&mut names.users, *group.name())
    }
}

/// The names of these groups.
pub fn names_of(alloc: Global, groups: &[Group]) -> Result<GroupNames, NoMemory>
    ensures users { IfOk result (λ names. (name : List ℕ) → has_name name names.users.keys ≡ has_users groups.now name) }
    ensures hosts { IfOk result (λ names. (name : List ℕ) → has_name name names.hosts.keys ≡ has_hosts groups.now name) }
{
    let mut names = GroupNames {
        users: BTreeSet::new(alloc),
        hosts: BTreeSet::new(alloc),
    };
    for group in groups {
        add_group(&mut names, group)?;
    }
    Ok(names)
}
