//! Whether a line names a group.
ghost use Rattle.std.specs.Prelude.{◌≡◌, not, ◌&&◌};
ghost use Rattle.lic_types.specs.Groups.{same_name};
ghost use Rattle.options_machine.specs.Groups.{names_group};
ghost use Rattle.options_machine.specs.Rules.{is_named_by};

use lic_types::{Group, Name, RuleLine, Who, WhoKind};

fn is_user_group(group: &Group, name: &Name) -> bool
    ensures { result ≡ (not group.now.of_hosts && same_name group.now.name name.now) }
{
    !group.of_hosts() && *group.name() == *name
}

fn is_host_group(group: &Group, name: &Name) -> bool
    ensures { result ≡ (group.now.of_hosts && same_name group.now.name name.now) }
{
    group.of_hosts() && *group.name() == *name
}

fn names_group(group: &Group, who: &Who) -> bool
    ensures { result ≡ names_group group.now who.now.kind who.now.name }
{
    match who.kind {
        WhoKind::Group => is_user_group(group, &who.name),
        WhoKind::HostGroup => is_host_group(group, &who.name),
        WhoKind::User | WhoKind::Host | WhoKind::Display | WhoKind::Project => false,
    }
}

/// Whether a rule line names the group.
pub(crate) fn is_named_by(group: &Group, line: &RuleLine) -> bool
    ensures { result ≡ is_named_by group.now line.now.who }
{
    match &line.who {
        None => false,
        Some(who) => names_group(group, who),
    }
}
