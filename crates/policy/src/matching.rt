//! Whom a rule line speaks of, where who is in the groups is looked up in their roster.
ghost use Rattle.std.specs.Prelude.{◌≡◌};
ghost use Rattle.options_machine.specs.Groups.{matches};
ghost use Rattle.options_machine.specs.Rules.{applies};

use group_roster::Roster;
use lic_types::{Client, RuleLine, Who, WhoKind};

/// Whether a rule line that names `who` speaks of the client, as `options_machine::matches` says it.
fn matches(groups: &Roster, who: &Who, client: &Client) -> bool
    ensures { result ≡ matches groups.now who.now client.now }
{
    match who.kind {
        WhoKind::User => who.name == client.user,
        WhoKind::Host => who.name == client.host,
        WhoKind::Display => who.name == client.display,
        WhoKind::Project => who.name == client.project,
        WhoKind::Group => groups.lists(false, &who.name, &client.user),
        WhoKind::HostGroup => groups.lists(true, &who.name, &client.host),
    }
}

/// Whether a rule line speaks of the client.
pub(crate) fn applies(groups: &Roster, client: &Client, line: &RuleLine) -> bool
    ensures { result ≡ applies groups.now client.now line.now }
{
    match &line.who {
        None => false,
        Some(who) => matches(groups, who, client),
    }
}
