ghost use Rattle.std.specs.Prelude.{◌≡◌, not, find, IfOk};
ghost use Rattle.std.specs.Option.{option_map};
ghost use Rattle.options_text.specs.Names.{is_known, is_listed, line_undefined};
ghost use Rattle.options_text.specs.Parts.{file_of};

use crate::names::{GroupNames, has_name, names_of};
use crate::parts::Parts;
use lic_types::{Name, NoMemory, RuleLine, Who, WhoKind};
use std::alloc::Global;

/// Whether a name is no group's, or one of the names of groups of its kind.
fn is_listed(names: &GroupNames, who: &Who) -> bool
    ensures { result ≡ is_listed names.now.users.keys names.now.hosts.keys who.now.kind who.now.name }
{
    match who.kind {
        WhoKind::User | WhoKind::Host | WhoKind::Display | WhoKind::Project => true,
        WhoKind::Group => has_name(&names.users, &who.name),
        WhoKind::HostGroup => has_name(&names.hosts, &who.name),
    }
}

/// Whether a rule names nobody, or somebody who is listed.
fn is_known(names: &GroupNames, rule: &RuleLine) -> bool
    ensures { result ≡ is_known names.now.users.keys names.now.hosts.keys rule.now.who }
{
    match rule.who {
        None => true,
        Some(who) => is_listed(names, &who),
    }
}

/// The first of the rules that names a group which isn't listed.
fn first_of(names: &GroupNames, rules: &[RuleLine]) -> Option<RuleLine>
    ensures { result ≡ find (λ rule. not (is_known names.now.users.keys names.now.hosts.keys rule.who)) rules.now }
{
    rules.iter().copied().find(|rule| !is_known(names, rule))
}

/// The line of a rule, if there is one.
fn line_of(rule: Option<RuleLine>) -> Option<u32>
    ensures { result ≡ option_map (λ rule. rule.line) rule }
{
    match rule {
        None => None,
        Some(rule) => Some(rule.line),
    }
}

/// The line of the first rule that names a group which no line of the whole file defines.
pub fn first_undefined(alloc: Global, parts: &Parts) -> Result<Option<u32>, NoMemory>
    ensures { IfOk result (λ line. line ≡ line_undefined (file_of parts.now)) }
{
    let names = names_of(alloc, parts.groups.as_slice())?;
    Ok(line_of(first_of(&names, parts.lines.as_slice())))
}
