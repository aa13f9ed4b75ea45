//! What is advised of one line of an options file.
ghost use Rattle.std.specs.Prelude.{◌≡◌, find};
ghost use Rattle.std.specs.List.{list_any};
ghost use Rattle.options_machine.specs.Rules.{is_named_by};
ghost use Rattle.lint_advice.specs.Finds.{are_within, first_line, has_pool, idle_max, is_same_feature, is_same_kind, is_same_span, is_same_time, limits_nobody, never_read, no_pool, no_rule, short_timeout, shut_out, shuts_out};

use crate::advice::Advice;
use crate::naming::is_named_by;
use feature_lines::Pool;
use lic_types::{Group, Name, Rule, RuleLine, Who, WhoKind};

/// A TIMEOUT line of fewer seconds counts as one of so many.
const SHORTEST_TIMEOUT: u64 = 900;

/// Whether one of the rules names the group.
fn is_named(lines: &[RuleLine], group: &Group) -> bool
    ensures { result ≡ list_any (λ line. is_named_by group.now line.who) lines.now }
{
    lines.iter().any(|line| is_named_by(group, line))
}

/// Where no rule names the group of a line.
pub fn no_rule(lines: &[RuleLine], group: &Group) -> Option<Advice>
    ensures { result ≡ no_rule lines.now group.now }
{
    if is_named(lines, group) {
        return None;
    }
    Some(Advice::NoRule {
        line: group.line(),
        of_hosts: group.of_hosts(),
        name: *group.name(),
    })
}

/// Whether some pool is of the feature.
fn has_pool(pools: &[Pool], feature: &Name) -> bool
    ensures { result ≡ has_pool pools.now feature.now }
{
    pools.iter().any(|pool| pool.name == *feature)
}

/// Where no pool is of the feature of a line.
pub fn no_pool(pools: &[Pool], line: &RuleLine) -> Option<Advice>
    ensures { result ≡ no_pool pools.now line.now }
{
    let feature = line.feature?;
    if has_pool(pools, &feature) {
        return None;
    }
    Some(Advice::NoPool {
        line: line.line,
        feature,
    })
}

/// Whether no pool of the feature has more than so many licences.
fn are_within(pools: &[Pool], feature: &Name, number: u32) -> bool
    ensures { result ≡ are_within pools.now feature.now number }
{
    pools
        .iter()
        .filter(|pool| pool.name == *feature)
        .all(|pool| pool.count <= number)
}

/// Whether there are pools of the feature, and none of them has more than so many licences.
fn limits_nobody(pools: &[Pool], feature: &Name, number: u32) -> bool
    ensures { result ≡ limits_nobody pools.now feature.now number }
{
    has_pool(pools, feature) && are_within(pools, feature, number)
}

/// Where a MAX line denies nobody.
pub fn idle_max(pools: &[Pool], line: &RuleLine) -> Option<Advice>
    ensures { result ≡ idle_max pools.now line.now }
{
    let feature = line.feature?;
    match line.rule {
        Rule::Max(number) if limits_nobody(pools, &feature, number) => Some(Advice::IdleMax {
            line: line.line,
            number,
        }),
        _ => None,
    }
}

/// Whether two types are one.
fn is_same_kind(kind: WhoKind, other: WhoKind) -> bool
    ensures { result ≡ is_same_kind kind other }
{
    kind == other
}

/// Whether a line shuts out for all features those of whom another one speaks.
fn shuts_out(who: &Who, line: &RuleLine) -> bool
    ensures { result ≡ shuts_out who.now line.now }
{
    if line.feature.is_some() || !matches!(line.rule, Rule::Exclude) {
        return false;
    }
    match &line.who {
        None => false,
        Some(other) => is_same_kind(who.kind, other.kind) && who.name == other.name,
    }
}

/// The number of the first line that shuts them out for all features.
fn first_shut(lines: &[RuleLine], who: &Who) -> Option<u32>
    ensures { result ≡ first_line (find (shuts_out who.now) lines.now) }
{
    lines
        .iter()
        .find(|line| shuts_out(who, line))
        .map(|line| line.line)
}

/// Where those of whom the line of a feature speaks are shut out for all features.
pub fn shut_out(lines: &[RuleLine], line: &RuleLine) -> Option<Advice>
    ensures { result ≡ shut_out lines.now line.now }
{
    if line.feature.is_none() {
        return None;
    }
    let who = line.who?;
    let by = first_shut(lines, &who)?;
    Some(Advice::ShutOut {
        line: line.line,
        by,
    })
}

/// Whether two lines are of one feature, or both of all features.
fn is_same_feature(feature: &Option<Name>, other: &Option<Name>) -> bool
    ensures { result ≡ is_same_feature feature.now other.now }
{
    match (feature, other) {
        (None, None) => true,
        (Some(feature), Some(other)) => feature == other,
        (None, Some(_)) | (Some(_), None) => false,
    }
}

/// Whether two rules are both LINGER or both TIMEOUT.
fn is_same_span(rule: &Rule, other: &Rule) -> bool
    ensures { result ≡ is_same_span rule.now other.now }
{
    match rule {
        Rule::Linger(_) => matches!(other, Rule::Linger(_)),
        Rule::Timeout(_) => matches!(other, Rule::Timeout(_)),
        _ => false,
    }
}

/// Whether two lines are both LINGER or both TIMEOUT, of one feature.
fn is_same_time(line: &RuleLine, other: &RuleLine) -> bool
    ensures { result ≡ is_same_time line.now other.now }
{
    is_same_span(&line.rule, &other.rule) && is_same_feature(&line.feature, &other.feature)
}

/// The number of the first line that is of one span and feature with this one.
fn first_time(lines: &[RuleLine], line: &RuleLine) -> Option<u32>
    ensures { result ≡ first_line (find (is_same_time line.now) lines.now) }
{
    lines
        .iter()
        .find(|other| is_same_time(line, other))
        .map(|other| other.line)
}

/// Where a LINGER or TIMEOUT line isn't the first of its feature.
pub fn never_read(lines: &[RuleLine], line: &RuleLine) -> Option<Advice>
    ensures { result ≡ never_read lines.now line.now }
{
    let first = first_time(lines, line)?;
    if first < line.line {
        Some(Advice::NeverRead {
            line: line.line,
            first,
        })
    } else {
        None
    }
}

/// Where a TIMEOUT line has fewer than 900 seconds.
pub fn short_timeout(line: &RuleLine) -> Option<Advice>
    ensures { result ≡ short_timeout line.now }
{
    match line.rule {
        Rule::Timeout(seconds) if seconds < SHORTEST_TIMEOUT => Some(Advice::ShortTimeout {
            line: line.line,
            seconds,
        }),
        _ => None,
    }
}
