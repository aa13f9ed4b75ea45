ghost use Rattle.std.specs.Prelude.{◌≡◌, ◌<◌, ◌≤◌, ◌∷◌, IfOk, true};
ghost use Rattle.lic_text.specs.Left.{words_left};
ghost use Rattle.options_text.specs.Answers.{IsAnswer};
ghost use Rattle.options_text.specs.Entries.{is_within_limits};
ghost use Rattle.options_text.specs.Forms.{access_rule, admits_all_of, admits_of, feature_of, group_of, name_at, names_of, number_below, share_rule, shares_of, span_rule, times_all_of, times_of, who_of};

use crate::fault::OptionsFault;
use crate::keyword::{Access, Share, Span, read_kind};
use lic_text::{Words, number};
use lic_types::{Group, LICENCE_LIMIT, MOMENT_END, Name, Rule, RuleLine, Who};
use std::alloc::Global;

/// The number that a word spells, where it is below the limit.
fn read_number(line: u32, word: &[u8], limit: u64) -> Result<u64, OptionsFault>
    ensures value { result ≡ number_below line limit word.now }
    ensures small { IfOk result (λ n. n < limit) }
{
    match number(word) {
        Some(value) if value < limit => Ok(value),
        _ => Err(OptionsFault::BadNumber(line)),
    }
}

/// The name that a word spells.
fn read_name(line: u32, word: &[u8]) -> Result<Name, OptionsFault>
    ensures { result ≡ name_at line word.now }
{
    match Name::read(word) {
        Ok(name) => Ok(name),
        Err(_) => Err(OptionsFault::BadName(line)),
    }
}

/// The feature that a word names. One with a `:` is a selector, whatever else is wrong with it.
fn read_feature(line: u32, word: &[u8]) -> Result<Name, OptionsFault>
    ensures { result ≡ feature_of line word.now }
{
    if word.contains(&b':') {
        return Err(OptionsFault::Selector(line));
    }
    read_name(line, word)
}

/// Whom a type and a name speak of.
fn read_who(line: u32, kind: &[u8], name: &[u8]) -> Result<Who, OptionsFault>
    ensures { result ≡ who_of line kind.now name.now }
{
    let Some(kind) = read_kind(kind) else {
        return Err(OptionsFault::UnknownKind(line));
    };
    let name = read_name(line, name)?;
    Ok(Who { kind, name })
}

/// The rule that lets in, or that keeps out.
fn access_rule(access: Access) -> Rule
    ensures rule { result ≡ access_rule access }
    ensures fit { is_within_limits result ≡ true }
{
    match access {
        Access::Granted => Rule::Include,
        Access::Refused => Rule::Exclude,
    }
}

/// GROUP and HOST_GROUP, behind the keyword.
#[tactic(auto, unfolding(crate::specs::Forms::group_of))]
pub fn read_group(
    alloc: Global,
    line: u32,
    of_hosts: bool,
    words: Words<'_>,
) -> Result<Group, OptionsFault>
    ensures { IsAnswer (λ group. group) result (group_of line of_hosts (words_left words.entry)) }
{
    let mut words = words;
    let missing = OptionsFault::MissingWord(line);
    let name = words.next().ok_or(missing)?;
    let first = words.next().ok_or(missing)?;
    let name = read_name(line, name)?;
    let members = read_names(alloc, line, first, words)?;
    Ok(Group::of(line, of_hosts, name, members))
}

/// The names that a word and the words behind it spell.
fn read_names(
    alloc: Global,
    line: u32,
    first: &[u8],
    others: Words<'_>,
) -> Result<Vec<Name>, OptionsFault>
    ensures { IsAnswer (λ names. names.items) result (names_of line (first.now ∷ words_left others.entry)) }
{
    let mut names = Vec::new(alloc);
    names.push(read_name(line, first)?)?;
    for word in others {
        let name = read_name(line, word)?;
        names.push(name)?;
    }
    Ok(names)
}

/// INCLUDE and EXCLUDE, behind the keyword.
#[tactic(auto, unfolding(crate::specs::Forms::admits_of))]
pub fn read_admits(line: u32, access: Access, words: Words<'_>) -> Result<RuleLine, OptionsFault>
    ensures rule { result ≡ admits_of line access (words_left words.entry) }
    ensures fit { IfOk result (λ rule. is_within_limits rule.rule ≡ true) }
{
    let mut words = words;
    let missing = OptionsFault::MissingWord(line);
    let feature = words.next().ok_or(missing)?;
    let kind = words.next().ok_or(missing)?;
    let name = words.next().ok_or(missing)?;
    let feature = read_feature(line, feature)?;
    let who = read_who(line, kind, name)?;
    Ok(RuleLine {
        line,
        feature: Some(feature),
        rule: access_rule(access),
        who: Some(who),
    })
}

/// INCLUDEALL and EXCLUDEALL, behind the keyword.
#[tactic(auto, unfolding(crate::specs::Forms::admits_all_of))]
pub fn read_admits_all(
    line: u32,
    access: Access,
    words: Words<'_>,
) -> Result<RuleLine, OptionsFault>
    ensures rule { result ≡ admits_all_of line access (words_left words.entry) }
    ensures fit { IfOk result (λ rule. is_within_limits rule.rule ≡ true) }
{
    let mut words = words;
    let missing = OptionsFault::MissingWord(line);
    let kind = words.next().ok_or(missing)?;
    let name = words.next().ok_or(missing)?;
    let who = read_who(line, kind, name)?;
    Ok(RuleLine {
        line,
        feature: None,
        rule: access_rule(access),
        who: Some(who),
    })
}

/// RESERVE or MAX with this number.
fn share_rule(share: Share, number: u64) -> Rule
    requires { number ≤ LICENCE_LIMIT }
    ensures rule { result ≡ share_rule share number }
    ensures fit { is_within_limits result ≡ true }
{
    match share {
        Share::Kept => Rule::Reserve(number as u32),
        Share::Most => Rule::Max(number as u32),
    }
}

/// RESERVE and MAX, behind the keyword.
#[tactic(auto, unfolding(crate::specs::Forms::shares_of))]
pub fn read_shares(line: u32, share: Share, words: Words<'_>) -> Result<RuleLine, OptionsFault>
    ensures rule { result ≡ shares_of line share (words_left words.entry) }
    ensures fit { IfOk result (λ rule. is_within_limits rule.rule ≡ true) }
{
    let mut words = words;
    let missing = OptionsFault::MissingWord(line);
    let number = words.next().ok_or(missing)?;
    let feature = words.next().ok_or(missing)?;
    let kind = words.next().ok_or(missing)?;
    let name = words.next().ok_or(missing)?;
    let number = read_number(line, number, LICENCE_LIMIT as u64 + 1)?;
    let feature = read_feature(line, feature)?;
    let who = read_who(line, kind, name)?;
    Ok(RuleLine {
        line,
        feature: Some(feature),
        rule: share_rule(share, number),
        who: Some(who),
    })
}

/// LINGER or TIMEOUT with these seconds.
fn span_rule(span: Span, seconds: u64) -> Rule
    requires { seconds < MOMENT_END }
    ensures rule { result ≡ span_rule span seconds }
    ensures fit { is_within_limits result ≡ true }
{
    match span {
        Span::Lingers => Rule::Linger(seconds),
        Span::Waits => Rule::Timeout(seconds),
    }
}

/// LINGER and TIMEOUT, behind the keyword.
#[tactic(auto, unfolding(crate::specs::Forms::times_of))]
pub fn read_times(line: u32, span: Span, words: Words<'_>) -> Result<RuleLine, OptionsFault>
    ensures rule { result ≡ times_of line span (words_left words.entry) }
    ensures fit { IfOk result (λ rule. is_within_limits rule.rule ≡ true) }
{
    let mut words = words;
    let missing = OptionsFault::MissingWord(line);
    let feature = words.next().ok_or(missing)?;
    let seconds = words.next().ok_or(missing)?;
    let feature = read_feature(line, feature)?;
    let seconds = read_number(line, seconds, MOMENT_END)?;
    Ok(RuleLine {
        line,
        feature: Some(feature),
        rule: span_rule(span, seconds),
        who: None,
    })
}

/// TIMEOUTALL, behind the keyword.
#[tactic(auto, unfolding(crate::specs::Forms::times_all_of))]
pub fn read_times_all(line: u32, words: Words<'_>) -> Result<RuleLine, OptionsFault>
    ensures rule { result ≡ times_all_of line (words_left words.entry) }
    ensures fit { IfOk result (λ rule. is_within_limits rule.rule ≡ true) }
{
    let mut words = words;
    let seconds = words.next().ok_or(OptionsFault::MissingWord(line))?;
    let seconds = read_number(line, seconds, MOMENT_END)?;
    Ok(RuleLine {
        line,
        feature: None,
        rule: span_rule(Span::Waits, seconds),
        who: None,
    })
}
