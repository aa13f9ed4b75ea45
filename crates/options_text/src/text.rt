ghost use Rattle.std.specs.Prelude.{◌≡◌, ◌++◌, ◌∷◌, [], IfOk, OnOk, decimal, take};
ghost use Rattle.lic_text.specs.Physical.{is_continued};
ghost use Rattle.options_text.specs.Texts.{all_name, closed_text, feature_words, further, group_text, kind_name, list_name, log_name, rule_name, rule_text, share_words, span_words, who_words};

use crate::keyword::LogKeyword;
use itoa::Buffer;
use lic_types::{Group, Name, NoMemory, Rule, RuleLine, Who, WhoKind};
use std::alloc::Global;

fn is_continued(text: &[u8]) -> bool
    ensures { result ≡ is_continued text.now }
{
    !text.is_empty() && text[text.len() - 1] == b'\\'
}

/// Ends the text of a line, so that a backslash at its end doesn't continue it.
fn close(text: &mut Vec<u8>) -> Result<(), NoMemory>
    ensures { OnOk result (text.new.items ≡ closed_text text.old.items) }
{
    if is_continued(text.as_slice()) {
        text.push(b' ')?;
    }
    Ok(())
}

/// Writes a word behind a space.
fn put_word(text: &mut Vec<u8>, word: &[u8]) -> Result<(), NoMemory>
    ensures { OnOk result (text.new.items ≡ text.old.items ++ further (word.now ∷ [])) }
{
    text.push(b' ')?;
    text.extend_from_slice(word)?;
    Ok(())
}

fn put_number(text: &mut Vec<u8>, number: u64) -> Result<(), NoMemory>
    ensures { OnOk result (text.new.items ≡ text.old.items ++ further (decimal number ∷ [])) }
{
    let mut buffer = Buffer::new();
    put_word(text, buffer.format(number).as_bytes())
}

fn put_names(text: &mut Vec<u8>, names: &[Name]) -> Result<(), NoMemory>
    ensures { OnOk result (text.new.items ≡ text.old.items ++ further names.now) }
{
    for name in names {
        put_word(text, name.bytes())?;
    }
    Ok(())
}

fn put_share(text: &mut Vec<u8>, rule: &Rule) -> Result<(), NoMemory>
    ensures { OnOk result (text.new.items ≡ text.old.items ++ further (share_words rule.now)) }
{
    match rule {
        Rule::Max(number) | Rule::Reserve(number) => put_number(text, u64::from(*number)),
        Rule::Include | Rule::Exclude | Rule::Linger(_) | Rule::Timeout(_) => Ok(()),
    }
}

fn put_span(text: &mut Vec<u8>, rule: &Rule) -> Result<(), NoMemory>
    ensures { OnOk result (text.new.items ≡ text.old.items ++ further (span_words rule.now)) }
{
    match rule {
        Rule::Linger(seconds) | Rule::Timeout(seconds) => put_number(text, *seconds),
        Rule::Include | Rule::Exclude | Rule::Max(_) | Rule::Reserve(_) => Ok(()),
    }
}

fn put_feature(text: &mut Vec<u8>, feature: &Option<Name>) -> Result<(), NoMemory>
    ensures { OnOk result (text.new.items ≡ text.old.items ++ further (feature_words feature.now)) }
{
    match feature {
        None => Ok(()),
        Some(feature) => put_word(text, feature.bytes()),
    }
}

fn kind_name(kind: &WhoKind) -> &'static [u8]
    ensures { result.now ≡ kind_name kind.now }
{
    match kind {
        WhoKind::User => b"USER",
        WhoKind::Host => b"HOST",
        WhoKind::Display => b"DISPLAY",
        WhoKind::Project => b"PROJECT",
        WhoKind::Group => b"GROUP",
        WhoKind::HostGroup => b"HOST_GROUP",
    }
}

fn put_who(text: &mut Vec<u8>, who: &Option<Who>) -> Result<(), NoMemory>
    ensures { OnOk result (text.new.items ≡ text.old.items ++ further (who_words who.now)) }
{
    match who {
        None => Ok(()),
        Some(who) => {
            put_word(text, kind_name(&who.kind))?;
            put_word(text, who.name.bytes())
        }
    }
}

fn rule_name(rule: &Rule) -> &'static [u8]
    ensures { result.now ≡ rule_name rule.now }
{
    match rule {
        Rule::Include => b"INCLUDE",
        Rule::Exclude => b"EXCLUDE",
        Rule::Max(_) => b"MAX",
        Rule::Reserve(_) => b"RESERVE",
        Rule::Linger(_) => b"LINGER",
        Rule::Timeout(_) => b"TIMEOUT",
    }
}

fn all_name(feature: &Option<Name>) -> &'static [u8]
    ensures { result.now ≡ all_name feature.now }
{
    match feature {
        None => b"ALL",
        Some(_) => b"",
    }
}

/// The text of a rule's line.
#[tactic(auto, using(crate::proofs::Spaces::joins), unfolding(crate::specs::Texts::rule_text))]
pub fn rule_text(alloc: Global, rule: &RuleLine) -> Result<Vec<u8>, NoMemory>
    ensures { IfOk result (λ text. text.items ≡ rule_text rule.now) }
{
    let mut text = Vec::from_slice(alloc, rule_name(&rule.rule))?;
    text.extend_from_slice(all_name(&rule.feature))?;
    put_share(&mut text, &rule.rule)?;
    put_feature(&mut text, &rule.feature)?;
    put_who(&mut text, &rule.who)?;
    put_span(&mut text, &rule.rule)?;
    close(&mut text)?;
    Ok(text)
}

fn list_name(of_hosts: bool) -> &'static [u8]
    ensures { result.now ≡ list_name of_hosts }
{
    if of_hosts { b"HOST_GROUP" } else { b"GROUP" }
}

/// The text of a group's line.
#[tactic(auto, using(crate::proofs::Spaces::joins), unfolding(crate::specs::Texts::group_text))]
pub fn group_text(alloc: Global, group: &Group) -> Result<Vec<u8>, NoMemory>
    ensures { IfOk result (λ text. text.items ≡ group_text group.now) }
{
    let mut text = Vec::from_slice(alloc, list_name(group.of_hosts()))?;
    put_word(&mut text, group.name().bytes())?;
    put_names(&mut text, group.members())?;
    close(&mut text)?;
    Ok(text)
}

/// The text of the line of a keyword that isn't acted on.
pub fn log_name(log: &LogKeyword) -> &'static [u8]
    ensures { result.now ≡ log_name log.now }
{
    match log {
        LogKeyword::ReportLog => b"REPORTLOG",
        LogKeyword::DebugLog => b"DEBUGLOG",
        LogKeyword::NoLog => b"NOLOG",
    }
}
