ghost use Rattle.std.specs.Prelude.{◌≡◌};
ghost use Rattle.options_text.specs.Keywords.{keyword_of, kind_of, list_keyword, log_keyword, number_keyword, rule_keyword, spells};

use lic_types::WhoKind;

/// A keyword that is read and not acted on.
#[derive(Clone, Copy, Debug, PartialEq, Eq)]
pub enum LogKeyword {
    /// REPORTLOG.
    ReportLog,
    /// DEBUGLOG.
    DebugLog,
    /// NOLOG.
    NoLog,
}

/// What becomes of those that a rule without a number speaks of.
#[derive(Clone, Copy, PartialEq, Eq)]
pub enum Access {
    /// INCLUDE, INCLUDEALL: they alone get a licence.
    Granted,
    /// EXCLUDE, EXCLUDEALL: they get none.
    Refused,
}

/// What a rule with a number up to 65,535 says with it.
#[derive(Clone, Copy, PartialEq, Eq)]
pub enum Share {
    /// RESERVE: so many are kept.
    Kept,
    /// MAX: so many at most.
    Most,
}

/// What a rule with seconds says with them.
#[derive(Clone, Copy, PartialEq, Eq)]
pub enum Span {
    /// LINGER: a seat given back lingers so long.
    Lingers,
    /// TIMEOUT: a holder may be silent so long.
    Waits,
}

/// A keyword, by the form of its line.
#[derive(Clone, Copy, PartialEq, Eq)]
pub enum Keyword {
    /// GROUP, or HOST_GROUP where it lists hosts: a name and one member or more.
    Lists { of_hosts: bool },
    /// INCLUDE or EXCLUDE: a feature, a type and a name.
    Admits(Access),
    /// INCLUDEALL or EXCLUDEALL: a type and a name.
    AdmitsAll(Access),
    /// RESERVE or MAX: a number, a feature, a type and a name.
    Shares(Share),
    /// LINGER or TIMEOUT: a feature and seconds.
    Times(Span),
    /// TIMEOUTALL: seconds.
    TimesAll,
    /// REPORTLOG, DEBUGLOG or NOLOG: nothing more.
    Logs(LogKeyword),
}

/// Whether a word is this keyword or type, in any ASCII case.
fn spells(word: &[u8], keyword: &[u8]) -> bool
    ensures { result ≡ spells word.now keyword.now }
{
    word.eq_ignore_ascii_case(keyword)
}

fn read_list_keyword(word: &[u8]) -> Option<Keyword>
    ensures { result ≡ list_keyword word.now }
{
    if spells(word, b"GROUP") {
        Some(Keyword::Lists { of_hosts: false })
    } else if spells(word, b"HOST_GROUP") {
        Some(Keyword::Lists { of_hosts: true })
    } else {
        None
    }
}

fn read_rule_keyword(word: &[u8]) -> Option<Keyword>
    ensures { result ≡ rule_keyword word.now }
{
    if spells(word, b"INCLUDE") {
        Some(Keyword::Admits(Access::Granted))
    } else if spells(word, b"EXCLUDE") {
        Some(Keyword::Admits(Access::Refused))
    } else if spells(word, b"INCLUDEALL") {
        Some(Keyword::AdmitsAll(Access::Granted))
    } else if spells(word, b"EXCLUDEALL") {
        Some(Keyword::AdmitsAll(Access::Refused))
    } else {
        None
    }
}

fn read_number_keyword(word: &[u8]) -> Option<Keyword>
    ensures { result ≡ number_keyword word.now }
{
    if spells(word, b"RESERVE") {
        Some(Keyword::Shares(Share::Kept))
    } else if spells(word, b"MAX") {
        Some(Keyword::Shares(Share::Most))
    } else if spells(word, b"LINGER") {
        Some(Keyword::Times(Span::Lingers))
    } else if spells(word, b"TIMEOUT") {
        Some(Keyword::Times(Span::Waits))
    } else if spells(word, b"TIMEOUTALL") {
        Some(Keyword::TimesAll)
    } else {
        None
    }
}

fn read_log_keyword(word: &[u8]) -> Option<Keyword>
    ensures { result ≡ log_keyword word.now }
{
    if spells(word, b"REPORTLOG") {
        Some(Keyword::Logs(LogKeyword::ReportLog))
    } else if spells(word, b"DEBUGLOG") {
        Some(Keyword::Logs(LogKeyword::DebugLog))
    } else if spells(word, b"NOLOG") {
        Some(Keyword::Logs(LogKeyword::NoLog))
    } else {
        None
    }
}

/// The keyword that a word spells.
#[tactic(auto, unfolding(crate::specs::Keywords::keyword_of))]
pub fn read_keyword(word: &[u8]) -> Option<Keyword>
    ensures { result ≡ keyword_of word.now }
{
    read_list_keyword(word)
        .or(read_rule_keyword(word))
        .or(read_number_keyword(word))
        .or(read_log_keyword(word))
}

/// The type that a word spells. USER_GROUP is GROUP.
#[tactic(auto, unfolding(crate::specs::Keywords::kind_of))]
pub fn read_kind(word: &[u8]) -> Option<WhoKind>
    ensures { result ≡ kind_of word.now }
{
    if spells(word, b"USER") {
        Some(WhoKind::User)
    } else if spells(word, b"HOST") {
        Some(WhoKind::Host)
    } else if spells(word, b"DISPLAY") {
        Some(WhoKind::Display)
    } else if spells(word, b"PROJECT") {
        Some(WhoKind::Project)
    } else if spells(word, b"GROUP") || spells(word, b"USER_GROUP") {
        Some(WhoKind::Group)
    } else if spells(word, b"HOST_GROUP") {
        Some(WhoKind::HostGroup)
    } else {
        None
    }
}
