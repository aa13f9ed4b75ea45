ghost use Rattle.std.specs.Prelude.{◌≡◌, ◌<◌, [], ◌∷◌, IfOk, MatchResult, true};
ghost use Rattle.lic_text.specs.Left.{words_left};
ghost use Rattle.lic_types.specs.Version.{key_of};
ghost use Rattle.script_text.specs.Fits.{has_its_words, is_fit, is_kind_of_verb, is_of_other, is_of_seat};
ghost use Rattle.script_text.specs.Words.{asked_of, line_of_words, other_asked, reread_asked, seat_asked, verb_of, version_of};

use crate::line::ScriptLine;
use lic_text::Words;
use lic_types::{MOMENT_END, NameRef, PARTY_LIMIT, Version};
use options_machine::Kind;
use script_words::{ScriptWord, next_word, read_below, read_client_ref, read_name};

/// The numbers of rule sets are below this.
const SET_END: u64 = 1 << 32;

/// The version that a word spells.
fn read_version(word: &[u8]) -> Result<Version, ScriptWord>
    ensures { result ≡ version_of (key_of word.now) }
{
    Version::read(word).ok_or(ScriptWord::BadVersion)
}

/// What a verb asks for, and so which words are to stand behind it.
#[derive(Clone, Copy)]
pub(crate) enum Verb {
    /// A seat: a feature and a version.
    Seat(Kind),
    /// Anything else of a feature, which stands alone.
    Other(Kind),
    /// Another rule set: its number.
    Reread,
}

/// What a line asks, of which feature, and from which version on.
#[derive(Drop)]
pub(crate) struct Asked<'a> {
    kind: Kind,
    feature: Option<NameRef<'a>>,
    version: Option<Version>,
}

/// What a verb asks for.
fn read_verb(verb: &[u8]) -> Result<Verb, ScriptWord>
    ensures verb { result ≡ verb_of verb.now }
    ensures kind { IfOk result (λ verb. is_kind_of_verb verb ≡ true) }
{
    if verb == b"CHECKOUT".as_slice() {
        Ok(Verb::Seat(Kind::Checkout))
    } else if verb == b"QUEUE".as_slice() {
        Ok(Verb::Seat(Kind::Queue))
    } else if verb == b"CHECKIN".as_slice() {
        Ok(Verb::Other(Kind::Checkin))
    } else if verb == b"BEAT".as_slice() {
        Ok(Verb::Other(Kind::Beat))
    } else if verb == b"LOOK".as_slice() {
        Ok(Verb::Other(Kind::Look))
    } else if verb == b"STATUS".as_slice() {
        Ok(Verb::Other(Kind::Count))
    } else if verb == b"QUIT".as_slice() {
        Ok(Verb::Other(Kind::Quit))
    } else if verb == b"REREAD".as_slice() {
        Ok(Verb::Reread)
    } else {
        Err(ScriptWord::UnknownWord)
    }
}

/// The version behind a feature, which is to be the last word.
fn read_seat<'a>(kind: Kind, feature: &'a [u8], words: Words<'a>) -> Result<Asked<'a>, ScriptWord>
    requires { is_of_seat kind ≡ true }
    ensures asked { result ≡ seat_asked kind feature.now (words_left words.entry) }
    ensures fit { IfOk result (λ asked. has_its_words asked.kind asked.feature asked.version ≡ true) }
{
    let mut words = words;
    let version = next_word(&mut words)?;
    if words.next().is_some() {
        return Err(ScriptWord::WordCount);
    }
    let feature = read_name(feature)?;
    let version = read_version(version)?;
    Ok(Asked {
        kind,
        feature: Some(feature),
        version: Some(version),
    })
}

/// A feature, which is to be the last word.
fn read_other<'a>(kind: Kind, feature: &'a [u8], words: Words<'a>) -> Result<Asked<'a>, ScriptWord>
    requires { is_of_other kind ≡ true }
    ensures asked { result ≡ other_asked kind feature.now (words_left words.entry) }
    ensures fit { IfOk result (λ asked. has_its_words asked.kind asked.feature asked.version ≡ true) }
{
    let mut words = words;
    if words.next().is_some() {
        return Err(ScriptWord::WordCount);
    }
    let feature = read_name(feature)?;
    Ok(Asked {
        kind,
        feature: Some(feature),
        version: None,
    })
}

/// The number of a rule set, which is to be the last word.
fn read_reread<'a>(number: &[u8], words: Words<'a>) -> Result<Asked<'a>, ScriptWord>
    ensures asked { result ≡ reread_asked number.now (words_left words.entry) }
    ensures fit { IfOk result (λ asked. has_its_words asked.kind asked.feature asked.version ≡ true) }
{
    let mut words = words;
    if words.next().is_some() {
        return Err(ScriptWord::WordCount);
    }
    let number = read_below(number, SET_END)?;
    Ok(Asked {
        kind: Kind::Reread(number as u32),
        feature: None,
        version: None,
    })
}

/// What a line asks, of which the words behind the eighth are left.
fn read_asked<'a>(verb: Verb, word: &'a [u8], words: Words<'a>) -> Result<Asked<'a>, ScriptWord>
    requires { is_kind_of_verb verb ≡ true }
    ensures asked { result ≡ asked_of verb word.now (words_left words.entry) }
    ensures fit { IfOk result (λ asked. has_its_words asked.kind asked.feature asked.version ≡ true) }
{
    match verb {
        Verb::Seat(kind) => read_seat(kind, word, words),
        Verb::Other(kind) => read_other(kind, word, words),
        Verb::Reread => read_reread(word, words),
    }
}

/// The script line that the words of a line spell, or the line's first fault.
pub(crate) fn read_words(line: u32, words: Words<'_>) -> Result<ScriptLine<'_>, ScriptWord>
    ensures line { result ≡ line_of_words line (words_left words.entry) }
    ensures fit { IfOk result (λ line. is_fit line ≡ true) }
{
    let mut words = words;
    let moment = next_word(&mut words)?;
    let party = next_word(&mut words)?;
    let user = next_word(&mut words)?;
    let host = next_word(&mut words)?;
    let display = next_word(&mut words)?;
    let project = next_word(&mut words)?;
    let verb = next_word(&mut words)?;
    let word = next_word(&mut words)?;
    let moment = read_below(moment, MOMENT_END)?;
    let party = read_below(party, PARTY_LIMIT as u64)?;
    let client = read_client_ref(user, host, display, project)?;
    let verb = read_verb(verb)?;
    let asked = read_asked(verb, word, words)?;
    Ok(ScriptLine {
        line,
        party: party as u32,
        moment,
        client,
        kind: asked.kind,
        feature: asked.feature,
        version: asked.version,
    })
}
