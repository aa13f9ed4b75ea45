ghost use Rattle.std.specs.Prelude.{◌≡◌};
ghost use Rattle.lic_text.specs.Left.{words_left};
ghost use Rattle.lic_text.specs.LinesLeft.{item_view};
ghost use Rattle.feature_lines.specs.Line.{count_of, feature_of, said_or_fault, keyword_of, said_of, terms_of, version_of};

use crate::date::read_expiry;
use crate::fault::LicenceFault;
use crate::words::is_word;
use lic_text::{Line, TextFault, Words, number};
use lic_types::{Expiry, LICENCE_LIMIT, Name, Version};

/// What the first word of a line says of it.
#[derive(Clone, Copy)]
pub enum Keyword {
    /// FEATURE.
    Feature,
    /// INCREMENT.
    Increment,
    /// SERVER, VENDOR, DAEMON, USE_SERVER: the line is passed over.
    PassedOver,
    /// PACKAGE, UPGRADE: the line is noted as not served.
    NotServed,
}

/// What stands behind the name and the vendor of a FEATURE or INCREMENT line.
#[derive(Clone, Copy)]
pub struct Terms {
    pub version: Version,
    pub version_text: Name,
    pub expiry: Expiry,
    pub count: u16,
}

/// A FEATURE or INCREMENT line whose words have no fault.
#[derive(Clone, Copy)]
pub struct FeatureLine {
    /// Its physical line, from 1.
    pub line: u32,
    /// Whether its keyword is FEATURE.
    pub is_feature: bool,
    pub name: Name,
    pub vendor: Name,
    pub version: Version,
    pub version_text: Name,
    pub expiry: Expiry,
    /// How many licences it grants; 0 stands for `uncounted` too.
    pub count: u16,
}

/// What a line says by its words alone.
#[derive(Clone, Copy)]
pub enum Said {
    /// Nothing that counts here.
    Nothing,
    /// The line of this number isn't served.
    NotServed(u32),
    /// This many licences of a feature.
    Feature(FeatureLine),
}

/// The keyword that a word is, in any case.
fn read_keyword(word: &[u8]) -> Option<Keyword>
    ensures { result ≡ keyword_of word.now }
{
    if is_word(word, b"FEATURE") {
        Some(Keyword::Feature)
    } else if is_word(word, b"INCREMENT") {
        Some(Keyword::Increment)
    } else if is_word(word, b"SERVER")
        || is_word(word, b"VENDOR")
        || is_word(word, b"DAEMON")
        || is_word(word, b"USE_SERVER")
    {
        Some(Keyword::PassedOver)
    } else if is_word(word, b"PACKAGE") || is_word(word, b"UPGRADE") {
        Some(Keyword::NotServed)
    } else {
        None
    }
}

/// The version that a word spells, with the word.
fn read_version(word: &[u8]) -> Option<(Version, Name)>
    ensures { result ≡ version_of word.now }
{
    let version = Version::read(word)?;
    let Ok(text) = Name::read(word) else {
        unreachable!()
    };
    Some((version, text))
}

/// The count that a word spells: `uncounted` in any case, which is as 0, or a number from 0 to 65,535.
fn read_count(word: &[u8]) -> Option<u16>
    ensures { result ≡ count_of word.now }
{
    if is_word(word, b"uncounted") {
        return Some(0);
    }
    let count = number(word)?;
    if count > LICENCE_LIMIT as u64 {
        return None;
    }
    Some(count as u16)
}

/// The version, the expiry and the count of a line, whose words from the fourth on these are.
fn read_terms(line: u32, words: Words<'_>) -> Result<Terms, LicenceFault>
    ensures { result ≡ terms_of line (words_left words.entry) }
{
    let mut words = words;
    let Some(word) = words.next() else {
        return Err(LicenceFault::BadWord(line, 4));
    };
    let Some((version, version_text)) = read_version(word) else {
        return Err(LicenceFault::BadVersion(line));
    };
    let Some(word) = words.next() else {
        return Err(LicenceFault::BadWord(line, 5));
    };
    let Some(expiry) = read_expiry(word) else {
        return Err(LicenceFault::BadDate(line));
    };
    let Some(word) = words.next() else {
        return Err(LicenceFault::BadWord(line, 6));
    };
    let Some(count) = read_count(word) else {
        return Err(LicenceFault::BadCount(line));
    };
    Ok(Terms {
        version,
        version_text,
        expiry,
        count,
    })
}

/// A FEATURE or INCREMENT line, whose words from the second on these are.
fn read_feature(line: u32, is_feature: bool, words: Words<'_>) -> Result<Said, LicenceFault>
    ensures { result ≡ feature_of line is_feature (words_left words.entry) }
{
    let mut words = words;
    let Some(word) = words.next() else {
        return Err(LicenceFault::BadWord(line, 2));
    };
    let Ok(name) = Name::read(word) else {
        return Err(LicenceFault::BadWord(line, 2));
    };
    let Some(word) = words.next() else {
        return Err(LicenceFault::BadWord(line, 3));
    };
    let Ok(vendor) = Name::read(word) else {
        return Err(LicenceFault::BadWord(line, 3));
    };
    let terms = read_terms(line, words)?;
    Ok(Said::Feature(FeatureLine {
        line,
        is_feature,
        name,
        vendor,
        version: terms.version,
        version_text: terms.version_text,
        expiry: terms.expiry,
        count: terms.count,
    }))
}

/// What the words of a line say.
fn read_words(line: u32, words: Words<'_>) -> Result<Said, LicenceFault>
    ensures { result ≡ said_of line (words_left words.entry) }
{
    let mut words = words;
    let Some(word) = words.next() else {
        return Err(LicenceFault::BadWord(line, 1));
    };
    match read_keyword(word) {
        Some(Keyword::Feature) => read_feature(line, true, words),
        Some(Keyword::Increment) => read_feature(line, false, words),
        Some(Keyword::PassedOver) => Ok(Said::Nothing),
        Some(Keyword::NotServed) => Ok(Said::NotServed(line)),
        None => Err(LicenceFault::BadWord(line, 1)),
    }
}

/// What a logical line says, or its fault.
pub(crate) fn read_line(line: Result<Line<'_>, TextFault>) -> Result<Said, LicenceFault>
    ensures { result ≡ said_or_fault (item_view line.entry) }
{
    match line {
        Ok(line) => read_words(line.first(), line.words()),
        Err(fault) => Err(LicenceFault::Line(fault)),
    }
}
