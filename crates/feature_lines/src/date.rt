ghost use Rattle.std.specs.Prelude.{◌≡◌, ◌<◌, ◌≤◌, ◌==◌, ◌↔◌, pos, IfSome, IsSome, length, take, drop, ◌+◌};
ghost use Rattle.std.specs.List.{position_from, list_all};
ghost use Rattle.std.specs.Option.{option_map};
ghost use Rattle.std.specs.Str.{str_eq_ignore_ascii_case};
ghost use Rattle.jiff.specs.Words.{IsDate};
ghost use Rattle.feature_lines.specs.Dates.{cut_at_dash, day_of, day_on, expiry_of, expiry_on, is_no_year, month_of, year_of};

use crate::words::is_word;
use jiff::civil::Date;
use lic_text::number;
use lic_types::{Day, Expiry};

/// The number that a word of one or two digits writes.
fn read_day(word: &[u8]) -> Option<u8>
    ensures value { result ≡ day_of word.now }
    ensures small { IfSome result (λ day. day ≤ 99) }
{
    if word.len() > 2 {
        return None;
    }
    let day = number(word)?;
    Some(day as u8)
}

/// The place of the first of these names that a word is, in any case.
fn place_among(word: &[u8], names: &[&[u8]]) -> Option<usize>
    ensures place { result ≡ position_from (λ name. str_eq_ignore_ascii_case word.now name.now) 0 names.now }
    ensures within { IfSome result (λ at. at < length names.now) }
{
    names.iter().position(|name| is_word(word, name))
}

/// The month of a name of three letters, from 1, in any case.
fn read_month(word: &[u8]) -> Option<u8>
    ensures month { result ≡ month_of word.now }
    ensures small { IfSome result (λ month. month ≤ 12) }
{
    const NAMES: [&[u8]; 12] = [
        b"jan", b"feb", b"mar", b"apr", b"may", b"jun", b"jul", b"aug", b"sep", b"oct", b"nov",
        b"dec",
    ];
    let at = place_among(word, &NAMES)?;
    Some(at as u8 + 1)
}

fn has_zeros_alone(word: &[u8]) -> bool
    ensures { result ≡ list_all (λ b. b == 48) word.now }
{
    word.iter().all(|b| *b == b'0')
}

/// Whether a word is one to four zeros, which stand in the place of a year where a licence doesn't end.
fn is_no_year(word: &[u8]) -> bool
    ensures { result ≡ is_no_year word.now }
{
    !word.is_empty() && word.len() <= 4 && has_zeros_alone(word)
}

/// The number that a word of four digits writes.
fn read_year(word: &[u8]) -> Option<u16>
    ensures value { result ≡ year_of word.now }
    ensures small { IfSome result (λ year. year ≤ 9999) }
{
    if word.len() != 4 {
        return None;
    }
    let year = number(word)?;
    Some(year as u16)
}

/// The place of the first dash.
fn dash_of(word: &[u8]) -> Option<usize>
    ensures first { result ≡ position_from (λ b. b == 45) 0 word.now }
    ensures within { IfSome result (λ at. at < length word.now) }
{
    word.iter().position(|b| *b == b'-')
}

/// What stands before the first dash of a word, and what stands behind it.
fn cut_at_dash(word: &[u8]) -> Option<(&[u8], &[u8])>
    ensures { option_map (λ parts. (parts.0.now, parts.1.now)) result ≡ cut_at_dash word.now }
{
    let at = dash_of(word)?;
    Some((&word[..at], &word[at + 1..]))
}

/// The day of a civil date, if the calendar has it.
fn civil_day(year: u16, month: u8, day: u8) -> Option<Day>
    requires year { year ≤ 9999 }
    requires month { month ≤ 12 }
    requires day { day ≤ 99 }
    ensures day { result ≡ day_on year month day }
    ensures civil { IsSome result ↔ IsDate (pos year) (pos month) (pos day) }
{
    let Ok(date) = Date::new(year as i16, month as i8, day as i8) else {
        return None;
    };
    Some(Day {
        year,
        month,
        day,
        number: date.to_plain().to_unix_epoch_day(),
    })
}

/// The expiry that a day, a month and a year's word name.
fn expiry_on(day: u8, month: u8, year: &[u8]) -> Option<Expiry>
    requires month { month ≤ 12 }
    requires day { day ≤ 99 }
    ensures { result ≡ expiry_on day month year.now }
{
    if is_no_year(year) {
        return if 1 <= day && day <= 31 {
            Some(Expiry::Never)
        } else {
            None
        };
    }
    let year = read_year(year)?;
    let day = civil_day(year, month, day)?;
    Some(Expiry::On(day))
}

/// The expiry that a word names: `permanent`, or a day as `31-dec-2026`, in any case; zeros in the place of the year mean
/// never. None comes exactly where the word is no expiry, or names a day that the calendar hasn't got. The form is that
/// of a licence file (FlexNet's guide, on the FEATURE line).
pub fn read_expiry(word: &[u8]) -> Option<Expiry>
    ensures { result ≡ expiry_of word.now }
{
    if is_word(word, b"permanent") {
        return Some(Expiry::Never);
    }
    let (day, rest) = cut_at_dash(word)?;
    let (month, year) = cut_at_dash(rest)?;
    let day = read_day(day)?;
    let month = read_month(month)?;
    expiry_on(day, month, year)
}
