//! What a lint names.
ghost use Rattle.std.specs.Prelude.{◌≡◌};
ghost use Rattle.std.specs.Option.{option_copied, option_map};
ghost use Rattle.licence_lint.specs.Words.{days_of, horizon_of, lint_by, lint_named, lint_with, plain_lint};

use crate::days::read_day;
use lic_text::number;
use licence_tool::is_plain_word;
use lint_advice::Horizon;

/// What a lint names.
#[derive(Clone, Copy, Debug)]
pub struct LintNames<'a> {
    /// The name of the licence file.
    pub licence: &'a str,
    /// The name of the options file.
    pub options: &'a str,
    /// By when a pool expires that is told of; `None` where none is told of.
    pub horizon: Option<Horizon>,
}

/// The most days that `--expires-within` may have.
const DAY_LIMIT: u64 = 65_535;

/// How many days a word writes: a number up to 65,535.
fn read_days(word: &str) -> Option<u32>
    ensures { result ≡ days_of word.now }
{
    match number(word.as_bytes()) {
        Some(days) if days <= DAY_LIMIT => Some(days as u32),
        _ => None,
    }
}

/// The horizon of so many days behind a day.
fn read_horizon(within: &str, on: &str) -> Option<Horizon>
    ensures { result ≡ horizon_of within.now on.now }
{
    let days = read_days(within)?;
    let on = read_day(on.as_bytes())?;
    Some(Horizon { on, days })
}

/// The lint of two words, where both may name files.
fn plain_names<'a>(
    licence: &'a str,
    options: &'a str,
    horizon: Option<Horizon>,
) -> Option<LintNames<'a>>
    ensures { option_map lint_named result ≡ plain_lint licence.entry.now options.entry.now horizon }
{
    if !is_plain_word(licence) {
        return None;
    }
    if !is_plain_word(options) {
        return None;
    }
    Some(LintNames {
        licence,
        options,
        horizon,
    })
}

/// The lint of two words with these values of `--expires-within` and `--on`.
fn names_with<'a>(
    licence: &'a str,
    options: &'a str,
    within: Option<&'a str>,
    on: Option<&'a str>,
) -> Option<LintNames<'a>>
    ensures { option_map lint_named result ≡ lint_with licence.entry.now options.entry.now (option_copied within.entry) (option_copied on.entry) }
{
    match within {
        None => match on {
            None => plain_names(licence, options, None),
            Some(_) => None,
        },
        Some(within) => {
            let horizon = read_horizon(within, on?)?;
            plain_names(licence, options, Some(horizon))
        }
    }
}

/// The lint of these values. `None` comes exactly where a file isn't named by a word that may name one, or where not
/// both or none of `--expires-within` and `--on` are given, the first as a number up to 65,535 and the second as a day.
pub fn read_names<'a>(
    licence: Option<&'a str>,
    options: Option<&'a str>,
    within: Option<&'a str>,
    on: Option<&'a str>,
) -> Option<LintNames<'a>>
    ensures { option_map lint_named result ≡ lint_by (option_copied licence.entry) (option_copied options.entry) (option_copied within.entry) (option_copied on.entry) }
{
    names_with(licence?, options?, within, on)
}
