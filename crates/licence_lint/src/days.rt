//! The day of `--on`, which is written as the expiry of a licence line is.
ghost use Rattle.std.specs.Prelude.{◌≡◌};
ghost use Rattle.feature_lines.specs.Dates.{expiry_of};
ghost use Rattle.licence_lint.specs.Days.{last_day};

use feature_lines::read_expiry;
use lic_types::{Day, Expiry};

/// The day that a word names, as `31-dec-2026`. `None` comes exactly where the word isn't the expiry of a licence that
/// ends.
pub fn read_day(word: &[u8]) -> Option<Day>
    ensures { result ≡ last_day (expiry_of word.now) }
{
    match read_expiry(word)? {
        Expiry::On(day) => Some(day),
        Expiry::Never => None,
    }
}
