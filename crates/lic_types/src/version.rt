ghost use Rattle.std.specs.Prelude.{◌≡◌, ◌^◌, ◌<◌, ◌≤◌, ◌==◌, IfSome, length};
ghost use Rattle.std.specs.List.{position_from};
ghost use Rattle.std.specs.Option.{option_map};
ghost use Rattle.lic_types.specs.Version.{decimal, key_of, nine_places};

/// The version of a feature. Versions are compared as decimal numbers, so 2.10 is 2.1 and is below 2.9 (this project).
#[derive(Clone, Copy, Debug, PartialEq, Eq, PartialOrd, Ord)]
pub struct Version {
    /// The whole part times 10^9, and the fraction to nine places.
    pub key: u64,
}

/// The number that digits write.
fn digits(word: &[u8]) -> Option<u64>
    requires { length word.now ≤ 10 }
    ensures value { result ≡ decimal word.now }
    ensures small { IfSome result (λ n. n < 10 ^ 10) }
{
    if word.is_empty() {
        return None;
    }
    let mut value = 0u64;
    for b in word {
        if !b.is_ascii_digit() {
            return None;
        }
        value = value * 10 + u64::from(*b - b'0');
    }
    Some(value)
}

/// The fraction's digits, and zeros after them.
fn padded(fraction: &[u8]) -> [u8; 9]
    requires { length fraction.now ≤ 9 }
    ensures { result ≡ nine_places fraction.now }
{
    let mut nine = [b'0'; 9];
    nine[..fraction.len()].copy_from_slice(fraction);
    nine
}

/// Where the point is.
fn point_of(word: &[u8]) -> Option<usize>
    ensures first { result ≡ position_from (λ b. b == 46) 0 word.now }
    ensures within { IfSome result (λ at. at < length word.now) }
{
    word.iter().position(|b| *b == b'.')
}

impl Version {
    /// The version that a word spells. `None` comes exactly where the word isn't 1 to 10 bytes of digits, or of digits,
    /// a point and digits.
    pub fn read(word: &[u8]) -> Option<Version>
        ensures { option_map (λ version. version.key) result ≡ key_of word.now }
    {
        if word.len() > 10 {
            return None;
        }
        let Some(point) = point_of(word) else {
            let whole = digits(word)?;
            return Some(Version {
                key: whole * 1_000_000_000,
            });
        };
        let whole = digits(&word[..point])?;
        let fraction = &word[point + 1..];
        if fraction.is_empty() {
            return None;
        }
        let nine = padded(fraction);
        let parts = digits(&nine)?;
        Some(Version {
            key: whole * 1_000_000_000 + parts,
        })
    }
}
