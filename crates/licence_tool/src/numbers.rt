ghost use Rattle.std.specs.Prelude.{◌≡◌, ◌<◌, ◌≤◌, ◌^◌, IfSome};
ghost use Rattle.licence_tool.specs.Numbers.{number_within};

use lic_text::number;

/// The number that a word of a command writes in decimal digits, from the least to the most. `None` comes exactly where
/// it writes none of these.
pub fn number_within(word: &str, least: u64, most: u64) -> Option<u32>
    requires { most < 2 ^ 32 }
    ensures number { result ≡ number_within least most word.now }
    ensures within { IfSome result (λ n. (least ≤ n) × (n ≤ most)) }
{
    match number(word.as_bytes()) {
        Some(n) if least <= n && n <= most => Some(n as u32),
        _ => None,
    }
}
