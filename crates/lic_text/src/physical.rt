ghost use Rattle.std.specs.Prelude.{◌≡◌, ◌+◌, ◌<◌, ◌≤◌, ◌==◌, ◌∷◌, length, not, position, find, drop, MatchOption, true, false};
ghost use Rattle.std.specs.List.{position_or_len};
ghost use Rattle.lic_text.specs.Physical.{is_blank, ends_in, without_last, without_return, is_comment, physical_lines};

use memchr::memchr;

/// A space or a tab.
pub(crate) fn is_blank(b: u8) -> bool
    ensures { result ≡ is_blank b }
{
    b == b' ' || b == b'\t'
}

fn first_blank(bytes: &[u8]) -> Option<usize>
    ensures { result ≡ position is_blank bytes.now }
{
    bytes.iter().position(|b| is_blank(*b))
}

fn first_other(bytes: &[u8]) -> Option<usize>
    ensures { result ≡ position (λ b. not (is_blank b)) bytes.now }
{
    bytes.iter().position(|b| !is_blank(*b))
}

/// Where the first physical line ends: at its LF, or at the end of the text.
fn line_end(bytes: &[u8]) -> usize
    ensures place { result ≡ position_or_len (λ b. b == 10) bytes.now }
    ensures within { result ≤ length bytes.now }
{
    memchr(b'\n', bytes).unwrap_or(bytes.len())
}

#[tactic(auto, using(crate::proofs::Ends::ends))]
fn word_start(bytes: &[u8]) -> usize
    ensures place { result ≡ position_or_len (λ b. not (is_blank b)) bytes.now }
    ensures within { result ≤ length bytes.now }
{
    first_other(bytes).unwrap_or(bytes.len())
}

#[tactic(auto, using(crate::proofs::Ends::ends))]
pub(crate) fn word_end(bytes: &[u8]) -> usize
    ensures place { result ≡ position_or_len is_blank bytes.now }
    ensures within { result ≤ length bytes.now }
{
    first_blank(bytes).unwrap_or(bytes.len())
}

/// The text from its first word on.
pub(crate) fn after_blanks(bytes: &[u8]) -> &[u8]
    ensures { result.now ≡ drop (position_or_len (λ b. not (is_blank b)) bytes.now) bytes.now }
{
    &bytes[word_start(bytes)..]
}

/// The text without this byte, where it ends in it.
pub(crate) fn strip_last(text: &[u8], byte: u8) -> Option<&[u8]>
    ensures { MatchOption result (ends_in byte text.now ≡ false)
        (λ front. (ends_in byte text.now ≡ true) × (front.now ≡ without_last text.now)
        × (length front.now + 1 ≡ length text.now)) }
{
    match text {
        [front @ .., last] if *last == byte => Some(front),
        _ => None,
    }
}

fn without_return(text: &[u8]) -> &[u8]
    ensures text { result.now ≡ without_return text.now }
    ensures shorter { length result.now ≤ length text.now }
{
    match strip_last(text, b'\r') {
        Some(front) => front,
        None => text,
    }
}

/// The first byte that isn't blank.
fn first_mark(text: &[u8]) -> Option<u8>
    ensures { result ≡ find (λ b. not (is_blank b)) text.now }
{
    text.iter().copied().find(|b| !is_blank(*b))
}

pub(crate) fn is_comment(text: &[u8]) -> bool
    ensures { result ≡ is_comment text.now }
{
    first_mark(text) == Some(b'#')
}

/// The first physical line, without its LF and the CR before that, and what stands after its LF.
pub(crate) fn cut_line(bytes: &[u8]) -> (&[u8], &[u8])
    requires { 0 < length bytes.now }
    ensures cut { physical_lines bytes.now ≡ result.0.now ∷ physical_lines result.1.now }
    ensures shorter { length result.0.now + length result.1.now ≤ length bytes.now }
    ensures nearer { length result.1.now < length bytes.now }
{
    let end = line_end(bytes);
    if end < bytes.len() {
        (without_return(&bytes[..end]), &bytes[end + 1..])
    } else {
        (without_return(bytes), &[])
    }
}
