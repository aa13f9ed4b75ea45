ghost use Rattle.std.specs.Prelude.{◌≡◌, ◌+◌, ◌<◌, ◌≤◌, ◌^◌, ◌∷◌, length};
ghost use Rattle.lic_text.specs.Physical.{physical_lines};
ghost use Rattle.lic_text.specs.Prefix.{joined_text, has_no_end, line_count, lines_behind};

use crate::physical::{cut_line, strip_last};

/// How far a logical line goes.
#[derive(Clone, Copy)]
pub(crate) struct Extent<'a> {
    // Its bytes, a joining space in the place of each backslash.
    pub(crate) length: usize,
    // The file ends before it does.
    pub(crate) is_open: bool,
    // How many physical lines it has.
    pub(crate) count: u32,
    // The file behind it.
    pub(crate) rest: &'a [u8],
}

/// The extent of the logical line that begins with this physical line, behind which the file goes on.
pub(crate) fn measure<'a>(text: &'a [u8], behind: &'a [u8]) -> Extent<'a>
    requires { length text.now + length behind.now < 2 ^ 32 }
    ensures length { result.length ≡ length (joined_text (text.now ∷ physical_lines behind.now)) }
    ensures is_open { result.is_open ≡ has_no_end (text.now ∷ physical_lines behind.now) }
    ensures count { result.count ≡ line_count (text.now ∷ physical_lines behind.now) }
    ensures rest { physical_lines result.rest.now ≡ lines_behind (text.now ∷ physical_lines behind.now) }
    ensures shorter { result.count + length result.rest.now ≤ 1 + length behind.now }
    ensures nearer { length result.rest.now ≤ length behind.now }
{
    match strip_last(text, b'\\') {
        Some(front) => {
            let further = measure_further(behind);
            Extent {
                length: front.len() + 1 + further.length,
                is_open: further.is_open,
                count: 1 + further.count,
                rest: further.rest,
            }
        }
        None => Extent {
            length: text.len(),
            is_open: false,
            count: 1,
            rest: behind,
        },
    }
}

/// The extent of what continues a logical line.
fn measure_further(from: &[u8]) -> Extent<'_>
    requires { length from.now < 2 ^ 32 }
    ensures length { result.length ≡ length (joined_text (physical_lines from.now)) }
    ensures is_open { result.is_open ≡ has_no_end (physical_lines from.now) }
    ensures count { result.count ≡ line_count (physical_lines from.now) }
    ensures rest { physical_lines result.rest.now ≡ lines_behind (physical_lines from.now) }
    ensures within { result.length ≤ length from.now }
    ensures shorter { result.count + length result.rest.now ≤ length from.now }
{
    let mut length = 0;
    let mut count = 0;
    let mut rest = from;
    while !rest.is_empty() {
        let (text, behind) = cut_line(rest);
        rest = behind;
        count += 1;
        match strip_last(text, b'\\') {
            Some(front) => length += front.len() + 1,
            None => {
                return Extent {
                    length: length + text.len(),
                    is_open: false,
                    count,
                    rest,
                };
            }
        }
    }
    Extent {
        length,
        is_open: true,
        count,
        rest,
    }
}
