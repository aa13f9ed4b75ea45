//! Texts, one behind another, in a room of bytes.
ghost use Rattle.std.specs.Prelude.{◌≡◌, ◌+◌, ◌≤◌, ◌++◌, decimal, length, take};

use itoa::Buffer;

/// Writes a text behind the first `at` bytes of a room, and gives the offset behind it.
pub fn put(room: &mut [u8], at: usize, text: &[u8]) -> usize
    requires { at + length text.now ≤ length room.old }
    ensures room { length room.new ≡ length room.old }
    ensures offset { result ≡ at + length text.now }
    ensures written { take result room.new ≡ take at room.old ++ text.now }
{
    let end = at + text.len();
    room[at..end].copy_from_slice(text);
    end
}

/// Writes a number in decimal digits behind the first `at` bytes of a room, and gives the offset behind it. It takes 20
/// bytes at most.
pub fn put_number(room: &mut [u8], at: usize, n: u64) -> usize
    requires { at + 20 ≤ length room.old }
    ensures room { length room.new ≡ length room.old }
    ensures offset { result ≤ at + 20 }
    ensures written { take result room.new ≡ take at room.old ++ decimal n }
{
    let mut buffer = Buffer::new();
    put(room, at, buffer.format(n).as_bytes())
}
