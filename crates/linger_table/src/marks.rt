//! Marks of clients: numbers that tell most of them apart at one comparison.
ghost use Rattle.std.specs.Prelude.{◌≡◌};
ghost use Rattle.linger_table.specs.Marks.{mark_of, mark_with_byte, mark_with_name};

use lic_types::{Client, Name};

/// Where the hash FNV-1a of 64 bits begins (Fowler, Noll and Vo).
const BASIS: u64 = 0xcbf2_9ce4_8422_2325;

/// What it multiplies by.
const PRIME: u64 = 0x0000_0100_0000_01b3;

fn mark_with_byte(mark: u64, byte: u8) -> u64
    ensures { result ≡ mark_with_byte mark byte }
{
    (mark ^ u64::from(byte)).wrapping_mul(PRIME)
}

fn mark_with_name(mark: u64, name: &Name) -> u64
    ensures { result ≡ mark_with_name mark name.now }
{
    let after = name
        .bytes()
        .iter()
        .fold(mark, |mark, byte| mark_with_byte(mark, *byte));
    mark_with_byte(after, 0)
}

/// The mark of a client. Equal clients have equal marks, and different ones seldom do.
#[tactic(auto, unfolding(crate::specs::Marks::mark_of))]
pub fn mark_of(client: &Client) -> u64
    ensures { result ≡ mark_of client.now }
{
    let user = mark_with_name(BASIS, &client.user);
    let host = mark_with_name(user, &client.host);
    let display = mark_with_name(host, &client.display);
    mark_with_name(display, &client.project)
}
