//! A site whose pool, options and requests are drawn.
use crate::draws::Draws;
use anyhow::{Result, ensure};
use feature_lines::Pool;
use lic_types::{Client, Expiry, Name, Version};
use options_machine::{Kind, Request};
use options_text::read_options;
use policy::DeskRules;
use std::alloc::Global;

/// The parties of a site.
pub const PARTIES: u32 = 12;

/// The lines of which an options file has some, behind its groups.
const LINES: [&[u8]; 16] = [
    b"EXCLUDE edit USER dan\n",
    b"EXCLUDE edit HOST mast\n",
    b"EXCLUDEALL GROUP late\n",
    b"INCLUDE edit GROUP crew\n",
    b"INCLUDE edit HOST keel\n",
    b"MAX 1 edit USER ann\n",
    b"MAX 2 edit GROUP crew\n",
    b"MAX 3 edit HOST_GROUP hulls\n",
    b"RESERVE 1 edit USER cy\n",
    b"RESERVE 2 edit GROUP crew\n",
    b"RESERVE 1 edit HOST mast\n",
    b"LINGER edit 40\n",
    b"LINGER edit 200\n",
    b"LINGER edit 900\n",
    b"TIMEOUT edit 900\n",
    b"TIMEOUTALL 1200\n",
];

/// The pool of `FEATURE edit acme 2.0 permanent count`, with a count of 1 to 4 mostly, and of 1 to 300 else.
pub fn pool(draws: &mut Draws) -> Result<Pool> {
    let most = if draws.below(4) == 0 { 300 } else { 4 };
    Ok(Pool {
        name: Name::read(b"edit")?,
        version: Version { key: 2_000_000_000 },
        version_text: Name::read(b"2.0")?,
        vendor: Name::read(b"acme")?,
        expiry: Expiry::Never,
        count: 1 + draws.below(most),
        line: 1,
    })
}

/// An options file with about a quarter of the lines.
fn options(alloc: Global, draws: &mut Draws) -> Result<Vec<u8>> {
    let mut file = Vec::new(alloc);
    file.extend_from_slice(b"GROUP crew ann bob\nGROUP late eve\nHOST_GROUP hulls keel\n")?;
    for line in LINES {
        if draws.below(4) == 0 {
            file.extend_from_slice(line)?;
        }
    }
    Ok(file)
}

/// The rules of the pool by a file that is drawn.
pub fn rules(alloc: Global, pool: &Pool, draws: &mut Draws) -> Result<DeskRules> {
    let file = options(alloc, draws)?;
    ensure!(file.len() < 1 << 32, "too long a file");
    let options = read_options(alloc, &file)?;
    Ok(DeskRules::of(alloc, &options, pool)?)
}

/// How many seconds go by before a request: none mostly, and an hour at most.
pub fn pause(draws: &mut Draws) -> u64 {
    match draws.below(8) {
        0..=4 => 0,
        5 | 6 => u64::from(draws.below(60)),
        _ => u64::from(draws.below(3_600)),
    }
}

fn user(number: u32) -> &'static [u8] {
    match number {
        0 => b"ann",
        1 => b"bob",
        2 => b"cy",
        3 => b"dan",
        _ => b"eve",
    }
}

fn kind(number: u32) -> Kind {
    match number {
        0..=4 => Kind::Checkout,
        5..=8 => Kind::Queue,
        9..=11 => Kind::Checkin,
        12 => Kind::Quit,
        13 | 14 => Kind::Look,
        15 | 16 => Kind::Beat,
        17 => Kind::Count,
        _ => Kind::Reread(number % 4),
    }
}

/// A request of any party, for any client.
pub fn request(draws: &mut Draws) -> Result<Request> {
    let host: &[u8] = if draws.below(3) == 0 {
        b"mast"
    } else {
        b"keel"
    };
    let client = Client {
        user: Name::read(user(draws.below(5)))?,
        host: Name::read(host)?,
        display: Name::read(b":1")?,
        project: Name::read(b"ferry")?,
    };
    Ok(Request {
        party: draws.below(PARTIES),
        client,
        kind: kind(draws.below(22)),
    })
}
