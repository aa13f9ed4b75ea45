//! What an administrator is told of a licence and an options file: the pools, what isn't served and why, the RESERVE
//! lines that were cut, and the canonical options.
#![tactic(auto)]

mod lines;

ghost use Rattle.std.specs.Prelude.{◌≡◌, IfOk};
ghost use Rattle.check_text.specs.Check.{check_of};

use crate::lines::{put_cuts_of_pools, put_notes, put_pools};
use feature_lines::Licence;
use lic_types::NoMemory;
use options_text::{Options, write_options};
use std::alloc::Global;

/// The text that tells of a licence and an options file.
///
/// In this order: a line for each pool with its number from 0, its name, its version as the licence writes it, its
/// count in licences and its last day; a line for each note of the licence and then for each note of the options, with
/// the physical line and what was noticed; a line for each RESERVE line that a pool cuts, pool by pool, with the number
/// of seats that it keeps there; `OPTIONS`; and the canonical text of the options. The form is this project's own. The
/// one error is want of memory.
pub fn check_text(alloc: Global, licence: &Licence, options: &Options) -> Result<Vec<u8>, NoMemory>
    ensures { IfOk result (λ text. text.items ≡ check_of licence.now options.now) }
{
    let mut text = Vec::new(alloc);
    put_pools(&mut text, licence.pools())?;
    put_notes(&mut text, b"NOTE LICENCE ", licence.notes())?;
    put_notes(&mut text, b"NOTE OPTIONS ", options.notes())?;
    put_cuts_of_pools(alloc, &mut text, options, licence.pools())?;
    text.extend_from_slice(b"OPTIONS\n")?;
    let canonical = write_options(alloc, options)?;
    text.extend_from_slice(canonical.as_slice())?;
    Ok(text)
}
