//! What `report` prints of a pool: how many of its seats are in use and by whom, which linger, and who waits.
#![tactic(auto)]

mod lines;

ghost use Rattle.std.specs.Prelude.{◌≡◌, IfOk};
ghost use Rattle.stat_report.specs.Report.{report_text};

use feature_lines::Pool;
use lic_types::NoMemory;
use lines::{put_holders, put_lingerers, put_pool, put_queue};
use seat_book::Book;
use std::alloc::Global;

/// The text that tells of the pool of this number, which the licence says so, by its book as it stands: a line of the
/// pool with its numbers, in licences; a line for each seat that is held, in order of party; one for each that lingers,
/// in the order in which they came; and one for each party that waits, in the order of the queue, with its position
/// from 1. Moments are in seconds since 1970-01-01 UTC. The one error is want of memory. The text is this project's
/// own.
pub fn report(alloc: Global, pool: u32, of: &Pool, book: &Book) -> Result<Vec<u8>, NoMemory>
    ensures { IfOk result (λ text. text.items ≡ report_text pool of.now book.now.sets book.now.state) }
{
    let mut text = Vec::new(alloc);
    let holders = book.holders(alloc)?;
    put_pool(&mut text, pool, of, &book.glance(0))?;
    put_holders(&mut text, holders.as_slice())?;
    put_lingerers(&mut text, book)?;
    put_queue(&mut text, book.queue())?;
    Ok(text)
}
