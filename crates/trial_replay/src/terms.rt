//! What the events are replayed under: a licence of one pool, and an options file with a line of each kind that
//! decides.
ghost use Rattle.std.specs.Prelude.{◌≡◌, ◌∷◌, [], IfOk};
ghost use Rattle.options_machine.specs.State.{opening};
ghost use Rattle.trial_replay.specs.Terms.{bench_options, bench_pool, bench_sets};

use crate::event::PARTIES;
use feature_lines::{Licence, LicenceFault, read_licence};
use no_memory::NoMemory;
use options_text::{Options, OptionsFault, read_options};
use policy::DeskRules;
use seat_book::Book;
use std::alloc::Global;

/// The licence file.
const LICENCE: &[u8] = b"FEATURE bench v 1.0 permanent 4";

/// The options file.
const OPTIONS: &[u8] =
    b"GROUP even u0 u2 u4 u6\nEXCLUDE bench USER u7\nRESERVE 1 bench USER u1\nMAX 2 bench GROUP even\nLINGER bench 40\nTIMEOUT bench 900\n";

/// The licence, read as any other. The one error is want of memory.
fn trial_licence(alloc: Global) -> Result<Licence, NoMemory>
    ensures { IfOk result (λ licence. licence.pools ≡ bench_pool ∷ []) }
{
    match read_licence(alloc, LICENCE) {
        Ok(licence) => Ok(licence),
        Err(fault) => {
            prove!(matches!(&fault, LicenceFault::NoMemory));
            Err(NoMemory)
        }
    }
}

/// The options, read as any others. The one error is want of memory.
fn trial_options(alloc: Global) -> Result<Options, NoMemory>
    ensures { IfOk result (λ options. options ≡ bench_options) }
{
    match read_options(alloc, OPTIONS) {
        Ok(options) => Ok(options),
        Err(fault) => {
            prove!(matches!(&fault, OptionsFault::NoMemory));
            Err(NoMemory)
        }
    }
}

/// The book of the licence's pool before the first event, by the rules of the options file. The one error is want of
/// memory.
pub(crate) fn trial_book(alloc: Global) -> Result<Book, NoMemory>
    ensures { IfOk result (λ book. book ≡ record { sets = bench_sets; parties = 16; state = opening; grants = 0 }) }
{
    let licence = trial_licence(alloc)?;
    let options = trial_options(alloc)?;
    let rules = DeskRules::of(alloc, &options, &licence.pools()[0])?;
    Book::make(alloc, rules, PARTIES)
}
