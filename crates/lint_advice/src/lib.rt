//! Advice on a licence and an options file that their readers accept: the slips that the daemon takes without a word,
//! as values and as text.
#![tactic(auto)]

mod advice;
mod cuts;
mod finds;
mod lines;
mod naming;
mod pools;
mod text;

ghost use Rattle.std.specs.Prelude.{◌≡◌, IfOk};
ghost use Rattle.lint_advice.specs.Advice.{advice_of};

use crate::cuts::cuts_of_pools;
use crate::lines::{Known, advise_lines};
use crate::pools::advise_pools;
pub use advice::{Advice, Horizon};
use feature_lines::Licence;
use lic_types::NoMemory;
use options_text::Options;
use std::alloc::Global;
pub use text::advice_text;

/// The advice on a licence and an options file, with that on pools that expire by a horizon, where one is given.
///
/// First what is advised of the lines of the options file, line by line in their order; then what is advised of the
/// pools, in their order. Of one line it comes in the order of the kinds of [`Advice`]. What is advised is this
/// project's own. The one error is want of memory.
pub fn advice_of(
    alloc: Global,
    licence: &Licence,
    options: &Options,
    horizon: Option<Horizon>,
) -> Result<Vec<Advice>, NoMemory>
    ensures { IfOk result (λ advice. advice.items ≡ advice_of licence.now options.now horizon) }
{
    let pools = licence.pools();
    let cuts = cuts_of_pools(alloc, options, pools)?;
    let known = Known {
        pools,
        lines: options.lines(),
        cuts: cuts.as_slice(),
    };
    let mut advice = Vec::new(alloc);
    advise_lines(&mut advice, &known, options.groups())?;
    advise_pools(&mut advice, horizon, pools)?;
    Ok(advice)
}
