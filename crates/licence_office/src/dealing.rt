//! How the passes of a desk go to the parties and come back.
ghost use Rattle.std.specs.Prelude.{◌≡◌, ◌<◌, ◌≤◌, [], All, IfOk, length, vec_len, vec_capacity};
ghost use Rattle.licence_office.specs.Dealing.{IsHanded, IsTaken, IsRoomFor};

use crate::office::OfficePass;
use feature_desk::DeskPass;
use no_memory::NoMemory;
use std::alloc::Global;

/// An empty list for each party, with room for so many passes, and for one more: so no line of a processor's memory has
/// passes of two parties, which their sessions write at each request.
pub(crate) fn rooms(alloc: Global, parties: u32, each: usize) -> Result<Vec<OfficePass>, NoMemory>
    ensures count { IfOk result (λ made. vec_len made ≡ parties) }
    ensures rooms { IfOk result (λ made. All (IsRoomFor each) made.items) }
{
    let mut passes = Vec::with_capacity(alloc, parties as usize)?;
    for _party in 0..parties {
        passes.push_reserved(Vec::with_capacity(alloc, each.saturating_add(1))?);
    }
    Ok(passes)
}

/// Gives each party its pass of a desk, behind those that it has.
pub(crate) fn hand_out(passes: &mut Vec<DeskPass>, parties: &mut [OfficePass])
    requires count { vec_len passes.old ≡ length parties.old }
    requires room { All (λ p. vec_len p < vec_capacity p) parties.old }
    ensures empty { passes.new.items ≡ [] }
    ensures room { vec_capacity passes.new ≡ vec_capacity passes.old }
    ensures handed { IsHanded passes.old.items parties.old parties.new 0 }
{
    while let Some(pass) = passes.pop() {
        let party = passes.len();
        parties[party].push_reserved(pass);
    }
}

/// Takes each party's last pass in, in order.
pub(crate) fn take_in(parties: &mut [OfficePass], passes: &mut Vec<DeskPass>)
    requires some { All (λ p. 0 < vec_len p) parties.old }
    requires empty { passes.old.items ≡ [] }
    requires room { length parties.old ≤ vec_capacity passes.old }
    ensures taken { IsTaken parties.old parties.new passes.new.items }
{
    for party in parties.iter_mut() {
        let Some(pass) = party.pop() else {
            unreachable!()
        };
        passes.push_reserved(pass);
    }
}
