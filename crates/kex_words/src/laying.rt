//! The making of a table.
ghost use Rattle.std.specs.Prelude.{◌≡◌, ◌≤◌, [], Some, IfOk, EachIndex, vec_len, vec_capacity, slice_get};
ghost use Rattle.kex_words.specs.Passes.{OpensWords, unused_card, unused_pass};
ghost use Rattle.kex_words.specs.Steps.{maker};

use crate::card::Card;
use crate::passes::{Out, Seated};
use crate::table::{Deal, WordSeat, counter_word};
use crate::words::KexTable;
use atomic_table::Table;
use kex_core::{Net, NoMemory, Place};
use std::alloc::Global;
use std::snapshot::Snapshot;

impl KexTable {
    /// The table of a net, and the passes of the parties 0 to n-1, in order, each at Out.
    ///
    /// It takes all memory that the table ever needs. NoMemory where there is not so much.
    pub fn make(alloc: Global, net: Net) -> Result<(KexTable, Vec<Out>), NoMemory>
        ensures net { IfOk result (λ r. r.0.net ≡ net) }
        ensures count { IfOk result (λ r. vec_len r.1 ≡ net.parties) }
        ensures passes { IfOk result (λ r. EachIndex r.1.items (λ i. slice_get r.1.items i ≡ Some (unused_pass r.0 i))) }
    {
        let words = opening_words(alloc, &net)?;
        let slots = card_slots(alloc, net.width())?;
        let cards = Vec::with_capacity(alloc, net.width() as usize)?;
        let mut passes = Vec::with_capacity(alloc, net.parties() as usize)?;
        let about = Snapshot::of(&net);
        let Ok((table, mut seat)) = Table::new(alloc, &words, slots, &about) else {
            return Err(NoMemory);
        };
        let made = KexTable { table, net, cards };
        made.deal(&mut seat, &mut passes);
        Ok((made, passes))
    }

    /// Deals the passes, whose room is there.
    fn deal(&self, seat: &mut WordSeat, passes: &mut Vec<Out>)
        requires own { seat.old.table_id ≡ self.now.id }
        requires opens { seat.old.me ≡ (maker self.now.net 0, []) }
        requires room { (passes.old.items ≡ []) × (self.now.net.parties ≤ vec_capacity passes.old) }
        ensures count { vec_len passes.new ≡ self.now.net.parties }
        ensures dealt { EachIndex passes.new.items (λ i. slice_get passes.new.items i ≡ Some (unused_pass self.now i)) }
    {
        for number in 0..self.net.parties() {
            let other = self.table.shared.split_seat::<Deal>(seat);
            passes.push_reserved(Out {
                seated: Seated {
                    number,
                    place: Place::Out,
                    seat: other,
                },
            });
        }
    }
}

/// The words of a new table: each counter is one more than its stage's capacity, and all others are 0.
fn opening_words(alloc: Global, net: &Net) -> Result<Vec<u64>, NoMemory>
    ensures { IfOk result (λ v. OpensWords net.now v.items) }
{
    let stages = net.stages();
    let size = 2 * stages as usize + 2 * net.width() as usize;
    let mut words = vec![in alloc; 0u64; size]?;
    for j in 0..stages {
        words[counter_word(j)] = u64::from(net.cap(j)) + 1;
    }
    Ok(words)
}

/// So many cards that were never used, each in its slot.
fn card_slots(alloc: Global, width: u32) -> Result<Vec<Option<Card>>, NoMemory>
    ensures count { IfOk result (λ v. vec_len v ≡ width) }
    ensures cards { IfOk result (λ v. EachIndex v.items (λ s. slice_get v.items s ≡ Some (Some (unused_card s)))) }
{
    let mut slots = Vec::with_capacity(alloc, width as usize)?;
    for number in 0..width {
        slots.push_reserved(Some(Card { number, uses: 0 }));
    }
    Ok(slots)
}
