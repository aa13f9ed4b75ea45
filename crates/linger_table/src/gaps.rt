//! The closing of gaps between seats that linger.
ghost use Rattle.std.specs.Prelude.{◌≡◌, ◌+◌, ◌-◌, ◌*◌, ◌^◌, ◌<◌, ◌≤◌, length};
ghost use Rattle.linger_table.specs.Slots.{IsPacked, entries_in};

use crate::slots::Slots;

/// Moves the entry of a slot, if it has one, to the first empty slot, and gives the first empty slot after that. All
/// slots from the first empty one on are empty, up to this one.
fn move_down(slots: &mut Slots, from: usize, to: usize) -> usize
    requires within { from < length slots.old.slots }
    requires few { from < 2 ^ 32 }
    requires behind { to ≤ from }
    requires packed { IsPacked to (from - to) slots.old.slots }
    ensures entries { entries_in slots.new.slots ≡ entries_in slots.old.slots }
    ensures room { slots.new.room ≡ slots.old.room }
    ensures count { length slots.new.slots ≡ length slots.old.slots }
    ensures behind { result ≤ from + 1 }
    ensures packed { IsPacked result (from + 1 - result) slots.new.slots }
{
    let Some(entry) = slots.at(from) else {
        return to;
    };
    if to == from {
        return to + 1;
    }
    slots.clear(from);
    slots.put(to, &entry);
    to + 1
}

/// Closes the gaps: the entries in their order, and no empty slot.
pub fn close_gaps(slots: &mut Slots)
    ensures entries { entries_in slots.new.slots ≡ entries_in slots.old.slots }
    ensures room { slots.new.room ≡ slots.old.room }
    ensures none_empty { length slots.new.slots ≡ length (entries_in slots.new.slots) }
{
    let count = slots.count();
    let mut to = 0;
    for from in 0..count {
        to = move_down(slots, from, to);
    }
    slots.shrink(to);
}

/// Sees that there is a slot for another entry.
pub fn make_way(slots: &mut Slots)
    requires { length (entries_in slots.old.slots) < slots.old.room }
    ensures entries { entries_in slots.new.slots ≡ entries_in slots.old.slots }
    ensures room { slots.new.room ≡ slots.old.room }
    ensures slot { length slots.new.slots < 2 * slots.new.room }
{
    if slots.is_crowded() {
        close_gaps(slots);
    }
}
