//! The party whose seat a timeout takes.
ghost use Rattle.std.specs.Prelude.{◌≡◌, ◌<◌, ◌≤◌, true, false, None, Some, IfNone, IfSome, length, set, slice_index_or};
ghost use Rattle.options_machine.specs.declared.rows.Holder.{Holder};
ghost use Rattle.seat_rows.specs.Beats.{due_marks};
ghost use Rattle.seat_rows.specs.Rows.{AreMarked};

use crate::beats::Beats;
use crate::row::Row;

/// Whether the party, whose mark was taken out, has a seat and was not heard after this moment. Where it was heard, its
/// last beat is its mark now.
fn is_silent(rows: &[Row], beats: &mut Beats, over: u64, party: usize) -> bool
    requires inside { party < length rows.now }
    requires long { length beats.old ≡ length rows.now }
    requires none { slice_index_or beats.old party None ≡ None }
    requires marked { AreMarked (set rows.now party None) beats.old }
    ensures long { length beats.new ≡ length rows.now }
    ensures silent { result ≡ true → (h : Holder) × (slice_index_or rows.now party None ≡ Some h) × (h.beat ≤ over) }
    ensures same { result ≡ true → beats.new ≡ beats.old }
    ensures marked { result ≡ false → AreMarked rows.now beats.new }
    ensures due { due_marks over beats.new ≡ due_marks over beats.old }
{
    match rows[party].holder() {
        None => false,
        Some(holder) => {
            let silent = holder.beat <= over;
            if !silent {
                beats.note(party, holder.beat);
            }
            silent
        }
    }
}

/// The party of a seat that was not heard after this moment, in seconds since 1970-01-01 UTC, whose mark is taken out;
/// `None` where every holder was heard after it.
pub fn next_silent(rows: &[Row], beats: &mut Beats, over: u64) -> Option<usize>
    requires long { length beats.old ≡ length rows.now }
    requires marked { AreMarked rows.now beats.old }
    ensures long { length beats.new ≡ length rows.now }
    ensures silent { IfSome result (λ party. (h : Holder) × (slice_index_or rows.now party None ≡ Some h) × (h.beat ≤ over)) }
    ensures others { IfSome result (λ party. AreMarked (set rows.now party None) beats.new) }
    ensures marked { IfNone result (AreMarked rows.now beats.new) }
    ensures none { IfNone result (due_marks over beats.new ≡ 0) }
{
    while let Some(party) = beats.settle(over) {
        if is_silent(rows, beats, over, party) {
            return Some(party);
        }
    }
    None
}
