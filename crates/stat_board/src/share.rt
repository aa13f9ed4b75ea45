//! What the passes of a board read it with, one at a time.
ghost use Rattle.std.specs.Prelude.{◌≡◌, IfOk, IfSome};
ghost use Rattle.left_right.specs.Sides.{view};
ghost use Rattle.stat_board.specs.declared.sharing.TheConstants.{PLACES, SLOT};
ghost use Rattle.stat_board.specs.Fronts.{IsSameBoard, IsLater};
ghost use Rattle.stat_board.specs.Rule.{IsTold};

use crate::note::BoardNote;
use crate::rule::{NoteReader, Sees};
use crate::sharing::{Give, PLACES, ReaderSeat, ReaderTable, SLOT, Sharing, Take};
use no_memory::NoMemory;
use std::alloc::Global;
use std::hint;
use std::marker::Model;
use std::snapshot::Snapshot;
use std::sync::Arc;

/// How often a pass asks for the reader until it reads nothing, which takes a microsecond or two.
const ASKS: u32 = 32;

/// The reader of a board, which all its passes share, and a seat of one pass at its table.
///
/// Contracts see it as the `Front` that the board opened with.
#[derive(Drop)]
pub(crate) struct ReaderShare {
    table: Arc<ReaderTable>,
    seat: ReaderSeat,
}

impl Model for ReaderShare {
    ghost use Rattle.std.specs.Arc.{arc_value};
    ghost use Rattle.stat_board.specs.Fronts.{Front};
    ghost use Rattle.stat_board.specs.Sharing.{IsSeated};

    ghost Value = { Front };

    ghost view = { λ r. r.seat.me.0 };

    ghost invariant = { λ r. IsSeated (arc_value r.table).shared.table_id r.seat.table_id r.seat.me.1 };
}

impl ReaderShare {
    /// A table with no reader yet, for a board that opens with this note.
    pub fn vacant(alloc: Global, note: &BoardNote) -> Result<ReaderShare, NoMemory>
        ensures { IfOk result (λ r. r ≡ note.now) }
    {
        let opening = Snapshot::of(note);
        let (table, seat) = ReaderTable::vacant(alloc, &[0; PLACES], PLACES, &opening)?;
        Ok(ReaderShare {
            table: Arc::new(alloc, table)?,
            seat,
        })
    }

    /// The same reader for one pass more.
    pub fn another(&mut self) -> Result<ReaderShare, NoMemory>
        ensures same { self.new ≡ self.old }
        ensures shared { IfOk result (λ r. r ≡ self.old) }
    {
        let table = Arc::try_clone(&self.table)?;
        let seat = self.table.shared.split_seat::<Sharing>(&mut self.seat);
        Ok(ReaderShare { table, seat })
    }

    /// Puts the reader into its slot.
    pub fn put(&mut self, reader: NoteReader)
        requires told { IsTold self.old (view reader.place) }
        ensures { self.new ≡ self.old }
    {
        let shared = &self.table.shared;
        if shared.compare_exchange::<Take>(&mut self.seat, SLOT, 0, 1) == 0 {
            shared.exchange(&mut self.seat, SLOT, Some(reader));
            shared.store::<Give>(&mut self.seat, SLOT, 0);
        }
    }

    /// Reads the board by its reader, unless others have that at each look. It waits for nobody.
    pub fn read(&mut self, known: &mut BoardNote)
        requires { IsSameBoard known.old self.old }
        ensures same { self.new ≡ self.old }
        ensures later { IsLater known.old known.new }
    {
        for _asked in 0..ASKS {
            if self.read_once(known) {
                return;
            }
            hint::spin_loop();
        }
    }

    /// Reads by the reader, where nobody else has it, and puts it back. Says whether nobody else had it.
    fn read_once(&mut self, known: &mut BoardNote) -> bool
        requires board { IsSameBoard known.old self.old }
        ensures same { self.new ≡ self.old }
        ensures later { IsLater known.old known.new }
    {
        let shared = &self.table.shared;
        if shared.compare_exchange::<Take>(&mut self.seat, SLOT, 0, 1) != 0 {
            return false;
        }
        let reader = shared.exchange(&mut self.seat, SLOT, None);
        let reader = look(known, reader);
        shared.exchange(&mut self.seat, SLOT, reader);
        shared.store::<Give>(&mut self.seat, SLOT, 0);
        true
    }
}

/// Reads, where there is a reader.
fn look(known: &mut BoardNote, reader: Option<NoteReader>) -> Option<NoteReader>
    requires { IfSome reader (λ r. IsTold known.old (view r.place)) }
    ensures later { IsLater known.old known.new }
    ensures told { IfSome result (λ r. IsTold known.new (view r.place)) }
{
    match reader {
        Some(reader) => Some(read(known, reader)),
        None => None,
    }
}

/// Reads what is published, which becomes known where it stands for more entries.
fn read(known: &mut BoardNote, reader: NoteReader) -> NoteReader
    requires { IsTold known.old (view reader.place) }
    ensures later { IsLater known.old known.new }
    ensures told { IsTold known.new (view result.place) }
{
    match reader.enter_as::<Sees>() {
        Ok(reading) => {
            known.hear(reading.get());
            reading.leave()
        }
        Err(reader) => reader,
    }
}
