//! The board, as its writer has it.
ghost use Rattle.std.specs.Prelude.{◌≡◌, ◌⊎◌, ◌++◌, ◌≤◌, false, true, [], ◌∷◌, drop, vec_len, vec_capacity, All, IfOk, IfSome};
ghost use Rattle.lic_types.specs.declared.limits.TheConstants.{PARTY_LIMIT};
ghost use Rattle.counter.specs.Glances.{glance_of};
ghost use Rattle.left_right.specs.Sides.{view};
ghost use Rattle.stat_board.specs.Fronts.{IsLater, longer};
ghost use Rattle.stat_board.specs.Rule.{last_of, IsPublished, IsTold};
ghost use Rattle.stat_board.specs.Shows.{HasNumbers};

use crate::law::Ruling;
use crate::list::Head;
use crate::note::BoardNote;
use crate::pass::BoardPass;
use crate::rule::{NoteReader, NoteWriter, Opens, Sees, Telling};
use crate::share::ReaderShare;
use core::mem::replace_with;
use counter::Glance;
use no_memory::NoMemory;
use options_machine::EntryRef;
use std::alloc::Global;
use std::marker::Model;
use std::sync::Wait;

/// What publishes the Glances of one desk. It can't be dropped: [`Board::end`] ends it.
///
/// Contracts see it as a `Posted`: the `front` that was published last, and whether it is `live`. A board that isn't
/// live publishes nothing any more.
pub struct Board {
    head: Head,
    live: bool,
    // As the writer has it too. Here it lies beside what each publishing writes: where the writer has it, the copy that
    // readers take, another thread wrote it last, and the next publishing would wait for that memory.
    last: BoardNote,
    writer: NoteWriter,
}

impl Model for Board {
    ghost use Rattle.std.specs.Prelude.{drop};
    ghost use Rattle.left_right.specs.Sides.{view as seat_view};
    ghost use Rattle.stat_board.specs.Rule.{Posted, IsPosting};

    ghost Value = { Posted };

    ghost view = { λ b. record { front = b.last; live = b.live } };

    ghost invariant = { λ b. IsPosting b.head b.last b.writer.desk.shown.value (seat_view b.writer.desk.place) b.live (drop b.writer.behind b.writer.log.items) };
}

impl Board {
    /// A board with a pass for each of `n` parties, from 1 to 256, which share one reader. It shows the opening state
    /// under the rule sets that `M` tells of `about`, and that is all that its passes know.
    ///
    /// It is refused only where there is too little memory. It waits for nobody, since there is no reader yet.
    pub fn make<R: Wait, X, M: Ruling<X>>(
        rt: &R,
        alloc: Global,
        about: &X,
        glance: Glance,
        n: u32,
    ) -> Result<(Board, Vec<BoardPass>), NoMemory>
        requires count { (1 ≤ n) × (n ≤ PARTY_LIMIT) }
        requires opening { glance ≡ glance_of (M.sets about.now) [] }
        ensures live { IfOk result (λ r. r.0.live ≡ true) }
        ensures sets { IfOk result (λ r. r.0.front.sets ≡ M.sets about.now) }
        ensures empty { IfOk result (λ r. r.0.front.list ≡ []) }
        ensures count { IfOk result (λ r. vec_len r.1 ≡ n) }
        ensures passes { IfOk result (λ r. All (λ p. p ≡ r.0.front) r.1.items) }
    {
        let mut passes = Vec::with_capacity(alloc, n as usize)?;
        let (head, note) = BoardNote::open::<X, M>(about, glance);
        let mut share = ReaderShare::vacant(alloc, &note)?;
        deal(&mut share, &note, &mut passes, n)?;
        let mut writer = NoteWriter::new(alloc, note.copy(), note.copy(), 1)?;
        // The first operation takes the memory of the writer's log, which never has more than two.
        if writer.append(note.copy()).is_err() {
            drop(writer.take(rt));
            return Err(NoMemory);
        }
        let mut writer = open(writer, rt);
        if let Some(reader) = informed(&mut writer, &note) {
            share.put(reader);
        }
        let board = Board {
            head,
            live: true,
            last: note,
            writer,
        };
        Ok((board, passes))
    }

    /// Publishes the numbers of the state after one entry more. The Glance's front is set here.
    ///
    /// A board that isn't live stays as it was. Where there is no memory, or a front of 2^64 would be next, the board
    /// isn't live any more. It looks at the board's reader, and waits for who still reads what was published before the
    /// last.
    pub fn publish<R: Wait>(&mut self, rt: &R, entry: &EntryRef<'_>, glance: Glance)
        requires numbers { self.old.live ≡ true → HasNumbers self.old.front.sets (self.old.front.list ++ entry.now ∷ []) glance }
        ensures { ((self.old.live ≡ true) × (self.new ≡ record self.old { front = longer self.old.front (entry.now) })) ⊎ (self.new ≡ record self.old { live = false }) }
    {
        if !self.live {
            return;
        }
        let Some(next) = self.last.next(&self.head, entry, glance) else {
            self.live = false;
            return;
        };
        if self.writer.append(next.copy()).is_err() {
            self.live = false;
            return;
        }
        self.last = next;
        replace_with(&mut self.writer, rt, show::<R>);
    }

    /// What was published last, for passes of this board.
    pub fn note(&self) -> BoardNote
        ensures { result ≡ self.now.front }
    {
        self.last.copy()
    }

    /// Whether it still publishes.
    pub fn is_live(&self) -> bool
        ensures { result ≡ self.now.live }
    {
        self.live
    }

    /// Ends the board. It waits for those who read; its passes may be used further, and see nothing new.
    pub fn end<R: Wait>(self, rt: &R) {
        let Board {
            head: _head,
            live: _,
            last: _last,
            writer,
        } = self;
        drop(writer.take(rt));
    }
}

/// Publishes for the first time.
fn open<R: Wait>(writer: NoteWriter, rt: &R) -> NoteWriter
    requires { IsLater writer.desk.shown.value (last_of writer.desk.shown.value (drop writer.behind writer.log.items)) }
    ensures { IsPublished result.desk.shown.value (view result.desk.place) (drop result.behind result.log.items) (last_of writer.desk.shown.value (drop writer.behind writer.log.items)) }
{
    let (writer, _done) = writer.publish_as::<Opens, R>(rt);
    writer
}

/// Publishes what is pending.
fn show<R: Wait>(writer: NoteWriter, rt: &R) -> (NoteWriter, ())
    requires { IsLater writer.desk.shown.value (last_of writer.desk.shown.value (drop writer.behind writer.log.items)) }
    ensures { IsPublished result.0.desk.shown.value (view result.0.desk.place) (drop result.0.behind result.0.log.items) (last_of writer.desk.shown.value (drop writer.behind writer.log.items)) }
{
    let (writer, _done) = writer.publish_as::<Sees, R>(rt);
    (writer, ())
}

/// Gives each party a pass. All share the reader, which isn't there yet.
fn deal(
    share: &mut ReaderShare,
    note: &BoardNote,
    passes: &mut Vec<BoardPass>,
    n: u32,
) -> Result<(), NoMemory>
    requires opening { share.old ≡ note.now }
    requires room { (passes.old.items ≡ []) × (n ≤ vec_capacity passes.old) }
    ensures opening { share.new ≡ note.now }
    ensures count { IfOk result (λ _. vec_len passes.new ≡ n) }
    ensures passes { IfOk result (λ _. All (λ p. p ≡ note.now) passes.new.items) }
{
    for _dealt in 0..n {
        passes.push_reserved(BoardPass::of(note.copy(), share.another()?));
    }
    Ok(())
}

/// A reader that knows what was published last, where there is a place for one.
fn informed(writer: &mut NoteWriter, note: &BoardNote) -> Option<NoteReader>
    requires published { IsPublished writer.old.desk.shown.value (view writer.old.desk.place) (drop writer.old.behind writer.old.log.items) note.now }
    ensures published { IsPublished writer.new.desk.shown.value (view writer.new.desk.place) (drop writer.new.behind writer.new.log.items) note.now }
    ensures told { IfSome result (λ r. IsTold note.now (view r.place)) }
{
    let Ok(mut reader) = writer.factory().reader() else {
        return None;
    };
    reader.learn::<Telling>(writer.tell::<Telling>());
    Some(reader)
}
