/// Where a party stands. The number is that of a stage, or a position among the names.
///
/// The places are those of the stages and the renaming after Anderson and Moir, Distributed Computing 11, 1997, in this
/// project's listing.
#[derive(Clone, Copy, PartialEq, Eq, Debug)]
pub enum Place {
    /// It has not begun, or has come back. Its next access is that of its start.
    Out,
    /// It is about to lower the stage's counter.
    Dec(u32),
    /// It found no room, and is about to write its number into the stage's spin word.
    Mark(u32),
    /// It is about to read the counter once more.
    Look(u32),
    /// It reads the spin word until that has another number than its own.
    Spin(u32),
    /// It is inside, and is about to test and set this bit.
    Naming(u32),
    /// It has this number, and is about to take its card.
    Named(u32),
    /// It holds this number's card.
    Holding(u32),
    /// It gave the card back, and is about to clear the bit.
    Clearing(u32),
    /// It is about to raise the stage's counter.
    Inc(u32),
    /// It is about to write its number into the stage's spin word, which lets a waiter go.
    Unmark(u32),
}

/// One access to one shared word. The number is that of the stage, the bit or the card.
#[derive(Clone, Copy, PartialEq, Eq, Debug)]
pub enum Access {
    /// Lowers the stage's counter by 1.
    Dec(u32),
    /// Writes the party's number into the stage's spin word.
    Mark(u32),
    /// Reads the stage's counter.
    Look(u32),
    /// Reads the stage's spin word.
    Spin(u32),
    /// Sets the bit, and tells what it was.
    TestSet(u32),
    /// Sets the card word from 0 to 1.
    CardOut(u32),
    /// Sets the card word from 1 to 0.
    CardIn(u32),
    /// Clears the bit.
    Clear(u32),
    /// Raises the stage's counter by 1.
    Inc(u32),
    /// Writes the party's number into the stage's spin word.
    Unmark(u32),
}
