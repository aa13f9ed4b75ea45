/// The card of a seat. A table has one for each of its numbers, and only the party that holds the number has it out.
#[derive(Debug, Drop)]
pub struct Card {
    /// The seat's number.
    pub number: u32,
    /// How often the card was taken out, modulo 2^64.
    pub uses: u64,
}
