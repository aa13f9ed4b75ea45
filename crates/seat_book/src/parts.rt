//! What a book keeps.
use linger_table::LingerTable;
use options_machine::Queuer;
use seat_counters::Counters;
use seat_rows::SeatRows;

/// The state of a pool: its seats by party, those that linger, the parties that wait in the order in which they came,
/// the counters of its seats, the moment in seconds since 1970-01-01 UTC, and the number of the rule set that holds.
#[derive(Drop)]
pub struct Parts {
    pub seats: SeatRows,
    pub table: LingerTable,
    pub queue: Vec<Queuer>,
    pub counters: Counters,
    pub moment: u64,
    pub set: u32,
    /// Whether the queue was served since something may have freed a seat.
    pub is_served: bool,
}
