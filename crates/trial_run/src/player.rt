//! The clients of a trial, and what it came to.
use licence_office::OfficePass;
use trial_link::TrialLink;

/// A client of a trial: its party's counters, and the link that plays it.
#[derive(Drop)]
pub struct Player {
    /// Its party's counters, one for each desk.
    pub counters: OfficePass,
    /// The link.
    pub link: TrialLink,
}

/// What a trial came to.
#[derive(Clone, Copy, Debug, PartialEq, Eq)]
pub struct Trial {
    /// How many replies brought a seat, modulo 2^64.
    pub grants: u64,
    /// How often the cards of the seats were used, modulo 2^64.
    pub uses: u64,
}
