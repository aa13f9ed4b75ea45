//! How a daemon ends.
use licence_office::OfficeEnd;

/// How a daemon ended.
#[derive(Drop)]
pub enum Ended {
    /// The site failed before any session: it could not listen, or had no post for a party.
    SiteFault,
    /// The bell was heard at each door. With what the office told at its close.
    Served(OfficeEnd),
    /// A door was broken. With what the office told at its close.
    DoorFault(OfficeEnd),
}
