//! Whose view a seat's is. No value of this type is made.

/// Whose view it is.
pub enum Role {
    /// The one that deals the passes, with the number of those that were dealt.
    Maker(u64),
    /// That of a party's pass, with the party's number.
    Party(u64),
    /// None any more: it was joined into another.
    Spent,
}
