//! The options machine: what a desk keeps, what it can be asked, and what it answers, with the laws that hold of it.
//! The definitions stand in specs/: whom rule lines speak of (Groups), what they say (Rules), the state of a pool
//! (State), what the rules say to a client that wants a seat (Decide), how a state comes to a moment and its queue is
//! served (Settle), what an answer changes (Apply), the table of answers (Step), runs of entries (Run) and what holds
//! in each (Law), when each reply comes (Replies), what a party's own entries tell (Own), and what every step keeps
//! (Kept). They are this project's own, after the options file of the FlexNet License Administration Guide.
#![tactic(auto)]

mod decision;
mod effect;
mod entry_ref;
mod laws;
mod limits;
mod reply;
mod rows;

pub use decision::{Decision, Place};
pub use effect::Effect;
pub use entry_ref::EntryRef;
pub use laws::{
    denials_name_their_line, holders_stand_in_order, max_counts_lingering, moments_are_bounded,
    no_seat_is_left, nothing_is_held, open_stays_free, own_entries_tell, own_is_not_queued,
    places_are_given_back, positions_are_told, quits_leave, replies_tell, reserves_are_used_up,
    runs_are_lawful, seats_are_granted, seats_are_held_once, seats_are_retaken, seats_are_returned,
    seats_linger, seats_stay, sets_are_reread, settling_serves, standing_replies_agree,
    steps_use_their_moment,
};
pub use limits::{Cut, Limit};
pub use reply::{Ask, Charge, Entry, Kind, Reply, Request, Task};
pub use rows::{Holder, Lingerer, Queuer};
