//! The laws of the machine, each the contract of a function that does nothing.
ghost use Rattle.options_machine.specs.Law.{HoldersStandInOrder, MaxCountsLingering, MomentsAreBounded, OpenStaysFree, RunsAreLawful, SettlingServes, StepsUseTheirMoment};
ghost use Rattle.options_machine.specs.Own.{OwnEntriesTell, QuitsLeave, RunsAgree, SeatsStay};
ghost use Rattle.options_machine.specs.Replies.{DenialsNameTheirLine, NoSeatIsLeft, NothingIsHeld, OwnIsNotQueued, PlacesAreGivenBack, PositionsAreTold, RepliesTell, ReservesAreUsedUp, SeatsAreGranted, SeatsAreHeldOnce, SeatsAreRetaken, SeatsAreReturned, SeatsLinger, SetsAreReread};

/// In every state of a run the seats in use are at most the count, each RESERVE line of the rule set that holds has at
/// most its cut number of charges, and each party has at most one entry in holders and queue together.
pub fn runs_are_lawful()
    ensures { RunsAreLawful }
{}

/// Right after settling nobody waits who could have a seat.
pub fn settling_serves()
    ensures { SettlingServes }
{}

/// In every state of a run each party's standing reply agrees with what it has: it is of holding where the party is a
/// told holder, and of queueing where it waits or has a seat that it wasn't told of. A later settling may have taken
/// away what the reply says.
pub fn standing_replies_agree()
    ensures { RunsAgree }
{}

/// At each state of a run a reply says what its party has after the step, unless it asked for a rule set: it is of
/// holding exactly where the party is a told holder, and of queueing exactly where it waits or has a seat that it
/// wasn't told of.
pub fn replies_tell()
    ensures { RepliesTell }
{}

/// After a Quit its party is neither holding nor queueing, and it has nothing at the desk.
pub fn quits_leave()
    ensures { QuitsLeave }
{}

/// The standing reply of a party is that of its own entries: the entries of others change nothing of it.
pub fn own_entries_tell()
    ensures { OwnEntriesTell }
{}

/// In every state of a run the holders stand in the order of their parties, and no two are of one party.
pub fn holders_stand_in_order()
    ensures { HoldersStandInOrder }
{}

/// In every state of a run that asks for no rule set, the seats that are charged to Open are at most those that no
/// RESERVE line keeps. Another rule set may keep more seats than are left, and then more than these are Open.
pub fn open_stays_free()
    ensures { OpenStaysFree }
{}

/// A denial names the line that denies, and comes exactly where a party that has nothing asks for a seat and an exclude
/// line, the first include line or a reached MAX line denies it, or where a party that waits asks how it stands and the
/// rules bar the client for whom it waits.
pub fn denials_name_their_line()
    ensures { DenialsNameTheirLine }
{}

/// That there is no seat is said exactly to a Checkout of a party that has nothing and for which the rules find none,
/// with how many seats are charged to Open and how many no RESERVE line keeps. The first is then at least the second.
pub fn no_seat_is_left()
    ensures { NoSeatIsLeft }
{}

/// Where it is said that there is no seat, each RESERVE line that speaks of the client is used up, or all licences are
/// in use.
pub fn reserves_are_used_up()
    ensures { ReservesAreUsedUp }
{}

/// A MAX line counts seats that are held and seats that linger: where it speaks of a client, and at least its number of
/// them are of clients of whom it speaks, the client is granted no new seat.
pub fn max_counts_lingering()
    ensures { MaxCountsLingering }
{}

/// A seat is granted exactly where a party that has nothing asks for one and the rules grant it with this charge, or
/// where a party that the queue served asks how it stands and its seat has this charge.
pub fn seats_are_granted()
    ensures { SeatsAreGranted }
{}

/// A seat is taken again exactly where a party that has nothing asks for one and the rules say that one with this
/// charge lingers for its client.
pub fn seats_are_retaken()
    ensures { SeatsAreRetaken }
{}

/// At each state of a run a party is told a position of the queue exactly where it waits at that position after the
/// step, unless it asked for numbers or for a rule set.
pub fn positions_are_told()
    ensures { PositionsAreTold }
{}

/// A party is told that it waits no more exactly where it waited and gave its place back.
pub fn places_are_given_back()
    ensures { PlacesAreGivenBack }
{}

/// A party is told that it has a seat already exactly where it asks for one and is a told holder.
pub fn seats_are_held_once()
    ensures { SeatsAreHeldOnce }
{}

/// A party is told that it has no seat exactly where it asks about one and has neither a seat nor a place in the queue.
pub fn nothing_is_held()
    ensures { NothingIsHeld }
{}

/// A seat that is given back lingers exactly where a told holder gives it back, there is a linger time, and fewer than
/// 4,096 seats linger.
pub fn seats_linger()
    ensures { SeatsLinger }
{}

/// A seat is returned exactly where a told holder gives it back and it doesn't linger, or a holder that wasn't told
/// gives it back.
pub fn seats_are_returned()
    ensures { SeatsAreReturned }
{}

/// A reply of holding that is neither Granted nor Retaken comes only to a party whose standing reply was of holding.
pub fn seats_stay()
    ensures { SeatsStay }
{}

/// It is replied that a rule set holds exactly where the request asked for that set.
pub fn sets_are_reread()
    ensures { SetsAreReread }
{}

/// No reply is of holding and of queueing at once.
pub fn own_is_not_queued()
    ensures { OwnIsNotQueued }
{}

/// A step at the handed moment is the step at the moment that it used: the later of the state's and the handed one,
/// which counts as 2^40 - 1 at most. The state after it has this moment.
pub fn steps_use_their_moment()
    ensures { StepsUseTheirMoment }
{}

/// The moment of every state of a run is below 2^40.
pub fn moments_are_bounded()
    ensures { MomentsAreBounded }
{}
