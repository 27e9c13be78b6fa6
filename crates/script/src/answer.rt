//! What is written: the answers of calls, and a summary at the end.
use refusal::Reason;

/// What a call gave, a variant for each call; and what the face for C gave, which answers by a number (`settled`).
#[derive(Clone, Copy, Debug, PartialEq, Eq)]
pub enum Answer<'a> {
    /// The settled spelling, or why there is none.
    SettleText(Result<&'a [u8], Reason>),
    /// The settled spelling, as C's face told it.
    Settled(&'a [u8]),
    /// The number of a refusal, as C's face told it.
    NotSettled(u32),
}

/// The lines that reached a call of the store, and how many of them were granted and refused.
#[derive(Clone, Copy, Default)]
pub struct Called {
    pub calls: u64,
    pub granted: u64,
    pub refused: u64,
}

/// The cycles that ended, and the counts of the census at the end.
#[derive(Clone, Copy, Default)]
pub struct Collected {
    pub cycles: u64,
    pub reachable: u64,
    pub weak: u64,
    pub neither: u64,
}

#[derive(Clone, Copy, Default)]
pub struct Summary {
    pub called: Called,
    pub collected: Collected,
}
