//! One spelling for each path (docs/RULES.md, "Settled spellings"): as a `Spelling`, or at the front of a buffer.
#![tactic(auto)]

mod settling;
mod spelling;

pub use settling::settle_into;
pub use spelling::Spelling;

/// The most bytes of a text.
pub const LONGEST_TEXT: usize = 120;

/// The most bytes of a spelling, and the least room of a buffer for one.
pub const LONGEST_SPELLING: usize = 40;
