#![tactic(auto)]

ghost use Rattle.std.specs.Prelude.{◌≡◌};
ghost use Rattle.refusal.specs.Numbers.{number_of};

/// Why a call was refused. The discriminants are the numbers that callers see (docs/RULES.md, "Refusals"):
/// 1 to 8 come from the input, 20 to 31 from the state of the store.
#[derive(Clone, Copy, Debug, PartialEq, Eq)]
pub enum Reason {
    TextTooLong = 1,
    ByteNotAllowed = 2,
    SettledEmpty = 3,
    SettledTooLong = 4,
    NoSuchHand = 5,
    WidthTooLarge = 6,
    WalkTooLong = 7,
    BufferTooShort = 8,
    JobNotOpen = 20,
    AllJobsOpen = 21,
    NothingHeld = 22,
    NoSuchSlot = 23,
    NoFreeCell = 24,
    NoVacantCard = 25,
    NotOnFile = 26,
    CycleRunning = 27,
    NoCycle = 28,
    NodsOwed = 29,
    NoNodOwed = 30,
    NoCells = 31,
}

/// The number of a refusal.
impl From<Reason> for u8 {
    ghost from_gives = { λ reason n. n ≡ number_of reason };

    fn from(reason: Reason) -> u8 {
        reason as u8
    }
}

/// What a refused call answers. The place is 0, but for a walk that fails on its way (docs/RULES.md, "Refusals").
// A number and no `Option`: by the rules each refusal has a place, and 0 is one.
#[derive(Clone, Copy, Debug, PartialEq, Eq)]
pub struct Refusal {
    pub reason: Reason,
    pub place: u32,
}
