//! The calls of a script.

/// What a line asks for, a variant for each call.
#[derive(Debug, PartialEq, Eq, Drop)]
pub enum Call {
    SettleText { size: u32, text: Vec<u8> },
}
