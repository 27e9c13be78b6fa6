//! Answers as text.
ghost use Rattle.std.specs.Prelude.{◌≡◌, take, Some};
ghost use Rattle.script.specs.Answering.{answer_text, called_text, collected_text, summary_text, settled_line};

use crate::answer::{Answer, Called, Collected, Summary};
use crate::text::Escaped;
use std::fmt;

impl fmt::Display for Answer<'_> {
    ghost output = { λ a. Some (answer_text a) };

    fn fmt<W: fmt::Write>(&self, f: &mut fmt::Formatter<W>) -> fmt::Result {
        match *self {
            Answer::SettleText(Ok(text)) | Answer::Settled(text) => {
                write!(f, "{} {}", text.len(), Escaped(text))
            }
            Answer::SettleText(Err(reason)) => write!(f, "-{}", u8::from(reason)),
            Answer::NotSettled(number) => write!(f, "-{number}"),
        }
    }
}

impl fmt::Display for Called {
    ghost output = { λ s. Some (called_text s) };

    fn fmt<W: fmt::Write>(&self, f: &mut fmt::Formatter<W>) -> fmt::Result {
        write!(
            f,
            "{} calls, {} granted, {} refused",
            self.calls, self.granted, self.refused
        )
    }
}

impl fmt::Display for Collected {
    ghost output = { λ s. Some (collected_text s) };

    fn fmt<W: fmt::Write>(&self, f: &mut fmt::Formatter<W>) -> fmt::Result {
        write!(
            f,
            "{} cycles, {} reachable, {} weak, {} neither",
            self.cycles, self.reachable, self.weak, self.neither
        )
    }
}

impl fmt::Display for Summary {
    ghost output = { λ s. Some (summary_text s) };

    fn fmt<W: fmt::Write>(&self, f: &mut fmt::Formatter<W>) -> fmt::Result {
        write!(f, "done {}, {}", self.called, self.collected)
    }
}

/// The first `len` bytes, or all where there are fewer.
fn front(buffer: &[u8], len: usize) -> &[u8]
    ensures { result.now ≡ take len buffer.now }
{
    buffer.get(..len).unwrap_or(buffer)
}

/// The answer for what the face for C returned: the length of the text at the front of the buffer, or minus the number
/// of the refusal.
pub fn settled(returned: i32, buffer: &[u8]) -> Answer<'_>
    ensures { answer_text result ≡ settled_line returned buffer.now }
{
    match usize::try_from(returned) {
        Ok(len) => Answer::Settled(front(buffer, len)),
        Err(_) => Answer::NotSettled(returned.unsigned_abs()),
    }
}
