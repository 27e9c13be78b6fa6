//! The answer to a line.
//! What asks for memory is passed the allocator, as everywhere in std, and no struct keeps it.
ghost use Rattle.std.specs.Prelude.{◌≡◌, IfOk, string_bytes, length};
ghost use Rattle.std.specs.Option.{option_map};
ghost use Rattle.script.specs.Answering.{settling_answer};
ghost use Rattle.spelling.specs.Faces.{map_ok};
ghost use Rattle.spelling.specs.Settling.{settle_into};
ghost use Rattle.replay.specs.Answers.{answer_to};

use refusal::Reason;
use script::{Answer, Call, LineError, read_line};
use spelling::{LONGEST_SPELLING, settle_into};
use std::alloc::{AllocError, Global};

/// The spelling of a text, written into a buffer.
fn settled<'a>(text: &[u8], buffer: &'a mut [u8]) -> Result<&'a [u8], Reason>
    ensures { map_ok (λ s. s.now) result ≡ settle_into (length buffer.old) text.now }
{
    let len = settle_into(text, buffer)?;
    Ok(&buffer[..len])
}

/// What settling a text into a buffer of `size` bytes is answered.
fn settle_text(alloc: Global, size: u32, text: &[u8]) -> Result<String, AllocError>
    ensures { IfOk result (λ s. string_bytes s ≡ settling_answer (settle_into size text.now)) }
{
    // SIZE is the room of a C caller's buffer. More room than the longest spelling changes no answer, so none is made.
    // `usize` has no `From<u32>`: the cast is proved to lose nothing.
    let mut bytes = [0; LONGEST_SPELLING];
    let buffer = &mut bytes[..(size as usize).min(LONGEST_SPELLING)];
    Answer::SettleText(settled(text, buffer)).to_string(alloc)
}

/// The answer to a line, if it gets one. The line comes without its newline.
pub fn answer(alloc: Global, line: &[u8]) -> Result<Option<String>, AllocError>
    ensures { IfOk result (λ o. option_map string_bytes o ≡ answer_to line.now) }
{
    match read_line(alloc, line) {
        Ok(None) => Ok(None),
        Ok(Some(Call::SettleText { size, text })) => Ok(Some(settle_text(alloc, size, &text)?)),
        Err(LineError::Invalid) => Ok(Some(String::from_str(alloc, "invalid")?)),
        Err(LineError::OutOfMemory(e)) => Err(e),
    }
}
