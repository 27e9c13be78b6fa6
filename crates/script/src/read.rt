//! The reading of a line.
//! What asks for memory is passed the allocator, as everywhere in std, and no struct keeps it.
ghost use Rattle.std.specs.Prelude.{◌≡◌, ◌≢◌, false, alloc_error};
ghost use Rattle.std.specs.Option.{option_map};
ghost use Rattle.script.specs.Words.{first_word};
ghost use Rattle.script.specs.Lines.{is_settletext, without_newline, settletext_of, call_of, line_of, Reads, ReadsCall};

use crate::call::Call;
use crate::error::LineError;
use crate::text::unescape;
use crate::words::{Cut, cut_word, number};
use std::alloc::Global;

/// A line as it was read, without the newline that ended it.
#[tactic(auto, using(crate::proofs::Newlines::line_stripped))]
pub fn line_text(read: &[u8]) -> &[u8]
    ensures { result.now ≡ without_newline read.now }
{
    read.strip_suffix(b"\n").unwrap_or(read)
}

/// `settletext SIZE TEXT`, from what follows the name.
fn settle_text(alloc: Global, rest: Option<&[u8]>) -> Result<Call, LineError>
    ensures { ReadsCall result (settletext_of (option_map (λ x. x.now) rest.entry)) }
{
    let arguments = rest.ok_or(LineError::Invalid)?;
    let cut = cut_word(arguments);
    let size = number(cut.word).ok_or(LineError::Invalid)?;
    // TEXT is empty where the line ends before it.
    let text = unescape(alloc, cut.rest.unwrap_or(b""))?;
    Ok(Call::SettleText { size, text })
}

/// A call by its name, the first word of its line.
fn read_call(alloc: Global, cut: Cut<'_>) -> Result<Call, LineError>
    ensures value { ReadsCall result (call_of cut.entry.word.now (option_map (λ x. x.now) cut.entry.rest)) }
    ensures memory { is_settletext cut.entry.word.now ≡ false → result ≢ Err (LineError.OutOfMemory alloc_error) }
{
    // Not a `match`, which would be proved case by case for each byte of each name.
    if cut.word == b"settletext".as_slice() {
        settle_text(alloc, cut.rest)
    } else {
        Err(LineError::Invalid)
    }
}

/// The call that a line asks for. An empty line and a comment ask for none. The line comes without its newline.
pub fn read_line(alloc: Global, line: &[u8]) -> Result<Option<Call>, LineError>
    ensures value { Reads result (line_of line.now) }

    // The text of `settletext` alone asks for memory.
    ensures memory { is_settletext (first_word line.now) ≡ false → result ≢ Err (LineError.OutOfMemory alloc_error) }
{
    match line.first() {
        None | Some(b'#') => Ok(None),
        Some(_) => Ok(Some(read_call(alloc, cut_word(line))?)),
    }
}

#[cfg(test)]
mod tests {
    use super::*;
    use std::test::Fail;

    #[test]
    fn reads_lines(rt: HostRuntime) -> Result<(), Fail> {
        let alloc = rt.alloc();
        let text = b"A\\".to_vec(alloc)?;
        assert_eq!(rt;
            read_line(alloc, b"settletext 40 \\x41\\\\"),
            Ok(Some(Call::SettleText { size: 40, text }))
        );
        assert_eq!(rt; read_line(alloc, b"# settletext"), Ok(None));
        assert_eq!(rt; read_line(alloc, b"settletext"), Err(LineError::Invalid));
        Ok(())
    }
}
