//! Text with escapes: how a line's is read, and how an answer's is written.
//! What asks for memory is passed the allocator, as everywhere in std, and no struct keeps it.
ghost use Rattle.std.specs.Prelude.{◌≡◌, ℕ, ◌≤◌, List, length, Some, None, MatchOption, MatchResult, alloc_error};
ghost use Rattle.std.specs.Fmt.{WritesOnOk};
ghost use Rattle.std.specs.Slice.Iter.{iter_rest};
ghost use Rattle.script.specs.Escapes.{hex_value, unescaped, after_backslash, prepended, escaped, escaped_byte, is_plain, Bytes};

use crate::error::LineError;
use std::alloc::Global;
use std::{fmt, slice};

fn hex_digit(c: u8) -> Option<u8>
    ensures { result ≡ hex_value c }
{
    // The digit is below 16, so the cast loses nothing; `try_from` would answer a failure that can't be.
    char::from(c).to_digit(16).map(|d| d as u8)
}

/// The byte that an escape stands for, read from after its backslash on.
fn escape(bytes: &mut slice::Iter<'_, u8>) -> Option<u8>
    ensures value { MatchOption result (after_backslash (iter_rest bytes.old) ≡ None) (λ b. after_backslash (iter_rest bytes.old) ≡ prepended b (unescaped (iter_rest bytes.new))) }
    ensures fewer { length (iter_rest bytes.new) ≤ length (iter_rest bytes.old) }
{
    match bytes.next()? {
        b'\\' => Some(b'\\'),
        b'x' => {
            let high = hex_digit(*bytes.next()?)?;
            let low = hex_digit(*bytes.next()?)?;
            Some(16 * high + low)
        }
        _ => None,
    }
}

/// The bytes that a text with escapes stands for. Whatever `Escaped` writes of some bytes, this gives those bytes back.
#[tactic(auto, using(crate::proofs::Escapes::byte_read, crate::proofs::Escapes::escape_read, crate::proofs::Escapes::undoes))]
pub fn unescape(alloc: Global, text: &[u8]) -> Result<Vec<u8>, LineError>
    ensures value { MatchResult result (λ v. unescaped text.now ≡ Some v.items) (λ e. e ≡ LineError.Invalid → unescaped text.now ≡ None) }
    ensures undoes { (bs : List ℕ) → Bytes bs → text.now ≡ escaped bs → MatchResult result (λ v. v.items ≡ bs) (λ e. e ≡ LineError.OutOfMemory alloc_error) }
{
    let mut unescaped = Vec::new(alloc);
    let mut bytes = text.iter();
    while let Some(byte) = bytes.next() {
        let byte = match byte {
            b'\\' => escape(&mut bytes).ok_or(LineError::Invalid)?,
            _ => *byte,
        };
        unescaped.push(byte)?;
    }
    Ok(unescaped)
}

/// Whether an answer has the byte as it is.
fn is_plain(b: u8) -> bool
    ensures { result ≡ is_plain b }
{
    matches!(b, b' '..=b'~') && b != b'\\'
}

/// Writes `b` as it is or in an escape.
#[tactic(auto, using(crate::proofs::Shown::hex_shown))]
fn put_byte<W: fmt::Write>(b: u8, f: &mut fmt::Formatter<W>) -> fmt::Result
    ensures { WritesOnOk W.write_str_gives f.old result (escaped_byte b) f.new }
{
    if is_plain(b) {
        f.write_char(char::from(b))
    } else {
        write!(f, "\\x{b:02x}")
    }
}

/// Bytes as an answer has them: on one line, and such that any terminal shows them.
#[derive(Clone, Copy)]
pub struct Escaped<'a>(pub &'a [u8]);

impl fmt::Display for Escaped<'_> {
    ghost output = { λ x. Some (escaped x.0.now) };

    fn fmt<W: fmt::Write>(&self, f: &mut fmt::Formatter<W>) -> fmt::Result {
        for &b in self.0 {
            put_byte(b, f)?;
        }
        Ok(())
    }
}

#[cfg(test)]
mod tests {
    use super::*;
    use std::test::Fail;

    #[test]
    fn unescapes(rt: HostRuntime) -> Result<(), Fail> {
        let alloc = rt.alloc();
        let bytes = unescape(alloc, b"a\\\\\\xfF~")?;
        assert_eq!(rt; bytes.as_slice(), b"a\\\xff~".as_slice());
        assert_eq!(rt; unescape(alloc, b"\\x4"), Err(LineError::Invalid));
        Ok(())
    }
}
