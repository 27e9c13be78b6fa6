//! The type of settled spellings.
ghost use Rattle.std.specs.Prelude.{◌≡◌};
ghost use Rattle.spelling.specs.Settled.{Settled};

use super::LONGEST_SPELLING;
use std::marker::Model;

/// A settled spelling, the one form under which a path is filed. A clause sees it as its text. The invariant says that
/// no value of it can be anything but settled, and that the bytes after the text are 0, so that equal texts are equal
/// values.
// An array and a length, since a spelling is `Copy` and takes no memory of the heap; an `ArrayVec` is not `Copy`. The
// length is a byte, so that a spelling takes 41 bytes and not 48.
#[derive(Clone, Copy, PartialEq, Eq)]
pub struct Spelling {
    bytes: [u8; LONGEST_SPELLING],
    len: u8,
}

impl Model for Spelling {
    ghost use Rattle.std.specs.Prelude.{◌≡◌, ℕ, List, length, take};
    ghost use Rattle.spelling.specs.Settled.{Settled, padded};

    ghost Value = { List ℕ };

    ghost view = { λ s. take s.len s.bytes };

    // The text is settled, zeros follow it, and the length is the text's.
    ghost invariant = { λ s. Settled (take s.len s.bytes) × (s.bytes ≡ padded (take s.len s.bytes)) × (s.len ≡ length (take s.len s.bytes)) };

    ghost inverse = { λ text. record { bytes = padded text; len = length text } };
}

impl Spelling {
    /// The spelling that a settled text is.
    pub(super) fn from_settled(text: &[u8]) -> Spelling
        requires { Settled text.now }
        ensures { result ≡ text.now }
    {
        let mut bytes = [0; LONGEST_SPELLING];
        bytes[..text.len()].copy_from_slice(text);
        // The length is at most 40, so the cast loses nothing.
        Spelling {
            bytes,
            len: text.len() as u8,
        }
    }

    /// The text of the spelling, 1 to 40 bytes.
    // That it is settled is said again here, since a caller does not see the invariant.
    pub fn as_bytes(&self) -> &[u8]
        ensures text { result.now ≡ self.now }
        ensures settled { Settled result.now }
    {
        &self.bytes[..usize::from(self.len)]
    }
}
