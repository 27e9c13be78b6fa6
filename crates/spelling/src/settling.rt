//! The rule of settling, and its limits (docs/RULES.md, "Settled spellings").
ghost use Rattle.std.specs.Prelude.{◌≡◌, ◌≤◌, true, ◌-◌, ◌&&◌, map, length, slice_index, IfOk, Ok};
ghost use Rattle.std.specs.List.{list_all};
ghost use Rattle.spelling.specs.Faces.{map_ok, buffer_after};
ghost use Rattle.spelling.specs.Laws.{Lawful};
ghost use Rattle.spelling.specs.Settled.{Settled};
ghost use Rattle.spelling.specs.Settling.{allowed, is_slash, plain, merge_runs, trim_left, spelled, text_limits, length_limits, settle, settle_into};

use super::{LONGEST_SPELLING, LONGEST_TEXT, Spelling};
use refusal::Reason;

/// Whether a text may hold a byte.
fn is_allowed(b: u8) -> bool
    ensures { result ≡ allowed b }
{
    matches!(b, 0x20..=0x7e)
}

/// Whether a text may hold each of its bytes.
// It looks at each, whatever the others are, so that the compiler takes many at a time.
fn all_allowed(text: &[u8]) -> bool
    ensures { result ≡ list_all allowed text.now }
{
    text.iter().fold(true, |all, b| all & is_allowed(*b))
}

/// A byte in lower case, with a slash for a backslash.
fn plain_byte(b: u8) -> u8
    ensures { result ≡ plain b }
{
    match b.to_ascii_lowercase() {
        b'\\' => b'/',
        lower => lower,
    }
}

/// Whether a byte goes: a slash that follows another.
fn goes(slash: bool, after_slash: bool) -> bool
    ensures { result ≡ (slash && after_slash) }
{
    slash && after_slash
}

/// Writes a text in lower case, with slashes for backslashes.
fn write_plain(text: &[u8], out: &mut [u8])
    requires { length text.now ≡ length out.old }
    ensures { out.new ≡ map plain text.now }
{
    for (i, b) in text.iter().enumerate() {
        out[i] = plain_byte(*b);
    }
}

/// What is left of some bytes with one slash for each run of slashes, and none at the left end. They are moved to the
/// front.
// In place and by an index: an iterator would hold the bytes that are written.
fn squeezed(bytes: &mut [u8]) -> &[u8]
    ensures { result.now ≡ trim_left (merge_runs bytes.old) }
{
    let mut len = 0;
    // As if a slash stood before the text, so that those at the left end go.
    let mut after_slash = true;
    for i in 0..bytes.len() {
        let b = bytes[i];
        let slash = b == b'/';
        bytes[len] = b;
        if !goes(slash, after_slash) {
            len += 1;
        }
        after_slash = slash;
    }
    &bytes[..len]
}

/// Whether a slash stands at the right end.
fn ends_in_slash(text: &[u8]) -> bool
    ensures { result ≡ is_slash (slice_index text.now (length text.now - 1)) }
{
    text.ends_with(b"/")
}

/// What the rule leaves of a text, in a buffer as long as the text.
#[tactic(auto, unfolding(crate::specs::Settling::spelled), using(crate::proofs::Apart::merged_no_run, crate::proofs::Trimming::trim_right_once, crate::proofs::Trimming::trim_right_stays))]
fn spelled<'a>(text: &[u8], buffer: &'a mut [u8]) -> &'a [u8]
    requires { length text.now ≡ length buffer.old }
    ensures { result.now ≡ spelled text.now }
{
    write_plain(text, buffer);
    let left = squeezed(buffer);
    // Of a run of slashes at the right end one is left.
    if ends_in_slash(left) {
        &left[..left.len() - 1]
    } else {
        left
    }
}

/// The limits on a text.
fn check_text(text: &[u8]) -> Result<(), Reason>
    ensures { result ≡ text_limits text.now (Ok tt) }
{
    if text.len() > LONGEST_TEXT {
        return Err(Reason::TextTooLong);
    }
    if !all_allowed(text) {
        return Err(Reason::ByteNotAllowed);
    }
    Ok(())
}

/// The limits on the length of what is left of a text.
fn check_left(len: usize) -> Result<(), Reason>
    ensures { result ≡ length_limits len (Ok tt) }
{
    if len == 0 {
        return Err(Reason::SettledEmpty);
    }
    if len > LONGEST_SPELLING {
        return Err(Reason::SettledTooLong);
    }
    Ok(())
}

/// The settled text, in a buffer.
// The limits on the text are looked at before it, so that no buffer is made for a text that breaks them.
#[tactic(auto, unfolding(crate::specs::Settling::settle))]
fn settled<'a>(text: &[u8], buffer: &'a mut [u8; LONGEST_TEXT]) -> Result<&'a [u8], Reason>
    requires short { length text.now ≤ 120 }
    requires allowed { list_all allowed text.now ≡ true }
    ensures value { map_ok (λ left. left.now) result ≡ settle text.now }
    ensures settled { IfOk result (λ left. Settled left.now) }
{
    let left = spelled(text, &mut buffer[..text.len()]);
    check_left(left.len())?;
    Ok(left)
}

impl Spelling {
    /// Settles a text: its spelling, or why it has none.
    // The laws stand on each public face, since a caller reads its contract alone.
    #[tactic(auto, unfolding(crate::specs::Settling::settle), using(crate::proofs::Cases::text_passes, crate::proofs::Changes::lawful))]
    pub fn settle(text: &[u8]) -> Result<Spelling, Reason>
        ensures exact { result ≡ settle text.now }
        ensures lawful { Lawful text.now }
    {
        check_text(text)?;
        let mut buffer = [0; LONGEST_TEXT];
        Ok(Spelling::from_settled(settled(text, &mut buffer)?))
    }
}

/// Settles a text into the front of a buffer, and answers the length.
// The laws stand here too: see `Spelling::settle`.
#[tactic(auto, unfolding(crate::specs::Settling::settle), using(crate::proofs::Cases::text_passes, crate::proofs::Changes::lawful))]
pub fn settle_into(text: &[u8], out: &mut [u8]) -> Result<usize, Reason>
    ensures length { result ≡ map_ok length (settle_into (length out.old) text.now) }
    ensures buffer { out.new ≡ buffer_after (settle_into (length out.old) text.now) out.old }
    ensures lawful { Lawful text.now }
{
    // It answers a length and not the slice: with a slice lent from `out`, a clause would have no plain word for the
    // buffer afterwards.
    check_text(text)?;
    let mut buffer = [0; LONGEST_TEXT];
    let left = settled(text, &mut buffer)?;
    if out.len() < LONGEST_SPELLING {
        return Err(Reason::BufferTooShort);
    }
    let len = left.len();
    out[..len].copy_from_slice(left);
    Ok(len)
}
