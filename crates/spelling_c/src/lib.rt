//! Settling for C: the static library behind include/spelling.h, with one export.
#![tactic(auto)]

ghost use Rattle.std.specs.Prelude.{◌≡◌, length};
ghost use Rattle.spelling.specs.Faces.{code_of, buffer_after};
ghost use Rattle.spelling.specs.Laws.{Lawful};
ghost use Rattle.spelling.specs.Settling.{settle_into};

use spelling::settle_into;

/// Settles a text into the front of a buffer, and answers the length, or minus the refusal's number.
// One number, since C has no `Result`: the length is 1 to 40, so the cast loses nothing. The laws of settling stand
// here too, since a caller reads this contract alone.
#[unsafe(no_mangle)]
pub extern "C" fn spelling_settle(text: &[u8], out: &mut [u8]) -> i32
    ensures answer { result ≡ code_of (settle_into (length out.old) text.now) }
    ensures buffer { out.new ≡ buffer_after (settle_into (length out.old) text.now) out.old }
    ensures lawful { Lawful text.now }
{
    match settle_into(text, out) {
        Ok(len) => len as i32,
        Err(reason) => -i32::from(u8::from(reason)),
    }
}
