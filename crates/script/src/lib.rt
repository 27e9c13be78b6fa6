//! The script language of the program `replay` (docs/RULES.md, the script language): what a line says, and how it is
//! answered.
#![tactic(auto)]

mod answer;
mod call;
mod error;
mod read;
mod text;
mod words;
mod written;

pub use answer::{Answer, Called, Collected, Summary};
pub use call::Call;
pub use error::LineError;
pub use read::{line_text, read_line};
pub use text::{Escaped, unescape};
pub use words::{Cut, cut_word, number};
pub use written::settled;
