//! Plays a script of calls from standard input, and prints one answer for each line that asks for one, then a summary
//! (docs/RULES.md, the script language).
#![tactic(auto)]

use answers::answer;
use script::{Summary, line_text};
use std::io::{BufRead, BufReader, BufWriter, Write};

mod answers;

fn play(rt: &HostRuntime) -> anyhow::Result<()> {
    let alloc = rt.alloc();
    let mut script = BufReader::new(alloc, rt.stdin())?;
    let mut answers = BufWriter::new(alloc, rt.stdout())?;
    let mut line = Vec::new(alloc);
    // Nothing proves that an input ends, so the loop counts. An iterator over lines would hold the reader, which tells
    // below when to flush.
    for _ in 0..u64::MAX {
        line.clear();
        if script.read_until(b'\n', &mut line)? == 0 {
            break;
        }
        if let Some(text) = answer(alloc, line_text(&line))? {
            writeln!(answers, "{text}")?;
        }
        // The next read may have to wait: whoever sends the lines sees the answers so far, and a long script is not
        // slowed down.
        if !script.buffer().contains(&b'\n') {
            answers.flush()?;
        }
    }
    writeln!(answers, "{}", Summary::default())?;
    answers.flush()?;
    Ok(())
}

fn main(rt: HostRuntime) -> anyhow::Result<()> {
    play(&rt)
}
