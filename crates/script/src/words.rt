//! Words and numbers of a line.
ghost use Rattle.std.specs.Prelude.{◌≡◌, ◌==◌, slice_index};
ghost use Rattle.std.specs.Option.{option_map};
ghost use Rattle.script.specs.Words.{first_word, after_word, word_number};

/// A line cut after its first word. Nothing follows a word that the line ends with, not even an empty word.
// It has no model, since it is `Copy`, and a struct with a lifetime can't have both.
#[derive(Clone, Copy)]
pub struct Cut<'a> {
    pub word: &'a [u8],
    pub rest: Option<&'a [u8]>,
}

fn is_space(b: u8) -> bool
    ensures { result ≡ (b == 32) }
{
    b == b' '
}

/// Cuts a line at its first space.
pub fn cut_word(line: &[u8]) -> Cut<'_>
    ensures word { result.word.now ≡ first_word line.now }
    ensures rest { option_map (λ x. x.now) result.rest ≡ after_word line.now }
{
    // Not `splitn`, whose pieces left the two clauses open when it was tried.
    match line.iter().position(|&b| is_space(b)) {
        Some(i) => Cut {
            word: &line[..i],
            rest: Some(&line[i + 1..]),
        },
        None => Cut {
            word: line,
            rest: None,
        },
    }
}

fn begins_with_plus(word: &[u8]) -> bool
    ensures { result ≡ (slice_index word.now 0 == 43) }
{
    word.starts_with(b"+")
}

/// The number that a word is, if it is one: digits alone, and at most 4294967295.
#[tactic(auto, using(crate::proofs::Digits::parsed, crate::proofs::Digits::text_of))]
pub fn number(word: &[u8]) -> Option<u32>
    ensures { result ≡ word_number word.now }
{
    // `parse` takes a leading plus, which the format has not.
    if begins_with_plus(word) {
        return None;
    }
    std::str::from_utf8(word).ok()?.parse().ok()
}
