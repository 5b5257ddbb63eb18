//! The first place of a byte, and the parts of a text beside it.
ghost use Rattle.std.specs.Prelude.{◌≡◌, ◌<◌, length, MatchOption};
ghost use Rattle.text.specs.Pieces.{upto};
ghost use Rattle.text.specs.Word.{word_in, Cut};

use crate::word::{Word, bytes_of, clamped};

/// How many bytes stand before the first `mark`, if there is one.
pub fn index_of(text: &[u8], mark: u8) -> Option<usize>
    ensures { MatchOption result (upto mark text.now ≡ length text.now) (λ n. (n ≡ upto mark text.now) × (n < length text.now)) }
{
    text.iter().position(|b| *b == mark)
}

/// The parts of a part of a text before and after its first `mark`, if it has one.
pub(crate) fn split_once(text: &[u8], part: Word, mark: u8) -> Option<(Word, Word)>
    ensures { let bytes = word_in text.now part in MatchOption result (upto mark bytes ≡ length bytes) (λ p. (upto mark bytes < length bytes) × Cut text.now (upto mark bytes) bytes p) }
{
    let part = clamped(text, part);
    let n = index_of(bytes_of(text, part), mark)?;
    let before = Word {
        start: part.start,
        len: n,
    };
    let after = Word {
        start: part.start + n + 1,
        len: part.len - n - 1,
    };
    Some((before, after))
}
