//! The calls on a cursor over pieces.
ghost use Rattle.std.specs.Prelude.{◌≡◌, [], ◌∷◌, MatchBool, MatchOption, ◌≢◌};
ghost use Rattle.text.specs.Left.{left, Takes};
ghost use Rattle.text.specs.Pieces.{pieces};
ghost use Rattle.text.specs.Word.{word_in};

use super::Parts;
use crate::find::split_once;
use crate::word::{Word, bytes_of, clamped};

impl<'a> Parts<'a> {
    /// All pieces of a part of a text.
    pub fn new(text: &'a [u8], part: Word, mark: u8) -> Parts<'a>
        ensures left { left result ≡ pieces mark (word_in text.now part) }
        ensures text { result.text.now ≡ text.now }
    {
        Parts {
            text,
            rest: Some(clamped(text, part)),
            mark,
        }
    }

    /// All pieces of a text.
    pub fn whole(text: &'a [u8], mark: u8) -> Parts<'a>
        ensures { left result ≡ pieces mark text.now }
    {
        let all = Word {
            start: 0,
            len: text.len(),
        };
        Parts::new(text, all, mark)
    }

    /// Whether no piece is left.
    #[tactic(auto, using(crate::proofs::Cuts::none_tells))]
    pub fn is_done(&self) -> bool
        ensures { MatchBool result (left self.now ≡ []) (left self.now ≢ []) }
    {
        self.rest.is_none()
    }

    /// Takes the next piece, by its place.
    pub fn next_part(&mut self) -> Option<Word>
        ensures { Takes self.old self.new result }
    {
        let rest = self.rest?;
        let Some((part, more)) = split_once(self.text, rest, self.mark) else {
            self.rest = None;
            return Some(rest);
        };
        self.rest = Some(more);
        Some(part)
    }

    /// Takes the next piece, by its bytes.
    pub fn next_piece(&mut self) -> Option<&'a [u8]>
        ensures { MatchOption result ((left self.old ≡ []) × (left self.new ≡ [])) (λ p. left self.old ≡ p.now ∷ left self.new) }
    {
        let text = self.text;
        let part = self.next_part()?;
        Some(bytes_of(text, part))
    }
}
