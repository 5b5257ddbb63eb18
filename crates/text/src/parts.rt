//! A cursor over the pieces of a text that a byte parts.
ghost use Rattle.std.specs.Prelude.{length};
ghost use Rattle.std.specs.Option.{ForSome};
ghost use Rattle.text.specs.Word.{Inside};

use crate::word::Word;

pub mod walk;

/// What is left of a part of a text, whose pieces `mark` parts; nothing once the last piece was taken.
#[derive(Drop)]
pub struct Parts<'a> {
    text: &'a [u8],
    rest: Option<Word>,
    mark: u8,
    ghost within: { ForSome rest (λ w. Inside (length text.now) w) },
}
