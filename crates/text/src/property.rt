//! A line as a property: a name, a colon and a value.
ghost use Rattle.std.specs.Prelude.{◌≡◌, length, IfSome};
ghost use Rattle.std.specs.Option.{option_map};
ghost use Rattle.text.specs.Left.{shown};
ghost use Rattle.text.specs.Pieces.{property};
ghost use Rattle.text.specs.Word.{word_in, Inside};

use crate::find::split_once;
use crate::spaces::trim_word;
use crate::word::Word;

/// A line's name and value.
#[derive(Clone, Copy)]
pub struct Property {
    pub name: Word,
    pub value: Word,
}

/// The name and the value of a line, if it has a colon.
pub fn read_property(text: &[u8], line: Word) -> Option<Property>
    ensures value { option_map (shown text.now) result ≡ property (word_in text.now line) }
    ensures inside { IfSome result (λ p. Inside (length text.now) p.value) }
{
    let (name, value) = split_once(text, line, b':')?;
    Some(Property {
        name,
        value: trim_word(text, value),
    })
}
