//! A property on a numbered line of a document.
ghost use Rattle.std.specs.Prelude.{◌≡◌, length, IfSome};
ghost use Rattle.std.specs.Option.{option_map};
ghost use Rattle.text.specs.Left.{shown};
ghost use Rattle.text.specs.Pieces.{property};
ghost use Rattle.text.specs.Word.{word_in, Inside};

use text::property::{Property, read_property};
use text::word::{Word, bytes_of};

/// A line's property, with the document and the number of the line.
#[derive(Clone, Copy)]
pub(crate) struct PropertyLine<'t> {
    pub text: &'t [u8],
    pub number: usize,
    pub property: Property,
    ghost inside: { Inside (length text.now) property.value },
}

impl<'t> PropertyLine<'t> {
    /// The property of a line, if it has a colon.
    pub(crate) fn read(text: &'t [u8], number: usize, line: Word) -> Option<PropertyLine<'t>>
        ensures value { option_map (λ l. shown l.text.now l.property) result ≡ property (word_in text.now line) }
        ensures place { IfSome result (λ l. (l.text.now ≡ text.now) × (l.number ≡ number)) }
    {
        let property = read_property(text, line)?;
        Some(PropertyLine {
            text,
            number,
            property,
        })
    }

    /// The name of the property.
    pub(crate) fn name(&self) -> &'t [u8]
        ensures { result.now ≡ word_in self.now.text.now self.now.property.name }
    {
        bytes_of(self.text, self.property.name)
    }

    /// Its value.
    pub(crate) fn value(&self) -> &'t [u8]
        ensures { result.now ≡ word_in self.now.text.now self.now.property.value }
    {
        bytes_of(self.text, self.property.value)
    }
}
