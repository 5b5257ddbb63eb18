//! The text form.
ghost use Rattle.std.specs.Prelude.{◌≡◌};
ghost use Rattle.certificate.specs.Lines.{textual};
ghost use Rattle.certificate.specs.TextState.{text_rest};
ghost use Rattle.certificate.specs.Writing.{TextBack, TextFirst, TextHeld};

use crate::fault::SourceFault;
use crate::found::Found;
use crate::line::{Unread, read_line};
use crate::memory::blank;
use crate::source::{PLACES, Source};
use text::find::index_of;
use text::lines::walk::LF;

/// What is left of a certificate in the text form, and how many lines were taken.
#[derive(Drop)]
pub struct TextSource<'a> {
    rest: &'a [u8],
    number: u32,
}

impl<'a> TextSource<'a> {
    /// The source of all lines.
    pub fn new(bytes: &'a [u8]) -> TextSource<'a>
        ensures meaning { text_rest result ≡ textual bytes.now }
        ensures back { TextBack bytes.now (text_rest result) }
        ensures first { TextFirst bytes.now (text_rest result) }
        ensures held { TextHeld bytes.now (text_rest result) }
    {
        TextSource {
            rest: bytes,
            number: 0,
        }
    }
}

impl Source for TextSource<'_> {
    ghost rest = { λ s. text_rest s };

    fn read(
        &mut self,
        literals: &mut [i32],
        hints: &mut [u32],
    ) -> Result<Option<Found>, SourceFault> {
        // Each way out makes the memory zero for itself: to do it first would write all of it twice for each step.
        let bytes = self.rest;
        if bytes.is_empty() {
            blank(literals, hints);
            return Ok(None);
        }
        if self.number >= PLACES {
            blank(literals, hints);
            return Err(SourceFault::Form(u32::MAX));
        }
        let place = self.number + 1;
        let Some(n) = index_of(bytes, LF) else {
            blank(literals, hints);
            return Err(SourceFault::Form(place));
        };
        match read_line(&bytes[..n], literals, hints) {
            Err(Unread::Form) => Err(SourceFault::Form(place)),
            Err(Unread::TooMany) => {
                self.number = place;
                self.rest = &bytes[n + 1..];
                Err(SourceFault::TooMany(place))
            }
            Ok(shape) => {
                self.number = place;
                self.rest = &bytes[n + 1..];
                Ok(Some(Found { place, shape }))
            }
        }
    }
}
