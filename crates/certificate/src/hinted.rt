//! The hinted form.
ghost use Rattle.std.specs.Prelude.{◌≡◌};
ghost use Rattle.certificate.specs.Hinted.{concluded, hinted};
ghost use Rattle.certificate.specs.HintedState.{hinted_rest};
ghost use Rattle.certificate.specs.Reading.{answered};
ghost use Rattle.certificate.specs.Writing.{HintedBack, HintedFirst};

use crate::fault::SourceFault;
use crate::found::Found;
use crate::memory::blank;
use crate::record::{first_record, put_step};
use crate::source::{PLACES, Source};

/// What is left of a certificate in the hinted form: its bytes before the trailer, how many records were taken, and how many there should be.
#[derive(Drop)]
pub struct HintedSource<'a> {
    rest: &'a [u8],
    number: u32,
    stated: Option<u32>,
}

impl<'a> HintedSource<'a> {
    /// The source of all records. The last four bytes, the mark, are not looked at.
    pub fn new(bytes: &'a [u8]) -> HintedSource<'a>
        ensures meaning { hinted_rest result ≡ hinted bytes.now }
        ensures back { HintedBack bytes.now (hinted_rest result) }
        ensures first { HintedFirst bytes.now (hinted_rest result) }
    {
        let [rest @ .., a, b, c, d, _, _, _, _] = bytes else {
            return HintedSource {
                rest: &[],
                number: 0,
                stated: None,
            };
        };
        HintedSource {
            rest,
            number: 0,
            stated: Some(u32::from_le_bytes([*a, *b, *c, *d])),
        }
    }

    /// What is answered when no record is left.
    fn end(&self) -> Result<Option<Found>, SourceFault>
        ensures { result ≡ answered (concluded self.now.stated self.now.number) }
    {
        if self.stated == Some(self.number) {
            Ok(None)
        } else {
            Err(SourceFault::Form(0))
        }
    }
}

impl Source for HintedSource<'_> {
    ghost rest = { λ s. hinted_rest s };

    fn read(
        &mut self,
        literals: &mut [i32],
        hints: &mut [u32],
    ) -> Result<Option<Found>, SourceFault> {
        // Each way out makes the memory zero for itself: to do it first would write all of it twice for each step.
        let bytes = self.rest;
        if bytes.is_empty() {
            blank(literals, hints);
            return self.end();
        }
        if self.number >= PLACES {
            blank(literals, hints);
            return Err(SourceFault::Form(u32::MAX));
        }
        let place = self.number + 1;
        let Some(record) = first_record(bytes) else {
            blank(literals, hints);
            return Err(SourceFault::Form(place));
        };
        self.number = place;
        self.rest = record.rest;
        match put_step(record.step, literals, hints) {
            Some(shape) => Ok(Some(Found { place, shape })),
            None => Err(SourceFault::TooMany(place)),
        }
    }
}
