//! Which form a certificate has.
ghost use Rattle.std.specs.Prelude.{◌≡◌};
ghost use Rattle.certificate.specs.Form.{certificate, certificate_rest};
ghost use Rattle.certificate.specs.Writing.{HintedBack, TextBack, CertificateFirst, CertificateHeld};

use crate::fault::SourceFault;
use crate::found::Found;
use crate::hinted::HintedSource;
use crate::source::Source;
use crate::textual::TextSource;

/// The last bytes of a certificate in the hinted form.
pub const HINT: [u8; 4] = *b"HINT";

/// A certificate in either form.
#[derive(Drop)]
pub enum Certificate<'a> {
    Text(TextSource<'a>),
    Hinted(HintedSource<'a>),
}

/// Opens a certificate in the form that its last bytes say.
#[tactic(auto, using(crate::proofs::Opening::opened_hinted, crate::proofs::Opening::opened_text, crate::proofs::Opening::opened_first, crate::proofs::Opening::opened_held))]
pub fn open(bytes: &[u8]) -> Certificate<'_>
    ensures meaning { certificate_rest result ≡ certificate bytes.now }
    ensures hinted { HintedBack bytes.now (certificate_rest result) }
    ensures text { TextBack bytes.now (certificate_rest result) }
    ensures first { CertificateFirst bytes.now (certificate_rest result) }
    ensures held { CertificateHeld bytes.now (certificate_rest result) }
{
    if bytes.ends_with(&HINT) {
        return Certificate::Hinted(HintedSource::new(bytes));
    }
    Certificate::Text(TextSource::new(bytes))
}

impl Source for Certificate<'_> {
    ghost rest = { λ s. certificate_rest s };

    fn read(
        &mut self,
        literals: &mut [i32],
        hints: &mut [u32],
    ) -> Result<Option<Found>, SourceFault> {
        match self {
            Certificate::Text(source) => source.read(literals, hints),
            Certificate::Hinted(source) => source.read(literals, hints),
        }
    }
}
