//! Every prefix of a certificate in the hinted form.
use crate::told::*;
use certificate::fault::SourceFault;
use certificate::form::open;
use certificate::hinted::HintedSource;

/// An addition of 1 and -2 by the hints 3 and 70000, a deletion of 4, an addition of no literals by no hints.
pub const HINTED: [u8; 39] = [
    97, 2, 0, 1, 0, 0, 0, 254, 255, 255, 255, 2, 0, 3, 0, 0, 0, 112, 17, 1, 0, 100, 4, 0, 0, 0, 97,
    0, 0, 0, 0, 3, 0, 0, 0, 72, 73, 78, 84,
];

/// The records end after 21, 26 and 31 bytes. A prefix is read as if its last eight bytes were the trailer.
fn expected(length: usize) -> Told {
    let steps = match length {
        0..=28 => 0,
        29..=33 => 1,
        34..=38 => 2,
        _ => 3,
    };
    let place = match length {
        0..=8 | 29 | 34 => 0,
        _ => steps + 1,
    };
    if length == 39 {
        Told { steps, fault: None }
    } else {
        Told {
            steps,
            fault: Some(SourceFault::Form(place)),
        }
    }
}

#[test]
fn hinted_prefixes(rt: HostRuntime) {
    for length in 0..40 {
        let mut source = HintedSource::new(&HINTED[0..length]);
        assert_eq!(rt; read_all(&mut source), expected(length));
    }
}

#[test]
fn opened_prefixes(rt: HostRuntime) {
    let mut empty = open(&HINTED[0..0]);
    assert_eq!(rt;
        read_all(&mut empty),
        Told {
            steps: 0,
            fault: None,
        }
    );
    for length in 1..39 {
        let mut source = open(&HINTED[0..length]);
        assert_eq!(rt;
            read_all(&mut source),
            Told {
                steps: 0,
                fault: Some(SourceFault::Form(1)),
            }
        );
    }
    let mut whole = open(&HINTED);
    assert_eq!(rt; read_all(&mut whole), expected(39));
}
