//! Every change of one byte of a small certificate. The sums were counted by a program of another kind.
use crate::prefixes::HINTED;
use crate::told::*;
use certificate::form::open;

/// What many certificates give, added up.
#[derive(Clone, Copy, PartialEq, Eq, Debug)]
struct Sums {
    ended: u32,
    steps: u32,
    places: u32,
}

impl Sums {
    fn add(&mut self, bytes: &[u8]) {
        let mut source = open(bytes);
        let told = read_all(&mut source);
        self.steps = self.steps.wrapping_add(told.steps);
        match told.fault {
            None => self.ended = self.ended.wrapping_add(1),
            Some(fault) => self.places = self.places.wrapping_add(fault.place()),
        }
    }
}

/// The sums over each change of one byte.
fn sums_of_changes<const N: usize>(bytes: [u8; N]) -> Sums {
    let mut sums = Sums {
        ended: 0,
        steps: 0,
        places: 0,
    };
    for at in 0..N {
        for byte in 0..=255u8 {
            let mut changed = bytes;
            changed[at] = byte;
            sums.add(&changed);
        }
    }
    sums
}

const TEXT: [u8; 17] = *b"1 -23 0\nd 45 0\n0\n";

#[test]
fn text_changes(rt: HostRuntime) {
    assert_eq!(rt;
        sums_of_changes(TEXT),
        Sums {
            ended: 77,
            steps: 3010,
            places: 7054,
        }
    );
}

#[test]
fn hinted_changes(rt: HostRuntime) {
    assert_eq!(rt;
        sums_of_changes(HINTED),
        Sums {
            ended: 5140,
            steps: 21293,
            places: 6637,
        }
    );
}
