//! The limits of both forms, and of the memory lent.
use crate::prefixes::HINTED;
use certificate::fault::SourceFault;
use certificate::form::open;
use certificate::found::{Found, Shape};
use certificate::source::Source;

/// The first answer to memory of 512 literals.
fn first(bytes: &[u8]) -> Result<Option<Found>, SourceFault> {
    let mut literals = [7; 512];
    let mut hints = [7; 4];
    let mut source = open(bytes);
    source.read(&mut literals, &mut hints)
}

fn added(count: usize) -> Result<Option<Found>, SourceFault> {
    Ok(Some(Found {
        place: 1,
        shape: Shape::Add(count),
    }))
}

/// `1 1 .. 1 0` and a line end, of 513 literals; 512 after the first.
fn long_line() -> [u8; 1028] {
    let mut bytes = [b' '; 1028];
    for literal in bytes.chunks_exact_mut(2) {
        literal[0] = b'1';
    }
    bytes[1026] = b'0';
    bytes[1027] = b'\n';
    bytes
}

#[test]
fn literals_in_a_line(rt: HostRuntime) {
    let bytes = long_line();
    assert_eq!(rt; first(&bytes[2..]), added(512));
    assert_eq!(rt; first(&bytes), Err(SourceFault::Form(1)));
}

/// A record of 513 literals and no hints, with its trailer.
fn long_record() -> [u8; 2065] {
    let mut bytes = [0; 2065];
    bytes[0] = 0x61;
    bytes[1] = 1;
    bytes[2] = 2;
    bytes[2057] = 1;
    bytes[2061] = b'H';
    bytes[2062] = b'I';
    bytes[2063] = b'N';
    bytes[2064] = b'T';
    bytes
}

#[test]
fn literals_in_a_record(rt: HostRuntime) {
    let mut bytes = long_record();
    assert_eq!(rt; first(&bytes), Err(SourceFault::Form(1)));
    bytes[4] = 0x61;
    bytes[6] = 2;
    assert_eq!(rt;
        first(&bytes[4..]),
        Ok(Some(Found {
            place: 1,
            shape: Shape::AddHinted(512, 0),
        }))
    );
}

#[test]
fn numbers_in_a_line(rt: HostRuntime) {
    assert_eq!(rt; first(b"9999999 -9999999 0\n"), added(2));
    assert_eq!(rt; first(b"10000000 0\n"), Err(SourceFault::Form(1)));
    assert_eq!(rt; first(b"-10000000 0\n"), Err(SourceFault::Form(1)));
    assert_eq!(rt; first(b"01 0\n"), Err(SourceFault::Form(1)));
    assert_eq!(rt; first(b"-0\n"), Err(SourceFault::Form(1)));
    assert_eq!(rt; first(b"1 0 0\n"), Err(SourceFault::Form(1)));
    assert_eq!(rt; first(b"1  0\n"), Err(SourceFault::Form(1)));
    assert_eq!(rt; first(b"0"), Err(SourceFault::Form(1)));
    assert_eq!(rt; first(b"\n"), Err(SourceFault::Form(1)));
    assert_eq!(rt; first(b"0\n"), added(0));
}

#[test]
fn deletions_in_a_line(rt: HostRuntime) {
    let deleted = Ok(Some(Found {
        place: 1,
        shape: Shape::Delete(9999999),
    }));
    assert_eq!(rt; first(b"d 9999999 0\n"), deleted);
    assert_eq!(rt; first(b"d 10000000 0\n"), Err(SourceFault::Form(1)));
    assert_eq!(rt; first(b"d -1 0\n"), Err(SourceFault::Form(1)));
    assert_eq!(rt; first(b"d 1 1\n"), Err(SourceFault::Form(1)));
    assert_eq!(rt; first(b"d 1 0 0\n"), Err(SourceFault::Form(1)));
    assert_eq!(rt; first(b"d 1\n"), Err(SourceFault::Form(1)));
    assert_eq!(rt; first(b"d 1 0 \n"), Err(SourceFault::Form(1)));
}

/// A step that is too large is passed, with the memory all zero; a fault stays.
#[test]
fn small_memory(rt: HostRuntime) {
    let mut literals = [7; 1];
    let mut hints = [7; 1];
    let mut source = open(b"1 2 0\n3 0\nd\n");
    assert_eq!(rt;
        source.read(&mut literals, &mut hints),
        Err(SourceFault::TooMany(1))
    );
    assert_eq!(rt; literals[0], 0);
    assert_eq!(rt; hints[0], 0);
    assert_eq!(rt;
        source.read(&mut literals, &mut hints),
        Ok(Some(Found {
            place: 2,
            shape: Shape::Add(1),
        }))
    );
    assert_eq!(rt; literals[0], 3);
    assert_eq!(rt;
        source.read(&mut literals, &mut hints),
        Err(SourceFault::Form(3))
    );
    assert_eq!(rt; literals[0], 0);
    assert_eq!(rt;
        source.read(&mut literals, &mut hints),
        Err(SourceFault::Form(3))
    );
}

/// The form is looked at before the memory.
#[test]
fn no_memory(rt: HostRuntime) {
    let mut source = open(b"1 2\n");
    assert_eq!(rt; source.read(&mut [], &mut []), Err(SourceFault::Form(1)));
    let mut source = open(b"0\n1 0\n");
    assert_eq!(rt; source.read(&mut [], &mut []), added(0));
    assert_eq!(rt; source.read(&mut [], &mut []), Err(SourceFault::TooMany(2)));
    assert_eq!(rt; source.read(&mut [], &mut []), Ok(None));
    assert_eq!(rt; source.read(&mut [], &mut []), Ok(None));
}

/// Hints that are too many, at the record's place; both memories are then zero, and the next record is read.
#[test]
fn small_hint_memory(rt: HostRuntime) {
    let mut literals = [7; 2];
    let mut hints = [7; 1];
    let mut source = open(&HINTED);
    assert_eq!(rt;
        source.read(&mut literals, &mut hints),
        Err(SourceFault::TooMany(1))
    );
    assert_eq!(rt; literals[0], 0);
    assert_eq!(rt; hints[0], 0);
    assert_eq!(rt;
        source.read(&mut literals, &mut hints),
        Ok(Some(Found {
            place: 2,
            shape: Shape::Delete(4),
        }))
    );
}

#[test]
fn literals_and_hints(rt: HostRuntime) {
    let mut literals = [7; 3];
    let mut hints = [7; 3];
    let mut source = open(&HINTED);
    assert_eq!(rt;
        source.read(&mut literals, &mut hints),
        Ok(Some(Found {
            place: 1,
            shape: Shape::AddHinted(2, 2),
        }))
    );
    assert_eq!(rt; literals, [1, -2, 0]);
    assert_eq!(rt; hints, [3, 70000, 0]);
}
