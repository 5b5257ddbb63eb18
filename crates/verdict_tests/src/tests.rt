use clauses::row::Row;
use clauses::watched::Watched;
use problem::rows::{NO_CONSTRAINT, NO_PACKAGE};
use problem::standing::Standing;
use verdict::check::check;
use verdict::line::{Line, write_line};

/// Two versions of two components; the second ones are asked for.
const GEARBOX: &[u8] =
    b"package: can\nversion: 1\nconflicts: can\ninstalled: true\n\npackage: can\nversion: 2\nconflicts: can\n\npackage: shift\nversion: 1\ndepends: can = 1\ninstalled: true\n\npackage: shift\nversion: 2\ndepends: can >= 2\n\nrequest: \ninstall: shift > 1\nremove: shift = 1\n";

const SECOND_VERSIONS: &[u8] =
    b"package: can\nversion: 2\ninstalled: true\n\npackage: shift\nversion: 2\ninstalled: true\n";

/// What is asked for cannot be had.
const IMPOSSIBLE: &[u8] =
    b"package: a\nversion: 1\ndepends: b\nconflicts: b\n\npackage: b\nversion: 1\ndepends: a\n\npackage: g\nversion: 1\ndepends: a | b\n\nrequest:\ninstall: g\n";

const LAST: &[u8] = b"package: g\nversion: 1\ninstalled: true\n";

/// The line, with memory for so many packages and constraints as the examples have, on a base with so much room as they
/// need.
fn line_of(problem: &[u8], answer: &[u8], certificate: &[u8]) -> Line {
    let mut rows = [Row::NONE; 32];
    let mut held = [0; 128];
    let mut values = [None; 24];
    let mut trail = [0; 24];
    let mut heads = [0; 48];
    let mut next = [0; 128];
    let mut owners = [0; 128];
    let mut places = [0; 64];
    let mut base = Watched::new(
        &mut rows,
        &mut held,
        &mut values,
        &mut trail,
        &mut heads,
        &mut next,
        &mut owners,
        &mut places,
    );
    line_on(&mut base, problem, answer, certificate)
}

/// The same on a base without room.
fn line_without_room(problem: &[u8], answer: &[u8], certificate: &[u8]) -> Line {
    let mut base = Watched::new(
        &mut [],
        &mut [],
        &mut [],
        &mut [],
        &mut [],
        &mut [],
        &mut [],
        &mut [],
    );
    line_on(&mut base, problem, answer, certificate)
}

fn line_on(base: &mut Watched<'_>, problem: &[u8], answer: &[u8], certificate: &[u8]) -> Line {
    let mut packages = [NO_PACKAGE; 4];
    let mut constraints = [NO_CONSTRAINT; 6];
    let mut table = [Standing::Unnamed; 4];
    let mut literals = [0; 4];
    let mut hints = [0; 8];
    check(
        problem,
        answer,
        certificate,
        &mut packages,
        &mut constraints,
        &mut table,
        base,
        &mut literals,
        &mut hints,
    )
}

/// Whether the bytes of the line are these.
fn says(line: Line, expected: &[u8]) -> bool {
    let mut memory = [7; 64];
    match write_line(line, &mut memory) {
        Ok(n) => memory.get(0..n) == Some(expected),
        Err(_) => false,
    }
}

#[test]
fn a_plan_and_its_counts(rt: HostRuntime) {
    assert!(rt; says(line_of(GEARBOX, SECOND_VERSIONS, b""), b"PLAN 0 2\n"));
}

#[test]
fn the_first_false_clause(rt: HostRuntime) {
    assert!(rt; says(line_of(IMPOSSIBLE, LAST, b""), b"REFUSED answer 4 13\n"));
}

#[test]
fn a_version_too_high(rt: HostRuntime) {
    let problem = b"package: can\nversion: 1000000\n\nrequest:\n";
    assert!(rt; says(line_of(problem, b"", b""), b"REFUSED problem 2 3\n"));
}

#[test]
fn a_version_just_low_enough(rt: HostRuntime) {
    let problem = b"package: can\nversion: 999999\n\nrequest:\n";
    assert!(rt; says(line_of(problem, b"", b""), b"PLAN 0 0\n"));
}

#[test]
fn a_bad_value_before_too_many_rows(rt: HostRuntime) {
    let five = b"request:\ninstall: a, b, c, d, e, f, g, 1 2\n";
    assert!(rt; says(line_of(five, b"", b""), b"REFUSED problem 2 3\n"));
    let seven = b"request:\ninstall: a, b, c, d, e, f, g\n";
    assert!(rt; says(line_of(seven, b"", b""), b"REFUSED problem 2 31\n"));
}

#[test]
fn a_stanza_given_twice(rt: HostRuntime) {
    let answer = b"package: can\nversion: 2\n\npackage: can\nversion: 2\n";
    assert!(rt; says(line_of(GEARBOX, answer, b""), b"REFUSED answer 4 12\n"));
}

#[test]
fn a_plan_that_none_beats(rt: HostRuntime) {
    assert!(rt; says(line_of(GEARBOX, SECOND_VERSIONS, b"0\n"), b"OPTIMAL 0 2\n"));
}

#[test]
fn no_plan(rt: HostRuntime) {
    assert!(rt;
        says(
            line_of(IMPOSSIBLE, b"FAIL\n", b"-1 0\n0\n"),
            b"IMPOSSIBLE\n"
        )
    );
}

#[test]
fn steps_that_are_refused(rt: HostRuntime) {
    let at_once = line_of(IMPOSSIBLE, b"FAIL\n", b"0\n");
    assert!(rt; says(at_once, b"REFUSED certificate 1 24\n"));
    let not_live = line_of(GEARBOX, SECOND_VERSIONS, b"d 24 0\n");
    assert!(rt; says(not_live, b"REFUSED certificate 1 23\n"));
    let too_high = line_of(GEARBOX, SECOND_VERSIONS, b"16 0\n");
    assert!(rt; says(too_high, b"REFUSED certificate 1 22\n"));
}

#[test]
fn no_empty_clause(rt: HostRuntime) {
    let one_step = line_of(GEARBOX, SECOND_VERSIONS, b"15 0\n");
    assert!(rt; says(one_step, b"REFUSED certificate 2 25\n"));
    let no_step = line_of(IMPOSSIBLE, b"FAIL\n", b"");
    assert!(rt; says(no_step, b"REFUSED certificate 1 25\n"));
    let with_plan = line_of(GEARBOX, b"FAIL\n", b"");
    assert!(rt; says(with_plan, b"REFUSED certificate 1 25\n"));
}

#[test]
fn no_plan_before_its_certificate(rt: HostRuntime) {
    assert!(rt; says(line_of(IMPOSSIBLE, LAST, b"0\n"), b"REFUSED answer 4 13\n"));
}

#[test]
fn an_opening_without_room(rt: HostRuntime) {
    let opened = line_without_room(GEARBOX, SECOND_VERSIONS, b"0\n");
    assert!(rt; says(opened, b"REFUSED certificate 0 32\n"));
    let not_opened = line_without_room(GEARBOX, SECOND_VERSIONS, b"");
    assert!(rt; says(not_opened, b"PLAN 0 2\n"));
}

#[test]
fn memory_too_short_for_a_line(rt: HostRuntime) {
    let mut memory = [7; 8];
    let line = line_of(GEARBOX, SECOND_VERSIONS, b"");
    assert!(rt; write_line(line, &mut memory).is_err());
    assert!(rt; memory == [0; 8]);
}

#[test]
fn memory_is_cleared(rt: HostRuntime) {
    let mut base = Watched::new(
        &mut [],
        &mut [],
        &mut [],
        &mut [],
        &mut [],
        &mut [],
        &mut [],
        &mut [],
    );
    let mut packages = [NO_PACKAGE; 4];
    let mut constraints = [NO_CONSTRAINT; 6];
    let mut table = [Standing::In; 4];
    let mut literals = [7; 4];
    let mut hints = [7; 8];
    let _ = check(
        GEARBOX,
        SECOND_VERSIONS,
        b"",
        &mut packages,
        &mut constraints,
        &mut table,
        &mut base,
        &mut literals,
        &mut hints,
    );
    assert!(rt; packages[0].version == 0 && packages[3].version == 0);
    assert!(rt; constraints[0].name.len == 0);
    assert!(rt; !table[1].is_in() && !table[3].is_in());
    assert!(rt; literals == [0; 4] && hints == [0; 8]);
}
