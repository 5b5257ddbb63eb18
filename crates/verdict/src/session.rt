//! The states of a session. None can be made but by an opening, nor kept: each call that ends one takes it.
ghost use Rattle.std.specs.Prelude.{◌≡◌, false, length, replicate, pos};
ghost use Rattle.certificate.specs.Reading.{memory_of, Leaves};
ghost use Rattle.verdict.specs.Calls.{LeavesAfter};
ghost use Rattle.verdict.specs.Onward.{Onward};
ghost use Rattle.verdict.specs.Opened.{desk_of, Closes, verdict_for};
ghost use Rattle.verdict.specs.Session.{Run, Asked};

use crate::counts::Counts;
use crate::outcome::Verdict;
use crate::reply::{Reply, StepFault};
use crate::trying::try_step;
use certificate::fault::SourceFault;
use certificate::source::Source;
use clauses::base::ClauseBase;

/// What a session was opened on: no plan is claimed to exist, or a plan with its counts.
// No `Option`: that there is no plan is claimed too.
#[derive(Clone, Copy, PartialEq, Eq, Debug)]
pub enum Claim {
    Fail,
    Plan(Counts),
}

/// An open session: the place of the last step that it accepted, and whether one added the empty clause.
#[derive(Drop)]
pub struct Open {
    claim: Claim,
    last: u32,
    emptied: bool,
}

/// A session that has its empty clause and was closed.
#[derive(Drop)]
pub struct Refuted {
    claim: Claim,
}

/// A session that could not be closed, and the place after its last accepted step.
#[derive(Drop)]
pub struct StillOpen {
    pub session: Open,
    pub place: u64,
}

impl Open {
    /// A session of which nothing was asked yet.
    pub(crate) fn new(claim: Claim) -> Open
        ensures { result ≡ record { claim = claim; last = 0; emptied = false } }
    {
        Open {
            claim,
            last: 0,
            emptied: false,
        }
    }

    /// Asks one step: reads it, and takes it or refuses it.
    // Literals and hints are lent apart: a `&mut` slice says by itself that the memory stays, of the same length.
    pub fn ask<B: ClauseBase, S: Source>(
        &mut self,
        base: &mut B,
        source: &mut S,
        literals: &mut [i32],
        hints: &mut [u32],
    ) -> Reply
        ensures asked { Asked (memory_of literals.old hints.old) (desk_of self.old (B.meaning base.old) (S.rest source.old)) result (desk_of self.new (B.meaning base.new) (S.rest source.new)) }
        ensures claim { self.new.claim ≡ self.old.claim }
        ensures memory { Leaves (memory_of literals.old hints.old) (S.rest source.old).steps literals.new hints.new }
    {
        match source.read(literals, hints) {
            Err(SourceFault::Form(p)) => Reply::Refused(StepFault::Form, p),
            Err(SourceFault::TooMany(p)) => Reply::Refused(StepFault::TooMany, p),
            Ok(None) => Reply::Nothing,
            Ok(Some(found)) => match try_step(base, found.shape, literals, hints) {
                Ok(empty) => {
                    self.last = found.place;
                    self.emptied |= empty;
                    Reply::Taken
                }
                Err(f) => Reply::Refused(f, found.place),
            },
        }
    }

    /// Refutes a session that has accepted the empty clause; another stays open.
    pub fn close(self) -> Result<Refuted, StillOpen>
        ensures { Closes self result }
    {
        if self.emptied {
            Ok(Refuted { claim: self.claim })
        } else {
            let place = u64::from(self.last) + 1;
            Err(StillOpen {
                session: self,
                place,
            })
        }
    }
}

impl Refuted {
    /// The verdict, which ends the session.
    pub fn verdict(self) -> Verdict
        ensures { result ≡ verdict_for self.claim }
    {
        match self.claim {
            Claim::Fail => Verdict::Impossible,
            Claim::Plan(counts) => Verdict::Optimal(counts),
        }
    }
}

/// Asks as many steps as there is place for replies, one after the other.
pub fn ask_all<B: ClauseBase, S: Source>(
    session: &mut Open,
    base: &mut B,
    source: &mut S,
    literals: &mut [i32],
    hints: &mut [u32],
    replies: &mut [Reply],
)
    ensures run { Run (memory_of literals.old hints.old) (desk_of session.old (B.meaning base.old) (S.rest source.old)) replies.new (desk_of session.new (B.meaning base.new) (S.rest source.new)) }
    ensures claim { session.new.claim ≡ session.old.claim }
    ensures memory { LeavesAfter (memory_of literals.old hints.old) (S.rest source.old).steps (length replies.old) literals.old hints.old literals.new hints.new }
{
    for r in replies.iter_mut() {
        *r = session.ask(base, source, literals, hints);
    }
}

/// Asks step after step, as long as they are accepted and none adds the empty clause.
fn ask_each<B: ClauseBase, S: Source>(
    session: &mut Open,
    base: &mut B,
    source: &mut S,
    literals: &mut [i32],
    hints: &mut [u32],
) -> Reply
    ensures onward { Onward (memory_of literals.old hints.old) (desk_of session.old (B.meaning base.old) (S.rest source.old)) result (desk_of session.new (B.meaning base.new) (S.rest source.new)) }
    ensures claim { session.new.claim ≡ session.old.claim }
{
    while !session.emptied {
        match session.ask(base, source, literals, hints) {
            Reply::Taken => {}
            last => return last,
        }
    }
    Reply::Taken
}

/// Asks step after step, until one is refused, none is left, or the empty clause is there. The memory is then all zero.
pub fn ask_on<B: ClauseBase, S: Source>(
    session: &mut Open,
    base: &mut B,
    source: &mut S,
    literals: &mut [i32],
    hints: &mut [u32],
) -> Reply
    ensures onward { Onward (memory_of literals.old hints.old) (desk_of session.old (B.meaning base.old) (S.rest source.old)) result (desk_of session.new (B.meaning base.new) (S.rest source.new)) }
    ensures claim { session.new.claim ≡ session.old.claim }
    ensures literals { literals.new ≡ replicate (length literals.old) (pos 0) }
    ensures hints { hints.new ≡ replicate (length hints.old) 0 }
{
    let reply = ask_each(session, base, source, literals, hints);
    literals.fill(0);
    hints.fill(0);
    reply
}
