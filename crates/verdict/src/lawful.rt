//! What every session promises over its whole run, whatever its base and its source.
ghost use Rattle.verdict.specs.Law.{Law};
ghost use Rattle.verdict.specs.Onward.{OnwardLaw};
ghost use Rattle.verdict.specs.WorkedSession.{WorkedSession};

/// Whoever calls this has the law: for any number of steps asked, and for steps asked up to the first refusal.
pub fn law_holds()
    ensures law { Law }
    ensures onward { OnwardLaw }
{}

/// Whoever calls this has a session worked through.
pub fn worked_session()
    ensures { WorkedSession }
{}
