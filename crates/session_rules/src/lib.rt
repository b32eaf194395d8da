// The rules of a session: what its calls answer, and what holds of every list of them.
#![tactic(auto)]

ghost use Rattle.session_rules.specs.Cases.{Worked};
ghost use Rattle.session_rules.specs.Laws.{Kept, NothingElse, StaysOpened, Apart, Fresh, Unvetoed, FromItsOwnName, Bounded, Untouched, ReservedNeverGiven};

/// Stands for what holds of every list of calls of an open session, and for a worked session.
pub fn laws()
    ensures kept { Kept }
    ensures nothing_else { NothingElse }
    ensures opened { StaysOpened }
    ensures apart { Apart }
    ensures fresh { Fresh }
    ensures unvetoed { Unvetoed }
    ensures own_name { FromItsOwnName }
    ensures bounded { Bounded }
    ensures untouched { Untouched }
    ensures reserved { ReservedNeverGiven }
    ensures worked { Worked }
{}
