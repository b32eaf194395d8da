// The names that no symbol of a chunk is given: they are put on record before any name is sought.
#![tactic(auto)]

ghost use Rattle.reservations.specs.Laws.{ReservesTheNames, RefusedForCause, BasesRefusedWhereFull, SoundRefusedWhereFull, ReservedAreOnRecord};

pub mod reserving;
mod texts;

/// Stands for what reserving names one after another leaves on record, and why it is refused: of a sound chunk only because
/// more names are reserved than may be on record.
pub fn laws()
    ensures granted { ReservesTheNames }
    ensures refused { RefusedForCause }
    ensures bases { BasesRefusedWhereFull }
    ensures sound { SoundRefusedWhereFull }
    ensures reserved { ReservedAreOnRecord }
{}
