// Rows that are checked one after another, and the tests that such a check is made of.
ghost use Rattle.std.specs.Prelude.{◌≡◌, ℕ, [], ◌∷◌, Option};
ghost use Rattle.names.specs.Refusals.{number_of};
ghost use Rattle.chunk_faults.specs.Tests.{least, told};
ghost use Rattle.row_checks.specs.Told.{Tells, first_told};

use names::refusal::Refusal;

/// Refuses where the test holds. A check of a row is a line of these, the least number first, and `?` ends it at the first that
/// holds: so the order of the lines is the order of the refusals.
pub fn refuse_if(holds: bool, refusal: Refusal) -> Result<(), Refusal>
    ensures { told result ≡ least ((number_of refusal, holds) ∷ []) }
{
    if holds {
        return Err(refusal);
    }
    Ok(())
}

/// Refuses with what the check says of the first row that it refuses. A user who mends one row after another is led through a
/// table from its top.
pub fn check_rows<T, C: Fn(usize, &T) -> Result<(), Refusal>>(
    rows: &[T],
    check: C,
) -> Result<(), Refusal>
    requires { C.IsAlwaysCallable check }
    ensures { (says : ℕ → T → Option ℕ) → Tells (C.post check) says → told result ≡ first_told says rows.now }
{
    for (number, row) in rows.iter().enumerate() {
        check(number, row)?;
    }
    Ok(())
}
