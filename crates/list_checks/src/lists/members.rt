// The modules that the chunk joins. A place goes beside its row, as the check of rows hands them over.
ghost use Rattle.std.specs.Prelude.{◌≡◌, take, nat_eq};
ghost use Rattle.std.specs.Option.{option_map};
ghost use Rattle.std.specs.List.{list_any};
ghost use Rattle.chunk_tables.specs.View.{chunk_of, module_of};
ghost use Rattle.chunk_faults.specs.ListRows.{falls, member_amiss, member_tests};
ghost use Rattle.chunk_faults.specs.Tests.{least, told, row_before};

use chunk_tables::bindings::is_listed;
use chunk_tables::chunk::{Chunk, Module};
use names::refusal::Refusal;
use row_checks::numbers::is_module;
use row_checks::rows::refuse_if;

// The row before the one with a number.
pub(crate) fn row_before<T>(rows: &[T], number: usize) -> Option<&T>
    ensures { option_map (λ x. x.now) result ≡ row_before rows.now number }
{
    rows.get(number.checked_sub(1)?)
}

// Whether the number stands before place k of the list.
fn is_repeated(numbers: &[u32], k: usize, number: usize) -> bool
    ensures { result ≡ list_any (nat_eq number) (take k numbers.now) }
{
    is_listed(&numbers[..k.min(numbers.len())], number)
}

// Whether the module runs before the one that stands before place k of the chunk's modules.
fn falls(chunk: &Chunk, k: usize, module: &Module) -> bool
    ensures { result ≡ falls (chunk_of chunk.now) k (module_of «module».now) }
{
    row_before(&chunk.chunk_modules, k)
        .and_then(|before| chunk.module_at(*before as usize))
        .is_some_and(|earlier| module.exec_order < earlier.exec_order)
}

fn is_amiss(chunk: &Chunk, k: usize, number: usize) -> bool
    ensures { result ≡ member_amiss (chunk_of chunk.now) k number }
{
    chunk.module_at(number).is_some_and(|module| {
        !module.kind.is_normal()
            || is_repeated(&chunk.chunk_modules, k, number)
            || falls(chunk, k, module)
    })
}

// Refuses the module with the smallest number of a test that holds.
pub(crate) fn check_member(chunk: &Chunk, k: usize, number: u32) -> Result<(), Refusal>
    ensures { told result ≡ least (member_tests (chunk_of chunk.now) k number) }
{
    refuse_if(!is_module(chunk, number), Refusal::OutOfRange)?;
    refuse_if(is_amiss(chunk, k, number as usize), Refusal::OutOfOrder)
}
