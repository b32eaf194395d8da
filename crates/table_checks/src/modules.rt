// The checks of the format and of modules.
ghost use Rattle.std.specs.Prelude.{◌≡◌};
ghost use Rattle.chunk_tables.specs.Lists.{first_found};
ghost use Rattle.chunk_tables.specs.View.{chunk_of, module_of};
ghost use Rattle.chunk_faults.specs.ModuleRows.{format_tests, namespace_of, runtime_strays, own_stray, module_tests, module_rows};
ghost use Rattle.chunk_faults.specs.Tests.{least, told};

use chunk_tables::chunk::{Chunk, Module};
use chunk_tables::format::Format;
use chunk_tables::parts::ModuleKind;
use names::refusal::Refusal;
use row_checks::numbers::{is_module, strays};
use row_checks::rows::{check_rows, refuse_if};

/// Refuses a chunk whose format's code is none. The code is a number in the tables, since a document may have any.
pub fn check_format(chunk: &Chunk) -> Result<(), Refusal>
    ensures { told result ≡ least (format_tests (chunk_of chunk.now)) }
{
    refuse_if(Format::try_from(chunk.format).is_err(), Refusal::OutOfRange)
}

// The namespace of an external module.
fn namespace_of(kind: ModuleKind) -> Option<u32>
    ensures { result ≡ namespace_of kind }
{
    match kind {
        ModuleKind::Normal => None,
        ModuleKind::External { namespace } => Some(namespace),
    }
}

fn runtime_strays(chunk: &Chunk) -> bool
    ensures { result ≡ runtime_strays (chunk_of chunk.now) }
{
    chunk
        .runtime
        .is_some_and(|runtime| !is_module(chunk, runtime))
}

// Whether a symbol that the module names is none of its own.
fn has_own_stray(module: &Module) -> bool
    ensures { result ≡ own_stray (module_of «module».now) }
{
    strays(module, module.hmr_hot)
        || strays(module, module.cjs_this)
        || strays(module, module.default_export)
        || strays(module, namespace_of(module.kind))
}

// Refuses the module with the smallest number of a test that holds.
fn check_module(chunk: &Chunk, number: usize, module: &Module) -> Result<(), Refusal>
    ensures { told result ≡ least (module_tests (chunk_of chunk.now) number (module_of «module».now)) }
{
    let strays = number == 0 && runtime_strays(chunk) || has_own_stray(module);
    refuse_if(strays, Refusal::OutOfRange)
}

/// Refuses the first module of which a symbol that it names in its own record is none of its symbols, or a runtime that is
/// no module. The runtime is the chunk's and not a module's, so it is asked for once, at the first module, and where there
/// is none by itself.
pub fn check_modules(chunk: &Chunk) -> Result<(), Refusal>
    ensures { told result ≡ first_found least (module_rows (chunk_of chunk.now) (chunk_of chunk.now).modules) }
{
    if chunk.modules.is_empty() {
        return refuse_if(runtime_strays(chunk), Refusal::OutOfRange);
    }
    check_rows(
        &chunk.modules,
        |number, module| check_module(chunk, number, module),
    )
}
