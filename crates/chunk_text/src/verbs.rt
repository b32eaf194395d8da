// The words that lines begin with.
ghost use Rattle.std.specs.Prelude.{◌≡◌};
ghost use Rattle.chunk_text.specs.Verbs.{outside_verbs, inside_verbs};
ghost use Rattle.chunk_text.specs.Words.{find_verb};

use crate::chunk_lines::ChunkVerb;
use crate::fault::Fault;
use crate::module_lines::ModuleVerb;
use crate::words::find_verb;

/// How a line begins that stands outside of a module.
#[derive(Clone, Copy)]
pub enum OutsideVerb {
    /// The word of the format.
    Format,
    /// How many names may be on record.
    Records,
    /// How much memory there is for a session.
    Memory,
    /// The first line of a module.
    Module,
    /// Something that the chunk has a list of, or its runtime.
    List(ChunkVerb),
}

/// How a line begins that stands in a module.
#[derive(Clone, Copy)]
pub enum InsideVerb {
    /// Something that the module has.
    Adds(ModuleVerb),
    /// The last line of the module.
    End,
}

const OUTSIDE_VERBS: &[(&[u8], OutsideVerb)] = &[
    (b"format", OutsideVerb::Format),
    (b"records", OutsideVerb::Records),
    (b"memory", OutsideVerb::Memory),
    (b"module", OutsideVerb::Module),
    (b"globals", OutsideVerb::List(ChunkVerb::Globals)),
    (b"runtime", OutsideVerb::List(ChunkVerb::Runtime)),
    (b"chunk", OutsideVerb::List(ChunkVerb::Members)),
    (b"direct", OutsideVerb::List(ChunkVerb::Direct)),
    (b"entry_externals", OutsideVerb::List(ChunkVerb::EntryLevel)),
    (b"indirect", OutsideVerb::List(ChunkVerb::Indirect)),
    (b"entry", OutsideVerb::List(ChunkVerb::Entry)),
    (b"used", OutsideVerb::List(ChunkVerb::Used)),
    (b"synthetic", OutsideVerb::List(ChunkVerb::Synthetic)),
    (b"other", OutsideVerb::List(ChunkVerb::Other)),
];

const INSIDE_VERBS: &[(&[u8], InsideVerb)] = &[
    (b"wrapped", InsideVerb::Adds(ModuleVerb::Wrapped)),
    (
        b"dynamic_import",
        InsideVerb::Adds(ModuleVerb::DynamicImport),
    ),
    (b"file_url", InsideVerb::Adds(ModuleVerb::FileUrl)),
    (b"uses_module", InsideVerb::Adds(ModuleVerb::UsesModule)),
    (
        b"uses_module_or_exports",
        InsideVerb::Adds(ModuleVerb::UsesModuleOrExports),
    ),
    (b"scope", InsideVerb::Adds(ModuleVerb::Scope)),
    (b"symbol", InsideVerb::Adds(ModuleVerb::Symbol)),
    (b"hot", InsideVerb::Adds(ModuleVerb::Hot)),
    (b"this", InsideVerb::Adds(ModuleVerb::This)),
    (b"default", InsideVerb::Adds(ModuleVerb::Default)),
    (b"shim", InsideVerb::Adds(ModuleVerb::Shim)),
    (b"import", InsideVerb::Adds(ModuleVerb::Import)),
    (b"unresolved", InsideVerb::Adds(ModuleVerb::Unresolved)),
    (b"reference", InsideVerb::Adds(ModuleVerb::Reference)),
    (b"member", InsideVerb::Adds(ModuleVerb::Member)),
    (b"statement", InsideVerb::Adds(ModuleVerb::Statement)),
    (b"end", InsideVerb::End),
];

/// What a line outside of a module is, by its first word. A line of a module is none here: without its module it says nothing.
pub fn outside_verb(word: &[u8]) -> Result<OutsideVerb, Fault>
    ensures { result ≡ find_verb outside_verbs word.now }
{
    find_verb(OUTSIDE_VERBS, word)
}

/// What a line in a module is, by its first word. A line of the chunk is none here, so a module whose end was forgotten is told
/// at the next such line.
pub fn inside_verb(word: &[u8]) -> Result<InsideVerb, Fault>
    ensures { result ≡ find_verb inside_verbs word.now }
{
    find_verb(INSIDE_VERBS, word)
}
