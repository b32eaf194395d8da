// A chunk: the modules that are known, which of them it joins, and what is named for it.
use crate::parts::{ModuleKind, Reference, Scope, Statement, Symbol, Unresolved};
use keys::refs::{ChunkIdx, SymbolRef};

/// One module: its scopes, symbols and references, and what the output needs of it. Where it names symbols without a module
/// (`hmr_hot`, `cjs_this`, the default export, shims, imports) these are numbers of its own.
#[derive(Drop)]
pub struct Module {
    /// Whether there is a source, or the module is only referred to.
    pub kind: ModuleKind,
    /// When the module runs, compared with others.
    pub exec_order: u32,
    /// Whether the body is printed inside a function, as a CommonJS module's is, which runs when it is first required. What the
    /// module declares at its top is then local to that function. It is no top-level name of the chunk, and can capture one.
    ///
    /// ```js
    /// const require_clock = wrap((exports) => {
    ///     const now = 1; // stands in the module's root
    ///     exports.now = now;
    /// });
    /// ```
    pub wrapped: bool,
    /// The symbol behind `import.meta.hot`, in a build whose modules are replaced while they run.
    pub hmr_hot: Option<u32>,
    /// The symbol that `this` at the top of a CommonJS module is printed as: a parameter of the function around it.
    pub cjs_this: Option<u32>,
    /// The symbol of the default export. It is a facade where the source gives it no name, as in `export default 7`.
    pub default_export: Option<u32>,
    /// Whether the module has an `import()`, which is printed with `Promise` and `Object`.
    pub dynamic_import: bool,
    /// Whether the module asks for the address of a file of the build, which is printed with `URL`.
    pub file_url: bool,
    /// Whether the module uses CommonJS's `module`.
    pub uses_module: bool,
    /// Whether the module uses `module` or `exports`. Without either the function around it needs no parameter for them.
    pub uses_module_or_exports: bool,
    /// The scopes, the root first.
    pub scopes: Vec<Scope>,
    /// All symbols: what the source declares in any scope, and the facades.
    pub symbols: Vec<Symbol>,
    /// Where the source names its symbols.
    pub references: Vec<Reference>,
    /// Symbols that stand for exports which are imported and do not exist, so that reading them gives `undefined`.
    pub shims: Vec<u32>,
    /// What the module's imports declare, and what it exports of others under a name.
    pub named_imports: Vec<u32>,
    /// The names that the source takes from outside.
    pub unresolved: Vec<Unresolved>,
    /// The statements at the module's top, in their order.
    pub statements: Vec<Statement>,
}

/// A symbol that an entry refers to, as by an export.
#[derive(Clone, Copy)]
pub struct EntrySymbol {
    /// What is referred to.
    pub symbol: SymbolRef,
    /// Whether it came by way of a CommonJS module. It is then read as a property of what that module exports, and is given no
    /// name for the entry's sake.
    pub came_from_cjs: bool,
}

/// Another chunk of the build from which something is imported. The import declares names in this chunk, so these have to be
/// given here, too.
#[derive(Drop)]
pub struct OtherChunk {
    /// Its number in the build.
    pub index: ChunkIdx,
    /// Its own name, after which the helper is named that requires it.
    pub name: Vec<u8>,
    /// The symbols that are imported from it.
    pub imports: Vec<SymbolRef>,
}

/// What one script is made of, and all that bears on its names. Lists of modules and symbols are numbers, and nothing here is
/// checked: whoever fills the fields can be wrong, and is told so before a name is given.
#[derive(Drop)]
pub struct Chunk {
    /// The format's code. It stays a number, since a chunk can be built with any: the check of the format tells a bad one.
    pub format: u8,
    /// How many names may be on record, the reserved ones among them.
    pub records: u32,
    /// What the caller knows to be defined where the script will run, and nothing in the chunk is to hide.
    pub globals: Vec<Vec<u8>>,
    /// The module with the bundler's own helpers. References to these are printed anywhere.
    pub runtime: Option<u32>,
    /// All modules that are known. A chunk refers to modules that it does not join.
    pub modules: Vec<Module>,
    /// The modules that the chunk joins, in the order in which they run.
    pub chunk_modules: Vec<u32>,
    /// The external modules that modules of the chunk import from.
    pub direct_externals: Vec<u32>,
    /// The external modules whose exports the entry passes on.
    pub entry_externals: Vec<u32>,
    /// The external modules whose symbols the chunk reads, though none of its own modules imports them.
    pub indirect_externals: Vec<u32>,
    /// What the entry refers to.
    pub entry_symbols: Vec<EntrySymbol>,
    /// The symbols of external modules that some module of the build reads.
    pub used_external_symbols: Vec<SymbolRef>,
    /// The symbols of statements that the bundler adds to the chunk.
    pub synthetic_symbols: Vec<SymbolRef>,
    /// The chunks that this one imports from, by rising numbers.
    pub other_chunks: Vec<OtherChunk>,
}
