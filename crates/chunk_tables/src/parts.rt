// What a module is made of. Its scopes, symbols and references are rows that are counted from 0.
use keys::refs::SymbolRef;

/// A scope, told by the one that it stands in. The first row is the module's root, which stands in none, and whose parent is not
/// read. Every other row comes behind that of its parent, so a walk outward goes up the table and ends.
#[derive(Clone, Copy)]
pub struct Scope {
    /// The scope around this one.
    pub parent: u32,
}

/// A variable, or what the bundler treats as one. What a source declares is *bound*: references in the scope and below it mean
/// it. What the bundler makes for the output, as a namespace or the function that runs a module, is a *facade*. It is printed at
/// the top level and stands in the root, but is not bound there. No reference of the source means it, not even one of its name:
///
/// ```js
/// import { now } from './clock.cjs'; // printed through a facade `import_clock`
/// import_clock; // of the source: some global, and not the facade
/// ```
#[derive(Drop)]
pub struct Symbol {
    /// The name in the source, or the one that the bundler would like. It is what the search begins with.
    pub name: Vec<u8>,
    /// The scope in which it stands.
    pub scope: u32,
    /// Whether it is bound, and no facade.
    pub bound: bool,
    /// The symbol that is the same variable, nearer to where it is declared.
    pub link: Option<SymbolRef>,
    /// The symbol that is printed in its place, and of which it is a property.
    pub alias: Option<SymbolRef>,
}

/// A place where the source names a symbol of its module. Where that is a namespace and a member of it is read, the bundler can
/// know which symbol the member is, and print that one:
///
/// ```js
/// import * as clock from './clock.js';
/// clock.now; // a reference to `clock`, resolved to the `now` of clock.js, and printed `now`
/// ```
#[derive(Clone, Copy)]
pub struct Reference {
    /// The scope in which the name stands, which decides what it can mean.
    pub scope: u32,
    /// What it means: a symbol of the same module.
    pub target: u32,
    /// What the member of it is, where that is known.
    pub resolved: Option<SymbolRef>,
}

/// A use of a name that nothing around it declares, as `window`. It means what the host has, and would mean something else if a
/// symbol of the chunk were called so.
#[derive(Drop)]
pub struct Unresolved {
    /// The name, which is printed as it is.
    pub name: Vec<u8>,
    /// The scope in which it stands.
    pub scope: u32,
}

/// A statement at the top of a module, as far as it bears on names.
#[derive(Drop)]
pub struct Statement {
    /// Whether it is printed where it stands. What is left out of the output needs no name.
    pub kept: bool,
    /// Whether it imports from an external module. Such an import is moved to the top of the script, out of the function around
    /// a wrapped module.
    pub external_import: bool,
    /// The symbols that it declares.
    pub declared: Vec<SymbolRef>,
}

/// Whether a module is part of the build. An enum, as rolldown has one, and no optional namespace: that a module has none would
/// not say that it is normal.
#[derive(Clone, Copy)]
pub enum ModuleKind {
    /// Its source is known, and a chunk can join it.
    Normal,
    /// It is loaded when the script runs, and known by what is imported from it.
    External {
        /// The symbol through which all of it is reached.
        namespace: u32,
    },
}
