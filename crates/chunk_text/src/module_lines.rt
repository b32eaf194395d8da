// The lines that stand in a module and add to it.
ghost use Rattle.std.specs.Prelude.{map};
ghost use Rattle.chunk_tables.specs.View.{module_of};
ghost use Rattle.chunk_text.specs.Gives.{Gives};
ghost use Rattle.chunk_text.specs.ModuleLines.{module_line};

use crate::fault::ReadError;
use crate::rows::{
    member_row, reference_row, scope_row, statement_row, symbol_row, unresolved_row,
};
use crate::words::{mark, once, only_number};
use chunk_tables::chunk::Module;
use std::alloc::Global;

/// What such a line adds.
#[derive(Clone, Copy)]
pub enum ModuleVerb {
    /// That the module is printed inside a function.
    Wrapped,
    /// That it has an `import()`.
    DynamicImport,
    /// That it asks for the address of a file.
    FileUrl,
    /// That it uses `module`.
    UsesModule,
    /// That it uses `module` or `exports`.
    UsesModuleOrExports,
    /// A scope. Scopes, symbols and references are numbered as their lines come.
    Scope,
    /// A symbol.
    Symbol,
    /// Which symbol stands for `import.meta.hot`.
    Hot,
    /// Which symbol stands for `this`.
    This,
    /// Which symbol is the default export.
    Default,
    /// A symbol that stands for a missing export.
    Shim,
    /// A symbol that an import declares.
    Import,
    /// A name that the module takes from outside.
    Unresolved,
    /// A reference.
    Reference,
    /// A reference to a member of a symbol. Without a symbol that the member is, it is like any other.
    Member,
    /// A statement at the module's top.
    Statement,
}

/// Adds what the line says. A mark that is made again stays made; what a module has one of can be given once.
pub fn read_module_line(
    heap: Global,
    to: &mut Module,
    verb: ModuleVerb,
    words: &[&[u8]],
) -> Result<(), ReadError>
    ensures { Gives (λ _. module_of to.new) result (module_line (module_of to.old) verb (map (λ w. w.now) words.now)) }
{
    match verb {
        ModuleVerb::Wrapped => to.wrapped = mark(words)?,
        ModuleVerb::DynamicImport => to.dynamic_import = mark(words)?,
        ModuleVerb::FileUrl => to.file_url = mark(words)?,
        ModuleVerb::UsesModule => to.uses_module = mark(words)?,
        ModuleVerb::UsesModuleOrExports => to.uses_module_or_exports = mark(words)?,
        ModuleVerb::Scope => {
            let scope = scope_row(to.scopes.is_empty(), words)?;
            to.scopes.push(scope)?;
        }
        ModuleVerb::Symbol => to.symbols.push(symbol_row(heap, words)?)?,
        ModuleVerb::Hot => once(&mut to.hmr_hot, only_number(words)?)?,
        ModuleVerb::This => once(&mut to.cjs_this, only_number(words)?)?,
        ModuleVerb::Default => once(&mut to.default_export, only_number(words)?)?,
        ModuleVerb::Shim => to.shims.push(only_number(words)?)?,
        ModuleVerb::Import => to.named_imports.push(only_number(words)?)?,
        ModuleVerb::Unresolved => to.unresolved.push(unresolved_row(heap, words)?)?,
        ModuleVerb::Reference => to.references.push(reference_row(words)?)?,
        ModuleVerb::Member => to.references.push(member_row(words)?)?,
        ModuleVerb::Statement => to.statements.push(statement_row(heap, words)?)?,
    }
    Ok(())
}
