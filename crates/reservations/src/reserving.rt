// Reserves names, one after another.
ghost use Rattle.std.specs.Prelude.{◌≡◌, [], cond, map};
ghost use Rattle.std.specs.List.{flat_map};
ghost use Rattle.chunk_tables.specs.View.{chunk_of, module_of};
ghost use Rattle.chunk_tables.specs.Fixed.{fixed_names, wrapper_parameters};
ghost use Rattle.conflict_resolver.specs.Answers.{settled};
ghost use Rattle.conflict_resolver.specs.Held.{held, room, slots};
ghost use Rattle.conflict_resolver.specs.Rules.{reserved};
ghost use Rattle.names.specs.Words.{reserved_words};
ghost use Rattle.reservations.specs.Reserved.{always_printed, printed_by, reserved_in, reserved_by_member, reserved_by_members, reserved_names};
ghost use Rattle.reservations.specs.Reserving.{Reserves};

use crate::texts::Text;
use chunk_tables::chunk::{Chunk, Module};
use chunk_tables::fixed::{cjs_wrapper_fixed_params, fixed_names_in_module_body};
use chunk_tables::format::Format;
use conflict_resolver::resolver::ConflictResolver;
use names::name::Name;
use names::refusal::Refusal;
use names::words::reserved_words;

// What is printed in every chunk.
const ALWAYS_PRINTED: &[&[u8]] = &[b"Object", b"Promise"];

// Reserves the name with the text. A text that is too long for a name is no name either.
fn reserve_text(to: &mut ConflictResolver, text: &[u8]) -> Result<(), Refusal>
    ensures rules { settled result (held to.new) ≡ reserved (room to.old) (held to.old) text.now }
    ensures room { room to.new ≡ room to.old }
    ensures slots { slots to.new ≡ slots to.old }
{
    let name = Name::new(text)?;
    to.reserve(&name)
}

fn reserve_each<T: Text>(to: &mut ConflictResolver, rows: &[T]) -> Result<(), Refusal>
    ensures { Reserves to.old to.new result (map T.spells rows.now) }
{
    for row in rows {
        reserve_text(to, row.text())?;
    }
    Ok(())
}

// What a chunk of the format prints at its top level.
fn printed_by(format: Format) -> &'static [&'static [u8]]
    ensures { map (λ n. n.now) result.now ≡ printed_by format }
{
    match format {
        Format::Esm => &[],
        Format::Cjs => &[
            b"module",
            b"require",
            b"__filename",
            b"__dirname",
            b"exports",
            b"Symbol",
        ],
        Format::Iife | Format::Umd => &[b"exports", b"Symbol"],
    }
}

fn reserve_words(to: &mut ConflictResolver) -> Result<(), Refusal>
    ensures { Reserves to.old to.new result reserved_words }
{
    reserve_each(to, &reserved_words())
}

fn reserve_globals(to: &mut ConflictResolver, chunk: &Chunk) -> Result<(), Refusal>
    ensures { Reserves to.old to.new result (chunk_of chunk.now).globals }
{
    reserve_each(to, chunk.globals.as_slice())
}

fn reserve_printed(to: &mut ConflictResolver, format: Format) -> Result<(), Refusal>
    ensures { Reserves to.old to.new result (printed_by format) }
{
    reserve_each(to, printed_by(format))
}

fn reserve_always_printed(to: &mut ConflictResolver) -> Result<(), Refusal>
    ensures { Reserves to.old to.new result always_printed }
{
    reserve_each(to, ALWAYS_PRINTED)
}

fn reserve_unresolved(to: &mut ConflictResolver, of: &Module) -> Result<(), Refusal>
    ensures { Reserves to.old to.new result (map (λ u. u.name) (module_of of.now).unresolved) }
{
    reserve_each(to, of.unresolved.as_slice())
}

fn reserve_fixed(to: &mut ConflictResolver, format: Format, of: &Module) -> Result<(), Refusal>
    ensures { Reserves to.old to.new result (fixed_names format (module_of of.now)) }
{
    reserve_each(to, fixed_names_in_module_body(of, format))
}

// The parameters of the function around the module, if there is one.
fn reserve_parameters(to: &mut ConflictResolver, of: &Module) -> Result<(), Refusal>
    ensures { Reserves to.old to.new result (cond (module_of of.now).wrapped (wrapper_parameters (module_of of.now)) []) }
{
    if of.wrapped {
        reserve_each(to, cjs_wrapper_fixed_params(of))
    } else {
        Ok(())
    }
}

// The names that the module keeps.
fn reserve_in(to: &mut ConflictResolver, format: Format, of: &Module) -> Result<(), Refusal>
    ensures { Reserves to.old to.new result (reserved_in format (module_of of.now)) }
{
    reserve_unresolved(to, of)?;
    reserve_fixed(to, format, of)?;
    reserve_parameters(to, of)
}

// The names that a chunk module keeps, by its number.
fn reserve_member(
    to: &mut ConflictResolver,
    format: Format,
    chunk: &Chunk,
    member: u32,
) -> Result<(), Refusal>
    ensures { Reserves to.old to.new result (reserved_by_member format (chunk_of chunk.now) member) }
{
    match chunk.module_at(member as usize) {
        Some(of) => reserve_in(to, format, of),
        None => Ok(()),
    }
}

// The names that the modules with these numbers keep.
fn reserve_numbered(
    to: &mut ConflictResolver,
    format: Format,
    chunk: &Chunk,
    members: &[u32],
) -> Result<(), Refusal>
    ensures { Reserves to.old to.new result (flat_map (reserved_by_member format (chunk_of chunk.now)) members.now) }
{
    for member in members {
        reserve_member(to, format, chunk, *member)?;
    }
    Ok(())
}

fn reserve_members(to: &mut ConflictResolver, format: Format, chunk: &Chunk) -> Result<(), Refusal>
    ensures { Reserves to.old to.new result (reserved_by_members format (chunk_of chunk.now)) }
{
    reserve_numbered(to, format, chunk, &chunk.chunk_modules)
}

/// Puts on record each name that no symbol of the chunk may be given. They are the reserved words, which name nothing; the
/// globals and the unresolved names, which the modules mean to find outside the chunk; and what the chunk prints by itself,
/// as `Object`, `exports`, or the parameters of the function around a wrapped module. If `let Promise` stood at the top
/// level, an `import()` printed by way of `Promise` would call it. A refusal leaves on record what was reserved before it.
pub fn reserve_names(
    to: &mut ConflictResolver,
    format: Format,
    chunk: &Chunk,
) -> Result<(), Refusal>
    ensures { Reserves to.old to.new result (reserved_names format (chunk_of chunk.now)) }
{
    reserve_words(to)?;
    reserve_globals(to, chunk)?;
    reserve_always_printed(to)?;
    reserve_printed(to, format)?;
    reserve_members(to, format, chunk)
}
