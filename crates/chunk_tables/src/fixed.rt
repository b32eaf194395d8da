// Names that are printed without being chosen.
ghost use Rattle.std.specs.Prelude.{◌≡◌, map};
ghost use Rattle.chunk_tables.specs.Fixed.{fixed_names, wrapper_parameters};
ghost use Rattle.chunk_tables.specs.View.{module_of};

use crate::chunk::Module;
use crate::format::Format;

const PROMISE: &[u8] = b"Promise";

const OBJECT: &[u8] = b"Object";

const URL: &[u8] = b"URL";

const REQUIRE: &[u8] = b"require";

const FILENAME: &[u8] = b"__filename";

const DIRNAME: &[u8] = b"__dirname";

const EXPORTS: &[u8] = b"exports";

const MODULE: &[u8] = b"module";

/// The names that the bundler writes into the module's body and cannot change, since they have to mean what the language or the
/// host has under them. Nothing in the chunk may be called so. One way to print an `import()`:
///
/// ```js
/// import('./chart.js').then(draw); // in the source
/// Promise.resolve(chart).then(draw); // in the output
/// ```
///
/// Each case has a static list of its own, so none is made on the heap.
pub fn fixed_names_in_module_body(module: &Module, format: Format) -> &'static [&'static [u8]]
    ensures { map (λ name. name.now) result.now ≡ fixed_names format (module_of «module».now) }
{
    let cjs = matches!(format, Format::Cjs);
    match (module.dynamic_import, module.file_url, cjs) {
        (false, false, false) => &[],
        (false, false, true) => &[REQUIRE, FILENAME, DIRNAME],
        (false, true, false) => &[URL],
        (false, true, true) => &[URL, REQUIRE, FILENAME, DIRNAME],
        (true, false, false) => &[PROMISE, OBJECT],
        (true, false, true) => &[PROMISE, OBJECT, REQUIRE, FILENAME, DIRNAME],
        (true, true, false) => &[PROMISE, OBJECT, URL],
        (true, true, true) => &[PROMISE, OBJECT, URL, REQUIRE, FILENAME, DIRNAME],
    }
}

/// The parameters of the function around a wrapped module that the body knows by their names. A parameter hides what the chunk
/// calls the same, so nothing at its top level may be called so. They are passed by place: `module` comes second and what `this`
/// is printed as comes third, so a body that uses a later one is given those in front of it as well.
///
/// ```js
/// const require_clock = wrap((exports, module) => {
///     module.exports = { now: 1 };
/// });
/// ```
pub fn cjs_wrapper_fixed_params(module: &Module) -> &'static [&'static [u8]]
    ensures { map (λ name. name.now) result.now ≡ wrapper_parameters (module_of «module».now) }
{
    if module.cjs_this.is_some() || module.uses_module {
        &[EXPORTS, MODULE]
    } else if module.uses_module_or_exports {
        &[EXPORTS]
    } else {
        &[]
    }
}
