// The words that may not name a symbol.
ghost use Rattle.std.specs.Prelude.{◌≡◌, map};
ghost use Rattle.names.specs.Words.{reserved_words};

/// What no symbol of a chunk may be called. A name has to be good wherever it is printed, and a chunk may be a module, strict
/// code, or have a function of any kind around it. So `await` and `yield` are here, which some code may bind, and behind the
/// words of all code those that strict code alone reserves:
///
/// ```js
/// var let; // a script may
/// export var package; // a syntax error: a module is strict code
/// ```
pub const RESERVED_WORDS: [&[u8]; 46] = [
    b"await",
    b"break",
    b"case",
    b"catch",
    b"class",
    b"const",
    b"continue",
    b"debugger",
    b"default",
    b"delete",
    b"do",
    b"else",
    b"enum",
    b"export",
    b"extends",
    b"false",
    b"finally",
    b"for",
    b"function",
    b"if",
    b"import",
    b"in",
    b"instanceof",
    b"new",
    b"null",
    b"return",
    b"super",
    b"switch",
    b"this",
    b"throw",
    b"true",
    b"try",
    b"typeof",
    b"var",
    b"void",
    b"while",
    b"with",
    b"yield",
    b"implements",
    b"interface",
    b"let",
    b"package",
    b"private",
    b"protected",
    b"public",
    b"static",
];

/// The same list, by a call: a contract tells of an answer which words it has, and of a constant it cannot.
pub fn reserved_words() -> [&'static [u8]; 46]
    ensures { map (λ word. word.now) result ≡ reserved_words }
{
    RESERVED_WORDS
}
