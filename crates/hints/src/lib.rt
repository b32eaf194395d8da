// The hints after which the helpers of other chunks are named.
#![tactic(auto)]

ghost use Rattle.std.specs.Prelude.{◌≡◌, ◌≤◌, true, false, ◌++◌, length, drop, MatchResult};
ghost use Rattle.names.specs.Bases.{is_base};
ghost use Rattle.names.specs.Refusals.{number_of};
ghost use Rattle.names.specs.Spelt.{spelt};
ghost use Rattle.hints.specs.Hints.{is_plain, cleaned_byte, cleaned, hint};
ghost use Rattle.hints.specs.Laws.{JudgedUncleaned, CleanedIsPlain, CleanedStays, KeepsLength, Example};

use names::limits::LONGEST_BASE;
use names::name::Name;
use names::refusal::Refusal;

// How every hint begins; the chunk's name follows, cleaned.
const PREFIX: &[u8] = b"require_";

// Whether a byte of a chunk's name can stand in a hint.
fn is_plain(byte: u8) -> bool
    ensures { result ≡ is_plain byte }
{
    byte.is_ascii_alphanumeric() || byte == b'_' || byte == b'$'
}

fn cleaned_byte(byte: u8) -> u8
    ensures { result ≡ cleaned_byte byte }
{
    if is_plain(byte) { byte } else { b'_' }
}

// Writes the cleaned name to the front of `out`.
#[tactic(auto, using(crate::proofs::Cleaning::cleaned_more))]
fn legitimize(name: &[u8], out: &mut [u8])
    requires { length name.now ≤ length out.old }
    ensures { out.new ≡ cleaned name.now ++ drop (length name.now) out.old }
{
    for (i, byte) in name.iter().enumerate() {
        out[i] = cleaned_byte(*byte);
    }
}

/// Whether the hint of a chunk of this name is a base. It is none where the name is too long, and then no helper can be
/// named for the chunk.
pub fn has_hint(chunk_name: &[u8]) -> bool
    ensures { result ≡ is_base (hint chunk_name.now) }
{
    PREFIX.len() + chunk_name.len() <= LONGEST_BASE
}

/// How the helper of a chunk of this name is to be called, refused with 7 where that is no base. A helper of the chunk
/// `lib/util.js` is drawn as `require_lib_util_js`, or as a numbered form of it where that name is taken:
///
/// ```js
/// const require_lib_util_js = require("./lib/util.js");
/// ```
pub fn require_hint(chunk_name: &[u8]) -> Result<Name, Refusal>
    ensures { MatchResult result (λ n. (spelt n ≡ hint chunk_name.now) × (is_base (hint chunk_name.now) ≡ true)) (λ e. (number_of e ≡ 7) × (is_base (hint chunk_name.now) ≡ false)) }
{
    if !has_hint(chunk_name) {
        return Err(Refusal::BadName);
    }
    let len = PREFIX.len() + chunk_name.len();
    let mut hint = [0; LONGEST_BASE];
    hint[..PREFIX.len()].copy_from_slice(PREFIX);
    legitimize(chunk_name, &mut hint[PREFIX.len()..]);
    Name::new(&hint[..len])
}

/// Stands for what holds of each name: cleaning leaves plain bytes, keeps the length, and does nothing more a second time,
/// and so the hint is a base just where it would be one without cleaning.
pub fn laws()
    ensures base { JudgedUncleaned }
    ensures plain { CleanedIsPlain }
    ensures settled { CleanedStays }
    ensures length { KeepsLength }
    ensures example { Example }
{}
