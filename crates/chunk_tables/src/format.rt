// The formats in which a chunk can be written.
ghost use Rattle.std.specs.Prelude.{◌≡◌};
ghost use Rattle.std.specs.Result.{result_ok};
ghost use Rattle.chunk_tables.specs.Formats.{Reads, code_of, of_code};

use std::str::FromStr;

/// What the script is for its host. Each format has a frame of its own around the modules, and the names that this frame uses are
/// no symbol's. The number of each stands for it in a chunk.
#[derive(Clone, Copy, Debug, PartialEq, Eq)]
pub enum Format {
    /// A module with `import` and `export`: symbols of external modules are imported by name, with no namespace in between.
    Esm = 1,
    /// A CommonJS module, which its host hands `exports`, `require`, `module` and the names of its file and folder.
    Cjs = 2,
    /// A function that is called on the spot, with the external modules as arguments.
    Iife = 3,
    /// The same for whichever loader there is.
    Umd = 4,
}

/// That a code or a word names no format. It holds neither: whoever asked has it.
#[derive(Clone, Copy, Debug, PartialEq, Eq)]
pub struct UnknownFormat;

impl From<Format> for u8 {
    ghost from_gives = { λ format code. code ≡ code_of format };

    fn from(format: Format) -> u8 {
        format as u8
    }
}

impl TryFrom<u8> for Format {
    type Error = UnknownFormat;

    ghost try_from_gives = { λ code r. result_ok r ≡ of_code code };

    fn try_from(code: u8) -> Result<Self, UnknownFormat> {
        match code {
            1 => Ok(Format::Esm),
            2 => Ok(Format::Cjs),
            3 => Ok(Format::Iife),
            4 => Ok(Format::Umd),
            _ => Err(UnknownFormat),
        }
    }
}

// By the word with which a format is chosen: its name in small letters.
impl FromStr for Format {
    type Err = UnknownFormat;

    ghost from_str_gives = { λ word r. Reads word (result_ok r) };

    fn from_str(word: &str) -> Result<Self, UnknownFormat> {
        match word {
            "esm" => Ok(Format::Esm),
            "cjs" => Ok(Format::Cjs),
            "iife" => Ok(Format::Iife),
            "umd" => Ok(Format::Umd),
            _ => Err(UnknownFormat),
        }
    }
}
