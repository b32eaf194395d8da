// The lines of a document.
use line_text::cut::{cut, trim_front};
use line_text::numeral::number;
use vetoes::VetoKind;

#[derive(Clone, Copy)]
pub enum Command<'a> {
    Records(u32),
    Reserve(&'a [u8]),
    Veto(VetoKind, &'a [u8]),
    VetoAll,
    VetoNone,
    Resolve(&'a [u8], u32),
}

// What is wrong with a line.
#[derive(Clone, Copy)]
pub enum Fault {
    NoSuchCommand,
    RecordsNotFirst,
    NoNumber,
    NoCount,
    NoName,
    NoSuchVeto,
    TooManyWords,
    SpaceAtEnd,
}

impl Fault {
    pub fn words(self) -> &'static str {
        match self {
            Fault::NoSuchCommand => "no such command",
            Fault::RecordsNotFirst => "records comes first, and once",
            Fault::NoNumber => "how many records there are is a number of at most 32 bits",
            Fault::NoCount => "how often to resolve is a number of at most 32 bits, and not 0",
            Fault::NoName => "a name is missing",
            Fault::NoSuchVeto => "a veto is bare, numbered or both of a name, or all, or none",
            Fault::TooManyWords => "too many words",
            Fault::SpaceAtEnd => "a space at the end",
        }
    }
}

// What a line asks for; `first` tells that no line of its document asked for anything before. An empty line and a comment
// ask for nothing.
pub fn parse(line: &[u8], first: bool) -> Result<Option<Command<'_>>, Fault> {
    let line = trim_front(line);
    match line {
        [] | [b'#', ..] => Ok(None),
        [.., b' '] => Err(Fault::SpaceAtEnd),
        line => parse_command(line, first).map(Some),
    }
}

fn parse_command(line: &[u8], first: bool) -> Result<Command<'_>, Fault> {
    let (verb, words) = cut(line, b' ');
    match verb {
        b"records" if first => Ok(Command::Records(number(words).ok_or(Fault::NoNumber)?)),
        b"records" => Err(Fault::RecordsNotFirst),
        b"reserve" => Ok(Command::Reserve(parse_name(words)?)),
        b"veto" => parse_veto(words),
        b"resolve" => parse_resolve(words),
        _ => Err(Fault::NoSuchCommand),
    }
}

// The one name that is left on a line.
fn parse_name(words: &[u8]) -> Result<&[u8], Fault> {
    match cut(words, b' ') {
        (b"", _) => Err(Fault::NoName),
        (name, b"") => Ok(name),
        _ => Err(Fault::TooManyWords),
    }
}

fn parse_veto(words: &[u8]) -> Result<Command<'_>, Fault> {
    match cut(words, b' ') {
        (b"all", b"") => Ok(Command::VetoAll),
        (b"none", b"") => Ok(Command::VetoNone),
        (b"bare", name) => Ok(Command::Veto(VetoKind::Bare, parse_name(name)?)),
        (b"numbered", name) => Ok(Command::Veto(VetoKind::Numbered, parse_name(name)?)),
        (b"both", name) => Ok(Command::Veto(VetoKind::Both, parse_name(name)?)),
        _ => Err(Fault::NoSuchVeto),
    }
}

fn parse_resolve(words: &[u8]) -> Result<Command<'_>, Fault> {
    match cut(words, b' ') {
        (b"", _) => Err(Fault::NoName),
        (base, b"") => Ok(Command::Resolve(base, 1)),
        (base, times) => {
            let times = number(times).filter(|times| *times > 0);
            Ok(Command::Resolve(base, times.ok_or(Fault::NoCount)?))
        }
    }
}
