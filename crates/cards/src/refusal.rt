// What was refused: its number, the option or the word of the command line that it is about, and why.
ghost use Rattle.std.specs.Prelude.{◌<◌};

use crate::commands::Command;
use crate::options::{Opt, Options};
use crate::parse::Parsed;
use crate::text::Text;
use crate::{STANDARD_ERROR, commands, options, text};
use pack::{Bad, Rejected};
use std::fmt;
use std::fmt::{Display, Write};
use std::io::Error;
use std::rt::Env;

// What a refusal is about: all of the command line, a word of it, an option, or the pack, and what is wrong with it.
#[derive(Clone, Copy)]
pub(crate) enum Subject {
    CommandLine,
    Word(usize),
    Input(Opt),
    Pack(Rejected),
}

// The entry for a key book that is badly written, from 1.
#[derive(Clone, Copy)]
pub(crate) struct Refusal {
    pub what: What,
    pub about: Subject,
    pub why: Option<Why>,
    pub entry: Option<u64>,
}

// A refusal of the documents, which the libraries answer, or one of the tool's own.
#[derive(Clone, Copy, PartialEq, Eq)]
pub(crate) enum What {
    Library(answers::Refusal),
    CommandLine,
    NotRead,
    Exists,
    NotWritten,
    NotHex,
    Damaged,
    InUse,
    BadEntries,
}

// The system's reason is its error number.
#[derive(Clone, Copy, PartialEq, Eq)]
pub(crate) enum Why {
    System(i32),
    NoCommand,
    CommandNeeded,
    NoSuchOption,
    WordTooMany,
    Twice,
    NoValue,
    Needed,
    NotTogether,
    NoNumber,
    StandardInputTaken,
    TooLong,
    DrawersOwn,
    IsInput,
    Closed,
    Link,
    TwoNames,
    Special,
    DrawerFile,
    Terminal,
    ForceHelps,
    Rights,
    Draws,
    InTheWay,
    Random,
    TooMuchHex,
    WrongTag,
    Key16,
    Key128,
    Key64,
    Nonce12,
    Iv48,
    Data65536,
    Card65535,
    Block,
    WideFile,
    Text1048576,
    NoEntry,
    BadClass,
    BadKey,
    NotRising,
    TooMany,
}

// Error numbers of the system's: ENOENT, EIO and EISDIR.
pub(crate) const NO_SUCH_FILE: i32 = 2;

const INPUT_OR_OUTPUT: i32 = 5;

pub(crate) const A_DIRECTORY: i32 = 21;

impl What {
    // Its number, as the exit status has it: a library's refusal by the documents, the tool's own from 101 on.
    pub(crate) fn number(self) -> u32 {
        match self {
            What::Library(r) => r.number(),
            What::CommandLine => 101,
            What::NotRead => 102,
            What::Exists => 103,
            What::NotWritten => 104,
            What::NotHex => 105,
            What::Damaged => 106,
            What::InUse => 107,
            What::BadEntries => 108,
        }
    }
}

impl Display for What {
    fn fmt<W: Write>(&self, f: &mut fmt::Formatter<W>) -> fmt::Result {
        f.write_str(match *self {
            What::Library(r) => words_of(r),
            What::CommandLine => "command line not understood",
            What::NotRead => "cannot be read",
            What::Exists => "exists already",
            What::NotWritten => "cannot be written",
            What::NotHex => "not hex",
            What::Damaged => "drawer file damaged",
            What::InUse => "drawer in use",
            What::BadEntries => "entries not understood",
        })
    }
}

// The words of document 01, and of document 02 for 12 to 15. No command is refused with another.
fn words_of(r: answers::Refusal) -> &'static str {
    match r {
        answers::Refusal::KeyLength => "key has a wrong length",
        answers::Refusal::NonceLength => "nonce or iv has a wrong length",
        answers::Refusal::DataLength => "associated data too long",
        answers::Refusal::TextLength => "text or block length not allowed",
        answers::Refusal::RoomLength => "room too short (digest: not 1 to 64)",
        answers::Refusal::WrongTag => "opening: tag is not the recomputed one",
        answers::Refusal::DrawerSpent => "drawer spent",
        answers::Refusal::BookForm => "either key book badly formed",
        answers::Refusal::ClassMissing => "neither book has an entry for the class",
        answers::Refusal::CutShort => "cut short",
        answers::Refusal::CountOrLength => "count or length not allowed",
        answers::Refusal::BadShuffle => "bad shuffle",
        answers::Refusal::LeftOver => "bytes left over",
        _ => "",
    }
}

impl Display for Why {
    fn fmt<W: Write>(&self, f: &mut fmt::Formatter<W>) -> fmt::Result {
        match *self {
            Why::System(number) => match words_of_system(number) {
                Some(words) => f.write_str(words),
                None => write!(f, "error {number}"),
            },
            why => f.write_str(why.words()),
        }
    }
}

impl Why {
    // In a function of its own, since `fmt` is not proved with all of them in view. The system's have none here.
    fn words(self) -> &'static str {
        match self {
            Why::System(_) => "",
            Why::NoCommand => "no such command",
            Why::CommandNeeded => "a command is needed",
            Why::NoSuchOption => "no such option here",
            Why::WordTooMany => "a word too many: what has blanks in it wants quotes",
            Why::Twice => "given twice",
            Why::NoValue => "the word behind it is missing",
            Why::Needed => "needed",
            Why::NotTogether => "not together with what else is given",
            Why::NoNumber => "not a number, or too large",
            Why::StandardInputTaken => "standard input is read for another input",
            Why::TooLong => "a word is longer than 4096 bytes",
            Why::DrawersOwn => "the drawer, or the folder beside it",
            Why::IsInput => "a file that is read as key, book, nonce, iv or data",
            Why::Closed => "closed, or a directory",
            Why::Link => "a symbolic link",
            Why::TwoNames => "it has another name too, a hard link",
            Why::Special => "not a regular file",
            Why::DrawerFile => "a drawer file",
            Why::Terminal => "a terminal: name a file, or - to write there all the same",
            Why::ForceHelps => "--force replaces it",
            Why::Rights => "its group or its rights cannot be kept",
            Why::Draws =>
                "another cards draws: try again; if none runs, remove the folder with .next behind its name",
            Why::InTheWay =>
                "what has .next behind its name is in the way, and is not another cards that draws",
            Why::Random => "the system's random source",
            Why::TooMuchHex => "more than 16777216 characters",
            Why::WrongTag => "another key, another label or data, or the card was changed",
            Why::Key16 => "must be 16 bytes",
            Why::Key128 => "must be 128 bytes",
            Why::Key64 => "must be 1 to 64 bytes",
            Why::Nonce12 => "must be 12 bytes",
            Why::Iv48 => "must be 48 bytes",
            Why::Data65536 => "must be 65536 bytes or fewer",
            Why::Card65535 => "must be 65535 bytes or fewer",
            Why::Block => "must be 33 to 1048608 bytes",
            Why::WideFile => "must be 81 to 1048656 bytes",
            Why::Text1048576 => "must be 1048576 bytes or fewer",
            Why::NoEntry => "there is none",
            Why::BadClass => "its class is not a number below 65536",
            Why::BadKey => "its key is not 32 digits of hex",
            Why::NotRising => "its class does not rise",
            Why::TooMany => "more than 65535",
        }
    }
}

// The reason that the system gave. What was refused without one is an error of input or output.
impl From<Error> for Why {
    fn from(e: Error) -> Why {
        Why::System(e.raw_os_error().unwrap_or(INPUT_OR_OUTPUT))
    }
}

fn words_of_system(number: i32) -> Option<&'static str> {
    Some(match number {
        1 | 13 => "permission denied",
        2 => "no such file or directory",
        5 => "input or output error",
        6 => "no such device or address",
        9 => "not open",
        11 => "not ready",
        17 => "it is there",
        20 => "not a directory",
        21 => "a directory",
        22 => "not a name or a place that can be used",
        24 => "too many open files",
        27 => "file too large",
        28 => "no space left",
        30 => "read-only file system",
        32 => "nobody reads it",
        36 => "name too long",
        40 => "too many links",
        _ => return None,
    })
}

// Of all of the command line.
pub(crate) fn of_command_line(why: Why) -> Refusal {
    not_understood(Subject::CommandLine, why)
}

// Of a word of it.
pub(crate) fn of_word(word: usize, why: Why) -> Refusal {
    not_understood(Subject::Word(word), why)
}

fn not_understood(about: Subject, why: Why) -> Refusal {
    Refusal {
        what: What::CommandLine,
        about,
        why: Some(why),
        entry: None,
    }
}

// Of an option.
pub(crate) fn about(option: Opt, what: What, why: Option<Why>) -> Refusal {
    Refusal {
        what,
        about: Subject::Input(option),
        why,
        entry: None,
    }
}

// Of an option, where the system refused, for the reason that it gave.
pub(crate) fn by_system(option: Opt, what: What, e: Error) -> Refusal {
    about(option, what, Some(Why::from(e)))
}

// Of an entry of a key book, or of all of them.
pub(crate) fn of_entry(entry: Option<u64>, why: Why) -> Refusal {
    Refusal {
        what: What::BadEntries,
        about: Subject::Input(Opt::In),
        why: Some(why),
        entry,
    }
}

// Of a pack.
pub(crate) fn of_pack(rejected: Rejected) -> Refusal {
    Refusal {
        what: What::Library(rejected.why.refusal()),
        about: Subject::Pack(rejected),
        why: None,
        entry: None,
    }
}

// The exit status, 0 exactly for the number 0. A system keeps its low eight bits only.
pub(crate) fn status(number: u32) -> u32
    ensures { result < 256 }
{
    number.min(255)
}

// Writes the last line in one piece: what was refused, or, if --verbose asks for it, that it is done.
pub(crate) fn last_line(rt: &impl Env, answer: Result<(), Refusal>, p: Parsed) {
    let line = match answer {
        Ok(()) if p.options.given(Opt::Verbose) => text::of(b"cards: done\n"),
        Ok(()) => Text::new(),
        Err(r) => line_of(rt, r, p),
    };
    io::write_all(STANDARD_ERROR, line.as_bytes());
}

fn line_of(rt: &impl Env, r: Refusal, p: Parsed) -> Text {
    let Refusal { what, about, .. } = r;
    let number = what.number();
    text::formatted(format_args!("cards: refused {number} {what}: "))
        .and(subject_of(rt, what, about, p.options).as_bytes())
        .and(reason(r, p.command).as_bytes())
        .and(b"\n")
}

fn subject_of(rt: &impl Env, what: What, about: Subject, o: Options) -> Text {
    match about {
        Subject::CommandLine => Text::new(),
        Subject::Word(word) => options::word(rt, word).shown(),
        Subject::Input(option) => input(rt, what, option, o),
        Subject::Pack(rejected) => input(rt, what, Opt::In, o).and(found(rejected).as_bytes()),
    }
}

// How many cards of a pack come before what is refused, and the entry at which its shuffle is bad.
fn found(rejected: Rejected) -> Text {
    let Rejected { cards, why } = rejected;
    match why {
        Bad::BadShuffle(entry) => text::formatted(format_args!(
            " (cards before it: {cards}; bad entry, from 0: {entry})"
        )),
        _ => text::formatted(format_args!(" (cards before it: {cards})")),
    }
}

// The option as it was given and its word, or the standard stream that stands for it.
fn input(rt: &impl Env, what: What, option: Opt, o: Options) -> Text {
    let given = o.given(option);
    if what != What::CommandLine && option.is_stream() && (!given || o.is_dash(rt, option)) {
        return stream(option);
    }
    let twin = if o.in_hex(option) { "-hex" } else { "" };
    let named = text::formatted(format_args!("{option}{twin}"));
    if !given {
        return named;
    }
    named
        .and(b" ")
        .and(o.word_of(rt, option).shown().as_bytes())
}

fn stream(option: Opt) -> Text {
    match option {
        Opt::Out => text::of(b"standard output"),
        _ => text::of(b"standard input"),
    }
}

// Why, in brackets: which entry, the reason's words, and where to read on about the command line.
fn reason(r: Refusal, command: Command) -> Text {
    let mut t = Text::new();
    let Some(why) = r.why else {
        return t;
    };
    t.push(b" (");
    if let Some(entry) = r.entry {
        let _ = write!(t, "entry {entry}: ");
    }
    let _ = write!(t, "{why}");
    if r.what == What::CommandLine {
        t.push(b"; see cards help");
        if let Some(name) = commands::name(command) {
            let _ = write!(t, " {name}");
        }
    }
    t.and(b")")
}
