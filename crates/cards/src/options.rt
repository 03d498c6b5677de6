// The options, the table that names them, and which of them are given.
use crate::commands::Command;
use crate::text;
use crate::text::Text;
use std::env::FillError;
use std::fmt;
use std::fmt::{Display, Write};
use std::rt::Env;

// In the order of their rows.
#[derive(Clone, Copy, PartialEq, Eq)]
pub(crate) enum Opt {
    Key,
    Book,
    LastBook,
    Nonce,
    Iv,
    Data,
    In,
    Out,
    Label,
    Class,
    Drawer,
    Reader,
    Count,
    Length,
    Force,
    Verbose,
}

// Those that name an input.
pub(crate) const INPUTS: [Opt; 7] = [
    Opt::Key,
    Opt::Book,
    Opt::LastBook,
    Opt::Nonce,
    Opt::Iv,
    Opt::Data,
    Opt::In,
];

// The option's name, what stands behind it, whether it has a twin in hex, and what it is. Each command has a column in
// `taken`, of characters, so that it is read down the table: the option must be given (!), may be given (x), or is not
// taken (.). What stands behind the option is "" for nothing: tools/completion reads the rows as they are written here.
#[derive(Clone, Copy)]
pub(crate) struct OptionRow {
    pub option: Opt,
    name: &'static str,
    value: &'static str,
    hex: bool,
    taken: &'static [u8; 13],
    means: &'static str,
}

// The columns: seal open check encipher decipher digest start draw show book classes pack help.
pub(crate) const OPTIONS: [OptionRow; 16] = [
    OptionRow {
        option: Opt::Key,
        name: "key",
        value: "FILE",
        hex: true,
        taken: b"xxx!!x.......",
        means: "the key: 16 bytes for a card, 128 for a wide block, 1 to 64 for a digest",
    },
    OptionRow {
        option: Opt::Book,
        name: "book",
        value: "FILE",
        hex: true,
        taken: b"xxx.......!..",
        means: "this term's key book",
    },
    OptionRow {
        option: Opt::LastBook,
        name: "last-book",
        value: "FILE",
        hex: true,
        taken: b"xxx..........",
        means: "last term's, which may be left out",
    },
    OptionRow {
        option: Opt::Nonce,
        name: "nonce",
        value: "FILE",
        hex: true,
        taken: b"x............",
        means: "the nonce, 12 bytes, never used before under this key",
    },
    OptionRow {
        option: Opt::Iv,
        name: "iv",
        value: "FILE",
        hex: true,
        taken: b"...x.........",
        means: "the iv, 48 bytes, never used before under this key",
    },
    OptionRow {
        option: Opt::Data,
        name: "data",
        value: "FILE",
        hex: true,
        taken: b"xxx..........",
        means: "associated data, without which the card does not open",
    },
    OptionRow {
        option: Opt::In,
        name: "in",
        value: "FILE",
        hex: true,
        taken: b"xxxxxx..xx.x.",
        means: "what is read; standard input if it is left out or -",
    },
    OptionRow {
        option: Opt::Out,
        name: "out",
        value: "FILE",
        hex: true,
        taken: b"xx.xxx.x.x...",
        means: "where it is written; standard output if it is left out or -",
    },
    OptionRow {
        option: Opt::Label,
        name: "label",
        value: "WORDS",
        hex: false,
        taken: b"xxx..........",
        means: "the words themselves as associated data",
    },
    OptionRow {
        option: Opt::Class,
        name: "class",
        value: "NUMBER",
        hex: false,
        taken: b"xxx..........",
        means: "the class whose key in the book is used",
    },
    OptionRow {
        option: Opt::Drawer,
        name: "drawer",
        value: "FILE",
        hex: false,
        taken: b"x..x..!!x....",
        means: "the drawer of nonces (cards help start)",
    },
    OptionRow {
        option: Opt::Reader,
        name: "reader",
        value: "NUMBER",
        hex: false,
        taken: b"......x......",
        means: "the reader's number, below 2^32; a random one if it is left out",
    },
    OptionRow {
        option: Opt::Count,
        name: "count",
        value: "NUMBER",
        hex: false,
        taken: b"......x......",
        means: "the first count to be drawn; 0 if it is left out",
    },
    OptionRow {
        option: Opt::Length,
        name: "length",
        value: "NUMBER",
        hex: false,
        taken: b".....x.......",
        means: "1 to 64 bytes; 64 if it is left out",
    },
    OptionRow {
        option: Opt::Force,
        name: "force",
        value: "",
        hex: false,
        taken: b"xx.xxx.x.x...",
        means: "replaces the file that --out names",
    },
    OptionRow {
        option: Opt::Verbose,
        name: "verbose",
        value: "",
        hex: false,
        taken: b"xxxxxxxxxxxx.",
        means: "says that all was done",
    },
];

impl Opt {
    fn row(self) -> OptionRow {
        OPTIONS[self as usize]
    }

    // The option of this name.
    pub(crate) fn named(name: &[u8]) -> Option<Opt> {
        OPTIONS
            .iter()
            .find(|row| row.name.as_bytes() == name)
            .map(|row| row.option)
    }

    // Whether a standard stream can stand for the option: for those that have a twin in hex.
    pub(crate) fn is_stream(self) -> bool {
        self.row().hex
    }

    // Whether a word stands behind the option.
    pub(crate) fn has_value(self) -> bool {
        !self.row().value.is_empty()
    }

    pub(crate) fn is_taken(self, command: Command) -> bool {
        self.row().is_taken(command)
    }
}

impl Display for Opt {
    fn fmt<W: Write>(&self, f: &mut fmt::Formatter<W>) -> fmt::Result {
        write!(f, "--{}", self.row().name)
    }
}

impl OptionRow {
    pub(crate) fn is_taken(self, command: Command) -> bool {
        self.column(command) != b'.'
    }

    pub(crate) fn is_needed(self, command: Command) -> bool {
        self.column(command) == b'!'
    }

    // How the command takes the option; --version has no column.
    fn column(self, command: Command) -> u8 {
        let taken = self.taken;
        taken.get(command as usize).copied().unwrap_or(b'.')
    }

    // A line of a command's help. [-hex] stands behind the name of one that has a twin.
    fn line(self) -> Text {
        let twin = if self.hex { "[-hex]" } else { "" };
        text::formatted(format_args!("  --{}{} {}", self.name, twin, self.value))
            .padded(26)
            .and(self.means.as_bytes())
            .and(b"\n")
    }
}

// A line for each option that the command takes, as its help prints it.
pub(crate) fn lines(command: Command) -> Text {
    let mut t = Text::new();
    for row in OPTIONS {
        if row.is_taken(command) {
            t.push(row.line().as_bytes());
        }
    }
    t
}

// Where on the command line that stands which is given for an option: in which word, from which byte of it on, and
// whether in hex.
#[derive(Clone, Copy)]
pub(crate) struct Argument {
    pub word: usize,
    pub from: usize,
    pub hex: bool,
}

// What is given for each option; and whether what is written to standard output is in hex where no --out says so.
#[derive(Clone, Copy)]
pub(crate) struct Options {
    arguments: [Option<Argument>; 16],
    printed: bool,
}

impl Options {
    pub(crate) fn none() -> Options {
        Options {
            arguments: [None; 16],
            printed: false,
        }
    }

    // The options, with the output in hex where no --out says otherwise.
    pub(crate) fn printed(self) -> Options {
        let mut o = self;
        o.printed = true;
        o
    }

    pub(crate) fn give(&mut self, option: Opt, argument: Argument) {
        self.arguments[option as usize] = Some(argument);
    }

    fn argument(self, option: Opt) -> Option<Argument> {
        self.arguments[option as usize]
    }

    pub(crate) fn given(self, option: Opt) -> bool {
        self.argument(option).is_some()
    }

    pub(crate) fn in_hex(self, option: Opt) -> bool {
        match self.argument(option) {
            Some(argument) => argument.hex,
            None => self.printed && option == Opt::Out,
        }
    }

    // The option's word, or what stands behind its = sign.
    pub(crate) fn word_of(self, rt: &impl Env, option: Opt) -> Text {
        match self.argument(option) {
            Some(a) => {
                let w = word(rt, a.word);
                text::of(w.as_bytes().get(a.from..).unwrap_or(b""))
            }
            None => Text::new(),
        }
    }

    // Whether the option's word is `-`, which stands for a standard stream.
    pub(crate) fn is_dash(self, rt: &impl Env, option: Opt) -> bool {
        option.is_stream() && matches!(self.word_of(rt, option).as_bytes(), b"-")
    }
}

// How many words the command line has, the tool's name among them.
pub(crate) fn word_count(rt: &impl Env) -> usize {
    for n in 0..usize::MAX {
        if let Err(FillError::NotPresent) = rt.arg(n, &mut []) {
            return n;
        }
    }
    usize::MAX
}

// The word at this place of the command line, none where it is too long.
pub(crate) fn word(rt: &impl Env, place: usize) -> Text {
    whole_word(rt, place).unwrap_or(Text::new())
}

// The same, or why there is none.
pub(crate) fn whole_word(rt: &impl Env, place: usize) -> Result<Text, FillError> {
    let mut w = io::buffer();
    let n = rt.arg(place, &mut w)?;
    Ok(text::of(&w[..n]))
}
