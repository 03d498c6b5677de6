// The commands, and the table that names them.
use crate::text::Text;
use std::fmt::Write;

// In the order of their rows, and of their columns in the table of options; version has none.
#[derive(Clone, Copy, PartialEq, Eq)]
pub(crate) enum Command {
    Seal,
    Open,
    Check,
    Encipher,
    Decipher,
    Digest,
    Start,
    Draw,
    Show,
    Book,
    Classes,
    Pack,
    Help,
    Version,
}

#[derive(Clone, Copy)]
struct CommandRow {
    command: Command,
    name: &'static str,
    does: &'static str,
}

const COMMANDS: [CommandRow; 13] = [
    CommandRow {
        command: Command::Seal,
        name: "seal",
        does: "seals a text, and writes a card",
    },
    CommandRow {
        command: Command::Open,
        name: "open",
        does: "opens a card, if its tag is right",
    },
    CommandRow {
        command: Command::Check,
        name: "check",
        does: "says whether a card opens, and writes nothing",
    },
    CommandRow {
        command: Command::Encipher,
        name: "encipher",
        does: "enciphers a wide block, such as a recording",
    },
    CommandRow {
        command: Command::Decipher,
        name: "decipher",
        does: "deciphers it",
    },
    CommandRow {
        command: Command::Digest,
        name: "digest",
        does: "takes a BLAKE2b digest",
    },
    CommandRow {
        command: Command::Start,
        name: "start",
        does: "makes a drawer of nonces",
    },
    CommandRow {
        command: Command::Draw,
        name: "draw",
        does: "takes a nonce from it",
    },
    CommandRow {
        command: Command::Show,
        name: "show",
        does: "shows what a drawer holds, or the parts of a card",
    },
    CommandRow {
        command: Command::Book,
        name: "book",
        does: "makes a key book",
    },
    CommandRow {
        command: Command::Classes,
        name: "classes",
        does: "lists the classes of a key book",
    },
    CommandRow {
        command: Command::Pack,
        name: "pack",
        does: "shows the cards of a lesson pack",
    },
    CommandRow {
        command: Command::Help,
        name: "help",
        does: "tells more: cards help COMMAND, with examples",
    },
];

// The command that a word names: one of the table, or one of the usual words for help and version.
pub(crate) fn of_word(word: &[u8]) -> Option<Command> {
    match word {
        b"--help" | b"-h" => Some(Command::Help),
        b"--version" => Some(Command::Version),
        _ => COMMANDS
            .iter()
            .find(|row| row.name.as_bytes() == word)
            .map(|row| row.command),
    }
}

// The name of a command that has options.
pub(crate) fn name(command: Command) -> Option<&'static str> {
    match command {
        Command::Help | Command::Version => None,
        _ => COMMANDS.get(command as usize).map(|row| row.name),
    }
}

// A line for each command, as `cards help` prints it.
pub(crate) fn lines() -> Text {
    let mut t = Text::new();
    for row in COMMANDS {
        let _ = write!(t, "  cards {:<10}{}\n", row.name, row.does);
    }
    t
}
