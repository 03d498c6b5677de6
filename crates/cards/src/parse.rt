// The command line, word by word: a command, and options that each name a file, a number or words.
use crate::commands::Command;
use crate::options::{Argument, Opt, Options};
use crate::refusal::{Refusal, Why};
use crate::{commands, options, refusal};
use std::rt::Env;

// What has been read of the command line: the command, whether its help is asked for, the options, the one whose word
// is still to come, and whether `--` has ended them.
#[derive(Clone, Copy)]
pub(crate) struct Parsed {
    pub command: Command,
    pub help: bool,
    pub options: Options,
    waits: Option<Named>,
    ended: bool,
}

// The option that a word of the command line names: at which place of it, whether in hex, and where in the word what
// follows an = sign begins.
#[derive(Clone, Copy)]
struct Named {
    option: Opt,
    place: usize,
    hex: bool,
    from: Option<usize>,
}

impl Parsed {
    pub(crate) fn new() -> Parsed {
        Parsed {
            command: Command::Help,
            help: false,
            options: Options::none(),
            waits: None,
            ended: false,
        }
    }

    // Reads the command line. Where it is refused, what was read before stays.
    pub(crate) fn read(&mut self, rt: &impl Env) -> Result<(), Refusal> {
        let n = options::word_count(rt);
        if n < 2 {
            return Err(refusal::of_command_line(Why::CommandNeeded));
        }
        self.command = command_at(rt, 1)?;
        for place in 2..n {
            self.next(rt, place)?;
        }
        self.nothing_waits()
    }

    // The word at this place: an option, what one waits for, or behind `help` a command.
    fn next(&mut self, rt: &impl Env, place: usize) -> Result<(), Refusal> {
        let too_long = |_| refusal::of_word(place, Why::TooLong);
        let w = options::whole_word(rt, place).map_err(too_long)?;
        match self.command {
            Command::Help => self.helped(rt, place),
            Command::Version => Err(too_many(place)),
            _ => self.option_or_value(place, w.as_bytes()),
        }
    }

    // The command whose help is asked for: one word.
    fn helped(&mut self, rt: &impl Env, place: usize) -> Result<(), Refusal> {
        if place != 2 {
            return Err(too_many(place));
        }
        self.command = command_at(rt, place)?;
        self.help = true;
        self.ended = true;
        Ok(())
    }

    fn option_or_value(&mut self, place: usize, w: &[u8]) -> Result<(), Refusal> {
        if let Some(named) = self.waits {
            if w.starts_with(b"--") {
                return self.nothing_waits();
            }
            self.waits = None;
            self.give(named, place, 0);
            return Ok(());
        }
        if self.ended || !w.starts_with(b"-") {
            return Err(too_many(place));
        }
        match w {
            b"--" => self.ended = true,
            b"--help" | b"-h" => self.help = true,
            _ => self.with_option(place, w)?,
        }
        Ok(())
    }

    // The option whose word is still to come does not get one.
    fn nothing_waits(self) -> Result<(), Refusal> {
        match self.waits {
            Some(named) => Err(refusal::of_word(named.place, Why::NoValue)),
            None => Ok(()),
        }
    }

    fn with_option(&mut self, place: usize, w: &[u8]) -> Result<(), Refusal> {
        let no_such = refusal::of_word(place, Why::NoSuchOption);
        let named = option_of(place, w).ok_or(no_such)?;
        let option = named.option;
        if !option.is_taken(self.command) {
            return Err(no_such);
        }
        if self.options.given(option) {
            return Err(refusal::of_word(place, Why::Twice));
        }
        match named.from {
            Some(_) if !option.has_value() => return Err(no_such),
            Some(from) => self.give(named, place, from),
            None if option.has_value() => self.waits = Some(named),
            None => self.give(named, place, 0),
        }
        Ok(())
    }

    // The option is given by the word at this place, from this byte of it on.
    fn give(&mut self, named: Named, word: usize, from: usize) {
        let hex = named.hex;
        self.options
            .give(named.option, Argument { word, from, hex });
    }
}

fn command_at(rt: &impl Env, place: usize) -> Result<Command, Refusal> {
    let w = options::word(rt, place);
    commands::of_word(w.as_bytes()).ok_or(refusal::of_word(place, Why::NoCommand))
}

// A word that nothing waits for.
fn too_many(place: usize) -> Refusal {
    refusal::of_word(place, Why::WordTooMany)
}

// The option that a word names, up to its = sign if it has one, with -hex behind its name or without.
fn option_of(place: usize, w: &[u8]) -> Option<Named> {
    let sign = w.iter().position(|&b| b == b'=');
    let name = w[..sign.unwrap_or(w.len())].strip_prefix(b"--")?;
    let plain = Opt::named(name);
    let twin = name.strip_suffix(b"-hex").and_then(Opt::named);
    Some(Named {
        option: plain.or(twin.filter(|option| option.is_stream()))?,
        place,
        hex: plain.is_none(),
        from: sign.map(|at| at + 1),
    })
}
