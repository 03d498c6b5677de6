// The office's tool: docs/cards.1 says what it does. It is thin: what matters is promised by the libraries below it,
// and here inputs are read, outputs written and refusals put into words. The crate office hands its number on, and
// cards_run is the program.
// rt and o stay two parameters side by side: each function bounds what it asks of the system, as Env and no more, which
// a struct of both would hide. `as`, in all modules: a number that is proved to fit, or the place of an enum's name in
// its table, so that `try_from` would add an error that cannot come.
#![tactic(auto)]

ghost use Rattle.std.specs.Prelude.{◌<◌};

use commands::Command;
use options::Options;
use parse::Parsed;
use refusal::Refusal;
use std::fs;
use std::io::IsTerminal;
pub use system::System;

mod commands; // commands.rt: the commands' table
mod digests; // digests.rt: digest
mod drawers; // drawers.rt: the drawer file, start and draw
mod files; // files.rt: what a name leads to
mod help; // help.rt
mod inputs; // inputs.rt: files and standard input, raw or in hex
mod key_books; // key_books.rt: book and classes
mod keys; // keys.rt: a key from its file or from key books
mod names; // names.rt: files by name
mod options; // options.rt: the options' table, and which are given
mod outputs; // outputs.rt: files written beside and renamed, and standard output
mod packs; // packs.rt: pack
mod parse; // parse.rt: the command line
mod refusal; // refusal.rt: what was refused, and its line
mod rooms; // rooms.rt: the rooms for inputs and outputs
mod rules; // rules.rt: which options go together
mod sealing; // sealing.rt: seal, open and check
mod shows; // shows.rt: show
mod system; // system.rt: what is asked of the system
mod text; // text.rt: names and lines by value
mod wide; // wide.rt: encipher and decipher

// Does what the command line asks for. Answers 0 if that is done, or else the refusal's number, as an exit status: it
// is below 256, so that none but 0 looks like 0. out is standard output.
pub fn run<R: System, T: IsTerminal>(rt: &R, out: &T) -> u32
    ensures { result < 256 }
{
    fill_closed(rt);
    let mut p = Parsed::new();
    let answer = outcome(rt, out, &mut p);
    refusal::last_line(rt, answer, p);
    match answer {
        Ok(()) => 0,
        Err(r) => refusal::status(r.what.number()),
    }
}

// A file that is opened takes the lowest number that is free. So that none takes the place of a standard stream that
// is closed, that place is filled with what can neither be read nor written.
fn fill_closed<R: System>(rt: &R) {
    for _ in 0..3 {
        let Ok(file) = fs::open(rt, "/") else {
            return;
        };
        if !rt.kept_as_standard(file) {
            return;
        }
    }
}

fn outcome<R: System, T: IsTerminal>(rt: &R, out: &T, p: &mut Parsed) -> Result<(), Refusal> {
    if let Err(bad) = p.read(rt) {
        help::without_command(options::word_count(rt));
        return Err(bad);
    }
    if p.help {
        return help::of(rt, p.command);
    }
    rules::judged(rt, out, p.command, p.options)?;
    done_by(rt, p.command, p.options)
}

fn done_by(rt: &impl System, command: Command, o: Options) -> Result<(), Refusal> {
    // A match, here and in the other modules: each arm is another function, and a table of them would be no plainer.
    match command {
        Command::Seal => sealing::seal(rt, o),
        Command::Open => sealing::open(rt, o, true),
        Command::Check => sealing::open(rt, o, false),
        Command::Encipher => wide::encipher(rt, o),
        Command::Decipher => wide::decipher(rt, o),
        Command::Digest => digests::digest(rt, o),
        Command::Start => drawers::start(rt, o),
        Command::Draw => drawers::draw(rt, o),
        Command::Show => shows::show(rt, o),
        Command::Book => key_books::book(rt, o),
        Command::Classes => key_books::classes(rt, o),
        Command::Pack => packs::pack(rt, o),
        Command::Help | Command::Version => help::of(rt, command),
    }
}

// The number of standard error, which takes bytes that are no text.
pub(crate) const STANDARD_ERROR: i32 = 2;
