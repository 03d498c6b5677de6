// Which options go together, and which words are numbers: what is judged before anything is read.
use crate::commands::Command;
use crate::options::{INPUTS, OPTIONS, Opt, Options};
use crate::refusal::{Refusal, What, Why};
use crate::{drawers, inputs, names, outputs, refusal};
use std::io::IsTerminal;
use std::rt::{Env, Files};

// What is refused first.
pub(crate) fn judged<R: Env + Files>(
    rt: &R,
    out: &impl IsTerminal,
    command: Command,
    o: Options,
) -> Result<(), Refusal> {
    required(command, o)?;
    together(command, o)?;
    numbers(rt, o)?;
    standard_input(rt, command, o)?;
    not_in_drawer(rt, o)?;
    not_over_input(rt, o)?;
    not_to_terminal(out, command, o)
}

// What the table has as needed.
fn required(command: Command, o: Options) -> Result<(), Refusal> {
    for row in OPTIONS {
        if row.is_needed(command) {
            needs(o, row.option)?;
        }
    }
    Ok(())
}

fn together(command: Command, o: Options) -> Result<(), Refusal> {
    match command {
        Command::Seal => {
            for_card(o)?;
            one_of(o, Opt::Drawer, Opt::Nonce)
        }
        Command::Open | Command::Check => for_card(o),
        Command::Encipher => one_of(o, Opt::Drawer, Opt::Iv),
        Command::Show => not_both(o, Opt::Drawer, Opt::In),
        _ => Ok(()),
    }
}

fn for_card(o: Options) -> Result<(), Refusal> {
    one_of(o, Opt::Key, Opt::Book)?;
    with_book(o)?;
    not_both(o, Opt::Data, Opt::Label)
}

// With a book a class is needed, and without one neither that nor last term's book may be there.
fn with_book(o: Options) -> Result<(), Refusal> {
    if o.given(Opt::Book) {
        return needs(o, Opt::Class);
    }
    barred(o, Opt::Class)?;
    barred(o, Opt::LastBook)
}

fn needs(o: Options, option: Opt) -> Result<(), Refusal> {
    refuse(!o.given(option), option, Why::Needed)
}

fn barred(o: Options, option: Opt) -> Result<(), Refusal> {
    refuse(o.given(option), option, Why::NotTogether)
}

fn not_both(o: Options, a: Opt, b: Opt) -> Result<(), Refusal> {
    refuse(o.given(a) && o.given(b), b, Why::NotTogether)
}

fn one_of(o: Options, a: Opt, b: Opt) -> Result<(), Refusal> {
    if !o.given(b) {
        return needs(o, a);
    }
    not_both(o, a, b)
}

// Refuses the command line for this option, if that applies: the tool's refusals are another type than the libraries'.
fn refuse(applies: bool, option: Opt, why: Why) -> Result<(), Refusal> {
    if applies {
        return Err(refusal::about(option, What::CommandLine, Some(why)));
    }
    Ok(())
}

fn numbers(rt: &impl Env, o: Options) -> Result<(), Refusal> {
    number(rt, o, Opt::Class, u64::from(u16::MAX))?;
    number(rt, o, Opt::Reader, u64::from(u32::MAX))?;
    number(rt, o, Opt::Count, u64::MAX)?;
    number(rt, o, Opt::Length, u64::MAX)
}

fn number(rt: &impl Env, o: Options, option: Opt, most: u64) -> Result<(), Refusal> {
    if !o.given(option) {
        return Ok(());
    }
    let bad = inputs::number(rt, o, option).is_none_or(|n| most < n);
    refuse(bad, option, Why::NoNumber)
}

// Standard input is read for one input only.
fn standard_input(rt: &impl Env, command: Command, o: Options) -> Result<(), Refusal> {
    let mut taken = reads_standard(command, o);
    for option in INPUTS {
        if o.is_dash(rt, option) {
            refuse(taken, option, Why::StandardInputTaken)?;
            taken = true;
        }
    }
    Ok(())
}

// Whether standard input is read because no --in names a file. show --drawer reads the drawer alone.
fn reads_standard(command: Command, o: Options) -> bool {
    let shows_drawer = command == Command::Show && o.given(Opt::Drawer);
    Opt::In.is_taken(command) && !o.given(Opt::In) && !shows_drawer
}

// Whether a file is named for the output.
fn has_file(rt: &impl Env, o: Options) -> bool {
    o.given(Opt::Out) && !o.is_dash(rt, Opt::Out)
}

// The output goes neither to the drawer nor to the file beside it, under whatever name.
fn not_in_drawer<R: Env + Files>(rt: &R, o: Options) -> Result<(), Refusal> {
    if !o.given(Opt::Drawer) || !has_file(rt, o) {
        return Ok(());
    }
    let out = o.word_of(rt, Opt::Out);
    let drawer = o.word_of(rt, Opt::Drawer);
    let own = names::same_place(rt, out, drawer)
        || names::same_place(rt, out, drawers::beside(rt, o));
    refuse(own, Opt::Out, Why::DrawersOwn)
}

// Nor does it replace a file that is read, but for that of --in.
fn not_over_input<R: Env + Files>(rt: &R, o: Options) -> Result<(), Refusal> {
    let over = o.given(Opt::Force)
        && has_file(rt, o)
        && outputs::is_read(rt, o, o.word_of(rt, Opt::Out));
    refuse(over, Opt::Out, Why::IsInput)
}

// Nor to a terminal, unless - asks for it: that would show what is sealed as noise, and keys to whoever looks on.
fn not_to_terminal(out: &impl IsTerminal, command: Command, o: Options) -> Result<(), Refusal> {
    if o.given(Opt::Out) || !is_for_machines(command) || !out.is_terminal() {
        return Ok(());
    }
    Err(refusal::about(Opt::Out, What::NotWritten, Some(Why::Terminal)))
}

// Whether nobody could read what the command writes. A wide file that was changed gives noise.
fn is_for_machines(command: Command) -> bool {
    matches!(
        command,
        Command::Seal | Command::Encipher | Command::Decipher | Command::Book
    )
}
