// Outputs: standard output, or a file that is written beside its place and then takes it.
ghost use Rattle.std.specs.Prelude.{◌≤◌, length};

use crate::files::{Kind, Status};
use crate::names::Scratch;
use crate::options::{INPUTS, Opt, Options};
use crate::refusal::{NO_SUCH_FILE, Refusal, What, Why};
use crate::system::System;
use crate::text::Text;
use crate::{drawers, files, names, refusal, text};
use std::fs::{OpenFile, Permissions};
use std::io::{Error, ErrorKind, Print, Write};
use std::os::unix::fs::PermissionsExt;
use std::rt::{Env, Files};

// What the output is written to.
#[derive(Drop)]
pub(crate) enum Target<F> {
    Standard,
    File(Made<F>),
}

// A file that is to take a place, and what is there now.
#[derive(Drop)]
pub(crate) struct Made<F> {
    pub place: Place,
    pub scratch: Scratch<F>,
}

// Nothing, or a file that is replaced, whose rights are kept where they are known.
#[derive(Clone, Copy)]
pub(crate) enum Place {
    Free,
    Taken(Option<Status>),
}

// Sees that the output can be written, and writes the bytes; a private one nobody else can read.
pub(crate) fn finish(
    rt: &impl System,
    o: Options,
    private: bool,
    bytes: &[u8],
) -> Result<(), Refusal> {
    let target = claim(rt, o, private)?;
    write(rt, target, o, bytes)
}

// Where the system did not write or make a file.
pub(crate) fn not_written(option: Opt, e: Error) -> Refusal {
    refusal::by_system(option, What::NotWritten, e)
}

fn is_standard(rt: &impl Env, o: Options) -> bool {
    !o.given(Opt::Out) || o.is_dash(rt, Opt::Out)
}

// Makes the file that is to take the output's place, unless that is there and --force does not ask for it.
pub(crate) fn claim<R: System>(
    rt: &R,
    o: Options,
    private: bool,
) -> Result<Target<R::File>, Refusal> {
    if is_standard(rt, o) {
        return Ok(Target::Standard);
    }
    Ok(Target::File(claim_name(rt, o, Opt::Out, private)?))
}

pub(crate) fn claim_name<R: System>(
    rt: &R,
    o: Options,
    option: Opt,
    private: bool,
) -> Result<Made<R::File>, Refusal> {
    let name = o.word_of(rt, option);
    let why = match files::led_to(rt, name, false) {
        Ok(s) => return over(rt, o, option, name, private, s),
        Err(e) => Why::from(e),
    };
    if name.is_empty() || why != Why::System(NO_SUCH_FILE) {
        return Err(refusal::about(option, What::NotWritten, Some(why)));
    }
    made_for(rt, option, name, private, Place::Free)
}

fn made_for<R: System>(
    rt: &R,
    option: Opt,
    name: Text,
    private: bool,
    place: Place,
) -> Result<Made<R::File>, Refusal> {
    let scratch = names::new_scratch(rt, name, private).map_err(|e| not_written(option, e))?;
    Ok(Made { place, scratch })
}

// Over what is there. An empty file may be what a killed run left, and gives no rights to keys.
fn over<R: System>(
    rt: &R,
    o: Options,
    option: Opt,
    name: Text,
    private: bool,
    s: Status,
) -> Result<Made<R::File>, Refusal> {
    let why = kept_for(rt, name, s.kind);
    let replaceable = why.is_none() && option.is_stream();
    if !o.given(Opt::Force) {
        let force_helps = replaceable && !is_read(rt, o, name);
        let why = force_helps.then_some(Why::ForceHelps);
        return Err(refusal::about(option, What::Exists, why));
    }
    if !replaceable {
        return Err(refusal::about(option, What::NotWritten, why));
    }
    let rights = if private && s.empty { None } else { Some(s) };
    made_for(rt, option, name, true, Place::Taken(rights))
}

// Whether the name leads to a file that is read as key, book, nonce, iv or data.
pub(crate) fn is_read<R: Env + Files>(rt: &R, o: Options, name: Text) -> bool {
    INPUTS.iter().any(|option| {
        *option != Opt::In && o.given(*option) && names::same_file(rt, name, source(rt, o, *option))
    })
}

// The name of what is read: that of standard input leads to what stands for it.
fn source(rt: &impl Env, o: Options, option: Opt) -> Text {
    if o.is_dash(rt, option) {
        return text::of(b"/dev/stdin");
    }
    o.word_of(rt, option)
}

// Why a file is not replaced, if it is not: it is none, it cannot be written, or it is a drawer, whose numbers could be
// drawn again.
fn kept_for(rt: &impl Files, name: Text, kind: Kind) -> Option<Why> {
    if kind != Kind::Regular {
        return kind.kept();
    }
    match names::open_update(rt, name) {
        Ok(mut file) => drawers::kept_in(&mut file).map(|_| Why::DrawerFile),
        Err(e) => Some(Why::from(e)),
    }
}

// Removes what was to take the output's place.
pub(crate) fn release<F: Drop>(rt: &impl Files, target: Target<F>) {
    if let Target::File(made) = target {
        let Scratch { file, name } = made.scratch;
        drop(file);
        names::unlink(rt, name);
    }
}

// Writes the output.
pub(crate) fn write<R: System>(
    rt: &R,
    target: Target<R::File>,
    o: Options,
    bytes: &[u8],
) -> Result<(), Refusal> {
    match target {
        Target::Standard => printed(sent(o, Opt::Out, &mut std::io::writer(rt), bytes)),
        Target::File(made) => write_file(rt, o, Opt::Out, made, bytes),
    }
}

// What is refused where standard output did not take it all.
pub(crate) fn printed(sent: Result<(), Error>) -> Result<(), Refusal> {
    sent.map_err(|e| not_written(Opt::Out, e))
}

// Writes a text to standard output.
pub(crate) fn said(rt: &impl Print, t: Text) -> Result<(), Refusal> {
    printed(rt.write_all(t.as_bytes()))
}

// Writes the file that the option names. That its folder is on the disk too is not waited for where it cannot be.
pub(crate) fn write_file<R: System>(
    rt: &R,
    o: Options,
    option: Opt,
    made: Made<R::File>,
    bytes: &[u8],
) -> Result<(), Refusal> {
    let name = o.word_of(rt, option);
    let beside = made.scratch.name;
    let placed = put_in_place(rt, o, option, made, bytes);
    if placed.is_err() {
        names::unlink(rt, beside);
        return placed;
    }
    let _ = names::synced(rt, name);
    Ok(())
}

// Fills the file, and gives it the name that the option names. A name that is free is first taken by an empty file: so
// nothing is replaced that somebody else makes at that moment.
pub(crate) fn put_in_place<R: System>(
    rt: &R,
    o: Options,
    option: Opt,
    made: Made<R::File>,
    bytes: &[u8],
) -> Result<(), Refusal> {
    let Made { place, scratch } = made;
    filled(rt, o, option, scratch.file, place, bytes)?;
    let name = o.word_of(rt, option);
    let free = matches!(place, Place::Free);
    if free {
        taken(rt, option, name)?;
    }
    let renamed = names::rename(rt, scratch.name, name);
    if free && renamed.is_err() {
        names::unlink(rt, name);
    }
    renamed.map_err(|e| not_written(option, e))
}

fn taken(rt: &impl Files, option: Opt, name: Text) -> Result<(), Refusal> {
    match names::create(rt, name) {
        Ok(_) => Ok(()),
        Err(e) if e.kind() == ErrorKind::AlreadyExists => {
            Err(refusal::about(option, What::Exists, None))
        }
        Err(e) => Err(not_written(option, e)),
    }
}

// Writes all to a file, gives it the rights of the one that it replaces, waits until it is on the disk, and closes it.
fn filled<R: System>(
    rt: &R,
    o: Options,
    option: Opt,
    mut file: R::File,
    place: Place,
    bytes: &[u8],
) -> Result<(), Refusal> {
    sent(o, option, &mut file, bytes).map_err(|e| not_written(option, e))?;
    if let Place::Taken(Some(s)) = place {
        if !rights_set(rt, &file, s) {
            return Err(refusal::about(option, What::NotWritten, Some(Why::Rights)));
        }
    }
    file.sync_all().map_err(|e| not_written(option, e))
}

// The group is kept, or nothing is: its rights would go to another. Of the owner only root can keep another's.
fn rights_set<R: System>(rt: &R, file: &R::File, s: Status) -> bool {
    let kept = rt.give(file, Some(s.owner), s.group).is_ok()
        || rt.give(file, None, s.group).is_ok();
    kept && file
        .set_permissions(Permissions::from_mode(s.mode % 512))
        .is_ok()
}

fn sent<W: Write>(o: Options, option: Opt, to: &mut W, bytes: &[u8]) -> Result<(), Error> {
    if o.in_hex(option) {
        return sent_in_hex(to, bytes);
    }
    to.write_all(bytes)
}

// One line, in pieces of 4096 digits.
pub(crate) fn sent_in_hex<W: Write>(to: &mut W, bytes: &[u8]) -> Result<(), Error> {
    for piece in bytes.chunks(2048) {
        piece_sent(to, piece)?;
    }
    to.write_all(b"\n")
}

fn piece_sent<W: Write>(to: &mut W, piece: &[u8]) -> Result<(), Error>
    requires { length piece.now ≤ 2048 }
{
    let mut digits = io::buffer();
    let _ = hexadecimal::spell(piece, &mut digits); // all digits have room
    to.write_all(&digits[..2 * piece.len()])
}
