// The drawer file: its state is replaced before the number that it gave is used, and while that is under way a folder
// beside it keeps every other `cards` from drawing.
use crate::files::{Kind, Status};
use crate::names::Scratch;
use crate::options::{Opt, Options};
use crate::outputs::{Made, Place, Target};
use crate::refusal::{Refusal, What, Why};
use crate::system::System;
use crate::text::Text;
use crate::{files, inputs, names, outputs, refusal, rooms, text};
use drawer::{Drawer, Drawn};
use std::io::{Error, ErrorKind, Read, Seek, SeekFrom};
use std::rt::{Env, Files};

// The drawer, and the file in the folder beside it, open for its next state.
#[derive(Drop)]
pub(crate) struct Held<F> {
    pub drawer: Drawer,
    pub file: F,
}

// Makes a drawer file.
pub(crate) fn start(rt: &impl System, o: Options) -> Result<(), Refusal> {
    let reader = reader_of(rt, o)?;
    let count = inputs::number(rt, o, Opt::Count).unwrap_or(0);
    let made = outputs::claim_name(rt, o, Opt::Drawer, false)?;
    started(rt, made, o, drawer::start(reader, count))
}

// The number that is given, or one from the system's random source.
fn reader_of(rt: &impl System, o: Options) -> Result<u32, Refusal> {
    if o.given(Opt::Reader) {
        let reader = inputs::number(rt, o, Opt::Reader).unwrap_or(0);
        return Ok((reader % 4294967296) as u32);
    }
    let mut random = [0u8; 4];
    rt.fill_bytes(&mut random).map_err(|_| refusal::about(
        Opt::Reader,
        What::NotRead,
        Some(Why::Random),
    ))?;
    Ok(u32::from_le_bytes(random))
}

// A number that nobody gave is said when the drawer is there, and the drawer removed if that fails.
fn started<R: System>(rt: &R, made: Made<R::File>, o: Options, d: Drawer) -> Result<(), Refusal> {
    outputs::write_file(rt, o, Opt::Drawer, made, &drawer_file::store(d))?;
    let said = reader_said(rt, o, d.reader);
    if said.is_err() {
        names::unlink(rt, o.word_of(rt, Opt::Drawer));
    }
    said
}

fn reader_said(rt: &impl System, o: Options, reader: u32) -> Result<(), Refusal> {
    if o.given(Opt::Reader) {
        return Ok(());
    }
    outputs::said(rt, text::formatted(format_args!("reader {reader}\n")))
}

// Draws a number and writes it.
pub(crate) fn draw(rt: &impl System, o: Options) -> Result<(), Refusal> {
    let h = take(rt, o)?;
    let mut nonce = [0u8; 12];
    let made = made_under(drawer::draw(h.drawer), |drawn| {
        rooms::holding(&mut nonce, drawn);
        Ok(())
    });
    spend(rt, o.printed(), h.file, made, &nonce)
}

// Makes an output under a nonce or an iv that is drawn, and answers the drawer's next state. What is wrong with the
// inputs is refused before that the drawer is spent: so where it is, they are tried under zeros first.
pub(crate) fn made_under<const N: usize, F: FnOnce(&[u8]) -> Result<(), Refusal>>(
    drawn: Result<Drawn<N>, answers::Refusal>,
    makes: F,
) -> Result<Drawer, Refusal>
    requires { F.IsAlwaysCallable makes }
{
    match drawn {
        Ok(drawn) => {
            makes(&drawn.bytes)?;
            Ok(drawn.next)
        }
        Err(why) => {
            makes(&[0; N])?;
            Err(spent(why))
        }
    }
}

// What is refused where a draw is.
fn spent(why: answers::Refusal) -> Refusal {
    refusal::about(Opt::Drawer, What::Library(why), None)
}

// Keeps the next state in the file that is held for it, and then writes the output, if it could be made. Where
// something was refused, the drawer stays as it was.
pub(crate) fn spend<R: System>(
    rt: &R,
    o: Options,
    file: R::File,
    made: Result<Drawer, Refusal>,
    bytes: &[u8],
) -> Result<(), Refusal> {
    let (next, target) = match claimed(rt, o, made) {
        Ok(claimed) => claimed,
        Err(bad) => {
            let_go(rt, o, file);
            return Err(bad);
        }
    };
    if let Err(bad) = keep(rt, o, file, next) {
        outputs::release(rt, target);
        return Err(bad);
    }
    outputs::write(rt, target, o, bytes)
}

// The next state, if the output could be made, and what that is written to.
fn claimed<R: System>(
    rt: &R,
    o: Options,
    made: Result<Drawer, Refusal>,
) -> Result<(Drawer, Target<R::File>), Refusal> {
    let next = made?;
    not_in_lock(rt, o)?;
    Ok((next, outputs::claim(rt, o, false)?))
}

// The folder beside the drawer is removed when it is kept, and nothing else may lie in it.
fn not_in_lock<R: Env + Files>(rt: &R, o: Options) -> Result<(), Refusal> {
    let out = o.word_of(rt, Opt::Out);
    if !out.is_empty() && names::same_file(rt, names::folder(out), beside(rt, o)) {
        return Err(refusal::about(Opt::Out, What::NotWritten, Some(Why::DrawersOwn)));
    }
    Ok(())
}

// Takes the drawer: nobody else can until it is kept or let go.
pub(crate) fn take<R: System>(rt: &R, o: Options) -> Result<Held<R::File>, Refusal> {
    let name = o.word_of(rt, Opt::Drawer);
    if let Ok(s) = files::led_to(rt, name, false) {
        alone(s)?;
    }
    let refused = |e: Error| not_locked(rt, o, e);
    names::open_read(rt, names::folder(name)).map_err(refused)?; // what is drawn must be brought to the disk
    files::make_private(rt, beside(rt, o)).map_err(refused)?;
    taken(rt, o, name)
}

// A new state would take a symbolic link's place, or that of one of two names, and leave the old state under the other,
// to be drawn from again.
fn alone(s: Status) -> Result<(), Refusal> {
    let why = match s.kind {
        Kind::Link => Why::Link,
        Kind::Regular if s.links > 1 => Why::TwoNames,
        _ => return Ok(()),
    };
    Err(damaged(Some(why)))
}

// Of a drawer's file that holds no drawer, or not it alone.
pub(crate) fn damaged(why: Option<Why>) -> Refusal {
    refusal::about(Opt::Drawer, What::Damaged, why)
}

fn taken<R: System>(rt: &R, o: Options, name: Text) -> Result<Held<R::File>, Refusal> {
    let file = match names::create(rt, state(rt, o)) {
        Ok(file) => file,
        Err(e) => {
            names::rmdir(rt, beside(rt, o));
            return Err(outputs::not_written(Opt::Drawer, e));
        }
    };
    match opened(rt, name) {
        Ok(drawer) => Ok(Held { drawer, file }),
        Err(bad) => {
            let_go(rt, o, file);
            Err(bad)
        }
    }
}

fn not_locked<R: Env + Files>(rt: &R, o: Options, e: Error) -> Refusal {
    match e.kind() {
        ErrorKind::AlreadyExists => in_use(rt, o),
        ErrorKind::NotFound | ErrorKind::NotADirectory => {
            refusal::by_system(Opt::Drawer, What::NotRead, e)
        }
        _ => outputs::not_written(Opt::Drawer, e),
    }
}

// Only a folder is another's that draws, and may have gone by now; anything else has the name by chance, and nobody is
// told to remove it.
fn in_use<R: Env + Files>(rt: &R, o: Options) -> Refusal {
    let why = match files::led_to(rt, beside(rt, o), false) {
        Ok(s) if s.kind != Kind::Directory => Why::InTheWay,
        _ => Why::Draws,
    };
    refusal::about(Opt::Drawer, What::InUse, Some(why))
}

fn opened(rt: &impl Files, name: Text) -> Result<Drawer, Refusal> {
    let mut from = names::open_update(rt, name).map_err(|e| not_opened(rt, name, e))?;
    kept_in(&mut from).ok_or(damaged(None))
}

// A drawer that can be read, as another user's, cannot be written.
fn not_opened(rt: &impl Files, name: Text, e: Error) -> Refusal {
    let what = if is_read(rt, name) {
        What::NotWritten
    } else {
        What::NotRead
    };
    refusal::by_system(Opt::Drawer, what, e)
}

// Only a regular file is opened: to open a pipe could take forever.
fn is_read(rt: &impl Files, name: Text) -> bool {
    match files::led_to(rt, name, true) {
        Ok(s) => s.kind == Kind::Regular && names::open_read(rt, name).is_ok(),
        Err(_) => false,
    }
}

// The drawer in an open file. What has no places, as a pipe, is none, and reading it could take forever.
pub(crate) fn kept_in<F: Read + Seek>(from: &mut F) -> Option<Drawer> {
    let mut file = [0u8; 45];
    let n = read_start(from, &mut file).unwrap_or(0);
    drawer_file::load(&file[..n.min(45)]).ok()
}

fn read_start<F: Read + Seek>(from: &mut F, room: &mut [u8]) -> Result<usize, Error> {
    from.seek(SeekFrom::End(0))?;
    from.seek(SeekFrom::Start(0))?;
    from.read(room)
}

// The name of the folder that keeps the others out, and that of the next state in it, which nobody else can reach.
pub(crate) fn beside(rt: &impl Env, o: Options) -> Text {
    names::beside(o.word_of(rt, Opt::Drawer), b".next")
}

fn state(rt: &impl Env, o: Options) -> Text {
    beside(rt, o).and(b"/state")
}

// Puts the next state in the drawer's place, with its rights, and waits until that is on the disk.
fn keep<R: System>(rt: &R, o: Options, file: R::File, next: Drawer) -> Result<(), Refusal> {
    let name = o.word_of(rt, Opt::Drawer);
    let from = state(rt, o);
    let made = Made {
        place: Place::Taken(files::led_to(rt, name, false).ok()),
        scratch: Scratch { file, name: from },
    };
    let kept = outputs::put_in_place(rt, o, Opt::Drawer, made, &drawer_file::store(next));
    if kept.is_err() {
        names::unlink(rt, from);
    }
    names::rmdir(rt, beside(rt, o));
    kept?;
    names::synced(rt, name).map_err(|e| outputs::not_written(Opt::Drawer, e))
}

fn let_go<R: System>(rt: &R, o: Options, file: R::File) {
    drop(file);
    names::unlink(rt, state(rt, o));
    names::rmdir(rt, beside(rt, o));
}
