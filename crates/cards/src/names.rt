// What the system does by a file's name, and what a name leads to.
use crate::text::Text;
use crate::{files, text};
use std::fs;
use std::fs::{OpenFile, OpenOptions};
use std::io::{Error, ErrorKind, Result};
use std::os::unix::fs::OpenOptionsExt;
use std::random::RandomSource;
use std::rt::Files;

// A name as the system takes it. The library's names are text, so one that is not UTF-8 leads nowhere: it is refused as
// what cannot be a name, by the error number for that, EINVAL.
pub(crate) fn path(name: &Text) -> Result<&str> {
    str::from_utf8(name.as_bytes()).map_err(|_| Error::from_raw_os_error(22))
}

pub(crate) fn open_read<R: Files>(rt: &R, name: Text) -> Result<R::File> {
    fs::open(rt, path(&name)?)
}

pub(crate) fn open_update<R: Files>(rt: &R, name: Text) -> Result<R::File> {
    OpenOptions::new()
        .read(true)
        .write(true)
        .open(rt, path(&name)?)
}

pub(crate) fn create<R: Files>(rt: &R, name: Text) -> Result<R::File> {
    OpenOptions::new()
        .write(true)
        .create_new(true)
        .open(rt, path(&name)?)
}

pub(crate) fn unlink(rt: &impl Files, name: Text) {
    if let Ok(path) = path(&name) {
        let _ = fs::remove_file(rt, path);
    }
}

pub(crate) fn rename(rt: &impl Files, from: Text, to: Text) -> Result<()> {
    fs::rename(rt, path(&from)?, path(&to)?)
}

pub(crate) fn rmdir(rt: &impl Files, name: Text) {
    if let Ok(path) = path(&name) {
        let _ = fs::remove_dir(rt, path);
    }
}

// Waits until what was made or renamed in the folder of this name is on the disk. A file system that has no such call
// says EINVAL.
pub(crate) fn synced(rt: &impl Files, name: Text) -> Result<()> {
    let folder = open_read(rt, folder(name))?;
    match folder.sync_all() {
        Err(e) if e.kind() == ErrorKind::InvalidInput => Ok(()),
        done => done,
    }
}

// A new file of a name of its own, open for writing.
#[derive(Drop)]
pub(crate) struct Scratch<F> {
    pub file: F,
    pub name: Text,
}

// In the folder of this name, so that it can take its place. A private one nobody else can read, the other has the
// rights that the umask leaves.
pub(crate) fn new_scratch<R: Files + RandomSource>(
    rt: &R,
    beside: Text,
    private: bool,
) -> Result<Scratch<R::File>> {
    let s = private_scratch(rt, folder(beside).and(b"/.cards."))?;
    if private {
        return Ok(s);
    }
    let Scratch { file, name } = s;
    drop(file);
    unlink(rt, name);
    let file = create(rt, name)?;
    Ok(Scratch { file, name })
}

// Six letters and digits at random end its name. While that is taken, others are tried, as often as C's mkstemp does.
fn private_scratch<R: Files + RandomSource>(rt: &R, start: Text) -> Result<Scratch<R::File>> {
    let mut n = random(rt);
    for _ in 0..238328 {
        let name = start.and(&six(n));
        match create_private(rt, name) {
            Ok(file) => return Ok(Scratch { file, name }),
            Err(e) if e.kind() == ErrorKind::AlreadyExists => n = n.wrapping_add(7777),
            Err(e) => return Err(e),
        }
    }
    Err(Error::from_raw_os_error(17)) // EEXIST
}

// Where there is nothing random, names are tried from the first on: none is taken that is there.
fn random(rt: &impl RandomSource) -> u64 {
    let mut bytes = [0u8; 8];
    let _ = rt.fill_bytes(&mut bytes);
    u64::from_le_bytes(bytes)
}

fn six(n: u64) -> [u8; 6] {
    let mut rest = n;
    let mut name = [0u8; 6];
    for b in &mut name {
        *b = letter(rest);
        rest /= 62;
    }
    name
}

fn letter(n: u64) -> u8 {
    let letters = *b"abcdefghijklmnopqrstuvwxyzABCDEFGHIJKLMNOPQRSTUVWXYZ0123456789";
    letters[(n % 62) as usize]
}

fn create_private<R: Files>(rt: &R, name: Text) -> Result<R::File> {
    OpenOptions::new()
        .read(true)
        .write(true)
        .create_new(true)
        .mode(0o600)
        .open(rt, path(&name)?)
}

// Whether two names lead to one file.
pub(crate) fn same_file(rt: &impl Files, a: Text, b: Text) -> bool {
    match (files::led_to(rt, a, true), files::led_to(rt, b, true)) {
        (Ok(s), Ok(t)) => (s.device, s.inode) == (t.device, t.inode),
        _ => false,
    }
}

// Whether two names are one, be there such a file or not: the same in one folder.
pub(crate) fn same_place(rt: &impl Files, a: Text, b: Text) -> bool {
    parts(&a).1 == parts(&b).1 && same_file(rt, folder(a), folder(b))
}

// The folder that a name lies in.
pub(crate) fn folder(name: Text) -> Text {
    match parts(&name) {
        ([], _) => text::of(b"."),
        (folder, _) => text::of(folder),
    }
}

// A name up to its last slash, nothing if it has none, and what it is called in that folder.
fn parts(name: &Text) -> (&[u8], &[u8]) {
    let bytes = name.as_bytes();
    let slash = bytes.iter().rposition(|b| *b == b'/');
    bytes.split_at(slash.map_or(0, |at| at + 1))
}

// The name of the file beside it that has this ending. A name in a folder has at most 255 bytes, so a long one is cut.
pub(crate) fn beside(name: Text, ending: &[u8]) -> Text {
    let (folder, called) = parts(&name);
    text::of(folder).and(shortened(called)).and(ending)
}

// Before a letter that would be cut in two, since the library's names are text.
fn shortened(called: &[u8]) -> &[u8] {
    let end = match str::from_utf8(called) {
        Ok(called) => called.floor_char_boundary(250),
        Err(_) => called.len().min(250),
    };
    &called[..end]
}
