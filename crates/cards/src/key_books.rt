// book and classes: a key book is made of entries, and its classes are listed.
ghost use Rattle.std.specs.Prelude.{◌≤◌};

use crate::options::{Opt, Options};
use crate::refusal::{Refusal, What, Why};
use crate::system::System;
use crate::text::Text;
use crate::{inputs, keys, outputs, refusal, rooms};
use std::fmt::Write;
use std::io::Print;
use words::Block;

// The entries that have been bound: how many, the last one's class, and the room of the book, whose front they fill.
#[derive(Drop)]
struct Bound<'a> {
    count: u16,
    last: Option<u16>,
    room: &'a mut [u8],
}

impl<'a> Bound<'a> {
    // What is wrong with the class of the next entry, or the class.
    fn class_of(&self, word: &[u8]) -> Result<u16, Why> {
        let number = decimal::number(word).ok_or(Why::BadClass)?;
        let class = u16::try_from(number).map_err(|_| Why::BadClass)?;
        if self.last.is_some_and(|last| class <= last) {
            return Err(Why::NotRising);
        }
        if self.count == 65535 {
            return Err(Why::TooMany);
        }
        Ok(class)
    }

    fn bind(&mut self, class: u16, key: [u8; 16]) {
        let end = self.len();
        words::store(self.room, end, 2, Block::from(u64::from(class)));
        words::store(self.room, end + 2, 16, words::load(&key, 0, 16));
        self.count = self.count.saturating_add(1);
        self.last = Some(class);
    }

    // Binds all entries: words by turns of a class and a key.
    fn bind_all(&mut self, entries: &[u8]) -> Result<(), Why> {
        let mut class = None;
        for word in entries
            .split(|b| is_blank(*b))
            .filter(|word| !word.is_empty())
        {
            class = match class {
                None => Some(self.class_of(word)?),
                Some(class) => {
                    self.bind(class, key_of(word)?);
                    None
                }
            };
        }
        match class {
            None => Ok(()),
            Some(_) => Err(Why::BadKey),
        }
    }

    // How long the book is: its count in two bytes, and 18 for each entry.
    fn len(&self) -> usize
        ensures { result ≤ 1179632 }
    {
        2 + 18 * usize::from(self.count)
    }
}

// A key of 32 digits.
fn key_of(word: &[u8]) -> Result<[u8; 16], Why> {
    let mut key = [0u8; 16];
    let h = hexadecimal::take_in(hexadecimal::begin(), word, &mut key);
    if word.len() == 32 && inputs::is_whole(&h) {
        Ok(key)
    } else {
        Err(Why::BadKey)
    }
}

fn is_blank(b: u8) -> bool {
    matches!(b, b' ' | b'\t' | b'\n' | b'\r')
}

#[inline(never)]
pub(crate) fn book(rt: &impl System, o: Options) -> Result<(), Refusal> {
    let mut entries_room: [u8; rooms::TEXT] = rooms::zeros();
    let mut room: [u8; rooms::BOOK] = rooms::zeros();
    let entries = inputs::read(rt, o, Opt::In, &mut entries_room)?;
    if entries.len() == rooms::TEXT {
        let what = What::Library(answers::Refusal::TextLength);
        return Err(refusal::about(Opt::In, what, Some(Why::Text1048576)));
    }
    let n = made(entries, &mut room)?;
    outputs::finish(rt, o, true, rooms::first(&mut room, n))
}

// Makes the book of entries in a room, and answers how long it is.
fn made(entries: &[u8], room: &mut [u8]) -> Result<usize, Refusal> {
    let mut bound = Bound {
        count: 0,
        last: None,
        room,
    };
    if let Err(why) = bound.bind_all(entries) {
        let entry = u64::from(bound.count).saturating_add(1);
        return Err(refusal::of_entry(Some(entry), why));
    }
    if bound.count == 0 {
        return Err(refusal::of_entry(None, Why::NoEntry));
    }
    let count = bound.count;
    words::store(bound.room, 0, 2, Block::from(u64::from(count)));
    Ok(bound.len())
}

#[inline(never)]
pub(crate) fn classes(rt: &impl System, o: Options) -> Result<(), Refusal> {
    let mut room: [u8; rooms::BOOK] = rooms::zeros();
    let book = inputs::read(rt, o, Opt::Book, &mut room)?;
    list(rt, book)
}

// A line for each entry. Whether a book is well formed does not hang on the class that is looked for.
fn list(rt: &impl Print, book: &[u8]) -> Result<(), Refusal> {
    if !keys::is_book(book) {
        let what = What::Library(answers::Refusal::BookForm);
        return Err(refusal::about(Opt::Book, what, None));
    }
    // One text for all lines: a new one for each is filled with zeros, and copied.
    let mut line = Text::new();
    for entry in book.get(2..).unwrap_or(&[]).chunks(18) {
        let class = words::two(entry, 0);
        line.clear();
        let _ = write!(line, "{class}\n");
        outputs::printed(rt.write_all(line.as_bytes()))?;
    }
    Ok(())
}
