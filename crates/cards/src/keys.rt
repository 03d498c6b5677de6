// A key from its own file, or that of a class from key books.
use crate::options::{Opt, Options};
use crate::refusal::{Refusal, What};
use crate::system::System;
use crate::{inputs, refusal, rooms};

pub(crate) fn read<'a>(
    rt: &impl System,
    o: Options,
    room: &'a mut [u8],
) -> Result<&'a mut [u8], Refusal> {
    if o.given(Opt::Key) {
        return inputs::read(rt, o, Opt::Key, room);
    }
    from_books(rt, o, room)
}

// Where last term's book is not named, one with no entry stands for it.
#[inline(never)]
fn from_books<'a>(
    rt: &impl System,
    o: Options,
    room: &'a mut [u8],
) -> Result<&'a mut [u8], Refusal> {
    let mut this_room: [u8; rooms::BOOK] = rooms::zeros();
    let mut last_room: [u8; rooms::BOOK] = rooms::zeros();
    let this_term = inputs::read(rt, o, Opt::Book, &mut this_room)?;
    let last_term: &[u8] = match inputs::read_given(rt, o, Opt::LastBook, &mut last_room)? {
        Some(book) => book,
        None => &EMPTY_BOOK,
    };
    let class = inputs::number(rt, o, Opt::Class).unwrap_or(0) % 65536;
    let key = looked_up(this_term, last_term, class as u16)?;
    Ok(rooms::holding(room, key))
}

// A key book with no entry: its count alone, in two bytes.
pub(crate) const EMPTY_BOOK: [u8; 2] = [0, 0];

fn looked_up<'a>(
    this_term: &'a [u8],
    last_term: &'a [u8],
    class: u16,
) -> Result<&'a [u8], Refusal> {
    books::find(this_term, last_term, class).map_err(|why| {
        let option = match why {
            answers::Refusal::ClassMissing => Opt::Class,
            _ => bad_book(this_term),
        };
        refusal::about(option, What::Library(why), None)
    })?;
    Ok(books::part(this_term, last_term, class))
}

// Of two books of which one is badly formed, this term's if it is that one.
fn bad_book(this_term: &[u8]) -> Opt {
    if is_book(this_term) {
        Opt::LastBook
    } else {
        Opt::Book
    }
}

// Whether a key book is well formed: then no class, or that of an entry, is found in it beside one with no entry.
pub(crate) fn is_book(book: &[u8]) -> bool {
    !matches!(
        books::find(book, &EMPTY_BOOK, 0),
        Err(answers::Refusal::BookForm)
    )
}
