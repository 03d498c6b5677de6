// Looks classes up in each pair of thirteen kinds of book, good and bad. A line has the kinds of this term's book and
// of last term's, the class, the number answered, the part handed back, and the book and the place where it lies.
use super::{STDOUT_FILENO, fill, put_answer, put_bytes, put_numbers};
use books::{Found, Term};
use words::{Block, first};

// A kind of book: the count, how many bytes there are, and the classes of three entries.
#[derive(Clone, Copy)]
struct Kind {
    count: u64,
    len: usize,
    classes: [u64; 3],
}

fn kind_of(count: u64, len: usize, classes: [u64; 3]) -> Kind {
    Kind {
        count,
        len,
        classes,
    }
}

pub(crate) fn keys() {
    let kinds = [
        kind_of(0, 0, [0, 0, 0]),
        kind_of(0, 1, [0, 0, 0]),
        kind_of(0, 2, [0, 0, 0]),
        kind_of(0, 3, [0, 0, 0]),
        kind_of(1, 20, [7, 0, 0]),
        kind_of(1, 19, [7, 0, 0]),
        kind_of(3, 56, [7, 256, 65535]),
        kind_of(3, 56, [7, 7, 300]),
        kind_of(3, 56, [300, 7, 400]),
        kind_of(3, 56, [7, 300, 299]),
        kind_of(3, 56, [0, 8, 256]),
        kind_of(3, 38, [7, 256, 65535]),
        kind_of(2, 56, [7, 256, 65535]),
    ];
    for (i, this_term) in kinds.iter().enumerate() {
        for (j, last_term) in kinds.iter().enumerate() {
            in_books(i, *this_term, j, *last_term);
        }
    }
}

fn in_books(i: usize, this_kind: Kind, j: usize, last_kind: Kind) {
    let this_term = book_of(this_kind, 5);
    let last_term = book_of(last_kind, 6);
    let this_term = first(&this_term, this_kind.len);
    let last_term = first(&last_term, last_kind.len);
    for class in [0, 7, 256, 65535] {
        key(i, j, this_term, last_term, class);
    }
}

fn book_of(kind: Kind, salt: u8) -> [u8; 56] {
    let mut book = [0u8; 56];
    fill(&mut book, usize::from(salt));
    put_two(&mut book, 0, kind.count);
    put_two(&mut book, 2, kind.classes[0]);
    put_two(&mut book, 20, kind.classes[1]);
    put_two(&mut book, 38, kind.classes[2]);
    book
}

fn put_two(book: &mut [u8], at: usize, x: u64) {
    words::store(book, at, 2, Block::from(x));
}

fn key<'a>(i: usize, j: usize, this_term: &'a [u8], last_term: &'a [u8], class: u16) {
    let found = books::find(this_term, last_term, class);
    io::write_all(STDOUT_FILENO, b"key");
    put_numbers(&[i, j, usize::from(class)]);
    put_answer(&found);
    put_bytes(books::part(this_term, last_term, class));
    // Where nothing is found, the start of this term's book is told.
    let place = found.unwrap_or(Found {
        book: Term::This,
        offset: 0,
    });
    let book = match place.book {
        Term::This => 0,
        Term::Last => 1,
    };
    put_numbers(&[book, place.offset]);
    io::write_all(STDOUT_FILENO, b"\n");
}
