// What C is handed by value: a number, which is 0 or the refusal's, and what goes beside it.
ghost use Rattle.std.specs.Prelude.{◌≡◌};
ghost use Rattle.answers.specs.Told.{told};
ghost use Rattle.chacha.specs.Entry.{next_of as counter_of};
ghost use Rattle.drawer.specs.Drawn.{bytes_of, next_of as drawer_after};
ghost use Rattle.drawer_file.specs.Loaded.{told as told_loaded, drawer_of};
ghost use Rattle.batch.specs.Next.{next_of as drawer_behind};
ghost use Rattle.books.specs.Found.{book_of, offset_of};
ghost use Rattle.pack.specs.Reader.{told as told_read, said, verdict};
ghost use Rattle.vespruldo.specs.Told.{in_words, judged_in_words};

use answers::{Refusal, told};
use books::Term;
use drawer::Drawer;
use drawer_file::Damaged;
use pack::{Bad, Card, Rejected};

// Where a key stream stopped, the counter to go on with, which may be 2^32; with a refusal its start.
#[repr(C)]
#[derive(Clone, Copy)]
pub struct Streamed {
    pub number: u32,
    pub next: u64,
}

impl Streamed {
    pub(crate) fn of(answer: Result<u64, Refusal>, start: u64) -> Streamed
        ensures { result ≡ record { number = told answer; next = counter_of start answer } }
    {
        Streamed {
            number: told(&answer),
            next: answer.unwrap_or(start),
        }
    }
}

// The bytes of a nonce, and the drawer for the next draw; with a refusal zeros, and the drawer as it was.
#[repr(C)]
#[derive(Clone, Copy)]
pub struct Drawn {
    pub number: u32,
    pub bytes: [u8; 12],
    pub next: Drawer,
}

impl Drawn {
    pub(crate) fn of(answer: Result<drawer::Drawn<12>, Refusal>, d: Drawer) -> Drawn
        ensures { result
            ≡ record { number = told answer; bytes = bytes_of 12 answer; next = drawer_after 12 d answer } }
    {
        let none = drawer::Drawn {
            bytes: [0; 12],
            next: d,
        };
        let drawn = answer.unwrap_or(none);
        let bytes = drawn.bytes;
        Drawn {
            number: told(&answer),
            bytes,
            next: drawn.next,
        }
    }
}

// The same of an iv: the struct of an exported function has no const parameter.
#[repr(C)]
#[derive(Clone, Copy)]
pub struct DrawnIv {
    pub number: u32,
    pub bytes: [u8; 48],
    pub next: Drawer,
}

impl DrawnIv {
    pub(crate) fn of(answer: Result<drawer::Drawn<48>, Refusal>, d: Drawer) -> DrawnIv
        ensures { result
            ≡ record { number = told answer; bytes = bytes_of 48 answer; next = drawer_after 48 d answer } }
    {
        let none = drawer::Drawn {
            bytes: [0; 48],
            next: d,
        };
        let drawn = answer.unwrap_or(none);
        let bytes = drawn.bytes;
        DrawnIv {
            number: told(&answer),
            bytes,
            next: drawn.next,
        }
    }
}

// The bytes of a drawer file.
#[repr(C)]
#[derive(Clone, Copy)]
pub struct Stored {
    pub bytes: [u8; 44],
}

// The drawer of a file; with a refusal one of reader 0 with nothing left to draw.
#[repr(C)]
#[derive(Clone, Copy)]
pub struct Loaded {
    pub number: u32,
    pub drawer: Drawer,
}

impl Loaded {
    pub(crate) fn of(answer: Result<Drawer, Damaged>) -> Loaded
        ensures { result ≡ record { number = told_loaded answer; drawer = drawer_of answer } }
    {
        match answer {
            Ok(drawer) => Loaded { number: 0, drawer },
            Err(damaged) => Loaded {
                number: damaged.number(),
                drawer: drawer::start(0, u64::MAX),
            },
        }
    }
}

// The drawer for the next draw after a batch; with a refusal as it was.
#[repr(C)]
#[derive(Clone, Copy)]
pub struct Batch {
    pub number: u32,
    pub next: Drawer,
}

impl Batch {
    pub(crate) fn of(answer: Result<Drawer, Refusal>, d: Drawer) -> Batch
        ensures { result ≡ record { number = told answer; next = drawer_behind d answer } }
    {
        Batch {
            number: told(&answer),
            next: answer.unwrap_or(d),
        }
    }
}

// Where a key lies: the book (0 this term's, 1 last term's) and the offset in it; with a refusal book 0 and offset 0.
#[repr(C)]
#[derive(Clone, Copy)]
pub struct Found {
    pub number: u32,
    pub book: u32,
    pub offset: usize,
}

impl Found {
    pub(crate) fn of(answer: Result<books::Found, Refusal>) -> Found
        ensures { result ≡ record { number = told answer; book = book_of answer; offset = offset_of answer } }
    {
        match answer {
            Ok(found) => Found {
                number: 0,
                // `edges` tells a book so too: a public function with a promise of its own would be no plainer.
                book: match found.book {
                    Term::This => 0,
                    Term::Last => 1,
                },
                offset: found.offset,
            },
            Err(why) => Found {
                number: why.number(),
                book: 0,
                offset: 0,
            },
        }
    }
}

// An answer of a pack's reader: 1 for a word, 2 for a song, 3 for a shuffle, 0 for no card; the start and the length of
// its bytes; the place of the entry at which a shuffle is bad; the reader's place after it.
#[repr(C)]
#[derive(Clone, Copy)]
pub struct PackCard {
    pub number: u32,
    pub kind: u32,
    pub start: usize,
    pub length: usize,
    pub bad: usize,
    pub next: usize,
}

impl PackCard {
    pub(crate) fn of(read: (Result<Option<Card>, Bad>, usize)) -> PackCard
        ensures { in_words result ≡ told_read (record { card = said read.0; next = read.1 }) }
    {
        let (answer, next) = read;
        let none = PackCard {
            number: 0,
            kind: 0,
            start: 0,
            length: 0,
            bad: 0,
            next,
        };
        match answer {
            Ok(Some(card)) => PackCard {
                kind: card.kind.number(),
                start: card.start,
                length: card.length,
                ..none
            },
            Ok(None) => none,
            Err(bad) => PackCard {
                number: bad.refusal().number(),
                bad: bad.entry(),
                ..none
            },
        }
    }
}

// What a pack is as a whole: how many cards are given before what is refused; the place of the entry at which the
// shuffle is bad.
#[repr(C)]
#[derive(Clone, Copy)]
pub struct PackJudged {
    pub number: u32,
    pub cards: usize,
    pub bad: usize,
}

impl PackJudged {
    pub(crate) fn of(answer: Result<usize, Rejected>) -> PackJudged
        ensures { judged_in_words result ≡ verdict answer }
    {
        match answer {
            Ok(cards) => PackJudged {
                number: 0,
                cards,
                bad: 0,
            },
            Err(rejected) => PackJudged {
                number: rejected.why.refusal().number(),
                cards: rejected.cards,
                bad: rejected.why.entry(),
            },
        }
    }
}
