// Key books: the key of a class, in this term's book or else in last term's.
#![tactic(auto)]

ghost use Rattle.std.specs.Prelude.{◌≡◌, cond, eqb, Some, None};
ghost use Rattle.words.specs.Lent.{lent};
ghost use Rattle.answers.specs.Told.{told};
ghost use Rattle.answers.specs.Answers.{number_of};
ghost use Rattle.books.specs.Books.{count, class, key_place, well_formed, entry, holds};
ghost use Rattle.books.specs.Entry.{badly_formed, Finding, HandedBack};
ghost use Rattle.books.specs.Found.{number_of_book, book_of, offset_of};

use answers::{Refusal, refuse};

// The term whose book it is.
#[derive(Clone, Copy)]
pub enum Term {
    This,
    Last,
}

impl Term {
    // Its book, of the two.
    fn pick<'a>(self, this_term: &'a [u8], last_term: &'a [u8]) -> &'a [u8]
        ensures { lent result ≡ cond (eqb (number_of_book self) 0) (lent this_term.entry)
            (lent last_term.entry) }
    {
        match self {
            Term::This => this_term,
            Term::Last => last_term,
        }
    }
}

// Where a key lies: the book, and the offset in it.
#[derive(Clone, Copy)]
pub struct Found {
    pub book: Term,
    pub offset: usize,
}

// The key's 16 bytes where they lie in the book that `find` names, themselves and no copy; if it is refused, an
// empty part at the start of this term's book.
pub fn part<'a>(this_term: &'a [u8], last_term: &'a [u8], class: u16) -> &'a [u8]
    ensures { HandedBack result this_term.entry last_term.entry class }
{
    // Both books are lent one by one, as C lends them.
    match find(this_term, last_term, class) {
        Ok(found) => {
            let book = found.book.pick(this_term, last_term);
            &book[found.offset..found.offset + 16]
        }
        Err(_) => &this_term[..0],
    }
}

// Where the key of the class lies. Both books are judged before either is searched.
pub fn find(this_term: &[u8], last_term: &[u8], class: u16) -> Result<Found, Refusal>
    ensures { Finding (told result) this_term.now last_term.now class (book_of result)
        (offset_of result) }
{
    judge(this_term, last_term)?;
    if let Some(offset) = key_in(this_term, class) {
        return Ok(Found {
            book: Term::This,
            offset,
        });
    }
    let offset = key_in(last_term, class).ok_or(Refusal::ClassMissing)?;
    Ok(Found {
        book: Term::Last,
        offset,
    })
}

fn judge(this_term: &[u8], last_term: &[u8]) -> Result<(), Refusal>
    ensures { told result ≡ number_of (badly_formed this_term.now last_term.now) }
{
    refuse(!well_formed(this_term), Refusal::BookForm)?;
    refuse(!well_formed(last_term), Refusal::BookForm)
}

// Where the key of the class starts in one book.
fn key_in(book: &[u8], class: u16) -> Option<usize>
    ensures { result ≡ cond (holds class book.now) (Some (key_place (entry class book.now))) None }
{
    (0..count_of(book))
        .find(|i| class_at(book, *i) == class)
        .map(|i| 2 + 18 * usize::from(i) + 2)
}

fn well_formed(book: &[u8]) -> bool
    ensures { result ≡ well_formed book.now }
{
    let n = count_of(book);
    book.len() == 2 + 18 * usize::from(n)
        && (1..n).all(|i| class_at(book, i - 1) < class_at(book, i))
}

fn count_of(book: &[u8]) -> u16
    ensures { result ≡ count book.now }
{
    words::two(book, 0)
}

// The class number of entry i.
fn class_at(book: &[u8], i: u16) -> u16
    ensures { result ≡ class book.now i }
{
    words::two(book, 2 + 18 * usize::from(i))
}
