// Lesson packs: what a reader answers at each place of any bytes, as K1 of document 02 fixes it.
#![tactic(auto)]

ghost use Rattle.std.specs.Prelude.{◌≡◌};
ghost use Rattle.answers.specs.Told.{number_of_refusal};
ghost use Rattle.pack.specs.Pack.{card_at, card_of};
ghost use Rattle.pack.specs.Stretch.{ended};
ghost use Rattle.pack.specs.Reader.{said, said_bad, verdict, read_at, told_of, judged, reader_of, Moves};

use answers::Refusal;
use items::{Stop, counted, shuffle};

mod items; // items.rt: the items of a pack, from the front

// A kind of card, with its number for C.
#[derive(Clone, Copy, Debug, PartialEq, Eq)]
pub enum Kind {
    Word = 1,
    Song = 2,
    Shuffle = 3,
}

// A card, with the start and the length of its bytes.
#[derive(Clone, Copy, Debug, PartialEq, Eq)]
pub struct Card {
    pub kind: Kind,
    pub start: usize,
    pub length: usize,
}

// What is wrong with a pack; a bad shuffle has the place of the entry at which it is bad.
#[derive(Clone, Copy, Debug, PartialEq, Eq)]
pub enum Bad {
    CutShort,
    CountOrLength,
    BadShuffle(usize),
    LeftOver,
}

// A pack that is refused as a whole: how many cards are given before that, and why.
#[derive(Clone, Copy, Debug, PartialEq, Eq)]
pub struct Rejected {
    pub cards: usize,
    pub why: Bad,
}

// A reader: a pack and its place in it, the number of cards given.
#[derive(Clone, Copy)]
pub struct Reader<'a> {
    pub pack: &'a [u8],
    pub place: usize,
}

impl Kind {
    // Its number, as C has it.
    #[tactic(auto, unfolding(crate::specs::Reader::told_of))]
    pub fn number(self) -> u32
        ensures { result ≡ (told_of (card_of self 0 0) 0).kind }
    {
        self as u32
    }
}

impl Bad {
    // The refusal, without the place.
    #[tactic(auto, unfolding(crate::specs::Reader::told_of))]
    pub fn refusal(self) -> Refusal
        ensures { number_of_refusal result ≡ (told_of (said_bad self) 0).number }
    {
        match self {
            Bad::CutShort => Refusal::CutShort,
            Bad::CountOrLength => Refusal::CountOrLength,
            Bad::BadShuffle(_) => Refusal::BadShuffle,
            Bad::LeftOver => Refusal::LeftOver,
        }
    }

    // The place of the entry at which a shuffle is bad, and 0 otherwise.
    #[tactic(auto, unfolding(crate::specs::Reader::told_of))]
    pub fn entry(self) -> usize
        ensures { result ≡ (told_of (said_bad self) 0).bad }
    {
        match self {
            Bad::BadShuffle(entry) => entry,
            _ => 0, // no Option, as C's struct has it
        }
    }
}

// The reader of a pack, at its first card.
pub fn reader_of<'a>(pack: &'a [u8]) -> Reader<'a>
    ensures { result ≡ reader_of pack.entry }
{
    Reader { pack, place: 0 }
}

// The next card, which moves the reader on, or none, when it is done, or what is wrong, neither of which does.
pub fn next<'s, 'a>(reader: &'s mut Reader<'a>) -> Result<Option<Card>, Bad>
    ensures { Moves (said result) reader.old reader.new }
{
    let Some(card) = card_at(reader.pack, reader.place)? else {
        return Ok(None);
    };
    reader.place += 1;
    Ok(Some(card))
}

// What a reader of the pack answers at a place, and its place after that: for whoever has a place alone.
pub fn read_at(pack: &[u8], place: usize) -> (Result<Option<Card>, Bad>, usize)
    ensures { record { card = said result.0; next = result.1 } ≡ read_at pack.now place }
{
    let mut reader = Reader { pack, place };
    let answer = next(&mut reader);
    (answer, reader.place)
}

// Walks the whole pack: how many cards it has, if nothing is wrong with it.
pub fn judge(pack: &[u8]) -> Result<usize, Rejected>
    ensures { verdict result ≡ judged pack.now }
{
    let mut place = 0;
    // A loop that takes each card apart by let .. else is document 01's form; no iterator of the library ends at an
    // answer and counts what came before it.
    loop {
        let answer = match card_at(pack, place) {
            Ok(answer) => answer,
            Err(why) => return Err(Rejected { cards: place, why }),
        };
        let Some(_) = answer else {
            return Ok(place);
        };
        place += 1;
    }
}

// What a reader of the pack answers at a place.
pub fn card_at(pack: &[u8], place: usize) -> Result<Option<Card>, Bad>
    ensures { said result ≡ card_at pack.now place }
{
    match walk(pack, place) {
        Ok(()) => Ok(None),
        Err(Stop::At(card)) => Ok(Some(card)),
        Err(Stop::Bad(bad)) => Err(bad),
    }
}

// The words, the songs and the shuffle, up to the card at a place.
fn walk(pack: &[u8], place: usize) -> Result<(), Stop>
    ensures { ended result ≡ card_at pack.now place }
{
    let words = counted(pack, items::WORDS, 0, place)?;
    let songs = counted(pack, items::SONGS, words.at, words.place)?;
    shuffle(pack, words.count, songs.at, songs.place)
}
