// The items of a pack, walked from the front: counts, lengths with the bytes that they count, the shuffle.
ghost use Rattle.std.specs.List.{list_any};
ghost use Rattle.std.specs.Prelude.{◌==◌, ◌≡◌, ◌≢◌, ◌≤◌, ◌<◌, length, MatchOption, MatchResult};
ghost use Rattle.answers.specs.Answers.{number_of};
ghost use Rattle.pack.specs.Pack.{answer_at, first_bad, number_at, item_rows, many, counted, shuffle, Refused};
ghost use Rattle.pack.specs.Stretch.{Settles, ended, stopped};

use super::{Bad, Card, Kind};

// The cards of a kind: how many there may be, in how many bytes each has its length, and the most it may be.
#[derive(Clone, Copy)]
pub(crate) struct Shape {
    pub kind: Kind,
    pub least: usize,
    pub most: usize,
    pub width: usize,
    pub longest: usize,
}

pub(crate) const WORDS: Shape = Shape {
    kind: Kind::Word,
    least: 1,
    most: 12,
    width: 1,
    longest: 40,
};

pub(crate) const SONGS: Shape = Shape {
    kind: Kind::Song,
    least: 0,
    most: 1,
    width: 2,
    longest: 16384,
};

// Why a walk stops: at the card that is asked for, or at what is wrong with the pack before it.
#[derive(Clone, Copy)]
pub(crate) enum Stop {
    At(Card),
    Bad(Bad),
}

// Behind so many cards of a kind: where the pack goes on, and how many cards more are to be passed.
#[derive(Clone, Copy)]
pub(crate) struct Behind {
    pub count: usize,
    pub at: usize,
    pub place: usize,
}

// A count, and so many cards behind it. Here and below `at` is a place in the whole pack, and lies within it: cut to
// the part behind it, the pack would lose the places that cards tell.
pub(crate) fn counted(pack: &[u8], shape: Shape, at: usize, place: usize) -> Result<Behind, Stop>
    requires { (at ≤ length pack.now) × (shape.width ≤ 2) }
    ensures { Settles pack.now (counted pack.now shape at) place result }
{
    let count = item_at(pack, at, 1, false, shape.least, shape.most)?;
    many(pack, shape, count, at + 1, place)
}

// So many cards, one behind the other.
fn many(pack: &[u8], shape: Shape, count: usize, at: usize, place: usize) -> Result<Behind, Stop>
    requires { (at ≤ length pack.now) × (shape.width ≤ 2) }
    ensures { Settles pack.now (λ follows. many pack.now shape count at
        (follows count)) place result }
{
    let mut at = at;
    let mut place = place;
    for i in 0..count {
        let length = item_at(pack, at, shape.width, true, 1, shape.longest)?;
        let start = at + shape.width;
        if place == 0 {
            return Err(Stop::At(Card {
                kind: shape.kind,
                start,
                length,
            }));
        }
        place -= 1;
        at = start + length;
    }
    Ok(Behind { count, at, place })
}

// The shuffle, and that nothing is behind it.
pub(crate) fn shuffle(pack: &[u8], words: usize, at: usize, place: usize) -> Result<(), Stop>
    requires { at ≤ length pack.now }
    ensures { ended result ≡ answer_at (shuffle pack.now words at) place }
{
    let length = item_at(pack, at, 1, true, words, words)?;
    let start = at + 1;
    let end = start + length;
    if let Some(entry) = first_bad(&pack[start..end]) {
        return Err(Stop::Bad(Bad::BadShuffle(entry)));
    }
    if place == 0 {
        return Err(Stop::At(Card {
            kind: Kind::Shuffle,
            start,
            length,
        }));
    }
    if end < pack.len() {
        return Err(Stop::Bad(Bad::LeftOver));
    }
    Ok(())
}

// The place of the first entry that repeats an earlier one or is too large: a nested search, left by a label with that
// place, as document 01 has it among its forms.
fn first_bad(entries: &[u8]) -> Option<usize>
    ensures { MatchOption result (first_bad entries.now ≡ length entries.now)
        (λ i. (i ≡ first_bad entries.now) × (i < length entries.now)) }
{
    'search: {
        for (i, entry) in entries.iter().enumerate() {
            if entries.len() <= usize::from(*entry) {
                break 'search Some(i);
            }
            for j in 0..i {
                if entries[j] == *entry {
                    break 'search Some(i);
                }
            }
        }
        None
    }
}

// An item: a number of so many bytes and, if it counts bytes, as many bytes behind it.
fn item_at(
    pack: &[u8],
    at: usize,
    width: usize,
    counts: bool,
    least: usize,
    most: usize,
) -> Result<usize, Stop>
    requires { (at ≤ length pack.now) × (width ≤ 2) }
    ensures { let refused = number_of (item_rows pack.now at width counts least most) in
        MatchResult result (λ n. (refused ≡ 0) × (n ≡ number_at pack.now at width) × (n < 65536))
        (λ stop. (refused ≢ 0) × (stopped stop ≡ Refused refused)) }
{
    // A pack has some thirty items, so what is made for blocks reads them fast enough.
    let n = words::load(pack, at, width).lo as usize; // `as`: two bytes are proved to fit
    let bytes = if counts { n } else { 0 };
    if pack.len() - at < width + bytes {
        return Err(Stop::Bad(Bad::CutShort));
    }
    if n < least || most < n {
        return Err(Stop::Bad(Bad::CountOrLength));
    }
    Ok(n)
}
