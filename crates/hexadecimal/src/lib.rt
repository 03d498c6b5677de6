// Bytes in hex: two digits for each, the high one first. In what is read they may be of either case, with white space
// anywhere.
#![tactic(auto)]

ghost use Rattle.std.specs.Prelude.{◌≡◌, [], ◌+◌, ◌<◌, IfErr, cond, ltb, length, set};
ghost use Rattle.answers.specs.Told.{told};
ghost use Rattle.answers.specs.declared.Refusal.TheVariants.{RoomLength};
ghost use Rattle.hexadecimal.specs.Hex.{meaning, glyph, digits_of, start, taken_byte, TakingIn, Spelling, Showing};

use answers::{Refusal, refuse};

// How far a text has been read: whether all of it was digits and white space, the high digit that waits for its low
// one, and how many bytes are in the room. `good` is a flag beside them, since what follows a bad byte is read all the
// same.
#[derive(Clone, Copy, Debug, PartialEq, Eq)]
pub struct Hex {
    pub good: bool,
    pub high: Option<u8>,
    pub len: usize,
}

// What a byte of a text in hex is.
#[derive(Clone, Copy, Debug, PartialEq, Eq)]
enum Meaning {
    Digit(u8),
    White,
    Other,
}

// The start of a text in hex, of which nothing has been read.
pub fn begin() -> Hex
    ensures { result ≡ start }
{
    Hex {
        good: true,
        high: None,
        len: 0,
    }
}

// Takes the next piece of a text in, after what h says was read: answers how far it has been read then, and writes the
// bytes that are complete to room. Those for which the room is too short are not written.
pub fn take_in(h: Hex, text: &[u8], room: &mut [u8]) -> Hex
    ensures { TakingIn result h text.now room.old room.new }
{
    let mut read = h;
    for &b in text {
        read = one(read, b, room);
    }
    read
}

// Writes the digits of s to room. Refuses, and leaves the room as it was, if they do not fit.
pub fn spell(s: &[u8], room: &mut [u8]) -> Result<(), Refusal>
    ensures answer { Spelling (told result) s.now room.old room.new }
    ensures why { IfErr result (λ e. e ≡ RoomLength) }
{
    refuse(room.len() / 2 < s.len(), Refusal::RoomLength)?;
    // By places: of `chunks_exact_mut` the library does not promise what it leaves in the room.
    for (i, &b) in s.iter().enumerate() {
        room[2 * i..2 * i + 2].copy_from_slice(&digits(b));
    }
    Ok(())
}

// Writes s to room as a word: its digits, or `-` if it has no bytes. Answers how long the word is; refuses, and leaves
// the room as it was, if it does not fit.
pub fn show(s: &[u8], room: &mut [u8]) -> Result<usize, Refusal>
    ensures { Showing result s.now room.old room.new }
{
    if s.is_empty() {
        return dash(room);
    }
    spell(s, room)?;
    Ok(2 * s.len())
}

fn dash(room: &mut [u8]) -> Result<usize, Refusal>
    ensures { Showing result [] room.old room.new }
{
    let Some(first) = room.first_mut() else {
        return Err(Refusal::RoomLength);
    };
    *first = b'-';
    Ok(1)
}

#[tactic(auto, unfolding(crate::specs::Hex::digits_of))]
fn digits(b: u8) -> [u8; 2]
    ensures { result ≡ digits_of b }
{
    [glyph_of(b / 16), glyph_of(b % 16)]
}

#[tactic(auto, using(crate::proofs::Hexes::digit_small), unfolding(crate::specs::Hex::taken_byte))]
fn one(h: Hex, b: u8, room: &mut [u8]) -> Hex
    ensures { record { hex = result; room = room.new }
        ≡ taken_byte b (record { hex = h; room = room.old }) }
{
    match (meaning_of(b), h.high) {
        (Meaning::White, _) => h,
        (Meaning::Other, _) => Hex { good: false, ..h },
        (Meaning::Digit(high), None) => Hex {
            high: Some(high),
            ..h
        },
        (Meaning::Digit(low), Some(high)) => Hex {
            high: None,
            len: stored(room, h.len, high % 16 * 16 + low),
            ..h
        },
    }
}

// Stores a byte where there is room for it, and answers where the next one goes. By index: through `get_mut` the proof
// of what the room holds then did not close.
fn stored(room: &mut [u8], at: usize, b: u8) -> usize
    ensures { (result ≡ cond (ltb at (length room.old)) (at + 1) at)
        × (room.new ≡ set room.old at b) }
{
    if at < room.len() {
        room[at] = b;
        at + 1
    } else {
        at
    }
}

#[tactic(auto, unfolding(crate::specs::Hex::meaning))]
fn meaning_of(b: u8) -> Meaning
    ensures { result ≡ meaning b }
{
    match b {
        b'\t' | b'\n' | b'\r' | b' ' => Meaning::White,
        b'0'..=b'9' => Meaning::Digit(b - b'0'),
        b'A'..=b'F' => Meaning::Digit(b - b'A' + 10),
        b'a'..=b'f' => Meaning::Digit(b - b'a' + 10),
        _ => Meaning::Other,
    }
}

// The digit of a value below 16.
#[tactic(auto, unfolding(crate::specs::Hex::glyph))]
fn glyph_of(d: u8) -> u8
    requires { d < 16 }
    ensures { result ≡ glyph d }
{
    if d < 10 { b'0' + d } else { b'a' + (d - 10) }
}
