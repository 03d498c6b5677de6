// Inputs: files and standard input, raw or in hex, and what stands on the command line itself.
use crate::options::{Opt, Options};
use crate::refusal::{Refusal, What, Why};
use crate::system::System;
use crate::{STANDARD_ERROR, names, refusal, rooms};
use hexadecimal::Hex;
use std::io::{Error, Read};
use std::rt::Env;

// The option's word as a number, if it is one.
pub(crate) fn number(rt: &impl Env, o: Options, option: Opt) -> Option<u64> {
    decimal::number(o.word_of(rt, option).as_bytes())
}

// Reads the input that the option names, or standard input, into a room, as far as it fits, and answers it.
pub(crate) fn read<'a>(
    rt: &impl System,
    o: Options,
    option: Opt,
    room: &'a mut [u8],
) -> Result<&'a mut [u8], Refusal> {
    let n = read_into(rt, o, option, room)?;
    Ok(rooms::first(room, n))
}

// The same for an option that may be left out: then there is no input.
pub(crate) fn read_given<'a>(
    rt: &impl System,
    o: Options,
    option: Opt,
    room: &'a mut [u8],
) -> Result<Option<&'a [u8]>, Refusal> {
    if !o.given(option) {
        return Ok(None);
    }
    let bytes: &'a [u8] = read(rt, o, option, room)?;
    Ok(Some(bytes))
}

// Answers how many bytes the room holds then.
fn read_into(rt: &impl System, o: Options, option: Opt, room: &mut [u8]) -> Result<usize, Refusal> {
    if !o.given(option) || o.is_dash(rt, option) {
        return read_standard(rt, o, option, room);
    }
    let mut file = names::open_read(rt, o.word_of(rt, option)).map_err(|e| not_read(option, e))?;
    taken_from(o, option, &mut file, room)
}

// Whoever sits at a terminal is told that it is read, and how that ends.
fn read_standard(
    rt: &impl System,
    o: Options,
    option: Opt,
    room: &mut [u8],
) -> Result<usize, Refusal> {
    if rt.reads_terminal() {
        io::write_all(
            STANDARD_ERROR,
            b"cards: reading from the terminal: Ctrl-D ends it\n",
        );
    }
    taken_from(o, option, &mut rt.reader(), room).map_err(or_closed)
}

// What stands for standard input where that is closed is a directory.
fn or_closed(bad: Refusal) -> Refusal {
    let mut r = bad;
    if bad.why == Some(Why::System(refusal::A_DIRECTORY)) {
        r.why = Some(Why::Closed);
    }
    r
}

// Where the system did not open or read a file.
pub(crate) fn not_read(option: Opt, e: Error) -> Refusal {
    refusal::by_system(option, What::NotRead, e)
}

fn taken_from<R: Read>(
    o: Options,
    option: Opt,
    from: &mut R,
    room: &mut [u8],
) -> Result<usize, Refusal> {
    if o.in_hex(option) {
        return hex_from(option, from, room);
    }
    raw_from(option, from, room)
}

// Reads until the end, or until the room is full, and answers how many bytes it holds. A read that a signal cuts off is
// refused; the library's `read_to_end` would try it again.
fn raw_from<R: Read>(option: Opt, from: &mut R, room: &mut [u8]) -> Result<usize, Refusal> {
    let mut len = 0;
    while len < room.len() {
        match from.read(&mut room[len..]) {
            Ok(0) => return Ok(len),
            Ok(more) => len += more,
            Err(e) => return Err(not_read(option, e)),
        }
    }
    Ok(len)
}

// Reads until the first byte that is not hex, or until the room is full, and answers how many bytes it holds. Blanks
// fill no room, so the characters are counted too.
fn hex_from<R: Read>(option: Opt, from: &mut R, room: &mut [u8]) -> Result<usize, Refusal> {
    let mut h = hexadecimal::begin();
    let mut chunk = io::large_buffer();
    let mut left: usize = 16777217;
    while left > 0 {
        let n = from.read(&mut chunk).map_err(|e| not_read(option, e))?;
        h = one_by_one(h, &chunk[..n], room);
        if !h.good || (n == 0 && !is_whole(&h)) {
            return Err(refusal::about(option, What::NotHex, None));
        }
        if n == 0 || h.len == room.len() {
            return Ok(h.len);
        }
        left = left.saturating_sub(n);
    }
    Err(refusal::about(option, What::NotHex, Some(Why::TooMuchHex)))
}

// Whether what was read is digits and white space, and no byte's second digit is missing.
pub(crate) fn is_whole(h: &Hex) -> bool {
    h.good && h.high.is_none()
}

// Takes in what comes before the first byte that is not hex, or that fills the room: that one decides, and not how the
// input is cut into pieces.
fn one_by_one(h: Hex, s: &[u8], room: &mut [u8]) -> Hex {
    let mut g = h;
    for digit in s {
        if !g.good || g.len == room.len() {
            return g;
        }
        g = hexadecimal::take_in(g, &[*digit], room);
    }
    g
}
