// Answers each line of its input: `gift KEY BLOCK`, `chacha KEY NONCE START TEXT`, `blake KEY TEXT LENGTH` or
// `lioness KEY IV BLOCK`. Fields are in hex, in lower case, `-` for no bytes, with the first byte first; those of gift,
// which are numbers, with the most significant byte first, and so is the start, eight bytes. It prints the number
// answered and the bytes left: of a block after enciphering it, after deciphering that, and after deciphering once
// more; of a text after the key stream, and after the same stream again, each time with the place where the stream
// stopped before them, eight bytes as the start has them; of a digest the room, which had a5 in each byte. What is not
// such a line, or has a field of more than 1152 bytes, is a bad line.
#![tactic(auto)]

use answers::{Refusal, told};
use words::{first, same};

// Where a program reads its input, and where it prints.
const STDIN_FILENO: i32 = 0;

const STDOUT_FILENO: i32 = 1;

// The bytes of a field: as many of the room, which is an array, since the program takes no memory.
#[derive(Clone, Copy)]
struct Field {
    room: [u8; 1152],
    len: usize,
}

impl Field {
    fn bytes(&self) -> &[u8] {
        first(&self.room, self.len)
    }

    fn bytes_mut(&mut self) -> &mut [u8] {
        let n = self.len.min(self.room.len());
        &mut self.room[..n]
    }
}

fn main() {
    let mut input = io::large_buffer();
    let len = io::read_full(STDIN_FILENO, &mut input);
    if len == 65536 {
        io::write_all(STDOUT_FILENO, b"too much input\n");
        return;
    }
    answer_lines(first(&input, len));
}

fn answer_lines(s: &[u8]) {
    for line in s.split_inclusive(|b| *b == b'\n') {
        answer_line(line.strip_suffix(b"\n").unwrap_or(line));
    }
}

fn answer_line(line: &[u8]) {
    if answer(word(line), behind(line)).is_none() {
        io::write_all(STDOUT_FILENO, b"bad line");
    }
    io::write_all(STDOUT_FILENO, b"\n");
}

// Prints nothing where the line is not of one of the four kinds.
fn answer(kind: &[u8], s: &[u8]) -> Option<()> {
    match kind {
        b"gift" => gift_line(s),
        b"lioness" => lioness_line(s),
        b"chacha" => chacha_line(s),
        b"blake" => blake_line(s),
        _ => None,
    }
}

// What stands before the first space.
fn word(s: &[u8]) -> &[u8] {
    first(s, words::find(s, 0, s.len(), b' '))
}

// What stands behind it.
fn behind(s: &[u8]) -> &[u8] {
    let at = words::find(s, 0, s.len(), b' ');
    if at < s.len() { &s[at + 1..] } else { &[] }
}

// Reads a field. It is one where its bytes are shown as it stands there.
fn read(s: &[u8]) -> Option<Field> {
    let mut room = [0u8; 1152];
    let mut shown = [0u8; 2304];
    let len = hexadecimal::take_in(hexadecimal::begin(), s, &mut room).len;
    let n = hexadecimal::show(first(&room, len), &mut shown).ok()?;
    same(s, first(&shown, n)).then_some(Field { room, len })
}

// The same, the last byte first.
fn read_reversed(s: &[u8]) -> Option<Field> {
    let mut field = read(s)?;
    field.bytes_mut().reverse();
    Some(field)
}

// Reads a number of n bytes, at most eight.
fn read_number(s: &[u8], n: usize) -> Option<u64> {
    let field = read_reversed(s)?;
    (field.len == n).then_some(words::load(&field.room, 0, 8).lo)
}

fn gift_line(s: &[u8]) -> Option<()> {
    let key = read_reversed(word(s))?;
    let mut block = read_reversed(behind(s))?;
    gift_block(key.bytes(), block.bytes_mut());
    Some(())
}

fn gift_block(key: &[u8], x: &mut [u8]) {
    let answer = gift::encipher(key, x);
    put_reversed(told(&answer), x);
    gift_back(key, x);
    gift_back(key, x);
}

fn gift_back(key: &[u8], x: &mut [u8]) {
    let answer = gift::decipher(key, x);
    space();
    put_reversed(told(&answer), x);
}

fn lioness_line(s: &[u8]) -> Option<()> {
    let t = behind(s);
    let key = read(word(s))?;
    let iv = read(word(t))?;
    let mut block = read(behind(t))?;
    lioness_block(key.bytes(), iv.bytes(), block.bytes_mut());
    Some(())
}

fn lioness_block(key: &[u8], iv: &[u8], x: &mut [u8]) {
    let answer = lioness::encipher(key, iv, x);
    put(told(&answer), x);
    lioness_back(key, iv, x);
    lioness_back(key, iv, x);
}

fn lioness_back(key: &[u8], iv: &[u8], x: &mut [u8]) {
    let answer = lioness::decipher(key, iv, x);
    space();
    put(told(&answer), x);
}

fn chacha_line(s: &[u8]) -> Option<()> {
    let t = behind(s);
    let u = behind(t);
    let key = read(word(s))?;
    let nonce = read(word(t))?;
    let start = read_number(word(u), 8)?;
    let mut text = read(behind(u))?;
    chacha_text(key.bytes(), nonce.bytes(), start, text.bytes_mut());
    Some(())
}

fn chacha_text(key: &[u8], nonce: &[u8], start: u64, x: &mut [u8]) {
    let once = chacha::stream(key, nonce, start, x);
    put_streamed(once, start, x);
    space();
    let again = chacha::stream(key, nonce, start, x);
    put_streamed(again, start, x);
}

// A stream that is refused stops where it starts.
fn put_streamed(streamed: Result<u64, Refusal>, start: u64, x: &[u8]) {
    let next = streamed.unwrap_or(start);
    put(told(&streamed), &next.to_be_bytes());
    space();
    put_bytes(x);
}

fn blake_line(s: &[u8]) -> Option<()> {
    let t = behind(s);
    let key = read(word(s))?;
    let text = read(word(t))?;
    let len = u8::try_from(read_number(behind(t), 1)?).ok()?;
    blake_text(key.bytes(), text.bytes(), len);
    Some(())
}

// The length is how much of the room is lent.
fn blake_text(key: &[u8], text: &[u8], len: u8) {
    let mut room = [0xa5u8; 255];
    let part = &mut room[..usize::from(len)];
    let answer = blake::digest(key, text, part);
    put(told(&answer), part);
}

// Prints a number and bytes.
fn put(number: u32, s: &[u8]) {
    io::print_decimal(STDOUT_FILENO, u64::from(number));
    space();
    put_bytes(s);
}

// A few lines that edges has too: a crate for them would be no plainer.
fn put_bytes(s: &[u8]) {
    let mut shown = [0u8; 2304];
    if let Ok(n) = hexadecimal::show(s, &mut shown) {
        io::write_all(STDOUT_FILENO, first(&shown, n));
    }
}

// The same, the last byte first.
fn put_reversed(number: u32, s: &mut [u8]) {
    s.reverse();
    put(number, s);
    s.reverse();
}

fn space() {
    io::write_all(STDOUT_FILENO, b" ");
}
