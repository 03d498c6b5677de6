// Adds the key stream to texts, from starts at both ends of the counter and beyond. A line has the lengths of key and
// nonce, the start and the length of the text, and then the number answered, where the stream stopped and the bytes of
// the text.
use super::{STDOUT_FILENO, fill, first_mut, put_answer, put_bytes, put_number, put_numbers};
use words::first;

const STARTS: [u64; 9] = [
    0,
    1,
    0xfffffffe,
    0xffffffff,
    0x100000000,
    0x100000001,
    0x100000002,
    0x8000000000000000,
    0xffffffffffffffff,
];

// With the lengths that key and nonce must have, then with others.
pub(crate) fn streams() {
    for start in STARTS {
        all_texts(start);
    }
    for start in STARTS {
        wrong_lengths(start);
    }
}

// Texts of no, one, two and three blocks, the last one full or not.
fn all_texts(start: u64) {
    for text_len in [0, 1, 63, 64, 65, 128, 129] {
        stream(32, 12, start, text_len);
    }
}

fn wrong_lengths(start: u64) {
    for (key_len, nonce_len) in [(31, 12), (33, 12), (32, 11), (32, 13), (31, 11)] {
        stream(key_len, nonce_len, start, 1);
    }
}

fn stream(key_len: usize, nonce_len: usize, start: u64, text_len: usize) {
    let mut key = [0u8; 33];
    let mut nonce = [0u8; 13];
    let mut text = [0u8; 129];
    fill(&mut key, 7);
    fill(&mut nonce, 8);
    fill(&mut text, 9);
    let part = first_mut(&mut text, text_len);
    let streamed = chacha::stream(first(&key, key_len), first(&nonce, nonce_len), start, part);
    io::write_all(STDOUT_FILENO, b"stream");
    put_numbers(&[key_len, nonce_len]);
    put_number(start);
    put_number(text_len as u64);
    put_answer(&streamed);
    // A stream that is refused stops where it starts.
    put_number(streamed.unwrap_or(start));
    put_bytes(part);
    io::write_all(STDOUT_FILENO, b"\n");
}
