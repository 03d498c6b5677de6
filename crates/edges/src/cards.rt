// Seals and opens cards. A line has the lengths of key, nonce, associated data, text, room and tag, the bit of the tag
// that is flipped before opening (128 for none), and what both calls answered and left: number, room and tag of
// sealing, number and room of opening. Rooms of more than 32 bytes are shown by their BLAKE2b digest of 16 bytes.
ghost use Rattle.std.specs.Prelude.{◌≤◌};

use super::{STDOUT_FILENO, fill, first_mut, put_answer, put_bytes, put_number, put_numbers};
use answers::Refusal;
use words::first;

pub(crate) fn cards() {
    let mut key = [0u8; 17];
    fill(&mut key, 1);
    let mut nonce = [0u8; 12];
    fill(&mut nonce, 2);
    let mut data = [0u8; 65537];
    fill(&mut data, 3);
    let mut text = [0u8; 4097];
    fill(&mut text, 4);
    all_lengths(&key, &nonce, &data, &text);
    wrong_lengths(&key, &nonce, &data, &text);
    wrong_tags(&key, &nonce, &data, &text);
    short_forms(&key, &nonce, &text);
}

// Each length of associated data with each of text.
fn all_lengths(key: &[u8], nonce: &[u8], data: &[u8], text: &[u8]) {
    for n in lengths(65536) {
        all_texts(first(key, 16), nonce, first(data, n), text);
    }
}

// The lengths at the edges: around a block, and around the long one.
fn lengths(long: usize) -> [usize; 7]
    requires { long ≤ 65536 }
{
    [0, 1, 15, 16, 17, long, long + 1]
}

// Opened with the tag, and with its lowest bit flipped.
fn all_texts(key: &[u8], nonce: &[u8], data: &[u8], text: &[u8]) {
    for n in lengths(4096) {
        for bit in [None, Some(0)] {
            card(
                key,
                nonce,
                data,
                first(text, n),
                n.saturating_add(5),
                16,
                bit,
            );
        }
    }
}

// Each choice of wrong lengths; bit 5 says whether a wrong tag is too long.
fn wrong_lengths(key: &[u8], nonce: &[u8], data: &[u8], text: &[u8]) {
    for m in 0..64 {
        if m < 32 || m / 8 % 2 == 1 {
            let k = first(key, 16 + m % 2);
            let n = first(nonce, 12 - m / 2 % 2);
            let a = first(data, 1 + 65536 * (m / 4 % 2));
            let tag = 16 - m / 8 % 2 + 2 * (m / 32);
            card(k, n, a, first(text, 17), 17 - m / 16 % 2, tag, None);
        }
    }
}

// One card with each bit of its tag flipped.
fn wrong_tags(key: &[u8], nonce: &[u8], data: &[u8], text: &[u8]) {
    let key = first(key, 16);
    for bit in 0..128 {
        card(key, nonce, first(data, 3), first(text, 5), 8, 16, Some(bit));
    }
}

fn short_forms(key: &[u8], nonce: &[u8], text: &[u8]) {
    for n in [0, 1, 16, 17] {
        short_card(first(key, 16), nonce, first(text, n), n + 5);
    }
}

fn card(
    key: &[u8],
    nonce: &[u8],
    data: &[u8],
    text: &[u8],
    room: usize,
    tag: usize,
    bit: Option<usize>,
) {
    io::print_decimal(STDOUT_FILENO, key.len() as u64);
    put_numbers(&[
        nonce.len(),
        data.len(),
        text.len(),
        room,
        tag,
        bit.unwrap_or(128),
    ]);
    let mut sealed = [0xa5u8; 4113];
    let mut t = [0x5au8; 17];
    let mut opened = [0xa5u8; 4113];
    seal(
        key,
        nonce,
        data,
        text,
        first_mut(&mut sealed, room),
        first_mut(&mut t, tag),
    );
    flip(&mut t, bit);
    let ciphertext = first(&sealed, text.len());
    open(
        key,
        nonce,
        data,
        ciphertext,
        first(&t, tag),
        first_mut(&mut opened, room),
    );
    io::write_all(STDOUT_FILENO, b"\n");
}

fn seal(key: &[u8], nonce: &[u8], data: &[u8], text: &[u8], room: &mut [u8], tag: &mut [u8]) {
    let answer = hyena::seal(key, nonce, data, text, room, tag);
    put(&answer, room);
    put_bytes(tag);
}

fn open(key: &[u8], nonce: &[u8], data: &[u8], ciphertext: &[u8], tag: &[u8], room: &mut [u8]) {
    let answer = hyena::open(key, nonce, data, ciphertext, tag, room);
    put(&answer, room);
}

fn short_card(key: &[u8], nonce: &[u8], text: &[u8], room: usize) {
    io::write_all(STDOUT_FILENO, b"short");
    put_number(text.len() as u64);
    let mut sealed = [0xa5u8; 22];
    let mut tag = [0x5au8; 16];
    let mut opened = [0xa5u8; 22];
    seal_short(key, nonce, text, first_mut(&mut sealed, room), &mut tag);
    let ciphertext = first(&sealed, text.len());
    open_short(key, nonce, ciphertext, &tag, first_mut(&mut opened, room));
    io::write_all(STDOUT_FILENO, b"\n");
}

fn seal_short(key: &[u8], nonce: &[u8], text: &[u8], room: &mut [u8], tag: &mut [u8]) {
    let answer = hyena::seal_short(key, nonce, text, room, tag);
    put(&answer, room);
    put_bytes(tag);
}

fn open_short(key: &[u8], nonce: &[u8], ciphertext: &[u8], tag: &[u8], room: &mut [u8]) {
    let answer = hyena::open_short(key, nonce, ciphertext, tag, room);
    put(&answer, room);
}

// The tag with this bit flipped, if there is one.
fn flip(tag: &mut [u8], flipped: Option<usize>) {
    let Some(bit) = flipped else {
        return;
    };
    if let Some(byte) = tag.get_mut(bit / 8) {
        *byte ^= 1 << (bit % 8);
    }
}

// What a call answered, and what it left in its room.
fn put(answer: &Result<(), Refusal>, room: &[u8]) {
    put_answer(answer);
    if room.len() <= 32 {
        put_bytes(room);
    } else {
        let mut d = [0u8; 16];
        let digest = blake::digest(&[], room, &mut d);
        if digest.is_ok() {
            put_bytes(&d);
        }
    }
}
