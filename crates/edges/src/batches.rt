// Seals batches. A line has the lengths of key, associated data, texts, room and tags, the drawer, how many lengths are
// listed and each of them, and then the number answered, the next drawer, and the bytes of room and tags.
use super::draws::put_drawer;
use super::{STDOUT_FILENO, fill, first_mut, put_answer, put_bytes, put_number, put_numbers};
use words::first;

pub(crate) fn batches() {
    counts();
    refusals();
    large();
    sums();
    tags();
    thirteen_or_none();
}

// So many cards, the second one empty.
fn counts() {
    for (n, texts) in [(0, 0), (1, 16), (2, 16), (12, 46), (13, 63)] {
        draws(n, texts);
    }
}

// With none, one, 11, 12, 13 draws left, or all.
fn draws(n: u8, texts: usize) {
    for count in [
        0xffffffffffffffff,
        0xfffffffffffffffe,
        0xfffffffffffffff4,
        0xfffffffffffffff3,
        0xfffffffffffffff2,
        0,
    ] {
        let n = usize::from(n);
        listed(n, 16, 0, 3, 17, count, texts, 16 * n);
    }
}

// Each choice of refusals, of two cards.
fn refusals() {
    let mut key = [0u8; 17];
    fill(&mut key, 1);
    let mut data = [0u8; 65537];
    fill(&mut data, 3);
    let mut texts = [0u8; 17];
    fill(&mut texts, 4);
    choices(&key, &data, &texts);
}

fn choices(key: &[u8], data: &[u8], texts: &[u8]) {
    for m in 0..128 {
        let k = first(key, 16 + m % 2);
        let a = first(data, 3 + 65534 * (m / 2 % 2));
        let long = 5 + 1048572 * (m / 4 % 2);
        let tags = 32 - m / 8 % 2;
        let room = 20 - 4 * (m / 16 % 2);
        let list = lengths_of(long as u64, 12 + m as u64 / 64, 0, 0);
        batch(k, a, texts, &list[..2], few(m / 32 % 2), room, tags);
    }
}

// A count with one draw left, or with many.
fn few(spent: usize) -> u64 {
    if spent == 1 {
        0xfffffffffffffffe
    } else {
        0x0102030405060708
    }
}

// Lengths that are too large, alone and with others, whose sum may wrap.
fn large() {
    listed(1, 0xffffffffffffffff, 0, 0, 0, 9, 0, 16);
    listed(1, 0xffffffffffffffff, 0, 0, 0, 9, 5, 16);
    listed(2, 0xffffffffffffffff, 6, 0, 0, 9, 5, 32);
    listed(2, 6, 0xffffffffffffffff, 0, 0, 9, 5, 32);
    listed(2, 0x8000000000000000, 0x8000000000000000, 0, 0, 9, 0, 32);
    listed(1, 1048576, 0, 0, 0, 9, 17, 16);
    listed(1, 1048577, 0, 0, 0, 9, 17, 16);
}

// Lengths that add up to the texts, and that do not.
fn sums() {
    listed(1, 16, 0, 0, 0, 9, 17, 16);
    listed(1, 18, 0, 0, 0, 9, 17, 16);
    listed(1, 17, 0, 0, 0, 9, 17, 16);
    listed(1, 0, 0, 0, 0, 9, 0, 16);
    listed(2, 0, 0, 0, 0, 9, 0, 32);
    listed(2, 0, 17, 0, 0, 9, 17, 32);
    listed(2, 17, 0, 0, 0, 9, 17, 32);
    listed(12, 1048576, 1048576, 1048576, 0, 9, 17, 192);
    listed(12, 0, 0, 0, 0, 9, 0, 192);
}

// Tags for each length, and not.
fn tags() {
    listed(12, 1, 1, 1, 0, 9, 12, 191);
    listed(12, 1, 1, 1, 0, 9, 12, 192);
    listed(12, 1, 1, 1, 0, 9, 12, 193);
    listed(12, 1, 1, 1, 0, 9, 12, 208);
}

// Thirteen lengths, and none.
fn thirteen_or_none() {
    listed(13, 1, 1, 1, 0xffffffffffffffff, 9, 13, 208);
    listed(13, 1, 1, 1, 1, 9, 13, 192);
    listed(13, 1, 1, 1, 1, 9, 13, 208);
    listed(13, 1, 1, 1, 1, 9, 12, 208);
    listed(0, 0, 0, 0, 0, 9, 1, 0);
    listed(0, 0, 0, 0, 0, 9, 0, 1);
    listed(0, 0, 0, 0, 0, 9, 0, 16);
}

// n lengths, with room for five bytes more than there are of texts.
fn listed(n: usize, a: u64, b: u64, c: u64, d: u64, count: u64, texts: usize, tags: usize) {
    let mut key = [0u8; 16];
    fill(&mut key, 1);
    let mut data = [0u8; 3];
    fill(&mut data, 3);
    let mut text = [0u8; 63];
    fill(&mut text, 4);
    let list = lengths_of(a, b, c, d);
    let t = first(&text, texts);
    let n = n.min(list.len());
    batch(&key, &data, t, &list[..n], count, t.len() + 5, tags);
}

// Thirteen lengths: a, b, c up to the twelfth, and d.
fn lengths_of(a: u64, b: u64, c: u64, d: u64) -> [u64; 13] {
    [a, b, c, c, c, c, c, c, c, c, c, c, d]
}

fn batch(
    key: &[u8],
    data: &[u8],
    texts: &[u8],
    lengths: &[u64],
    count: u64,
    room: usize,
    tags: usize,
) {
    let mut r = [0xa5u8; 68];
    let mut t = [0x5au8; 208];
    io::write_all(STDOUT_FILENO, b"batch");
    put_numbers(&[key.len(), data.len(), texts.len(), room, tags]);
    seal(
        key,
        data,
        texts,
        lengths,
        count,
        first_mut(&mut r, room),
        first_mut(&mut t, tags),
    );
    io::write_all(STDOUT_FILENO, b"\n");
}

fn seal(
    key: &[u8],
    data: &[u8],
    texts: &[u8],
    lengths: &[u64],
    count: u64,
    room: &mut [u8],
    tags: &mut [u8],
) {
    let d = drawer::start(0x01020304, count);
    put_drawer(d);
    put_lengths(lengths);
    let sealed = batch::seal(key, data, texts, lengths, d, room, tags);
    put_answer(&sealed);
    put_drawer(sealed.unwrap_or(d));
    put_bytes(room);
    put_bytes(tags);
}

fn put_lengths(lengths: &[u64]) {
    put_number(lengths.len() as u64);
    for &n in lengths {
        put_number(n);
    }
}
