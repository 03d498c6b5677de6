// BLAKE2b with a key.
#![tactic(auto)]

ghost use Rattle.std.specs.Prelude.{◌≡◌, ◌+◌, ◌-◌, ◌/◌, ◌%◌, ◌<◌, ◌≤◌, length};
ghost use Rattle.std.proofs.lemmas.List.Edits.{sets};
ghost use Rattle.answers.specs.Answers.{number_of};
ghost use Rattle.answers.specs.Told.{told};
ghost use Rattle.words.specs.Words.{words, unwords};
ghost use Rattle.blake.specs.Blake.{sigma, mixed, word_at, mixing, round, rounds, vector, folded};
ghost use Rattle.blake.specs.Blake.{compress, padded, start_chain, absorbed, hashed};
ghost use Rattle.blake.specs.Entry.{rows, Digesting};

use answers::{Refusal, refuse};
use tables::{IV, SIGMA};
use words::{Block, Step};

mod tables;

// Fills room with the digest of text under key, as long as the room.
pub fn digest(key: &[u8], text: &[u8], room: &mut [u8]) -> Result<(), Refusal>
    ensures { Digesting (told result) key.now text.now room.old room.new }
{
    refusal(key.len(), text.len(), room.len())?;
    let h = hash_of(key, text, room.len());
    put_words(room, &h);
    Ok(())
}

// The refusal that the lengths call for: the rows, as they stand.
fn refusal(key: usize, text: usize, room: usize) -> Result<(), Refusal>
    ensures { told result ≡ number_of (rows key text room) }
{
    refuse(key > 64, Refusal::KeyLength)?;
    refuse(text > 1048576, Refusal::TextLength)?;
    refuse(room == 0, Refusal::RoomLength)?;
    refuse(room > 64, Refusal::RoomLength)
}

// Writes the words of h to the front of room, as far as it goes.
fn put_words(room: &mut [u8], h: &[u64; 8])
    ensures { room.new ≡ sets room.old 0 (unwords 8 h.now) }
{
    for (i, x) in h.iter().enumerate() {
        words::store(room, 8 * i, 8, Block::from(*x));
    }
}

// The chain value at the end, for a digest of nn bytes.
fn hash_of(key: &[u8], text: &[u8], nn: usize) -> [u64; 8]
    requires { (length key.now ≤ 64) × (length text.now ≤ 1048576) × (nn ≤ 64) }
    ensures { result ≡ hashed key.now text.now nn }
{
    let mut h = start_chain(key.len(), nn);
    if key.is_empty() {
        absorb(&mut h, 0, text);
        return h;
    }
    if text.is_empty() {
        compress_in(&mut h, key, 128, true);
        return h;
    }
    compress_in(&mut h, key, 128, false);
    absorb(&mut h, 128, text);
    h
}

fn start_chain(kk: usize, nn: usize) -> [u64; 8]
    requires { (kk ≤ 64) × (nn ≤ 64) }
    ensures { result ≡ start_chain kk nn }
{
    // `as`, here and below: the number is proved to fit, so that `try_from` would add an error that cannot come.
    let mut h = IV;
    h[0] ^= 0x01010000 ^ (kk as u64 * 256) ^ nn as u64;
    h
}

// All of s, which ends the data, after t bytes: the blocks before the last, and the last.
fn absorb(h: &mut [u64; 8], t: u64, s: &[u8])
    requires { (length s.now ≤ 1048576) × (t ≤ 128) }
    ensures { h.new ≡ absorbed ((length s.now - 1) / 128) h.old t s.now }
{
    // By number, and not by `chunks`: each block is compressed with the count of what came before it.
    let n = s.len().saturating_sub(1) / 128;
    for i in 0..n {
        let at = 128 * i;
        compress_in(h, &s[at..], t + at as u64 + 128, false);
    }
    let at = 128 * n;
    compress_in(h, &s[at..], t + s.len() as u64, true);
}

// The first block of s, or what is there of it with zeros.
fn compress_in(h: &mut [u64; 8], s: &[u8], t: u64, last: bool)
    ensures { h.new ≡ compress h.old (padded s.now) t last }
{
    let m = words_of(s);
    let mut v = vector_of(h, t, last);
    rounds_of(&m, &mut v);
    fold_in(h, &v);
}

// Its words. Where the whole block is there, it is lent as 128 bytes, and the compiler sees that each word is.
fn words_of(s: &[u8]) -> [u64; 16]
    ensures { result ≡ words 8 16 (padded s.now) }
{
    if s.len() >= 128 {
        return words_in(&s[..128]);
    }
    words_in(s)
}

fn words_in(s: &[u8]) -> [u64; 16]
    ensures { result ≡ words 8 16 (padded s.now) }
{
    let mut m = [0; 16];
    // By index, here and below: after an adapter of `iter_mut` a proof knows nothing of the values.
    for i in 0..16 {
        m[i] = words::load(s, 8 * i, 8).lo;
    }
    m
}

fn vector_of(h: &[u64; 8], t: u64, last: bool) -> [u64; 16]
    ensures { result ≡ vector h.now t last }
{
    let iv = IV;
    let inverted = if last { iv[6] ^ u64::MAX } else { iv[6] };
    // Written out: two copy_from_slice in place of it cost long texts 4 % more time.
    [
        h[0],
        h[1],
        h[2],
        h[3],
        h[4],
        h[5],
        h[6],
        h[7],
        iv[0],
        iv[1],
        iv[2],
        iv[3],
        iv[4] ^ t,
        iv[5],
        inverted,
        iv[7],
    ]
}

fn fold_in(h: &mut [u64; 8], v: &[u64; 16])
    ensures { h.new ≡ folded h.old v.now }
{
    for i in 0..8 {
        h[i] = h[i] ^ v[i] ^ v[i + 8];
    }
}

// Twelve rounds on the words m of a block.
fn rounds_of(m: &[u64; 16], v: &mut [u64; 16])
    ensures { v.new ≡ rounds m.now v.old }
{
    for r in 0..12 {
        round_of(m, r, v);
    }
}

// Round r: the columns, then the diagonals.
fn round_of(m: &[u64; 16], r: usize, v: &mut [u64; 16])
    ensures { v.new ≡ round m.now r v.old }
{
    words::square(v, &Round { m, r });
}

// Round r on the words m of a block, as a step: its mixings.
#[derive(Clone, Copy)]
struct Round<'a> {
    m: &'a [u64; 16],
    r: usize,
}

impl<'a> Round<'a> {
    // The word that it takes i-th.
    fn word(&self, i: usize) -> u64
        requires { i < 16 }
        ensures { result ≡ word_at self.now.m.now self.now.r i }
    {
        let k = self.place(i);
        self.m[k]
    }

    fn place(&self, i: usize) -> usize
        requires { i < 16 }
        ensures { (result ≡ sigma self.now.r i) × (result < 16) }
    {
        (SIGMA[self.r % 10] >> (4 * i)) as usize % 16
    }
}

impl<'a> Step<u64> for Round<'a> {
    ghost gives = { λ s n. mixing s.m.now s.r (n % 8) };

    // There are eight steps: the remainder changes no n that is handed here, and any may be.
    fn take(&self, n: usize, a: u64, b: u64, c: u64, d: u64) -> (u64, u64, u64, u64) {
        let i = 2 * (n % 8);
        mix(a, b, c, d, self.word(i), self.word(i + 1))
    }
}

// The mixing function G. Four words, by the RFC's names: an array of them would say less.
fn mix(a: u64, b: u64, c: u64, d: u64, x: u64, y: u64) -> (u64, u64, u64, u64)
    ensures { result ≡ mixed a b c d x y }
{
    let a1 = a.wrapping_add(b).wrapping_add(x);
    let d1 = (d ^ a1).rotate_right(32);
    let c1 = c.wrapping_add(d1);
    let b1 = (b ^ c1).rotate_right(24);
    let a2 = a1.wrapping_add(b1).wrapping_add(y);
    let d2 = (d1 ^ a2).rotate_right(16);
    let c2 = c1.wrapping_add(d2);
    let b2 = (b1 ^ c2).rotate_right(63);
    (a2, b2, c2, d2)
}
