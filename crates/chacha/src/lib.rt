// ChaCha20 as a key stream, added where the text lies, which tells where it stopped.
#![tactic(auto)]

ghost use Rattle.std.specs.Prelude.{◌≡◌, ◌+◌, ◌^◌, ◌≤◌, length, nat_lt};
ghost use Rattle.words.specs.Block.{part};
ghost use Rattle.words.specs.Bytes.{number};
ghost use Rattle.answers.specs.Answers.{number_of};
ghost use Rattle.answers.specs.Told.{told};
ghost use Rattle.chacha.specs.ChaCha.{quarter, double_round, rounds, start_state, block_from, blocks, stream};
ghost use Rattle.chacha.specs.Entry.{rows, next_of, Streaming};

use answers::{Refusal, refuse};
use words::{Block, Step};

// Adds the key stream, from block `start` on, to text in place. Answers where it stopped: the start plus the blocks
// used, the counter to go on with, which may be 2^32.
pub fn stream(key: &[u8], nonce: &[u8], start: u64, text: &mut [u8]) -> Result<u64, Refusal>
    ensures { Streaming (told result) (next_of start result) key.now nonce.now start text.old
        text.new }
{
    refusal(key.len(), nonce.len(), start, text.len())?;
    Ok(stream_from(key, nonce, start, text))
}

// The refusal that the lengths and the start call for: the rows, as they stand.
fn refusal(key: usize, nonce: usize, start: u64, text: usize) -> Result<(), Refusal>
    ensures { told result ≡ number_of (rows key nonce start text) }
{
    refuse(key != 32, Refusal::KeyLength)?;
    refuse(nonce != 12, Refusal::NonceLength)?;
    refuse(text > 1048576, Refusal::TextLength)?;
    refuse(ends_late(start, text), Refusal::StreamTooLong)
}

// Whether start plus the blocks of n bytes exceeds 2^32. The sum itself could pass 2^64, so the blocks are compared
// with what is left up to 2^32, once the start is known to be no greater. They are counted first: so the compiler makes
// no jump of either test, and of the start no more shows in the time than whether it is refused.
fn ends_late(start: u64, n: usize) -> bool
    ensures { result ≡ nat_lt (2 ^ 32) (start + blocks n) }
{
    let needed = blocks_in(n);
    start > 4294967296 || needed > 4294967296 - start
}

// How many blocks of 64 bytes hold n bytes.
fn blocks_in(n: usize) -> u64
    ensures { result ≡ blocks n }
{
    // `as`, here and below: the number is proved to fit, so that `try_from` would add an error that cannot come.
    n.div_ceil(64) as u64
}

// The same where nothing is refused. Answers the counter after the last block, which may be 2^32.
fn stream_from(key: &[u8], nonce: &[u8], counter: u64, text: &mut [u8]) -> u64
    requires { (length text.old ≤ 1048576) × (counter + blocks (length text.old) ≤ 2 ^ 32) }
    ensures { (text.new ≡ stream key.now nonce.now counter text.old)
        × (result ≡ counter + blocks (length text.old)) }
{
    let mut s = start_of(key, nonce);
    // Counted along, and not the sum counter + i: with that the compiler's code takes 8 % longer on long texts.
    let mut c = counter;
    for i in 0..text.len().div_ceil(64) {
        s[12] = c as u32;
        let k = block_of(s);
        words::add(text, 64 * i, &k, 0, 64);
        c += 1;
    }
    c
}

// The start, with counter 0.
fn start_of(key: &[u8], nonce: &[u8]) -> [u32; 16]
    ensures { result ≡ start_state key.now nonce.now 0 }
{
    [
        0x61707865,
        0x3320646e,
        0x79622d32,
        0x6b206574,
        word(key, 0),
        word(key, 4),
        word(key, 8),
        word(key, 12),
        word(key, 16),
        word(key, 20),
        word(key, 24),
        word(key, 28),
        0,
        word(nonce, 0),
        word(nonce, 4),
        word(nonce, 8),
    ]
}

// The word of four bytes from at on.
fn word(s: &[u8], at: usize) -> u32
    ensures { result ≡ number (part s.now at 4) }
{
    words::load(s, at, 4).lo as u32
}

// The block of a start.
fn block_of(s: [u32; 16]) -> [u8; 64]
    ensures { result ≡ block_from s }
{
    let t = rounds_of(s);
    let mut out = [0u8; 64]; // an array: its length is fixed, and the archive has no heap
    // By index: after an adapter of `iter_mut` a proof knows nothing of the values.
    for i in 0..16 {
        let x = s[i].wrapping_add(t[i]);
        words::store(&mut out, 4 * i, 4, Block::from(u64::from(x)));
    }
    out
}

// Twenty rounds, two at a time.
fn rounds_of(s: [u32; 16]) -> [u32; 16]
    ensures { result ≡ rounds s }
{
    let mut t = s;
    for _ in 0..10u32 {
        double_round(&mut t);
    }
    t
}

// The columns, then the diagonals.
fn double_round(s: &mut [u32; 16])
    ensures { s.new ≡ double_round s.old }
{
    words::square(s, &Quarter);
}

// The step of a double round.
struct Quarter;

impl Step<u32> for Quarter {
    ghost gives = { λ s n. quarter };

    fn take(&self, _n: usize, a: u32, b: u32, c: u32, d: u32) -> (u32, u32, u32, u32) {
        quarter_of(a, b, c, d)
    }
}

// Four words, by the RFC's names: an array of them would say less.
fn quarter_of(a: u32, b: u32, c: u32, d: u32) -> (u32, u32, u32, u32)
    ensures { result ≡ quarter a b c d }
{
    let a1 = a.wrapping_add(b);
    let d1 = (d ^ a1).rotate_left(16);
    let c1 = c.wrapping_add(d1);
    let b1 = (b ^ c1).rotate_left(12);
    let a2 = a1.wrapping_add(b1);
    let d2 = (d1 ^ a2).rotate_left(8);
    let c2 = c1.wrapping_add(d2);
    let b2 = (b1 ^ c2).rotate_left(7);
    (a2, b2, c2, d2)
}
