// Numbers of 128 bits, how they are read from bytes and written to them, sums of bytes, and slices that are compared,
// searched or cut. Nothing is refused and nothing faults: what lies past the end of a slice reads as 0 and is not
// written.
#![tactic(auto)]

ghost use Rattle.std.specs.Prelude.{ℕ, ◌≡◌, ◌==◌, position, [], ◌+◌, ◌-◌, ◌≤◌, ◌<◌, min, eqb, length, get_or};
ghost use Rattle.std.specs.Int.Bits.{bit_xor};
ghost use Rattle.std.proofs.lemmas.List.Edits.{sets};
ghost use Rattle.words.specs.Bytes.{number, bytes, filled, plus_at};
ghost use Rattle.words.specs.Block.{value, halves, part, loaded, loaded_pad, stored, two};
ghost use Rattle.words.specs.Search.{same, finding};
ghost use Rattle.words.specs.Lent.{First};
ghost use Rattle.words.specs.Square.{Squared};

use std::ops::BitXor;

// A number of 128 bits.
#[derive(Clone, Copy)]
pub struct Block {
    pub lo: u64,
    pub hi: u64,
}

// The block of a number of 64 bits.
impl From<u64> for Block {
    ghost from_gives = { λ x r. r ≡ record { lo = x; hi = 0 } };

    fn from(x: u64) -> Block {
        Block { lo: x, hi: 0 }
    }
}

// The exclusive or of two blocks.
impl BitXor for Block {
    type Output = Block;

    ghost bitxor_gives = { λ a b r. r ≡ halves (bit_xor (value a) (value b)) };

    fn bitxor(self, rhs: Block) -> Block {
        Block {
            lo: self.lo ^ rhs.lo,
            hi: self.hi ^ rhs.hi,
        }
    }
}

// Whether two blocks are the same.
pub fn equal(a: Block, b: Block) -> bool
    ensures { result ≡ eqb (value a) (value b) }
{
    // What differs in all 16 bytes, folded once more before the one test: without the fold, and in an `==` that is
    // derived, the compiler makes a test of each half, and the time would tell how much of a block is right.
    let d = (a.lo ^ b.lo) | (a.hi ^ b.hi);
    (d | (d >> 32)) % 4294967296 == 0
}

// The block of n bytes of s, at most 16, from at on; what is not there reads as 0.
pub fn load(s: &[u8], at: usize, n: usize) -> Block
    ensures { result ≡ halves (loaded s.now at n) }
{
    // Here and below the place and the count come beside the slice: a part that is cut off would have to be there.
    gathered(s, at, n, 0)
}

// The block of n bytes of s, at most 16, from at on, with Pad: above fewer than 16 bytes stands a single 1 bit.
pub fn load_pad(s: &[u8], at: usize, n: usize) -> Block
    ensures { result ≡ halves (loaded_pad s.now at n) }
{
    gathered(s, at, n, 1)
}

// Writes the first n bytes of b, at most 16, to s from at on, and nothing past the end.
pub fn store(s: &mut [u8], at: usize, n: usize, b: Block)
    ensures { s.new ≡ stored s.old at n (value b) }
{
    let m = there(s.len(), at, n);
    if m <= 8 {
        put(s, at, m, b.lo);
        return;
    }
    put(s, at, 8, b.lo);
    put(s, at + 8, m - 8, b.hi);
}

// Adds n bytes of t from `from` on, by exclusive or, to s from at on: as many as are there in both.
pub fn add(s: &mut [u8], at: usize, t: &[u8], from: usize, n: usize)
    ensures { s.new ≡ plus_at at s.old (part t.now from n) }
{
    let there = s.len().saturating_sub(at);
    let m = there.min(n.min(t.len().saturating_sub(from)));
    // By index: after `s[at..at + m].iter_mut().zip(&t[from..from + m])` a proof knows of s its length and no byte.
    // With `enumerate` in place of `zip` it would, but the index of t stays, and `at` past the end needs a test first.
    for i in 0..m {
        s[at + i] ^= t[from + i];
    }
}

// The number of the two bytes of s from at on, the low one first; what is not there reads as 0.
pub fn two(s: &[u8], at: usize) -> u16
    ensures { result ≡ two s.now at }
{
    if s.len() <= at {
        return 0;
    }
    u16::from_le_bytes([byte(s, at), byte(s, at + 1)])
}

fn byte(s: &[u8], at: usize) -> u8
    ensures { result ≡ get_or s.now at 0 }
{
    s.get(at).copied().unwrap_or(0)
}

// Whether two slices have the same bytes. What differs is gathered and looked at once, at the end: time tells the
// lengths, and at most the answer.
#[inline(never)]
pub fn same(s: &[u8], t: &[u8]) -> bool
    ensures { result ≡ same s.now t.now }
{
    if s.len() != t.len() {
        return false;
    }
    // Inlined where the lengths are known, it would be looked at piece by piece.
    let mut differing = 0;
    for (x, y) in s.iter().zip(t) {
        differing |= x ^ y;
    }
    differing == 0
}

// The first place from `from` on, before `to`, where s has b; if there is none, the end of what was searched.
pub fn find(s: &[u8], from: usize, to: usize, b: u8) -> usize
    ensures { result ≡ finding s.now from to b }
{
    // A place in any case, and no Option: callers cut there either way.
    let end = to.min(s.len());
    if end <= from {
        return from;
    }
    match position_of(&s[from..end], b) {
        Some(i) => from + i,
        None => end,
    }
}

// The first place where s has b.
fn position_of(s: &[u8], b: u8) -> Option<usize>
    ensures { result ≡ position (λ x. x == b) s.now }
{
    s.iter().position(|x| *x == b)
}

// The first n bytes of s, or all: themselves and no copy.
pub fn first(s: &[u8], n: usize) -> &[u8]
    ensures { First result s.entry n }
{
    &s[..n.min(s.len())]
}

// A step on four words of a square; n says which of eight it is.
pub trait Step<W> {
    ghost gives: { Self → ℕ → W → W → W → W → W × W × W × W };

    fn take(&self, n: usize, a: W, b: W, c: W, d: W) -> (W, W, W, W)
        ensures { result ≡ gives self.now n a b c d };
}

// Eight steps on sixteen words that stand as a square of four rows: on the four columns, then on the four diagonals.
pub fn square<W: Copy, S: Step<W>>(v: &mut [W; 16], step: &S)
    ensures { Squared (S.gives step.now) v.old v.new }
{
    let (a0, b0, c0, d0) = step.take(0, v[0], v[4], v[8], v[12]);
    let (a1, b1, c1, d1) = step.take(1, v[1], v[5], v[9], v[13]);
    let (a2, b2, c2, d2) = step.take(2, v[2], v[6], v[10], v[14]);
    let (a3, b3, c3, d3) = step.take(3, v[3], v[7], v[11], v[15]);
    let (a0, b1, c2, d3) = step.take(4, a0, b1, c2, d3);
    let (a1, b2, c3, d0) = step.take(5, a1, b2, c3, d0);
    let (a2, b3, c0, d1) = step.take(6, a2, b3, c0, d1);
    let (a3, b0, c1, d2) = step.take(7, a3, b0, c1, d2);
    let w: [W; 16] = [
        a0, a1, a2, a3, b0, b1, b2, b3, c0, c1, c2, c3, d0, d1, d2, d3,
    ];
    *v = w;
}

// How many of n bytes from at on lie in a slice of len bytes, at most 16.
fn there(len: usize, at: usize, n: usize) -> usize
    ensures { result ≡ min n (min 16 (len - at)) }
{
    n.min(len.saturating_sub(at).min(16))
}

// The block of sixteen bytes: n of s from at on, and where those are fewer, top and zeros.
fn gathered(s: &[u8], at: usize, n: usize, top: u8) -> Block
    ensures { result ≡ halves (number (filled top 16 (part s.now at n))) }
{
    let m = there(s.len(), at, n);
    if m < 8 {
        return Block::from(word(s, at, m, top));
    }
    Block {
        lo: word(s, at, 8, top),
        hi: word(s, at + 8, m - 8, top),
    }
}

// The number of eight bytes: n of s from at on, and where those are fewer, top and zeros. A loop whose count is
// written down becomes a single read; the library's `from_le_bytes` takes eight bytes and no fewer, so it would stand
// beside the loop.
fn word(s: &[u8], at: usize, n: usize, top: u8) -> u64
    requires { (n ≤ length s.now - at) × (n ≤ 8) }
    ensures { result ≡ number (filled top 8 (part s.now at n)) }
{
    if n == 8 {
        return word_down(s, at, 8, top);
    }
    word_down(s, at, n, top)
}

// The same, from the highest byte down. That n is at most 8 is said three times: a type of its own would be longer.
fn word_down(s: &[u8], at: usize, n: usize, top: u8) -> u64
    requires { (n ≤ length s.now - at) × (n ≤ 8) }
    ensures { result ≡ number (filled top 8 (part s.now at n)) }
{
    let mut acc = above(n, top);
    for i in (0..n).rev() {
        acc = acc * 256 + u64::from(s[at + i]);
    }
    acc
}

// What stands above n of eight bytes.
fn above(n: usize, top: u8) -> u64
    requires { n ≤ 8 }
    ensures { result ≡ number (filled top (8 - n) []) }
{
    if n < 8 { u64::from(top) } else { 0 }
}

// Writes the n low bytes of w to s from at on; eight of them at once, as `word` reads them.
fn put(s: &mut [u8], at: usize, n: usize, w: u64)
    requires { n ≤ length s.old - at }
    ensures { s.new ≡ sets s.old at (bytes n w) }
{
    if n == 8 {
        put_up(s, at, 8, w);
    } else {
        put_up(s, at, n, w);
    }
}

// The same, from the lowest byte up.
fn put_up(s: &mut [u8], at: usize, n: usize, w: u64)
    requires { n ≤ length s.old - at }
    ensures { s.new ≡ sets s.old at (bytes n w) }
{
    let mut rest = w;
    for i in 0..n {
        s[at + i] = (rest % 256) as u8; // `as` loses nothing that is meant
        rest /= 256;
    }
}
