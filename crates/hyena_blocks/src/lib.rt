// HyENA block by block, over a block cipher with its key. States go in and come back by value, and nothing is refused.
// Whether it opens is a `bool`, as the definition takes it. A block stands beside the number of its bytes that count,
// since the document cuts and pads a block of any content.
#![tactic(auto)]

ghost use Rattle.std.specs.Prelude.{cond, ◌≡◌, ◌<◌, eqb};
ghost use Rattle.words.specs.Block.{value, halves};
ghost use Rattle.words.specs.Bytes.{number, pad};
ghost use Rattle.mode.specs.Hyena.{double, doubles, feed};
ghost use Rattle.hyena_blocks.specs.Steps.{low, started, data_fed, data_ended, text_fed, tagged};

pub mod keyed; // keyed.rt: the cipher

use keyed::Keyed;
use words::Block;

// State Y, into which a block is fed, and the mask.
#[derive(Clone, Copy)]
pub struct StateY {
    pub y: Block,
    pub mask: u64,
}

// The new state X, and the mask that the block was fed with. It is no StateY, so that what is still to be enciphered is
// not fed.
#[derive(Clone, Copy)]
pub struct StateX {
    pub x: Block,
    pub mask: u64,
}

// A block of text, fed: the new state, and what comes out.
#[derive(Clone, Copy)]
pub struct Fed {
    pub state: StateX,
    pub out: Block,
}

// State Y before the associated data, from the first 12 bytes of the nonce and the two lengths.
pub fn start(e: Keyed, nonce: &[u8], data: usize, text: usize) -> StateY
    ensures { result ≡ started e nonce.now «data» text }
{
    let low = words::load(nonce, 0, 4);
    let high = words::load(nonce, 4, 8);
    let y = keyed::block(
        e,
        Block {
            lo: (low.lo << 32) + marks(data, text),
            hi: high.lo,
        },
    );
    StateY {
        y,
        mask: double_of(y.lo),
    }
}

// b1 and b0.
fn marks(data: usize, text: usize) -> u64
    ensures { (result ≡ cond (eqb «data» 0) (cond (eqb text 0) 3 1) 0) × (result < 4) }
{
    match (data, text) {
        (0, 0) => 3,
        (0, _) => 1,
        _ => 0,
    }
}

// The next state Y after a block of associated data that is not the last.
pub fn data_block(e: Keyed, b: StateY, d: Block) -> StateY
    ensures { result ≡ data_fed e b d }
{
    let x = feedback(false, b.y, b.mask, d, 16);
    StateY {
        y: keyed::block(e, x),
        mask: double_of(b.mask),
    }
}

// State X after the last block of associated data, of which n bytes count, with the mask doubled k times.
pub fn data_last(b: StateY, k: u64, d: Block, n: usize) -> StateX
    ensures { result ≡ data_ended b k d n }
{
    let mask = doubled(k, b.mask);
    StateX {
        x: feedback(false, b.y, mask, d, n),
        mask,
    }
}

// State X after a block of text, of which n bytes count, with the mask doubled k times, and what comes out.
pub fn text_block(opening: bool, e: Keyed, t: StateX, k: u64, d: Block, n: usize) -> Fed
    ensures { result ≡ text_fed opening e t k d n }
{
    let mask = doubled(k, t.mask);
    let y = keyed::block(e, t.x);
    Fed {
        state: StateX {
            x: feedback(opening, y, mask, d, n),
            mask,
        },
        out: d ^ y,
    }
}

// The tag, from the last state X.
pub fn tag_of(e: Keyed, t: StateX) -> Block
    ensures { result ≡ tagged e t }
{
    let x = t.x;
    keyed::block(e, Block { lo: x.hi, hi: x.lo })
}

// Feedback of d, of which n bytes count.
fn feedback(opening: bool, y: Block, mask: u64, d: Block, n: usize) -> Block
    ensures { result ≡ halves (feed opening (value y) mask (low n (value d))) }
{
    let sum = d ^ y;
    let text_side = if opening { sum } else { d };
    let cipher_side = if opening { d } else { sum };
    let m = padded(text_side, n);
    let c = padded(cipher_side, n);
    y ^ Block {
        lo: c.lo ^ mask,
        hi: m.hi,
    }
}

// Pad of the first n bytes of x.
fn padded(x: Block, n: usize) -> Block
    ensures { result ≡ halves (number (pad (low n (value x)))) }
{
    let mut s = [0u8; 16]; // an array: its length is fixed, and the archive has no heap
    words::store(&mut s, 0, n, x);
    words::load_pad(&s, 0, n)
}

fn doubled(k: u64, mask: u64) -> u64
    ensures { result ≡ doubles k mask }
{
    let mut x = mask;
    for _ in 0..k {
        x = double_of(x);
    }
    x
}

// No branch on the top bit.
fn double_of(x: u64) -> u64
    ensures { result ≡ double x }
{
    (x << 1) ^ ((x >> 63) * 0x1b)
}
