// GIFT-128, both ways.
#![tactic(auto)]

ghost use Rattle.std.specs.Prelude.{cond, ◌≡◌, ◌+◌, ◌-◌, ◌*◌, ◌/◌, ◌%◌, ◌<◌, ◌≤◌, ◌^◌};
ghost use Rattle.std.specs.Int.Bits.{bit_xor};
ghost use Rattle.words.specs.Block.{value, halves};
ghost use Rattle.answers.specs.Answers.{number_of, answered};
ghost use Rattle.answers.specs.Told.{told};
ghost use Rattle.gift.specs.Gift.{sbox, sub_cells, place, perm_bits, spread, key_bits, step_const, const_bits};
ghost use Rattle.gift.specs.Gift.{key_step, round, forty};
ghost use Rattle.gift.specs.Entry.{round_keys, round_key_in, enciphers, deciphers, rows, crypting};
ghost use Rattle.gift.specs.Entry.{Enciphering, Deciphering};

mod places;

use answers::{Refusal, refuse};
use places::PLACES;
use words::Block;

// The round keys with the round constants: worked out once for a key, they serve for many blocks.
#[derive(Clone, Copy)]
pub struct RoundKeys {
    pub rounds: [Block; 40],
}

// Enciphers block in place.
pub fn encipher(key: &[u8], block: &mut [u8]) -> Result<(), Refusal>
    ensures { Enciphering (told result) key.now block.old block.new }
{
    crypt(false, key, block)
}

// Deciphers block in place.
pub fn decipher(key: &[u8], block: &mut [u8]) -> Result<(), Refusal>
    ensures { Deciphering (told result) key.now block.old block.new }
{
    crypt(true, key, block)
}

// The round keys of key, each with its round constant: what the rounds add in their steps 3 and 4.
pub fn round_keys_of(key: Block) -> RoundKeys
    ensures { result ≡ round_keys (value key) }
{
    let mut rounds = [Block::from(0); 40];
    let mut state = key;
    let mut c = 0;
    for round_key in rounds.iter_mut() {
        c = step_const(c);
        *round_key = key_bits(state) ^ const_bits(c);
        state = key_step(state);
    }
    RoundKeys { rounds }
}

// The block that forty rounds make of x, adding the round keys a.
pub fn encipher_block(a: RoundKeys, x: Block) -> Block
    ensures { result ≡ halves (enciphers a (value x)) }
{
    forty_rounds(false, a, x)
}

// The block from which those rounds make x: the rounds undone.
pub fn decipher_block(a: RoundKeys, x: Block) -> Block
    ensures { result ≡ halves (deciphers a (value x)) }
{
    forty_rounds(true, a, x)
}

// Both entry points; back tells which: a `bool`, as the definition of the cipher takes it.
fn crypt(back: bool, key: &[u8], block: &mut [u8]) -> Result<(), Refusal>
    ensures { answered (told result) block.new ≡ crypting back key.now block.old }
{
    refusal(key.len(), block.len())?;
    let a = round_keys_of(words::load(key, 0, 16));
    let x = words::load(block, 0, 16);
    words::store(block, 0, 16, forty_rounds(back, a, x));
    Ok(())
}

// The refusal that the lengths call for.
fn refusal(key: usize, block: usize) -> Result<(), Refusal>
    ensures { told result ≡ number_of (rows key block) }
{
    refuse(key != 16, Refusal::KeyLength)?;
    refuse(block != 16, Refusal::TextLength)
}

// One copy for all that call it: inlined, each way has its own, and a call takes 640 bytes more of stack.
#[inline(never)]
fn forty_rounds(back: bool, a: RoundKeys, x: Block) -> Block
    ensures { result ≡ halves (forty back (round_key_in a) (value x)) }
{
    let mut y = x;
    for r in 0..40 {
        let at = round_index(back, r);
        y = round_of(back, a.rounds[at], y);
    }
    y
}

// Which round key is added r-th.
fn round_index(back: bool, r: usize) -> usize
    requires { r < 40 }
    ensures { (result ≡ cond back (39 - r) r) × (result < 40) }
{
    if back { 39 - r } else { r }
}

// A round that adds a, or that round undone.
fn round_of(back: bool, a: Block, x: Block) -> Block
    ensures { result ≡ halves (round back (value a) (value x)) }
{
    if back {
        return sub_cells(back, perm_bits(back, x ^ a));
    }
    perm_bits(back, sub_cells(back, x)) ^ a
}

// Step 1, or undone.
fn sub_cells(back: bool, x: Block) -> Block
    ensures { result ≡ halves (sub_cells back (value x)) }
{
    let mut acc = Block::from(0);
    for j in 0..32 {
        acc = put(acc, 4 * j, sbox_of(back, bits_at(x, 4 * j, 4)));
    }
    acc
}

// Entry n of a number is its nibble n: the S-box as a number has no place in memory that a secret could tell.
const SBOX: u64 = 0xE8057BD293F6C4A1;

const SBOX_BACK: u64 = 0x5F93A17EB4C2680D;

fn sbox_of(back: bool, n: u64) -> u64
    requires { n < 16 }
    ensures { (result ≡ sbox back n) × (result < 16) }
{
    let sbox = if back { SBOX_BACK } else { SBOX };
    (sbox >> (4 * n)) % 16
}

// Step 2, or undone: bit i to its place, or from there.
fn perm_bits(back: bool, x: Block) -> Block
    ensures { result ≡ halves (perm_bits back (value x)) }
{
    let mut acc = Block::from(0);
    for i in 0..128 {
        let (from, to) = ends(back, i);
        acc = put(acc, to, bits_at(x, from, 1));
    }
    acc
}

// From where a bit moves, and to where.
fn ends(back: bool, i: usize) -> (u64, u64)
    requires { i < 128 }
    ensures { result ≡ (cond back (place i) i, cond back i (place i)) }
{
    let i_place = u64::from(PLACES[i]);
    // `as`: the library has no From between the two, and the number is proved to fit.
    if back {
        (i_place, i as u64)
    } else {
        (i as u64, i_place)
    }
}

// Step 3.
fn key_bits(k: Block) -> Block
    ensures { result ≡ halves (key_bits (value k)) }
{
    spread_of(2, 32, k.hi % 4294967296) ^ spread_of(1, 32, k.lo % 4294967296)
}

fn step_const(c: u64) -> u64
    requires { c < 64 }
    ensures { (result ≡ step_const c) × (result < 64) }
{
    c * 2 % 64 + (c / 32 % 2 + c / 16 % 2 + 1) % 2
}

// Step 4.
fn const_bits(c: u64) -> Block
    ensures { result ≡ halves (const_bits c) }
{
    put(spread_of(3, 6, c), 127, 1)
}

// Bit i of u at bit 4 i + o, for i from 0 to n - 1.
fn spread_of(o: u64, n: u64, u: u64) -> Block
    requires { (o < 4) × (n ≤ 32) }
    ensures { result ≡ halves (spread o n u) }
{
    let mut acc = Block::from(0);
    for i in 0..n {
        acc = put(acc, 4 * i + o, (u >> i) % 2);
    }
    acc
}

// Step 5.
fn key_step(k: Block) -> Block
    ensures { result ≡ halves (key_step (value k)) }
{
    // Cut by the remainder before: `as` loses nothing that is meant.
    let k1 = (k.lo / 65536 % 65536) as u16;
    let k0 = (k.lo % 65536) as u16;
    let a = u64::from(k1.rotate_right(2));
    let b = u64::from(k0.rotate_right(12));
    Block {
        lo: k.lo / 4294967296 + k.hi % 4294967296 * 4294967296,
        hi: k.hi / 4294967296 + b * 4294967296 + a * 281474976710656,
    }
}

// b with v, shifted to s, added; v does not reach over the middle.
fn put(b: Block, s: u64, v: u64) -> Block
    requires { (s < 128) × (v * 2 ^ (s % 64) < 2 ^ 64) }
    ensures { result ≡ halves (bit_xor (value b) (v * 2 ^ s)) }
{
    if s < 64 {
        Block {
            lo: b.lo ^ (v << s),
            hi: b.hi,
        }
    } else {
        Block {
            lo: b.lo,
            hi: b.hi ^ (v << (s - 64)),
        }
    }
}

// w bits of b from s on; they do not reach over the middle.
fn bits_at(b: Block, s: u64, w: u64) -> u64
    requires { (s < 128) × (s % 64 + w ≤ 64) × (w < 64) }
    ensures { result ≡ value b / 2 ^ s % 2 ^ w }
{
    let m: u64 = 1 << w;
    if s < 64 {
        (b.lo >> s) % m
    } else {
        (b.hi >> (s - 64)) % m
    }
}
