// The drawer of nonces: numbers that never repeat, for sealing and for wide blocks.
#![tactic(auto)]

ghost use Rattle.std.specs.Prelude.{◌≡◌};
ghost use Rattle.answers.specs.Told.{told};
ghost use Rattle.drawer.specs.Drawer.{for_nonce, for_iv, started, nonce, remaining, Drawing};
ghost use Rattle.drawer.specs.Drawn.{bytes_of, next_of};

use answers::{Refusal, refuse};

// What C keeps between two draws, and lends by value: so its layout is C's.
#[repr(C)]
#[derive(Clone, Copy)]
pub struct Drawer {
    pub reader: u32,
    pub count: u64,
}

// What a draw gives: its bytes, 12 of a nonce or 48 of an iv, and the drawer for the next draw.
#[derive(Clone, Copy)]
pub struct Drawn<const N: usize> {
    pub bytes: [u8; N],
    pub next: Drawer,
}

// The drawer with this reader number and this count.
pub fn start(reader: u32, count: u64) -> Drawer
    ensures { result ≡ started reader count }
{
    Drawer { reader, count }
}

// A nonce: the bytes of the reader number and the count, and the next drawer, whose count is greater by one. Whoever
// goes on drawing from d, and not from the next drawer, draws the same nonce again.
pub fn draw(d: Drawer) -> Result<Drawn<12>, Refusal>
    ensures { Drawing for_nonce (told result) d (bytes_of 12 result) (next_of 12 d result) }
{
    refuse(remaining(d) == 0, Refusal::DrawerSpent)?;
    Ok(Drawn {
        bytes: next_nonce(d),
        next: start(d.reader, d.count + 1),
    })
}

// An iv: one draw, written four times, and the next drawer.
pub fn iv(d: Drawer) -> Result<Drawn<48>, Refusal>
    ensures { Drawing for_iv (told result) d (bytes_of 48 result) (next_of 48 d result) }
{
    let one = draw(d)?;
    let nonce = one.bytes;
    let mut bytes = [0u8; 48]; // an array: its length is fixed, and the archive has no heap
    bytes.copy_from_slice([nonce; 4].as_flattened());
    Ok(Drawn {
        bytes,
        next: one.next,
    })
}

// How many counts are left to draw: the last one, 2^64 - 1, is never drawn.
pub fn remaining(d: Drawer) -> u64
    ensures { result ≡ remaining d }
{
    u64::MAX - d.count
}

// The bytes of a nonce.
pub type Nonce = [u8; 12];

// The nonce that a drawer draws next, unless it is spent: its reader number in four bytes, then its count in eight,
// both little-endian.
pub fn next_nonce(d: Drawer) -> Nonce
    ensures { result ≡ nonce d }
{
    let mut b = [0u8; 12];
    b[..4].copy_from_slice(&d.reader.to_le_bytes());
    b[4..].copy_from_slice(&d.count.to_le_bytes());
    b
}
