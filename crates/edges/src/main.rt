// Runs document 01's edges, and those of K2 and K3, and prints what each call answered and left, a line for each case.
// The modules say what their lines hold; numbers are in decimal, bytes in hex, the first byte first, `-` for none.
#![tactic(auto)]

ghost use Rattle.std.specs.Prelude.{◌≤◌, length};

mod batches; // batches.rt: cards sealed in one go
mod cards; // cards.rt: sealing and opening
mod draws; // draws.rt: the drawer of nonces
mod keys; // keys.rt: the key books
mod streams; // streams.rt: the key stream

use answers::{Refusal, told};

// Where a program prints.
pub(crate) const STDOUT_FILENO: i32 = 1;

fn main() {
    cards::cards();
    draws::draws();
    keys::keys();
    streams::streams();
    batches::batches();
}

// Bytes by a rule of the place, the same in each run.
// Rooms here and in the modules are arrays, filled before a call and shown after it: the program takes no memory.
fn fill(s: &mut [u8], salt: usize)
    requires { (salt ≤ 255) × (length s.old ≤ 65537) }
{
    for (i, byte) in s.iter_mut().enumerate() {
        *byte = ((salt + 29 * i + 17 * (i / 256)) % 256) as u8;
    }
}

// The first n bytes of s, or all.
fn first_mut(s: &mut [u8], n: usize) -> &mut [u8] {
    let most = n.min(s.len());
    &mut s[..most]
}

fn put_number(n: u64) {
    io::write_all(STDOUT_FILENO, b" ");
    io::print_decimal(STDOUT_FILENO, n);
}

// Four lines that packs has too: a crate for them would be no plainer.
fn put_numbers(numbers: &[usize]) {
    for &n in numbers {
        put_number(n as u64);
    }
}

// The number of what was answered.
fn put_answer<T>(answer: &Result<T, Refusal>) {
    put_number(u64::from(told(answer)));
}

// A space and bytes, at most 208.
fn put_bytes(s: &[u8]) {
    let mut shown = [0u8; 416];
    io::write_all(STDOUT_FILENO, b" ");
    if let Ok(n) = hexadecimal::show(s, &mut shown) {
        io::write_all(STDOUT_FILENO, words::first(&shown, n));
    }
}
