// LIONESS on a wide block, both ways, of ChaCha20 and BLAKE2b.
#![tactic(auto)]

ghost use Rattle.std.specs.Prelude.{◌≡◌, ◌++◌, ◌≤◌, length, IfOk};
ghost use Rattle.words.specs.Bytes.{plus};
ghost use Rattle.answers.specs.Answers.{number_of, answered, answer};
ghost use Rattle.answers.specs.Told.{told};
ghost use Rattle.lioness.specs.Lioness.{piece, left, stream_step, digest_step};
ghost use Rattle.lioness.specs.Steps.{number_of_step, run};
ghost use Rattle.lioness.specs.Entry.{chacha, blake, rows, Enciphering, Deciphering};

use answers::{Refusal, refuse};

// Enciphers block in place.
pub fn encipher(key: &[u8], iv: &[u8], block: &mut [u8]) -> Result<(), Refusal>
    ensures { Enciphering (told result) key.now iv.now block.old block.new }
{
    in_order(
        [Step::First, Step::Second, Step::Third, Step::Fourth],
        key,
        iv,
        block,
    )
}

// Deciphers block in place.
pub fn decipher(key: &[u8], iv: &[u8], block: &mut [u8]) -> Result<(), Refusal>
    ensures { Deciphering (told result) key.now iv.now block.old block.new }
{
    in_order(
        [Step::Fourth, Step::Third, Step::Second, Step::First],
        key,
        iv,
        block,
    )
}

// Both entry points: the four steps in an order.
fn in_order(order: [Step; 4], key: &[u8], iv: &[u8], block: &mut [u8]) -> Result<(), Refusal>
    ensures { answered (told result) block.new ≡ answer (rows (length key.now) (length iv.now)
        (length block.old)) (run key.now iv.now order block.old) block.old }
{
    let keys = allowed(key, iv, block.len())?;
    for step in order {
        // No match: of four arms the compiler makes a table of jumps, and the archive has none.
        if step.number() % 2 == 1 {
            keys.stream_step(step, block);
        } else {
            keys.digest_step(step, block);
        }
    }
    Ok(())
}

// Key and iv with the lengths they have to have, or the refusal that the lengths call for: the rows, as they stand. So
// the compiler sees the lengths, and makes the steps' sums for these and not for any.
fn allowed<'a>(key: &'a [u8], iv: &'a [u8], block: usize) -> Result<Keys<'a>, Refusal>
    ensures number { told result ≡ number_of (rows (length key.now) (length iv.now) block) }
    ensures keys { IfOk result (λ k. (k.key.now ≡ key.now) × (k.iv.now ≡ iv.now)) }
{
    // By let .. else: of `map_err(|_| ..)?` the check does not find the proof.
    let Ok(key) = <&[u8; 128]>::try_from(key) else {
        return Err(Refusal::KeyLength);
    };
    let Ok(iv) = <&[u8; 48]>::try_from(iv) else {
        return Err(Refusal::NonceLength);
    };
    refuse(block < 33, Refusal::TextLength)?;
    refuse(block > 1048608, Refusal::TextLength)?;
    Ok(Keys { key, iv })
}

// A step, which takes the part of this number of key and iv.
#[derive(Clone, Copy, Drop)]
enum Step {
    First = 1,
    Second = 2,
    Third = 3,
    Fourth = 4,
}

impl Step {
    fn number(self) -> usize
        ensures { (result ≡ number_of_step self) × (1 ≤ result) × (result ≤ 4) }
    {
        self as usize // the language's own way from an enum to its number
    }
}

// Key and iv, of the lengths they have to have.
#[derive(Drop)]
struct Keys<'a> {
    key: &'a [u8; 128],
    iv: &'a [u8; 48],
}

impl<'a> Keys<'a> {
    // Enciphers R there in the caller's buffer, under L plus the part of the key.
    fn stream_step(&self, step: Step, block: &mut [u8])
        requires { (33 ≤ length block.old) × (length block.old ≤ 1048608) }
        ensures { block.new ≡ stream_step chacha self.now.key.now self.now.iv.now (number_of_step step)
            block.old }
    {
        let mut k = [0u8; 32]; // an array: its length is fixed, and the archive has no heap
        words::add(&mut k, 0, block, 0, 32);
        words::add(&mut k, 0, self.key_part(step), 0, 32);
        // Nothing is refused at these lengths.
        let _ = chacha::stream(&k, self.iv_part(step), 0, &mut block[32..]);
    }

    // Adds the digest of R to L, under the parts of key and iv, one behind the other.
    fn digest_step(&self, step: Step, block: &mut [u8])
        requires { (33 ≤ length block.old) × (length block.old ≤ 1048608) }
        ensures { block.new ≡ digest_step blake self.now.key.now self.now.iv.now (number_of_step step)
            block.old }
    {
        let mut joined = [0u8; 44];
        words::add(&mut joined, 0, self.key_part(step), 0, 32);
        words::add(&mut joined, 32, self.iv_part(step), 0, 12);
        let mut d = [0u8; 64];
        // Nothing is refused at these lengths.
        let _ = blake::digest(&joined, &block[32..], &mut d);
        words::add(&mut block[..32], 0, &d, 0, 32);
    }

    // Its part of the key, and below of the iv: two functions, as each has its length from its array's type.
    fn key_part(&self, step: Step) -> &[u8]
        ensures part { result.now ≡ piece 32 (number_of_step step) self.now.key.now }
        ensures len { length result.now ≡ 32 }
    {
        let key = self.key;
        let end = 32 * step.number();
        &key[end - 32..end]
    }

    fn iv_part(&self, step: Step) -> &[u8]
        ensures part { result.now ≡ piece 12 (number_of_step step) self.now.iv.now }
        ensures len { length result.now ≡ 12 }
    {
        let iv = self.iv;
        let end = 12 * step.number();
        &iv[end - 12..end]
    }
}
