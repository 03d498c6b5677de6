// HyENA: sealing a text with associated data, and opening it again. Six entry points, each with the parameters that
// document 01 gives it; all of them are `sealed` and `opened` below.
#![tactic(auto)]

ghost use Rattle.std.specs.Prelude.{◌≡◌, ◌+◌, ◌≤◌, length, replicate};
ghost use Rattle.std.proofs.lemmas.List.Edits.{sets};
ghost use Rattle.words.specs.Block.{value, halves, part};
ghost use Rattle.words.specs.Bytes.{over};
ghost use Rattle.answers.specs.Answers.{number_of};
ghost use Rattle.answers.specs.Told.{told};
ghost use Rattle.mode.specs.Hyena.{output, after_data, text_block, after_text, outputs, tag};
ghost use Rattle.hyena_blocks.specs.Steps.{enciphers, held_x, read_y, read_x};
ghost use Rattle.hyena.specs.Entry.{rows, inputs, short, Sealing, Opening, gift};
ghost use Rattle.hyena.specs.Source.{source};

use answers::{Refusal, refuse};
use hyena_blocks::keyed::Keyed;
use hyena_blocks::{StateX, StateY};
use words::Block;

// Writes the ciphertext of text to room, whose rest keeps its bytes, and its tag to tag.
pub fn seal(
    key: &[u8],
    nonce: &[u8],
    data: &[u8],
    text: &[u8],
    room: &mut [u8],
    tag: &mut [u8],
) -> Result<(), Refusal>
    ensures { Sealing gift (told result) (inputs key.now nonce.now «data».now
        text.now) room.old tag.old room.new tag.new }
{
    sealed(key, nonce, data, Some(text), room, tag)
}

// Writes the text of ciphertext to room, whose rest keeps its bytes, if tag is its tag, and as many zeros if it is not.
pub fn open(
    key: &[u8],
    nonce: &[u8],
    data: &[u8],
    ciphertext: &[u8],
    tag: &[u8],
    room: &mut [u8],
) -> Result<(), Refusal>
    ensures { Opening gift (told result) (inputs key.now nonce.now «data».now
        ciphertext.now) tag.now room.old room.new }
{
    opened(key, nonce, data, Some(ciphertext), tag, room)
}

// Seals the text that buffer holds in place: `seal` with the buffer for both text and room.
pub fn seal_in_place(
    key: &[u8],
    nonce: &[u8],
    data: &[u8],
    buffer: &mut [u8],
    tag: &mut [u8],
) -> Result<(), Refusal>
    ensures { Sealing gift (told result) (inputs key.now nonce.now «data».now
        buffer.old) buffer.old tag.old buffer.new tag.new }
{
    sealed(key, nonce, data, None, buffer, tag)
}

// Opens the ciphertext that buffer holds in place: `open` with the buffer for both ciphertext and room. If tag is not
// its tag, the ciphertext is gone too.
pub fn open_in_place(
    key: &[u8],
    nonce: &[u8],
    data: &[u8],
    buffer: &mut [u8],
    tag: &[u8],
) -> Result<(), Refusal>
    ensures { Opening gift (told result) (inputs key.now nonce.now «data».now
        buffer.old) tag.now buffer.old buffer.new }
{
    opened(key, nonce, data, None, tag, buffer)
}

// The associated data of the short forms.
const SHORT_DATA: [u8; 0] = [];

// Seals without associated data: `seal` with that of the short form, which is empty.
pub fn seal_short(
    key: &[u8],
    nonce: &[u8],
    text: &[u8],
    room: &mut [u8],
    tag: &mut [u8],
) -> Result<(), Refusal>
    ensures { Sealing gift (told result) (short key.now nonce.now text.now)
        room.old tag.old room.new tag.new }
{
    seal(key, nonce, &SHORT_DATA, text, room, tag)
}

// Opens what was sealed without associated data: `open` with that of the short form, which is empty.
pub fn open_short(
    key: &[u8],
    nonce: &[u8],
    ciphertext: &[u8],
    tag: &[u8],
    room: &mut [u8],
) -> Result<(), Refusal>
    ensures { Opening gift (told result) (short key.now nonce.now ciphertext.now)
        tag.now room.old room.new }
{
    open(key, nonce, &SHORT_DATA, ciphertext, tag, room)
}

// Seals text or, where there is none beside it, in place what room holds. Each entry point calls it, and none has a
// copy of it, which would take 1 kB of the archive. Key, nonce and data stay apart: a step of its own takes each.
#[inline(never)]
fn sealed(
    key: &[u8],
    nonce: &[u8],
    data: &[u8],
    text: Option<&[u8]>,
    room: &mut [u8],
    tag: &mut [u8],
) -> Result<(), Refusal>
    ensures { Sealing gift (told result) (inputs key.now nonce.now «data».now
        (source text.entry room.old)) room.old tag.old
        room.new tag.new }
{
    let n = text.unwrap_or(room).len();
    refusal(key.len(), nonce.len(), data.len(), n, tag.len(), room.len())?;
    let t = run(false, key, nonce, data, text, room);
    words::store(tag, 0, 16, t);
    Ok(())
}

// Opens ciphertext or, where there is none beside it, what room holds, in the same way.
#[inline(never)]
fn opened(
    key: &[u8],
    nonce: &[u8],
    data: &[u8],
    ciphertext: Option<&[u8]>,
    tag: &[u8],
    room: &mut [u8],
) -> Result<(), Refusal>
    ensures { Opening gift (told result) (inputs key.now nonce.now «data».now
        (source ciphertext.entry room.old)) tag.now room.old
        room.new }
{
    let n = ciphertext.unwrap_or(room).len();
    refusal(key.len(), nonce.len(), data.len(), n, tag.len(), room.len())?;
    let t = run(true, key, nonce, data, ciphertext, room);
    if words::equal(words::load(tag, 0, 16), t) {
        return Ok(());
    }
    wipe(room, n);
    Err(Refusal::WrongTag)
}

// The refusal that the lengths call for.
fn refusal(
    key: usize,
    nonce: usize,
    data: usize,
    text: usize,
    tag: usize,
    room: usize,
) -> Result<(), Refusal>
    ensures { told result ≡ number_of (rows key nonce «data» text tag room) }
{
    refuse(key != 16, Refusal::KeyLength)?;
    refuse(nonce != 12, Refusal::NonceLength)?;
    refuse(data > 65536, Refusal::DataLength)?;
    refuse(text > 1048576, Refusal::TextLength)?;
    refuse(tag != 16, Refusal::TagLength)?;
    refuse(room < text, Refusal::RoomLength)
}

// Both ways, where nothing is refused: works on text or, where there is none, on what room holds; writes what comes out
// to room, as far as that goes, and answers the tag. Whether it opens is a `bool`, as the definition takes it.
fn run(
    opening: bool,
    key: &[u8],
    nonce: &[u8],
    data: &[u8],
    text: Option<&[u8]>,
    room: &mut [u8],
) -> Block
    requires { (length key.now ≡ 16) × (length nonce.now ≡ 12) }
    ensures { (result ≡ halves (tag (gift key.now) opening nonce.now «data».now
        (source text.entry room.old)))
        × (room.new ≡ sets room.old 0
        (outputs (gift key.now) opening nonce.now «data».now
        (source text.entry room.old))) }
{
    let e = hyena_blocks::keyed::keyed_of(words::load(key, 0, 16));
    let n = text.unwrap_or(room).len();
    let s = hyena_blocks::start(e, nonce, data.len(), n);
    let t = all_data(e, s, data);
    let u = all_text(opening, e, t, text, room);
    hyena_blocks::tag_of(e, u)
}

// All of the associated data.
fn all_data(e: Keyed, b: StateY, data: &[u8]) -> StateX
    ensures { result ≡ held_x (after_data (enciphers e) (read_y b) «data».now) }
{
    if data.is_empty() {
        return hyena_blocks::data_last(b, 2, Block::from(1), 16);
    }
    let n = (data.len() - 1) / 16;
    let mut s = b;
    // By number, and not by `chunks`: the last block, which is fed in another way, is the one behind them.
    for i in 0..n {
        s = hyena_blocks::data_block(e, s, words::load(data, 16 * i, 16));
    }
    let last = data.len() - 16 * n;
    let doublings = if last == 16 { 1 } else { 2 };
    hyena_blocks::data_last(s, doublings, words::load(data, 16 * n, last), last)
}

// All of text or, where there is none, of what room holds. What comes out goes to room; what that is too short for is
// not written.
fn all_text(opening: bool, e: Keyed, t: StateX, text: Option<&[u8]>, room: &mut [u8]) -> StateX
    ensures { (result ≡ held_x (after_text (enciphers e) opening (read_x t)
        (source text.entry room.old)))
        × (room.new ≡ sets room.old 0
        (after_text (enciphers e) opening (read_x t)
        (source text.entry room.old)).out) }
{
    let len = text.unwrap_or(room).len();
    if len == 0 {
        return t;
    }
    let n = (len - 1) / 16;
    let mut s = t;
    for i in 0..n {
        s = text_part(opening, e, s, 1, text, 16 * i, 16, room);
    }
    let last = len - 16 * n;
    let doublings = if last == 16 { 2 } else { 3 };
    text_part(opening, e, s, doublings, text, 16 * n, last, room)
}

// The block of n bytes from at on, what comes out of it to the same place of room.
fn text_part(
    opening: bool,
    e: Keyed,
    t: StateX,
    k: u64,
    text: Option<&[u8]>,
    at: usize,
    n: usize,
    room: &mut [u8],
) -> StateX
    requires { (n ≤ 16) × (at + n ≤ length (source text room.old)) }
    ensures { (result ≡ held_x (text_block (enciphers e) opening k (read_x t)
        (part (source text.entry room.old) at n)))
        × (room.new ≡ sets room.old at
        (output (part (source text.entry room.old) at n)
        (enciphers e (value t.x)))) }
{
    let source = text.unwrap_or(room);
    let d = words::load(source, at, n);
    let u = hyena_blocks::text_block(opening, e, t, k, d, n);
    words::store(room, at, n, u.out);
    u.state
}

// Zeros in the first n bytes of room.
fn wipe(room: &mut [u8], n: usize)
    requires { n ≤ length room.old }
    ensures { room.new ≡ over (replicate n 0) room.old }
{
    room[..n].fill(0);
}
