// A card as shelves hold it: "a 12-byte nonce, a two-byte little-endian length, the ciphertext and its tag".
#![tactic(auto)]

ghost use Rattle.std.specs.Prelude.{◌≡◌, ◌+◌, ◌≤◌, length};
ghost use Rattle.words.specs.Bytes.{over};
ghost use Rattle.answers.specs.Told.{told};
ghost use Rattle.answers.specs.Answers.{number_of};
ghost use Rattle.hyena.specs.Entry.{inputs};
ghost use Rattle.sealed_card.specs.SealedCard.{card_of, seal_rows, Sealing, length_in, open_rows, Opening};

use answers::{Refusal, refuse};

// Writes the card of text to room, whose rest keeps its bytes.
pub fn seal(
    key: &[u8],
    nonce: &[u8],
    data: &[u8],
    text: &[u8],
    room: &mut [u8],
) -> Result<(), Refusal>
    ensures { Sealing (told result) (inputs key.now nonce.now «data».now
        text.now) room.old room.new }
{
    seal_refusal(key.len(), nonce.len(), data.len(), text.len(), room.len())?;
    write(key, nonce, data, text, room);
    Ok(())
}

// Writes the text of a card to room, whose rest keeps its bytes, if the tag is right, and as many zeros if it is not.
pub fn open(key: &[u8], data: &[u8], card: &[u8], room: &mut [u8]) -> Result<(), Refusal>
    ensures { Opening (told result) key.now «data».now card.now room.old
        room.new }
{
    let n = length_in(card);
    open_refusal(key.len(), data.len(), card.len(), n, room.len())?;
    let end = 14 + usize::from(n);
    hyena::open(key, &card[..12], data, &card[14..end], &card[end..], room)
}

// The length that a card says its text has.
fn length_in(card: &[u8]) -> u16
    ensures { result ≡ length_in card.now }
{
    words::two(card, 12)
}

fn seal_refusal(
    key: usize,
    nonce: usize,
    data: usize,
    text: usize,
    room: usize,
) -> Result<(), Refusal>
    ensures { told result ≡ number_of (seal_rows key nonce «data» text room) }
{
    refuse(key != 16, Refusal::KeyLength)?;
    refuse(nonce != 12, Refusal::NonceLength)?;
    refuse(data > 65536, Refusal::DataLength)?;
    refuse(text > 65535, Refusal::TextLength)?;
    refuse(room < text + 30, Refusal::RoomLength)
}

fn open_refusal(key: usize, data: usize, card: usize, text: u16, room: usize) -> Result<(), Refusal>
    ensures { told result ≡ number_of (open_rows key «data» card text room) }
{
    let text = usize::from(text);
    refuse(key != 16, Refusal::KeyLength)?;
    refuse(data > 65536, Refusal::DataLength)?;
    refuse(card < text + 30, Refusal::CutShort)?;
    refuse(text + 30 < card, Refusal::LeftOver)?;
    refuse(room < text, Refusal::RoomLength)
}

// The four parts, one behind the other.
fn write(key: &[u8], nonce: &[u8], data: &[u8], text: &[u8], room: &mut [u8])
    requires { (length key.now ≡ 16) × (length nonce.now ≡ 12) × (length «data».now ≤ 65536)
        × (length text.now ≤ 65535) × (length text.now + 30 ≤ length room.old) }
    ensures { room.new ≡ over (card_of (inputs key.now nonce.now
        «data».now text.now)) room.old }
{
    let (front, rest) = room.split_at_mut(12);
    let (length, rest) = rest.split_at_mut(2);
    let (ciphertext, rest) = rest.split_at_mut(text.len());
    front.copy_from_slice(nonce);
    length.copy_from_slice(&(text.len() as u16).to_le_bytes()); // `as`: it is proved to fit
    // None of these lengths is refused, which is proved: nothing is left to test when it runs.
    hyena::seal(key, nonce, data, text, ciphertext, &mut rest[..16]).unwrap();
}
