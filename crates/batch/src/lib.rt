// Twelve cards at a time: texts that lie end to end are sealed one by one, each with the next draw of a drawer.
#![tactic(auto)]

ghost use Rattle.std.specs.Prelude.{◌≡◌, ◌≤◌, length};
ghost use Rattle.answers.specs.Told.{told};
ghost use Rattle.answers.specs.Answers.{number_of};
ghost use Rattle.drawer.specs.Drawer.{remaining};
ghost use Rattle.batch.specs.Batch.{Sealed, inputs, singly, rows, Batching};
ghost use Rattle.batch.specs.Next.{next_of};
ghost use Rattle.batch.specs.Steps.{Allowed, one_card};

use answers::{Refusal, refuse};
use drawer::{Drawer, Drawn};

// Seals texts, which lie end to end and have these lengths, with the next draws of the drawer, and answers the drawer
// for the next draw. Writes the ciphertexts end to end to room, whose rest keeps its bytes, and to tags the tags, 16
// bytes each.
pub fn seal(
    key: &[u8],
    data: &[u8],
    texts: &[u8],
    lengths: &[u64],
    drawer: Drawer,
    room: &mut [u8],
    tags: &mut [u8],
) -> Result<Drawer, Refusal>
    ensures { Batching (told result) (inputs key.now «data».now texts.now
        lengths.now drawer) room.old tags.old room.new tags.new
        (next_of drawer result) }
{
    refusal(
        key.len(),
        data.len(),
        texts.len(),
        lengths,
        drawer,
        room.len(),
        tags.len(),
    )?;
    Ok(seal_each(key, data, texts, lengths, drawer, room, tags))
}

// The rows, as they stand in the document.
fn refusal(
    key: usize,
    data: usize,
    text: usize,
    lengths: &[u64],
    d: Drawer,
    room: usize,
    tags: usize,
) -> Result<(), Refusal>
    ensures { told result ≡ number_of (rows key «data» text lengths.now d room tags) }
{
    let n = lengths.len();
    refuse(key != 16, Refusal::KeyLength)?;
    refuse(data > 65536, Refusal::DataLength)?;
    refuse(lengths::any_above(lengths, 1048576), Refusal::TextLength)?;
    refuse(n.checked_mul(16) != Some(tags), Refusal::TagLength)?;
    refuse(room < text, Refusal::RoomLength)?;
    // `as`, here and below: the number is proved to fit, so that `try_from` would add an error that cannot come.
    refuse(drawer::remaining(d) < n as u64, Refusal::DrawerSpent)?;
    refuse(n == 0, Refusal::BatchForm)?;
    refuse(n > 12, Refusal::BatchForm)?;
    refuse(!lengths::add_up(lengths, text as u64), Refusal::BatchForm)
}

// All cards, in order; answers the drawer behind the last draw.
fn seal_each(
    key: &[u8],
    data: &[u8],
    texts: &[u8],
    lengths: &[u64],
    d: Drawer,
    room: &mut [u8],
    tags: &mut [u8],
) -> Drawer
    requires { Allowed (inputs key.now «data».now texts.now lengths.now d)
        room.old tags.old }
    ensures { ◌≡◌ {A = Sealed} (record { room = room.new; tags = tags.new; next = result })
        (singly key.now «data».now texts.now lengths.now d
        room.old tags.old) }
{
    let mut next = d;
    let mut at = 0;
    for (i, n) in lengths.iter().enumerate() {
        let end = at + *n as usize;
        let tag = 16 * i;
        let tag_end = tag + 16;
        next = seal_card(
            key,
            data,
            &texts[at..end],
            next,
            &mut room[at..end],
            &mut tags[tag..tag_end],
        );
        at = end;
    }
    next
}

// One card, with the next draw.
fn seal_card(
    key: &[u8],
    data: &[u8],
    text: &[u8],
    d: Drawer,
    room: &mut [u8],
    tag: &mut [u8],
) -> Drawer
    requires { (length key.now ≡ 16) × (length «data».now ≤ 65536) × (length text.now ≤ 1048576)
        × (1 ≤ remaining d) × (length room.old ≡ length text.now) × (length tag.old ≡ 16) }
    ensures { ◌≡◌ {A = Sealed} (record { room = room.new; tags = tag.new; next = result })
        (one_card key.now «data».now text.now d room.old tag.old) }
{
    // A draw is left, which is proved. An `unwrap` would be a jump on the count all the same, for each card.
    let none = Drawn {
        bytes: [0; 12],
        next: d,
    };
    let drawn = drawer::draw(d).unwrap_or(none);
    let nonce = drawn.bytes;
    // No length is refused, which is proved.
    hyena::seal(key, &nonce, data, text, room, tag).unwrap();
    drawn.next
}
