// What C and Rust link. Each function but the last two is a thin call with the whole promise of what it calls, by its
// name; a slice crosses as a pointer and a length, a struct by value, a refusal as its number.
#![tactic(auto)]

ghost use Rattle.std.specs.Prelude.{◌≡◌};
ghost use Rattle.words.specs.Search.{same};
ghost use Rattle.gift.specs.Entry as gift;
ghost use Rattle.hyena.specs.Entry as hyena;
ghost use Rattle.chacha.specs.Entry as chacha;
ghost use Rattle.blake.specs.Entry as blake;
ghost use Rattle.lioness.specs.Entry as lioness;
ghost use Rattle.drawer.specs.Drawer.{for_nonce, for_iv, started, Drawing};
ghost use Rattle.batch.specs.Batch as batch;
ghost use Rattle.books.specs.Entry as books;
ghost use Rattle.sealed_card.specs.SealedCard as sealedCard;
ghost use Rattle.drawer_file.specs.DrawerFile.{storing, Loading};
ghost use Rattle.pack.specs.Reader.{read_at, told, judged};
ghost use Rattle.vespruldo.specs.Told.{in_words, judged_in_words};

use answers::told;
use drawer::Drawer;
use structs::{Batch, Drawn, DrawnIv, Found, Loaded, PackCard, PackJudged, Stored, Streamed};

mod structs; // structs.rt: what C is handed by value

#[unsafe(no_mangle)]
pub extern "C" fn vespruldo_gift_encipher(key: &[u8], block: &mut [u8]) -> u32
    ensures { gift.Enciphering result key.now block.old block.new }
{
    told(&gift::encipher(key, block))
}

#[unsafe(no_mangle)]
pub extern "C" fn vespruldo_gift_decipher(key: &[u8], block: &mut [u8]) -> u32
    ensures { gift.Deciphering result key.now block.old block.new }
{
    told(&gift::decipher(key, block))
}

#[unsafe(no_mangle)]
pub extern "C" fn vespruldo_seal(
    key: &[u8],
    nonce: &[u8],
    data: &[u8],
    text: &[u8],
    room: &mut [u8],
    tag: &mut [u8],
) -> u32
    ensures { hyena.Sealing hyena.gift result (hyena.inputs key.now nonce.now
        «data».now text.now) room.old tag.old room.new
        tag.new }
{
    told(&hyena::seal(key, nonce, data, text, room, tag))
}

#[unsafe(no_mangle)]
pub extern "C" fn vespruldo_open(
    key: &[u8],
    nonce: &[u8],
    data: &[u8],
    ciphertext: &[u8],
    tag: &[u8],
    room: &mut [u8],
) -> u32
    ensures { hyena.Opening hyena.gift result (hyena.inputs key.now nonce.now
        «data».now ciphertext.now) tag.now room.old room.new }
{
    told(&hyena::open(key, nonce, data, ciphertext, tag, room))
}

#[unsafe(no_mangle)]
pub extern "C" fn vespruldo_seal_short(
    key: &[u8],
    nonce: &[u8],
    text: &[u8],
    room: &mut [u8],
    tag: &mut [u8],
) -> u32
    ensures { hyena.Sealing hyena.gift result (hyena.short key.now nonce.now
        text.now) room.old tag.old room.new tag.new }
{
    told(&hyena::seal_short(key, nonce, text, room, tag))
}

#[unsafe(no_mangle)]
pub extern "C" fn vespruldo_open_short(
    key: &[u8],
    nonce: &[u8],
    ciphertext: &[u8],
    tag: &[u8],
    room: &mut [u8],
) -> u32
    ensures { hyena.Opening hyena.gift result (hyena.short key.now nonce.now
        ciphertext.now) tag.now room.old room.new }
{
    told(&hyena::open_short(key, nonce, ciphertext, tag, room))
}

#[unsafe(no_mangle)]
pub extern "C" fn vespruldo_seal_in_place(
    key: &[u8],
    nonce: &[u8],
    data: &[u8],
    buffer: &mut [u8],
    tag: &mut [u8],
) -> u32
    ensures { hyena.Sealing hyena.gift result (hyena.inputs key.now nonce.now
        «data».now buffer.old) buffer.old tag.old buffer.new
        tag.new }
{
    told(&hyena::seal_in_place(key, nonce, data, buffer, tag))
}

#[unsafe(no_mangle)]
pub extern "C" fn vespruldo_open_in_place(
    key: &[u8],
    nonce: &[u8],
    data: &[u8],
    buffer: &mut [u8],
    tag: &[u8],
) -> u32
    ensures { hyena.Opening hyena.gift result (hyena.inputs key.now nonce.now
        «data».now buffer.old) tag.now buffer.old buffer.new }
{
    told(&hyena::open_in_place(key, nonce, data, buffer, tag))
}

#[unsafe(no_mangle)]
pub extern "C" fn vespruldo_card_seal(
    key: &[u8],
    nonce: &[u8],
    data: &[u8],
    text: &[u8],
    room: &mut [u8],
) -> u32
    ensures { sealedCard.Sealing result (hyena.inputs key.now nonce.now «data».now
        text.now) room.old room.new }
{
    told(&sealed_card::seal(key, nonce, data, text, room))
}

#[unsafe(no_mangle)]
pub extern "C" fn vespruldo_card_open(key: &[u8], data: &[u8], card: &[u8], room: &mut [u8]) -> u32
    ensures { sealedCard.Opening result key.now «data».now card.now
        room.old room.new }
{
    told(&sealed_card::open(key, data, card, room))
}

#[unsafe(no_mangle)]
pub extern "C" fn vespruldo_chacha20(
    key: &[u8],
    nonce: &[u8],
    start: u64,
    text: &mut [u8],
) -> Streamed
    ensures { chacha.Streaming result.number result.next key.now nonce.now start
        text.old text.new }
{
    Streamed::of(chacha::stream(key, nonce, start, text), start)
}

#[unsafe(no_mangle)]
pub extern "C" fn vespruldo_blake2b(key: &[u8], text: &[u8], digest: &mut [u8]) -> u32
    ensures { blake.Digesting result key.now text.now digest.old
        digest.new }
{
    told(&blake::digest(key, text, digest))
}

#[unsafe(no_mangle)]
pub extern "C" fn vespruldo_lioness_encipher(key: &[u8], iv: &[u8], block: &mut [u8]) -> u32
    ensures { lioness.Enciphering result key.now iv.now block.old
        block.new }
{
    told(&lioness::encipher(key, iv, block))
}

#[unsafe(no_mangle)]
pub extern "C" fn vespruldo_lioness_decipher(key: &[u8], iv: &[u8], block: &mut [u8]) -> u32
    ensures { lioness.Deciphering result key.now iv.now block.old
        block.new }
{
    told(&lioness::decipher(key, iv, block))
}

#[unsafe(no_mangle)]
pub extern "C" fn vespruldo_drawer_start(reader: u32, count: u64) -> Drawer
    ensures { result ≡ started reader count }
{
    drawer::start(reader, count)
}

#[unsafe(no_mangle)]
pub extern "C" fn vespruldo_drawer_draw(drawer: Drawer) -> Drawn
    ensures { Drawing for_nonce result.number drawer result.bytes result.next }
{
    Drawn::of(drawer::draw(drawer), drawer)
}

#[unsafe(no_mangle)]
pub extern "C" fn vespruldo_drawer_iv(drawer: Drawer) -> DrawnIv
    ensures { Drawing for_iv result.number drawer result.bytes result.next }
{
    DrawnIv::of(drawer::iv(drawer), drawer)
}

#[unsafe(no_mangle)]
pub extern "C" fn vespruldo_drawer_store(drawer: Drawer) -> Stored
    ensures { result.bytes ≡ storing drawer }
{
    Stored {
        bytes: drawer_file::store(drawer),
    }
}

#[unsafe(no_mangle)]
pub extern "C" fn vespruldo_drawer_load(bytes: &[u8]) -> Loaded
    ensures { Loading result.number bytes.now result.drawer }
{
    Loaded::of(drawer_file::load(bytes))
}

#[unsafe(no_mangle)]
pub extern "C" fn vespruldo_seal_batch(
    key: &[u8],
    data: &[u8],
    texts: &[u8],
    lengths: &[u64],
    drawer: Drawer,
    room: &mut [u8],
    tags: &mut [u8],
) -> Batch
    ensures { batch.Batching result.number (batch.inputs key.now «data».now
        texts.now lengths.now drawer) room.old tags.old room.new
        tags.new result.next }
{
    Batch::of(
        batch::seal(key, data, texts, lengths, drawer, room, tags),
        drawer,
    )
}

#[unsafe(no_mangle)]
pub extern "C" fn vespruldo_key_find(this_term: &[u8], last_term: &[u8], class: u16) -> Found
    ensures { books.Finding result.number this_term.now last_term.now class result.book
        result.offset }
{
    Found::of(books::find(this_term, last_term, class))
}

#[unsafe(no_mangle)]
pub extern "C" fn vespruldo_pack_next(pack: &[u8], place: usize) -> PackCard
    ensures { in_words result ≡ told (read_at pack.now place) }
{
    PackCard::of(pack::read_at(pack, place))
}

#[unsafe(no_mangle)]
pub extern "C" fn vespruldo_pack_judge(pack: &[u8]) -> PackJudged
    ensures { judged_in_words result ≡ judged pack.now }
{
    PackJudged::of(pack::judge(pack))
}

#[unsafe(no_mangle)]
pub extern "C" fn vespruldo_same(a: &[u8], b: &[u8]) -> bool
    ensures { result ≡ same a.now b.now }
{
    words::same(a, b)
}

// The version 0.5.0, as 10000 times the first number, 100 times the second and the third.
#[unsafe(no_mangle)]
pub extern "C" fn vespruldo_version() -> u32
    ensures { result ≡ 500 }
{
    500
}

// What the header has every caller refer to: the number in the name goes up when a signature or a struct of an older
// interface changes, and a caller that was compiled before then does not link.
#[unsafe(no_mangle)]
pub extern "C" fn vespruldo_interface_2() -> u32
    ensures { result ≡ 2 }
{
    2
}
