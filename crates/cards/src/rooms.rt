// The rooms for inputs and outputs, on the stack: memory of its own is nothing that the tool asks of a system. One for
// an input is a byte longer than that may be, so that what is too long is seen.
// A function with large rooms is not inlined: they would lie below every other command's.
ghost use Rattle.std.specs.Prelude.{◌≡◌, length};

// The rows are numbers of one kind, and are read down.
pub(crate) const KEY: usize = 17;

pub(crate) const NONCE: usize = 13;

// Associated data.
pub(crate) const DATA: usize = 65537;

// The text of a card, and the card around it.
pub(crate) const CARD_TEXT: usize = 65536;

pub(crate) const CARD: usize = 65566;

// The key of a wide block, its iv, and the file of iv and block.
pub(crate) const WIDE_KEY: usize = 129;

pub(crate) const IV: usize = 49;

pub(crate) const WIDE_FILE: usize = 1048657;

// A text that a digest is taken of, and the key of the digest. The entries of a key book are such a text too.
pub(crate) const TEXT: usize = 1048577;

pub(crate) const DIGEST_KEY: usize = 65;

// A key book: how many entries it has, and the entries, of which there are 65535 at most.
pub(crate) const BOOK: usize = 1179633;

// A pack: 494 bytes up to a song, two for its length, and as many as that can say. No count or length reaches further,
// so what follows changes no answer.
pub(crate) const PACK: usize = 66031;

// A room of zeros. How many they are is all that its contract gives: a proof that could look inside would count them.
pub(crate) fn zeros<const N: usize>() -> [u8; N]
    ensures { N ≡ length result }
{
    [0; N]
}

// The first n bytes of a room, or all.
pub(crate) fn first(room: &mut [u8], n: usize) -> &mut [u8] {
    let end = n.min(room.len());
    &mut room[..end]
}

// The front of a room, with s in it, as far as that fits.
pub(crate) fn holding<'a>(room: &'a mut [u8], s: &[u8]) -> &'a mut [u8] {
    let n = s.len().min(room.len());
    let front = &mut room[..n];
    front.copy_from_slice(&s[..n]);
    front
}
