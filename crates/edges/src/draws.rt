// Draws a nonce, an iv and a nonce, each on the drawer that the last one handed back. A line has the reader number and
// the count at the start and then, for each of the three, the number answered, the bytes, and the reader number and
// the count handed back.
use super::{STDOUT_FILENO, put_answer, put_bytes, put_number};
use answers::Refusal;
use drawer::{Drawer, Drawn};

pub(crate) fn draws() {
    for reader in [0, 1, 0x01020304, 0xffffffff] {
        from_counts(reader);
    }
}

// The counts where a byte, or the second half, comes in, and the last ones.
fn from_counts(reader: u32) {
    for count in [
        0,
        1,
        0xff,
        0x100,
        0xffffffff,
        0x100000000,
        0x0102030405060708,
        0x8000000000000000,
        0xfffffffffffffffc,
        0xfffffffffffffffd,
        0xfffffffffffffffe,
        0xffffffffffffffff,
    ] {
        from_count(drawer::start(reader, count));
    }
}

fn from_count(d: Drawer) {
    io::write_all(STDOUT_FILENO, b"draw");
    put_drawer(d);
    let d = put_drawn(drawer::draw(d), d);
    let d = put_drawn(drawer::iv(d), d);
    put_drawn(drawer::draw(d), d);
    io::write_all(STDOUT_FILENO, b"\n");
}

// Hands the next drawer back. Where the draw is refused that is d, and the bytes are 0.
fn put_drawn<const N: usize>(drawn: Result<Drawn<N>, Refusal>, d: Drawer) -> Drawer {
    put_answer(&drawn);
    let drawn = drawn.unwrap_or(Drawn {
        bytes: [0; N],
        next: d,
    });
    put_bytes(&drawn.bytes);
    put_drawer(drawn.next);
    drawn.next
}

pub(crate) fn put_drawer(d: Drawer) {
    put_number(u64::from(d.reader));
    put_number(d.count);
}
