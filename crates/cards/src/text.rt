// Texts by value, as the name of a file or the last line: put together in a few steps, and lent once. A String could
// lack memory, a refusal that no document has; and words of the command line, which are put in, need not be UTF-8.
ghost use Rattle.std.specs.Prelude.{◌≤◌};

use std::fmt;
use std::fmt::{Display, Write};

const ROOM: usize = 8192;

// The first len bytes count.
#[derive(Clone, Copy)]
pub(crate) struct Text {
    bytes: [u8; ROOM],
    len: usize,
    ghost fits: { len ≤ 8192 },
}

pub(crate) fn of(s: &[u8]) -> Text {
    let mut t = Text::new();
    t.push(s);
    t
}

// What `format_args!` gives, as text.
pub(crate) fn formatted(args: impl Display + Drop) -> Text {
    let mut t = Text::new();
    let _ = write!(t, "{args}");
    t
}

// Up to 16 bytes in hex behind a word, and the end of the line.
pub(crate) fn hex(before: &[u8], s: &[u8]) -> Text {
    let mut t = of(before);
    for b in s.iter().take(16) {
        let _ = write!(t, "{b:02x}");
    }
    t.and(b"\n")
}

impl Text {
    pub(crate) fn new() -> Text {
        Text {
            bytes: [0; ROOM],
            len: 0,
        }
    }

    pub(crate) fn as_bytes(&self) -> &[u8] {
        &self.bytes[..self.len]
    }

    pub(crate) fn is_empty(&self) -> bool {
        self.len == 0
    }

    pub(crate) fn clear(&mut self) {
        self.len = 0;
    }

    // Puts s behind the text, as far as that fits.
    pub(crate) fn push(&mut self, s: &[u8]) {
        let more = s.len().min(ROOM - self.len);
        self.bytes[self.len..self.len + more].copy_from_slice(&s[..more]);
        self.len += more;
    }

    // The text with s behind it.
    pub(crate) fn and(self, s: &[u8]) -> Text {
        let mut t = self;
        t.push(s);
        t
    }

    // Filled with blanks to this length.
    pub(crate) fn padded(self, len: usize) -> Text {
        let mut t = self;
        for _ in self.len..len {
            t.push(b" ");
        }
        t
    }

    // The text without its control characters, so that it cannot look like a line of its own or steer a terminal.
    pub(crate) fn shown(self) -> Text {
        let bytes = self.as_bytes();
        let mut t = Text::new();
        let mut inside = 0;
        for (i, &b) in bytes.iter().enumerate() {
            let next = bytes.get(i + 1).copied().unwrap_or(0);
            t.push(&[if is_control(b, next, inside) { b'?' } else { b }]);
            inside = still_inside(b, inside);
        }
        t
    }
}

// What does not fit is left out, here too.
impl Write for Text {
    fn write_str(&mut self, s: &str) -> fmt::Result {
        self.push(s.as_bytes());
        Ok(())
    }
}

// Those of ASCII, and U+0080 to U+009F, be it as one byte or as the two of UTF-8, of which the first is C2. Inside a
// longer letter of UTF-8 such a byte is a part of it.
fn is_control(b: u8, next: u8, inside: u8) -> bool {
    match b {
        0xc2 => is_upper_control(next),
        0x80..0xa0 => inside == 0,
        _ => b.is_ascii_control(),
    }
}

fn is_upper_control(b: u8) -> bool {
    (0x80..0xa0).contains(&b)
}

// How many bytes of a letter of UTF-8 are still to come behind this one.
fn still_inside(b: u8, inside: u8) -> u8 {
    match b {
        0x80..0xc0 => inside.saturating_sub(1),
        0xc3..0xe0 => 1,
        0xe0..0xf0 => 2,
        0xf0..0xf8 => 3,
        _ => 0,
    }
}
