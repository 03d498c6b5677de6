// help: what each command does, with examples that work as they stand, after those of `cards help`.
use crate::commands::Command;
use crate::refusal::Refusal;
use crate::text::Text;
use crate::{STANDARD_ERROR, commands, options, outputs, text};
use std::io::Print;

const VERSION: &str = "cards 0.5.0
";

const OVERVIEW: &str =
    "cards seals and opens cards, enciphers wide blocks, takes digests, draws nonces, makes key
books and reads lesson packs.

";

const STATUS: &str = "
The exit status is 0 exactly if all was done. Otherwise it is the number of the refusal, and
the last line on standard error says what was refused. So scripts can say:
  cards check --key song.key --in song.card && echo 'it opens'
A refusal writes no output file. An option with -hex behind its name takes a file in hex.
man cards has the numbers, and how the files are laid out.

Examples:
    (umask 077; set -C; head -c 16 /dev/urandom > song.key; head -c 128 /dev/urandom > wide.key)
    (set -C; printf 'Three ducks went out one day' > song.txt)
    cards start --drawer songs.drawer
    cards seal --key song.key --drawer songs.drawer --in song.txt --out song.card
    cards open --key song.key --in song.card
The first line makes keys that nobody else can read, and replaces none. The examples of the
commands go on from there.
";

const TAIL: &str = "
Examples, after those of cards help:
";

const SEAL: &str =
    "cards seal: seals a text of at most 65535 bytes, and writes a card 30 bytes longer. It wants
a key, by --key or by --book and --class, and a nonce, by --drawer or by --nonce.
";

const SEAL_EXAMPLES: &str = "    (set -C; printf 'One duck came home' > home.txt)
    cards seal --key song.key --drawer songs.drawer --label 'song 2' --in home.txt --out home.card
    cards seal --key song.key --drawer songs.drawer --in home.txt --out-hex -
";

const OPEN: &str =
    "cards open: writes the text of a card. If its tag is wrong, as after a bit has flipped or
under another key, no byte of text is written, and it is refused with 7.
";

const OPEN_EXAMPLES: &str =
    "    echo 'Two ducks' | cards seal --key song.key --drawer songs.drawer --out two.card
    cards open --key song.key --in two.card
    cards open --key song.key --in two.card --out two.txt
";

const CHECK: &str = "cards check: opens a card and writes nothing: the exit status is 0 if it opens.
";

const CHECK_EXAMPLES: &str =
    "    echo 'Four ducks' | cards seal --key song.key --drawer songs.drawer --out four.card
    cards check --key song.key --in four.card && echo 'it opens'
";

const ENCIPHER: &str =
    "cards encipher: enciphers a block of 33 to 1048608 bytes, and writes a wide file: the iv and
the block, 48 bytes more. It has no tag: what was changed on the way is not refused.
";

const ENCIPHER_EXAMPLES: &str = "    (set -C; head -c 100000 /dev/urandom > recording)
    cards encipher --key wide.key --drawer songs.drawer --in recording --out recording.wide
";

const DECIPHER: &str = "cards decipher: writes the block of a wide file (cards help encipher).
";

const DECIPHER_EXAMPLES: &str =
    "    printf '%0100d' 7 | cards encipher --key wide.key --drawer songs.drawer --out seven.wide
    cards decipher --key wide.key --in seven.wide --out seven.txt
    cat seven.txt
";

const DIGEST: &str =
    "cards digest: the BLAKE2b digest of at most 1048576 bytes, as a line of hex if no --out is
given.
";

const DIGEST_EXAMPLES: &str = "    printf abc | cards digest
    (set -C; printf abc > abc.txt)
    cards digest --length 32 --in abc.txt
    b2sum -l 256 abc.txt
";

const START: &str =
    "cards start: makes a drawer of nonces in a file, and never replaces one. Without --reader it
takes a random number and says which. No two drawers under one key may have the same.
Never copy a drawer file and never bring an old one back: it would hand out the same numbers
again.
";

const START_EXAMPLES: &str = "    cards start --drawer other.drawer
    cards start --drawer later.drawer --count 1000
";

const DRAW: &str =
    "cards draw: takes the next nonce from a drawer file, and prints it as a line of hex if no
--out is given. The drawer's next state is on the disk before the nonce is written. While it
is written there is a folder FILE.next beside it; if that stays behind after a crash, remove
it once no cards runs.
";

const DRAW_EXAMPLES: &str = "    cards draw --drawer songs.drawer
    cards draw --drawer songs.drawer --out nonce
";

const SHOW: &str =
    "cards show: prints what a drawer holds, or the parts of a card, for which no key is needed.
";

const SHOW_EXAMPLES: &str = "    cards show --drawer songs.drawer
    echo 'Five ducks' | cards seal --key song.key --drawer songs.drawer | cards show
";

const BOOK: &str =
    "cards book: makes a key book of entries: for each a class number and its key, 32 digits of
hex. Class numbers rise. Nobody else can read a new book.
";

const BOOK_EXAMPLES: &str =
    "    echo \"7 $(od -An -v -tx1 song.key | tr -d ' ')\" | cards book --out this-term
    cards seal --book this-term --class 7 --drawer songs.drawer --in song.txt --out seven.card
";

const CLASSES: &str = "cards classes: prints the class numbers of a key book, and none of its keys.
";

const CLASSES_EXAMPLES: &str =
    "    echo \"8 $(od -An -v -tx1 song.key | tr -d ' ')\" | cards book --out next-term
    cards classes --book next-term
";

const PACK: &str =
    "cards pack: prints a line for each card of a lesson pack, in order: its kind, where its bytes
start in the file and how many they are. No key is needed. A word has its place too, from 0,
by which the entries of the shuffle name it. Of a pack that is refused nothing is printed.
";

const PACK_EXAMPLES: &str = "    printf '\\001\\003cat\\000\\001\\000' | cards pack
    (set -C; printf '\\002\\003cat\\004duck\\000\\002\\001\\000' > lesson.pack)
    cards pack --in lesson.pack
";

// `cards help COMMAND`, or the overview.
pub(crate) fn of(rt: &impl Print, command: Command) -> Result<(), Refusal> {
    outputs::said(rt, page_of(command))
}

// `cards` alone is refused, but whoever types it wants to know what there is.
pub(crate) fn without_command(words: usize) {
    if words < 2 {
        io::write_all(STANDARD_ERROR, overview().as_bytes());
    }
}

fn page_of(command: Command) -> Text {
    match command {
        Command::Seal => page(command, SEAL, SEAL_EXAMPLES),
        Command::Open => page(command, OPEN, OPEN_EXAMPLES),
        Command::Check => page(command, CHECK, CHECK_EXAMPLES),
        Command::Encipher => page(command, ENCIPHER, ENCIPHER_EXAMPLES),
        Command::Decipher => page(command, DECIPHER, DECIPHER_EXAMPLES),
        Command::Digest => page(command, DIGEST, DIGEST_EXAMPLES),
        Command::Start => page(command, START, START_EXAMPLES),
        Command::Draw => page(command, DRAW, DRAW_EXAMPLES),
        Command::Show => page(command, SHOW, SHOW_EXAMPLES),
        Command::Book => page(command, BOOK, BOOK_EXAMPLES),
        Command::Classes => page(command, CLASSES, CLASSES_EXAMPLES),
        Command::Pack => page(command, PACK, PACK_EXAMPLES),
        Command::Help => overview(),
        Command::Version => text::of(VERSION.as_bytes()),
    }
}

fn overview() -> Text {
    text::of(OVERVIEW.as_bytes())
        .and(commands::lines().as_bytes())
        .and(STATUS.as_bytes())
}

fn page(command: Command, about: &str, examples: &str) -> Text {
    text::of(about.as_bytes())
        .and(options::lines(command).as_bytes())
        .and(TAIL.as_bytes())
        .and(examples.as_bytes())
}
