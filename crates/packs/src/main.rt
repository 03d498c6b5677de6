// Reads lesson packs at the edges of what is allowed, and prints a line for each: by which rule it is made, with the
// rule's numbers; for each card its kind, start and length; for what ends the walk 0, the number and the place of a bad
// entry; and what judging the pack answers, the number, the cards and that place.
#![tactic(auto)]

use pack::Bad;
use words::first;

// The descriptor of the standard output.
const STDOUT_FILENO: i32 = 1;

// One word, no song; then two bytes too many.
const LEAST: [u8; 10] = [1, 3, 0x63, 0x61, 0x74, 0, 1, 0, 0, 0];

// Three words, a song; then two bytes too many.
const THREE: [u8; 21] = [
    3, 1, 0x61, 2, 0x62, 0x63, 3, 0x64, 0x65, 0x66, 1, 2, 0, 0x67, 0x68, 3, 2, 0, 1, 0, 0,
];

// What each of its bytes is changed to: around every limit.
const VALUES: [u8; 10] = [0, 1, 2, 3, 4, 12, 13, 40, 41, 255];

// Lengths of a word, and how many bytes stand behind them.
const LENGTHS: [u8; 5] = [0, 1, 40, 41, 255];

// A pack by its numbers, which building it does not judge: so many words of one length, so many songs of one length, so
// many entries.
#[derive(Clone, Copy)]
struct Plan {
    words: usize,
    length: usize,
    songs: usize,
    song: usize,
    entries: usize,
}

fn main() {
    cuts(b"least", &LEAST);
    cuts(b"three", &THREE);
    changes();
    shuffles();
    plans();
    heads(plan_of(12, 40, 1, 16384, 12));
    lone_words();
}

// The pack cut at every byte, and with bytes left over.
fn cuts(name: &[u8], pack: &[u8]) {
    for n in 0..=pack.len() {
        put_line(name, &[n], &pack[..n]);
    }
}

// Each byte changed to each value.
fn changes() {
    for at in 0..19 {
        for value in VALUES {
            let mut pack = THREE;
            pack[at] = value;
            put_line(b"changed", &[at, usize::from(value)], &pack[..19]);
        }
    }
}

// Every shuffle of three words with entries up to 3.
fn shuffles() {
    for a in 0..4 {
        for b in 0..4 {
            for c in 0..4 {
                shuffle([a, b, c]);
            }
        }
    }
}

fn shuffle(entries: [u8; 3]) {
    let mut pack = THREE;
    pack[16..19].copy_from_slice(&entries);
    put_line(b"shuffle", &entries.map(usize::from), &pack[..19]);
}

fn plan_of(words: usize, length: usize, songs: usize, song: usize, entries: usize) -> Plan {
    Plan {
        words,
        length,
        songs,
        song,
        entries,
    }
}

// The least pack and the largest, and each count and length one beyond what is allowed: rows of numbers, a case each.
fn plans() {
    for plan in [
        plan_of(1, 1, 0, 0, 1),
        plan_of(12, 40, 1, 16384, 12),
        plan_of(13, 1, 0, 0, 13),
        plan_of(0, 1, 0, 0, 0),
        plan_of(1, 41, 0, 0, 1),
        plan_of(12, 41, 1, 1, 12),
        plan_of(1, 1, 1, 16385, 1),
        plan_of(1, 1, 1, 0, 1),
        plan_of(1, 1, 2, 1, 1),
        plan_of(1, 1, 0, 0, 2),
        plan_of(12, 1, 0, 0, 13),
        plan_of(3, 1, 1, 1, 2),
        plan_of(1, 1, 1, 1, 1),
    ] {
        around(plan);
    }
}

// A byte short, whole, and a byte too long.
fn around(p: Plan) {
    let mut room = [0u8; 16900]; // an array, here and below: the program takes no memory
    let n = build(p, &mut room);
    if 0 < n && n < 16900 {
        for cut in n - 1..=n + 1 {
            built(p, &room, cut);
        }
    }
}

// Cut around what stands before the song.
fn heads(p: Plan) {
    let mut room = [0u8; 16900];
    build(p, &mut room);
    for n in 492..498 {
        built(p, &room, n);
    }
}

fn built(p: Plan, room: &[u8], n: usize) {
    put_line(
        b"built",
        &[p.words, p.length, p.songs, p.song, p.entries, n],
        first(room, n),
    );
}

// Writes the pack, and answers its length.
fn build(p: Plan, room: &mut [u8]) -> usize {
    let mut at = put(room, 0, p.words);
    for _ in 0..p.words {
        at = put(room, at, p.length);
        at = put_times(room, at, 7, p.length);
    }
    at = put(room, at, p.songs);
    for _ in 0..p.songs {
        at = put(room, at, p.song);
        at = put(room, at, p.song / 256);
        at = put_times(room, at, 9, p.song);
    }
    at = put(room, at, p.entries);
    for i in 0..p.entries {
        at = put(room, at, i);
    }
    at
}

// Each length with each number of bytes behind it, and nothing else.
fn lone_words() {
    for length in LENGTHS {
        for behind in LENGTHS {
            lone_word(length, behind);
        }
    }
}

fn lone_word(length: u8, behind: u8) {
    let mut room = [7u8; 257];
    room[0] = 1;
    room[1] = length;
    let numbers = [usize::from(length), usize::from(behind)];
    put_line(b"lone", &numbers, first(&room, 2 + numbers[1]));
}

// Writes the low byte of a number, if there is room for it, and answers the place behind it: a few lines that
// `hexadecimal` has for bytes.
fn put(room: &mut [u8], at: usize, number: usize) -> usize {
    if at < room.len() {
        room[at] = (number % 256) as u8;
        at + 1
    } else {
        at
    }
}

fn put_times(room: &mut [u8], at: usize, number: usize, times: usize) -> usize {
    let mut end = at;
    for _ in 0..times {
        end = put(room, end, number);
    }
    end
}

// A line: by which rule the pack is made, with the rule's numbers; what a reader answers, from the first card on; then
// what judging answers.
fn put_line(name: &[u8], numbers: &[usize], pack: &[u8]) {
    io::write_all(STDOUT_FILENO, name);
    put_numbers(numbers);
    let (number, entry) = refused(put_cards(pack));
    put_numbers(&[0, number, entry]);
    match pack::judge(pack) {
        Ok(cards) => put_numbers(&[0, cards, 0]),
        Err(rejected) => {
            let (number, entry) = refused(Err(rejected.why));
            put_numbers(&[number, rejected.cards, entry]);
        }
    }
    io::write_all(STDOUT_FILENO, b"\n");
}

// The cards, in the fifteen calls that end every walk, and what ends it.
fn put_cards(pack: &[u8]) -> Result<(), Bad> {
    let mut reader = pack::reader_of(pack);
    for _ in 0..15 {
        let Some(card) = pack::next(&mut reader)? else {
            break;
        };
        put_numbers(&[card.kind.number() as usize, card.start, card.length]);
    }
    Ok(())
}

// The number of an answer, and the place of a bad entry.
fn refused(answer: Result<(), Bad>) -> (usize, usize) {
    match answer {
        Ok(()) => (0, 0),
        Err(bad) => (bad.refusal().number() as usize, bad.entry()),
    }
}

// Four lines that edges has too: a crate for them would be no plainer.
fn put_numbers(numbers: &[usize]) {
    for &n in numbers {
        io::write_all(STDOUT_FILENO, b" ");
        io::print_decimal(STDOUT_FILENO, n as u64);
    }
}
