// pack: the cards of a lesson pack, without a key.
use crate::options::{Opt, Options};
use crate::refusal::Refusal;
use crate::system::System;
use crate::text::Text;
use crate::{inputs, outputs, refusal, rooms, text};
use pack::{Card, Kind};

// All of the pack is judged before a card is told.
pub(crate) fn pack(rt: &impl System, o: Options) -> Result<(), Refusal> {
    let mut room: [u8; rooms::PACK] = rooms::zeros();
    let bytes = inputs::read(rt, o, Opt::In, &mut room)?;
    let cards = pack::judge(bytes).map_err(refusal::of_pack)?;
    outputs::said(rt, lines(bytes, cards))
}

// A line for each card.
fn lines(bytes: &[u8], cards: usize) -> Text {
    let mut t = Text::new();
    for place in 0..cards {
        if let Ok(Some(card)) = pack::card_at(bytes, place) {
            t.push(line(bytes, card, place).as_bytes());
        }
    }
    t
}

// A word has its place too, which the shuffle has as an entry. Behind the shuffle, with which a pack ends, come its
// entries.
fn line(bytes: &[u8], card: Card, place: usize) -> Text {
    let Card {
        kind,
        start,
        length,
    } = card;
    match kind {
        Kind::Word => {
            text::formatted(format_args!("word {place} start {start} length {length}\n"))
        }
        Kind::Song => text::formatted(format_args!("song start {start} length {length}\n")),
        Kind::Shuffle => {
            text::formatted(format_args!("shuffle start {start} length {length} entries"))
                .and(listed(bytes.get(start..).unwrap_or(&[])).as_bytes())
                .and(b"\n")
        }
    }
}

fn listed(entries: &[u8]) -> Text {
    let mut t = Text::new();
    for entry in entries {
        t.push(text::formatted(format_args!(" {entry}")).as_bytes());
    }
    t
}
