// show: what a drawer holds, and the parts of a card, without a key.
use crate::files::Kind;
use crate::options::{Opt, Options};
use crate::refusal::{Refusal, What};
use crate::system::System;
use crate::text::Text;
use crate::{drawers, files, inputs, names, outputs, refusal, rooms, text};
use drawer::Drawer;
use std::io::Print;

pub(crate) fn show(rt: &impl System, o: Options) -> Result<(), Refusal> {
    if o.given(Opt::Drawer) {
        return show_drawer(rt, o.word_of(rt, Opt::Drawer));
    }
    let mut room: [u8; rooms::CARD] = rooms::zeros();
    let card = inputs::read(rt, o, Opt::In, &mut room)?;
    show_card(rt, card)
}

// Only a regular file is opened: to open a pipe could take forever.
fn show_drawer(rt: &impl System, name: Text) -> Result<(), Refusal> {
    if let Ok(s) = files::led_to(rt, name, true) {
        openable(s.kind)?;
    }
    let mut file = names::open_read(rt, name).map_err(|e| inputs::not_read(Opt::Drawer, e))?;
    let drawer = drawers::kept_in(&mut file).ok_or(drawers::damaged(None))?;
    outputs::said(rt, of_drawer(drawer))
}

fn openable(kind: Kind) -> Result<(), Refusal> {
    match kind {
        Kind::Regular => Ok(()),
        Kind::Directory => Err(refusal::about(Opt::Drawer, What::NotRead, kind.kept())),
        _ => Err(drawers::damaged(kind.kept())),
    }
}

fn of_drawer(d: Drawer) -> Text {
    let (reader, count, left) = (d.reader, d.count, drawer::remaining(d));
    text::formatted(format_args!("reader {reader}\ncount {count}\nleft {left}\n"))
}

// A card is as long as it says: 30 bytes and its text.
fn show_card(rt: &impl Print, card: &[u8]) -> Result<(), Refusal> {
    let n = usize::from(words::two(card, 12));
    if card.len() < 30 + n {
        return Err(of_card(answers::Refusal::CutShort));
    }
    if card.len() > 30 + n {
        return Err(of_card(answers::Refusal::LeftOver));
    }
    let (ciphertext, tag) = card[14..].split_at(n);
    outputs::said(rt, front(card))?;
    outputs::printed(outputs::sent_in_hex(&mut std::io::writer(rt), ciphertext))?;
    outputs::said(rt, text::hex(b"tag ", tag))
}

fn of_card(why: answers::Refusal) -> Refusal {
    refusal::about(Opt::In, What::Library(why), None)
}

// The nonce, which reader and count it was drawn from, and how long the ciphertext is, which comes next.
fn front(card: &[u8]) -> Text {
    let reader = words::load(card, 0, 4).lo;
    let count = words::load(card, 4, 8).lo;
    let length = words::two(card, 12);
    let rest = format_args!("reader {reader}\ncount {count}\nlength {length}\nciphertext ");
    text::hex(b"nonce ", card.get(..12).unwrap_or(card)).and(text::formatted(rest).as_bytes())
}
