// seal, open and check.
use crate::options::{Opt, Options};
use crate::refusal::{Refusal, What, Why};
use crate::system::System;
use crate::{drawers, inputs, keys, outputs, refusal, rooms};

// What is sealed, and under which key.
#[derive(Clone, Copy)]
struct Inputs<'a> {
    key: &'a [u8],
    data: &'a [u8],
    text: &'a [u8],
}

// Seals. The nonce is the one that is read, or is drawn.
#[inline(never)]
pub(crate) fn seal(rt: &impl System, o: Options) -> Result<(), Refusal> {
    let mut key_room: [u8; rooms::KEY] = rooms::zeros();
    let mut nonce_room: [u8; rooms::NONCE] = rooms::zeros();
    let mut data_room: [u8; rooms::DATA] = rooms::zeros();
    let mut text_room: [u8; rooms::CARD_TEXT] = rooms::zeros();
    let mut card_room: [u8; rooms::CARD] = rooms::zeros();
    let key = keys::read(rt, o, &mut key_room)?;
    let nonce = inputs::read_given(rt, o, Opt::Nonce, &mut nonce_room)?;
    let data = data_of(rt, o, &mut data_room)?;
    let text = inputs::read(rt, o, Opt::In, &mut text_room)?;
    let card = rooms::first(&mut card_room, text.len() + 30);
    let inputs = Inputs { key, data, text };
    let Some(nonce) = nonce else {
        return seal_drawn(rt, o, inputs, card);
    };
    sealed(inputs, nonce, card)?;
    outputs::finish(rt, o, false, card)
}

// Under a nonce that is drawn. `wide::encipher_drawn` has the same three steps: a closure over what is drawn, whose
// length is a const parameter of its bound, the borrow checker does not cover.
fn seal_drawn(
    rt: &impl System,
    o: Options,
    inputs: Inputs<'_>,
    card: &mut [u8],
) -> Result<(), Refusal> {
    let h = drawers::take(rt, o)?;
    let made = drawers::made_under(drawer::draw(h.drawer), |nonce| sealed(inputs, nonce, card));
    drawers::spend(rt, o, h.file, made, card)
}

// Writes the card under this nonce.
fn sealed(inputs: Inputs<'_>, nonce: &[u8], card: &mut [u8]) -> Result<(), Refusal> {
    sealed_card::seal(inputs.key, nonce, inputs.data, inputs.text, card).map_err(refused)
}

// The associated data: the words of the label, a file's, or no bytes.
fn data_of<'a>(rt: &impl System, o: Options, room: &'a mut [u8]) -> Result<&'a mut [u8], Refusal> {
    if o.given(Opt::Data) {
        return inputs::read(rt, o, Opt::Data, room);
    }
    Ok(rooms::holding(room, o.word_of(rt, Opt::Label).as_bytes()))
}

// Opens a card, and writes its text if that is asked for.
#[inline(never)]
pub(crate) fn open(rt: &impl System, o: Options, writes: bool) -> Result<(), Refusal> {
    let mut key_room: [u8; rooms::KEY] = rooms::zeros();
    let mut data_room: [u8; rooms::DATA] = rooms::zeros();
    let mut card_room: [u8; rooms::CARD] = rooms::zeros();
    let mut text_room: [u8; rooms::CARD_TEXT] = rooms::zeros();
    let key = keys::read(rt, o, &mut key_room)?;
    let data = data_of(rt, o, &mut data_room)?;
    let card = inputs::read(rt, o, Opt::In, &mut card_room)?;
    let text = rooms::first(&mut text_room, card.len().saturating_sub(30));
    sealed_card::open(key, data, card, text).map_err(refused)?;
    if !writes {
        return Ok(());
    }
    outputs::finish(rt, o, false, text)
}

// Which input a refusal of sealing or opening is about.
fn refused(why: answers::Refusal) -> Refusal {
    let (option, reason) = match why {
        answers::Refusal::KeyLength => (Opt::Key, Some(Why::Key16)),
        answers::Refusal::NonceLength => (Opt::Nonce, Some(Why::Nonce12)),
        answers::Refusal::DataLength => (Opt::Data, Some(Why::Data65536)),
        answers::Refusal::TextLength => (Opt::In, Some(Why::Card65535)),
        answers::Refusal::WrongTag => (Opt::In, Some(Why::WrongTag)),
        _ => (Opt::In, None),
    };
    refusal::about(option, What::Library(why), reason)
}
