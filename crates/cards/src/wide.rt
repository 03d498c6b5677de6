// encipher and decipher.
use crate::options::{Opt, Options};
use crate::refusal::{Refusal, What, Why};
use crate::system::System;
use crate::{drawers, inputs, outputs, refusal, rooms};

// Enciphers a block. The iv is the one that is read, or is drawn.
#[inline(never)]
pub(crate) fn encipher(rt: &impl System, o: Options) -> Result<(), Refusal> {
    let mut key_room: [u8; rooms::WIDE_KEY] = rooms::zeros();
    let mut iv_room: [u8; rooms::IV] = rooms::zeros();
    let mut room: [u8; rooms::WIDE_FILE] = rooms::zeros();
    let key = inputs::read(rt, o, Opt::Key, &mut key_room)?;
    let iv = inputs::read_given(rt, o, Opt::Iv, &mut iv_room)?;
    let (_, behind) = iv_and_block(&mut room);
    let n = inputs::read(rt, o, Opt::In, behind)?.len();
    let file = rooms::first(&mut room, 48 + n);
    let Some(iv) = iv else {
        return encipher_drawn(rt, o, key, file);
    };
    enciphered(key, iv, file)?;
    outputs::finish(rt, o, false, file)
}

fn encipher_drawn(
    rt: &impl System,
    o: Options,
    key: &[u8],
    file: &mut [u8],
) -> Result<(), Refusal> {
    let h = drawers::take(rt, o)?;
    let made = drawers::made_under(drawer::iv(h.drawer), |iv| enciphered(key, iv, file));
    drawers::spend(rt, o, h.file, made, file)
}

// Enciphers the block of a wide file, and puts the iv before it.
fn enciphered(key: &[u8], iv: &[u8], file: &mut [u8]) -> Result<(), Refusal> {
    let (front, block) = iv_and_block(file);
    lioness::encipher(key, iv, block).map_err(enciphering)?;
    rooms::holding(front, iv);
    Ok(())
}

// The iv of a wide file, and the block behind it.
fn iv_and_block(file: &mut [u8]) -> (&mut [u8], &mut [u8]) {
    let front = file.len().min(48);
    file.split_at_mut(front)
}

// Deciphers the block of a wide file.
#[inline(never)]
pub(crate) fn decipher(rt: &impl System, o: Options) -> Result<(), Refusal> {
    let mut key_room: [u8; rooms::WIDE_KEY] = rooms::zeros();
    let mut room: [u8; rooms::WIDE_FILE] = rooms::zeros();
    let key = inputs::read(rt, o, Opt::Key, &mut key_room)?;
    let (iv, block) = iv_and_block(inputs::read(rt, o, Opt::In, &mut room)?);
    lioness::decipher(key, iv, block).map_err(deciphering)?;
    outputs::finish(rt, o, false, block)
}

// Which input a refusal of enciphering is about.
fn enciphering(why: answers::Refusal) -> Refusal {
    let (option, reason) = match why {
        answers::Refusal::KeyLength => (Opt::Key, Why::Key128),
        answers::Refusal::NonceLength => (Opt::Iv, Why::Iv48),
        _ => (Opt::In, Why::Block),
    };
    refusal::about(option, What::Library(why), Some(reason))
}

// The same of deciphering, where the iv is a part of the wide file.
fn deciphering(why: answers::Refusal) -> Refusal {
    let (option, reason) = match why {
        answers::Refusal::KeyLength => (Opt::Key, Why::Key128),
        _ => (Opt::In, Why::WideFile),
    };
    refusal::about(option, What::Library(why), Some(reason))
}
