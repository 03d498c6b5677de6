// digest.
ghost use Rattle.std.specs.Prelude.{◌≤◌};

use crate::options::{Opt, Options};
use crate::refusal::{Refusal, What, Why};
use crate::system::System;
use crate::{inputs, outputs, refusal, rooms};

#[inline(never)]
pub(crate) fn digest(rt: &impl System, o: Options) -> Result<(), Refusal> {
    let mut key_room: [u8; rooms::DIGEST_KEY] = rooms::zeros();
    let mut text_room: [u8; rooms::TEXT] = rooms::zeros();
    let key = inputs::read_given(rt, o, Opt::Key, &mut key_room)?;
    let text = inputs::read(rt, o, Opt::In, &mut text_room)?;
    // Whoever names a key wants one: without --key there is none.
    let key: &[u8] = match key {
        None => &[],
        Some(named) if named.is_empty() => return Err(refused(answers::Refusal::KeyLength)),
        Some(named) => named,
    };
    let mut room = [0u8; 65];
    let digest = &mut room[..length(inputs::number(rt, o, Opt::Length))];
    blake::digest(key, text, digest).map_err(refused)?;
    outputs::finish(rt, o.printed(), false, digest)
}

// The length, 64 if none is asked for; one that is too large is 65, which is refused like any.
fn length(wanted: Option<u64>) -> usize
    ensures { result ≤ 65 }
{
    wanted.unwrap_or(64).min(65) as usize
}

fn refused(why: answers::Refusal) -> Refusal {
    let (option, reason) = match why {
        answers::Refusal::KeyLength => (Opt::Key, Some(Why::Key64)),
        answers::Refusal::TextLength => (Opt::In, Some(Why::Text1048576)),
        _ => (Opt::Length, None),
    };
    refusal::about(option, What::Library(why), reason)
}
