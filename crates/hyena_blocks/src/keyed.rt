// The block cipher with its key: the round keys are worked out once. No other code of HyENA calls the cipher.
ghost use Rattle.std.specs.Prelude.{◌≡◌};
ghost use Rattle.words.specs.Block.{value, halves};
ghost use Rattle.hyena_blocks.specs.Steps.{keyed, enciphers};

use gift::RoundKeys;
use words::Block;

#[derive(Clone, Copy)]
pub struct Keyed {
    pub keys: RoundKeys,
}

// The cipher under a key.
pub fn keyed_of(key: Block) -> Keyed
    ensures { result ≡ keyed (value key) }
{
    Keyed {
        keys: gift::round_keys_of(key),
    }
}

// E of x.
pub(crate) fn block(e: Keyed, x: Block) -> Block
    ensures { result ≡ halves (enciphers e (value x)) }
{
    gift::encipher_block(e.keys, x)
}
