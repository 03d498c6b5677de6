// A drawer as it is stored in a file: the 12 bytes that it draws next, and a digest of them by which damage is seen.
#![tactic(auto)]

ghost use Rattle.std.specs.Prelude.{◌≡◌};
ghost use Rattle.drawer_file.specs.DrawerFile.{storing, Loading};
ghost use Rattle.drawer_file.specs.Loaded.{told, drawer_of};

use drawer::Drawer;

// A file that `store` does not write.
#[derive(Clone, Copy, Debug, PartialEq, Eq)]
pub struct Damaged;

impl Damaged {
    // Its number, as C has it: one of our own, which is no document's.
    pub fn number(self) -> u32
        ensures { result ≡ 106 }
    {
        106
    }
}

// The bytes of a drawer file.
pub type Stored = [u8; 44];

// The drawer file of d: the nonce that d draws next, and the 32-byte BLAKE2b digest of that under no key.
pub fn store(d: Drawer) -> Stored
    ensures { result ≡ storing d }
{
    let nonce = drawer::next_nonce(d);
    let mut file = [0u8; 44]; // an array: its length is fixed, and the archive has no heap
    file[..12].copy_from_slice(&nonce);
    // None of these lengths is refused, which is proved: nothing is left to test when it runs.
    blake::digest(b"", &nonce, &mut file[12..]).unwrap();
    file
}

// The drawer that bytes were stored of, if they are, to the byte, what `store` answers for it. What is not there reads
// as 0: too few bytes are told by that comparison too.
pub fn load(bytes: &[u8]) -> Result<Drawer, Damaged>
    ensures { Loading (told result) bytes.now (drawer_of result) }
{
    let reader = words::load(bytes, 0, 4);
    let count = words::load(bytes, 4, 8);
    let d = drawer::start(reader.lo as u32, count.lo); // `as`: four bytes are proved to fit
    if words::same(bytes, &store(d)) {
        Ok(d)
    } else {
        Err(Damaged)
    }
}
