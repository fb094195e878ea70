//! Hashes of texts, and the keys under which a text of a hash is looked for.
ghost use Rattle.std.specs.Prelude.{◌≡◌, IfSome, Ok};
ghost use Rattle.nb_texts.specs.Hashes.{hash_of, hashing_of, key_after};

use core::hash::keyed_hasher;
use nb_core::Key;
use nb_lines::ProgramFault;
use std::hash::{DefaultHasher, Hasher};
use std::random::RandomSource;

/// The second half of a hash function's key.
const SECOND: u64 = 0x6e62_5f74_6578_7473;

/// A hash function of texts: SipHash-1-3 with a key of its own.
#[derive(Clone, Copy)]
pub struct Hashing {
    hasher: DefaultHasher,
    /// The bits of a hash that count.
    mask: u64,
}

impl Hashing {
    /// The hash function of a seed. So many bits of a hash count, 64 at most: with few of them many
    /// texts share a hash, for tests.
    pub fn new(seed: u64, bits: u32) -> Hashing
        ensures { result ≡ hashing_of seed bits }
    {
        let mask = match 2_u64.checked_pow(bits) {
            Some(end) => end.saturating_sub(1),
            None => u64::MAX,
        };
        Hashing {
            hasher: keyed_hasher(seed, SECOND),
            mask,
        }
    }

    /// The hash function of a seed or, where none is given, of a number from the machine's randomness.
    pub fn seeded<R: RandomSource>(
        rt: &R,
        seed: Option<u64>,
        bits: u32,
    ) -> Result<Hashing, ProgramFault>
        ensures { IfSome seed (λ seed. result ≡ Ok (hashing_of seed bits)) }
    {
        match seed {
            Some(seed) => Ok(Hashing::new(seed, bits)),
            None => Ok(Hashing::new(random(rt)?, bits)),
        }
    }

    pub fn hash_of(&self, text: &[u8]) -> u64
        ensures { result ≡ hash_of self.now text.now }
    {
        let mut hasher = self.hasher;
        hasher.write(text);
        hasher.finish() & self.mask
    }
}

/// A number from the machine's randomness.
fn random<R: RandomSource>(rt: &R) -> Result<u64, ProgramFault> {
    let mut bytes = [0; 8];
    match rt.fill_bytes(&mut bytes) {
        Ok(()) => Ok(u64::from_le_bytes(bytes)),
        Err(_) => Err(ProgramFault::Read),
    }
}

/// The key at which a text of this hash is looked for once it wasn't found at so many others.
pub(crate) fn key_after(hash: u64, tries: u64) -> Key
    ensures { result ≡ key_after hash tries }
{
    match Key::new(hash.wrapping_add(tries) % (1 << 63)) {
        Ok(key) => key,
        Err(_) => unreachable!(),
    }
}
