//! The keys of the indexes. The bytes of a key are hashed by one call, since the standard library hashes a
//! slice or a vector by a call for each of its bytes.

ghost use Rattle.std.specs.Prelude.{[], ◌∷◌};
ghost use Rattle.std.proofs.Common.{ap};
ghost use Rattle.std.specs.Cmp.Lexicographic.{bytes_decides};

use std::hash::{Hash, Hasher};

/// A name as a key, borrowed.
#[derive(Clone, Copy, PartialEq, Eq)]
pub(crate) struct NameKey<'a> {
    pub bytes: &'a [u8],
}

impl Hash for NameKey<'_> {
    ghost hash_input = { λ key. key.bytes.now ∷ [] };

    ghost respects_eq = { λ key other same. ap (λ bytes. bytes ∷ []) ((bytes_decides key.bytes.now other.bytes.now).0 same) };

    fn hash<H: Hasher>(&self, hasher: &mut H) {
        hasher.write(self.bytes);
    }
}

/// A key that the index owns.
#[derive(PartialEq, Eq, Drop)]
pub(crate) struct OwnedKey {
    pub bytes: Vec<u8>,
}

impl Hash for OwnedKey {
    ghost hash_input = { λ key. key.bytes.items ∷ [] };

    ghost respects_eq = { λ key other same. ap (λ bytes. bytes ∷ []) ((bytes_decides key.bytes.items other.bytes.items).0 same) };

    fn hash<H: Hasher>(&self, hasher: &mut H) {
        hasher.write(self.bytes.as_slice());
    }
}
