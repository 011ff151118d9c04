//! The hash seed of an index, computed from everything that is added to the index.

use crate::name::{Note, Public, Reference};
use std::hash::{BuildHasher, DefaultHasher, Hasher};

/// The seed from which an index starts each of its hashes. It protects the index against names that were
/// chosen to collide. It is computed from everything that will be added to the index, before the first
/// entry is added: whoever changes a name so that it collides with another one changes the seed too, and
/// with it all hashes. An attacker would have to find names that collide under the very seed that these
/// names give.
///
/// Hashes and seed are computed by SipHash with publicly known keys. The protection is argued, not
/// proved, and it assumes that nobody can steer SipHash to a state chosen in advance. The seed does not
/// change any result; it affects only the time.
#[derive(Clone, Copy)]
pub struct HashSeed {
    start: DefaultHasher,
}

impl HashSeed {
    /// The seed for an index to which nothing is added.
    pub fn new() -> HashSeed {
        HashSeed {
            start: DefaultHasher::new(),
        }
    }

    // Mixes in the hash of a name or key. That hash ends with SipHash's finalization rounds, so that the
    // bytes of a name don't set the state directly.
    fn mix(&mut self, hash: u64) {
        self.start.write_u64(hash);
    }

    // Mixes in four hashes, as four calls of `mix` do, by one call of the hasher.
    fn mix_four(&mut self, hashes: [u64; 4]) {
        let mut bytes = [0; 32];
        bytes[..8].copy_from_slice(&hashes[0].to_le_bytes());
        bytes[8..16].copy_from_slice(&hashes[1].to_le_bytes());
        bytes[16..24].copy_from_slice(&hashes[2].to_le_bytes());
        bytes[24..].copy_from_slice(&hashes[3].to_le_bytes());
        self.start.write(&bytes);
    }

    /// Mixes in a name.
    pub fn add_name(&mut self, name: &[u8]) {
        self.mix(hash_of_name(name));
    }

    // Mixes in the names of at most four publics.
    fn add_group(&mut self, group: &[Public]) {
        if let [first, second, third, fourth] = group {
            let hashes = [
                hash_of_name(first.name.as_slice()),
                hash_of_name(second.name.as_slice()),
                hash_of_name(third.name.as_slice()),
                hash_of_name(fourth.name.as_slice()),
            ];
            return self.mix_four(hashes);
        }
        for public in group {
            self.add_name(public.name.as_slice());
        }
    }

    /// Mixes in the names of publics.
    pub fn add_publics(&mut self, publics: &[Public]) {
        for group in publics.chunks(4) {
            self.add_group(group);
        }
    }

    /// Mixes in the names, the weak parts and the notes of references.
    pub fn add_references(&mut self, references: &[Reference]) {
        for reference in references {
            self.mix(hash_of_reference(reference));
        }
    }
}

fn hash_of_name(name: &[u8]) -> u64 {
    let mut hasher = DefaultHasher::new();
    hasher.write(name);
    hasher.finish()
}

// Hashes a note: its type, its attribute, and its numbers with their count.
fn write_note(hasher: &mut DefaultHasher, note: &Note) {
    let numbers = note.numbers.as_slice();
    hasher.write_u64(note.type_index);
    hasher.write_u64(note.attribute);
    hasher.write_u64(numbers.len() as u64);
    for number in numbers {
        hasher.write_u64(*number);
    }
}

// The hash of everything that the key of a reference contains.
fn hash_of_reference(reference: &Reference) -> u64 {
    let mut hasher = DefaultHasher::new();
    hasher.write(reference.name.as_slice());
    if let Some(weak) = reference.weak {
        hasher.write_u64(weak.size);
        hasher.write_u64(weak.default);
    }
    for note in reference.notes.as_slice() {
        write_note(&mut hasher, note);
    }
    hasher.finish()
}

impl BuildHasher for HashSeed {
    type Hasher = DefaultHasher;

    ghost build_hasher = { λ seed. seed.start };

    fn build_hasher(&self) -> DefaultHasher {
        self.start
    }
}
