//! The first address that is loaded twice.

ghost use Rattle.std.specs.Prelude.{◌≡◌, ◌+◌, ◌<◌, None, true, false};
ghost use Rattle.mufom_image_bytes.specs.Shared.{part_of, shares_from, AreRisingFrom, IsAddressOf, IsFirstDouble};

use crate::chunk::Chunk;

// The number of bytes of a chunk that are among the first `count` loaded bytes.
fn part_of(chunk: &Chunk, count: usize) -> usize
    ensures { result ≡ part_of count chunk.now }
{
    chunk.count.min(count.saturating_sub(chunk.start))
}

// Whether two of the first `count` bytes share an address. The chunks must be in order of address.
fn shares(chunks: &[Chunk], count: usize) -> bool
    ensures { result ≡ shares_from count 0 chunks.now }
{
    let mut end: u128 = 0;
    let mut rest = chunks;
    while let [chunk, more @ ..] = rest {
        let part = part_of(chunk, count);
        if part != 0 {
            if (chunk.address as u128) < end {
                return true;
            }
            end = chunk.address as u128 + part as u128;
        }
        rest = more;
    }
    false
}

// The number of the first byte that shares an address with an earlier one. There must be such a byte.
fn first_shared(chunks: &[Chunk], count: usize) -> usize
    requires { shares_from count 0 chunks.now ≡ true }
    ensures within { result < count }
    ensures before { shares_from result 0 chunks.now ≡ false }
    ensures shares { shares_from (result + 1) 0 chunks.now ≡ true }
{
    let mut apart: usize = 0;
    let mut over = count;
    while over - apart > 1 {
        let middle = apart + (over - apart) / 2;
        if shares(chunks, middle) {
            over = middle;
        } else {
            apart = middle;
        }
    }
    apart
}

// The address of the byte with this number. One of the chunks must have it.
fn address_of(chunks: &[Chunk], number: usize) -> u64
    ensures { IsAddressOf chunks.now number result }
{
    for chunk in chunks {
        if chunk.start <= number && number - chunk.start < chunk.count {
            return chunk.address.saturating_add((number - chunk.start) as u64);
        }
    }
    0
}

/// Returns the first address that is loaded twice, in the order of the loads. The chunks must be in order of
/// address.
pub fn first_double(chunks: &[Chunk], count: usize) -> Option<u64>
    requires { AreRisingFrom 0 chunks.now }
    ensures double { IsFirstDouble chunks.now count result }
    ensures none { result ≡ None → shares_from count 0 chunks.now ≡ false }
{
    if !shares(chunks, count) {
        return None;
    }
    let number = first_shared(chunks, count);
    Some(address_of(chunks, number))
}
