//! The line feeds in 64 bytes, as the bits of a number.
ghost use Rattle.std.specs.Prelude.{◌≡◌, ◌+◌, ◌<◌, ◌≤◌, ℕ, length, slice_index};
ghost use Rattle.std.specs.Int.{bit_at};

use std::simd::prelude::*;

/// How many bytes a block has: as many as a word of 64 bits has bits.
pub(crate) const BLOCK: usize = 64;

/// The line feeds in the block at a place of a text. Bit k is set only if a line feed stands k
/// bytes after that place.
#[inline(always)]
pub(crate) fn feeds_at(text: &[u8], at: usize) -> u64
    requires { at + 64 ≤ length text.now }
    ensures { (k : ℕ) → bit_at result k ≡ 1 → (k < 64) × (slice_index text.now (at + k) ≡ 10) }
{
    let block = u8x64::from_slice(&text[at..]);
    block.simd_eq(u8x64::splat(b'\n')).to_bitmask()
}

/// The place of the lowest bit that is set, from 0. One has to be set.
#[inline(always)]
pub(crate) fn lowest(bits: u64) -> usize
    requires { 0 < bits }
    ensures { bit_at bits result ≡ 1 }
{
    bits.trailing_zeros() as usize
}

/// The bits that are set, without the lowest one. One has to be set.
#[inline(always)]
pub(crate) fn without_lowest(bits: u64) -> u64
    requires { 0 < bits }
    ensures fewer { result < bits }
    ensures others { (k : ℕ) → bit_at result k ≡ 1 → bit_at bits k ≡ 1 }
{
    bits & (bits - 1)
}
