//! The checksum that stands behind each section.
ghost use Rattle.std.specs.Prelude.{◌≡◌, ℕ, ◌+◌, ◌*◌, ◌^◌, ◌<◌, ◌≤◌, bit_xor, List, [], ◌∷◌, length, slice_index};
ghost use Rattle.slate_table.specs.Checksum.{crc32, crc_from, crc_bits, folded_byte, IsFolded};
ghost use Rattle.std.specs.Simd.Lanes.{chunk};

use crate::crc_tables::TABLES;
use std::simd::prelude::*;

/// CRC-32: the reflected checksum of IEEE.
pub fn checksum(bytes: &[u8]) -> u32
    ensures { result ≡ crc32 bytes.now }
{
    crc_more(u32::MAX, bytes) ^ u32::MAX
}

/// The state behind bytes, from the one before them.
pub(crate) fn crc_more(start: u32, bytes: &[u8]) -> u32
    ensures { result ≡ crc_from start bytes.now }
{
    let mut crc = start;
    let mut rest = bytes;
    while rest.len() >= 512 {
        let groups = ((rest.len() - 304) / 16).min(256);
        let (now, later) = rest.split_at(16 * groups + 304);
        crc = round(crc, now, groups);
        rest = later;
    }
    sixteen_each(crc, rest)
}

/// Folds so many groups of sixteen bytes into later ones, and takes what that leaves of the 304 bytes behind. Since 1 + x^89
/// + x^117 + x^155 + x^300 is a multiple of the polynomial, and so of the same with eight times the exponents, a byte can be
/// dropped where it is added to those 145, 183, 211 and 300 places later.
fn round(crc: u32, bytes: &[u8], groups: usize) -> u32
    requires few { groups ≤ 256 }
    requires long { length bytes.now ≡ 16 * groups + 304 }
    ensures { result ≡ crc_from crc bytes.now }
{
    let mut history = [0u8; 4608];
    begin(&mut history, crc);
    fold_all(&mut history, bytes, groups);
    take_rest(&history, bytes, 16 * groups)
}

/// The checksum so far is what the first bytes are folded with.
fn begin(history: &mut [u8], crc: u32)
    requires long { 300 ≤ length history.old }
    requires none { (k : ℕ) → slice_index history.old k ≡ 0 }
    ensures len { length history.new ≡ length history.old }
    ensures begun { (bytes : List ℕ) → IsFolded crc 0 history.new bytes }
{
    let [low, second, third, high] = crc.to_le_bytes();
    history[0] = low;
    history[1] = second;
    history[2] = third;
    history[3] = high;
}

/// Folds groups of sixteen bytes, one after the other.
fn fold_all(history: &mut [u8], bytes: &[u8], groups: usize)
    requires few { groups ≤ 256 }
    requires room { length history.old ≡ 4608 }
    requires long { 16 * groups ≤ length bytes.now }
    ensures len { length history.new ≡ length history.old }
    ensures folded { (start : ℕ) → IsFolded start 0 history.old bytes.now
        → IsFolded start (16 * groups) history.new bytes.now }
{
    for group in 0..groups {
        fold_group(history, bytes, 16 * group);
    }
}

/// Folds sixteen bytes.
#[inline(always)]
fn fold_group(history: &mut [u8], bytes: &[u8], at: usize)
    requires room { at + 316 ≤ length history.old }
    requires long { at + 16 ≤ length bytes.now }
    ensures len { length history.new ≡ length history.old }
    ensures folded { (start : ℕ) → IsFolded start at history.old bytes.now
        → IsFolded start (at + 16) history.new bytes.now }
{
    let group = folded_at(history, bytes, at);
    group.copy_to_slice(&mut history[at + 300..]);
}

/// Takes the 304 bytes behind those that were folded.
fn take_rest(history: &[u8], bytes: &[u8], from: usize) -> u32
    requires room { from + 459 ≤ length history.now }
    requires long { length bytes.now ≡ from + 304 }
    ensures { (start : ℕ) → start < 2 ^ 32 → IsFolded start from history.now bytes.now
        → result ≡ crc_from start bytes.now }
{
    let mut crc = 0u32;
    for group in 0..19usize {
        crc = sixteen_more(crc, folded_at(history, bytes, from + 16 * group).to_array());
    }
    crc
}

/// Sixteen bytes, with those of the history that are folded into them.
#[inline(always)]
fn folded_at(history: &[u8], bytes: &[u8], at: usize) -> u8x16
    requires room { at + 171 ≤ length history.now }
    requires long { at + 16 ≤ length bytes.now }
    ensures len { length result ≡ 16 }
    ensures lanes { (i : ℕ) → i < 16 → slice_index result i ≡ folded_byte history.now bytes.now (at + i) }
{
    let near = sixteen_at(history, at) ^ sixteen_at(history, at + 89);
    let far = sixteen_at(history, at + 117) ^ sixteen_at(history, at + 155);
    sixteen_at(bytes, at) ^ (near ^ far)
}

#[inline(always)]
fn sixteen_at(bytes: &[u8], at: usize) -> u8x16
    requires { at + 16 ≤ length bytes.now }
    ensures { result ≡ chunk at 16 bytes.now }
{
    u8x16::from_slice(&bytes[at..])
}

/// Sixteen bytes after the others, and then one after the other.
fn sixteen_each(start: u32, bytes: &[u8]) -> u32
    ensures { result ≡ crc_from start bytes.now }
{
    let mut crc = start;
    let mut rest = bytes;
    while let Some((group, later)) = rest.split_first_chunk::<16>() {
        crc = sixteen_more(crc, *group);
        rest = later;
    }
    each_more(crc, rest)
}

/// Sixteen bytes at once, as two words.
#[inline(always)]
fn sixteen_more(crc: u32, bytes: [u8; 16]) -> u32
    ensures { result ≡ crc_from crc bytes }
{
    let [
        b0,
        b1,
        b2,
        b3,
        b4,
        b5,
        b6,
        b7,
        b8,
        b9,
        b10,
        b11,
        b12,
        b13,
        b14,
        b15,
    ] = bytes;
    let first = word_of(b0, b1, b2, b3, b4, b5, b6, b7);
    let second = word_of(b8, b9, b10, b11, b12, b13, b14, b15);
    after_word(8, u64::from(crc) ^ first) ^ after_word(0, second)
}

/// The word whose bits are those of the bytes, in their order.
#[inline(always)]
fn word_of(b0: u8, b1: u8, b2: u8, b3: u8, b4: u8, b5: u8, b6: u8, b7: u8) -> u64
    ensures { (start : ℕ) → crc_from start (b0 ∷ b1 ∷ b2 ∷ b3 ∷ b4 ∷ b5 ∷ b6 ∷ b7 ∷ [])
        ≡ crc_bits 64 (bit_xor start result) }
{
    u64::from_le_bytes([b0, b1, b2, b3, b4, b5, b6, b7])
}

/// What is left of a word after 8 × (k + 8) bits: what is left of each byte of it after those behind is read from a table.
#[inline(always)]
fn after_word(k: usize, word: u64) -> u32
    requires { k ≤ 8 }
    ensures { result ≡ crc_bits (8 * (k + 8)) word }
{
    let [b0, b1, b2, b3, b4, b5, b6, b7] = word.to_le_bytes();
    let low = after_bytes(k + 7, b0)
        ^ after_bytes(k + 6, b1)
        ^ after_bytes(k + 5, b2)
        ^ after_bytes(k + 4, b3);
    let high = after_bytes(k + 3, b4)
        ^ after_bytes(k + 2, b5)
        ^ after_bytes(k + 1, b6)
        ^ after_bytes(k, b7);
    low ^ high
}

/// One byte after the other.
fn each_more(start: u32, bytes: &[u8]) -> u32
    ensures { result ≡ crc_from start bytes.now }
{
    let mut crc = start;
    for byte in bytes {
        crc = one_more(crc, *byte);
    }
    crc
}

#[inline(always)]
fn one_more(crc: u32, byte: u8) -> u32
    ensures { result ≡ crc_from crc (byte ∷ []) }
{
    let [low, _, _, _] = crc.to_le_bytes();
    after_bytes(0, low ^ byte) ^ (crc >> 8)
}

/// What is left of a byte after 8 × (k + 1) bits.
#[inline(always)]
fn after_bytes(k: usize, byte: u8) -> u32
    requires { k < 16 }
    ensures { result ≡ crc_bits (8 * (k + 1)) byte }
{
    TABLES[k][byte as usize]
}
