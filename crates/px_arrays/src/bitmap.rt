//! A list of bits, kept in words of 64.
ghost use Rattle.std.specs.Prelude.{◌≡◌, ℕ, ◌+◌, ◌*◌, ◌/◌, ◌%◌, ◌==◌, ◌<◌, ◌≤◌, ◌^◌, Bool, true, false, not, ◌&&◌, ◌||◌, List, length, map, IfOk, get_or, replicate, bit_and, bit_or, bit_xor, cond, count_ones};
ghost use Rattle.std.specs.Simd.Lanes.{zip2, mask_l};
ghost use Rattle.std.specs.List.{count_by, zip};

use std::alloc::{AllocError, Global};
use std::marker::Model;
use std::simd::prelude::*;

/// Fewer than 2^32 bits. Bit i is bit i % 64 of word i / 64. Each bit past the last is zero.
#[derive(Drop)]
pub struct Bitmap {
    words: Vec<u64>,
    len: usize,
}

impl Model for Bitmap {
    ghost use Rattle.std.specs.Prelude.{List, Bool};
    ghost use Rattle.px_arrays.specs.BitmapOf.{bits_of, FewWords};

    ghost Value = { List Bool };

    ghost view = { λ b. bits_of b.words.items b.len };

    ghost invariant = { λ b. FewWords b.words.items b.len };
}

/// The words' common bits, word by word.
fn and_words(alloc: Global, a: &[u64], b: &[u64]) -> Result<Vec<u64>, AllocError>
    requires { length a.now ≡ length b.now }
    ensures { IfOk result (λ v. v.items ≡ map (λ p. bit_and p.0 p.1) (zip a.now b.now)) }
{
    a.iter().zip(b).map(|(x, y)| x & y).collect(alloc)
}

/// The bits of either, word by word.
fn or_words(alloc: Global, a: &[u64], b: &[u64]) -> Result<Vec<u64>, AllocError>
    requires { length a.now ≡ length b.now }
    ensures { IfOk result (λ v. v.items ≡ map (λ p. bit_or p.0 p.1) (zip a.now b.now)) }
{
    a.iter().zip(b).map(|(x, y)| x | y).collect(alloc)
}

/// The bits of just one of the two, word by word.
fn xor_words(alloc: Global, a: &[u64], b: &[u64]) -> Result<Vec<u64>, AllocError>
    requires { length a.now ≡ length b.now }
    ensures { IfOk result (λ v. v.items ≡ map (λ p. bit_xor p.0 p.1) (zip a.now b.now)) }
{
    a.iter().zip(b).map(|(x, y)| x ^ y).collect(alloc)
}

/// Word by word where a Kleene conjunction is not null: where both rows are true, or one is false.
/// `p` and `q` are the validity of `a` and `b`.
fn and_validity_words(
    alloc: Global,
    a: &[u64],
    p: &[u64],
    b: &[u64],
    q: &[u64],
) -> Result<Vec<u64>, AllocError>
    ensures { IfOk result (λ v. v.items ≡ map
        (λ w. bit_or (bit_and w.0.0 w.1.0) (bit_or (bit_xor w.0.0 w.0.1) (bit_xor w.1.0 w.1.1)))
        (zip (zip a.now p.now) (zip b.now q.now))) }
{
    a.iter()
        .zip(p)
        .zip(b.iter().zip(q))
        .map(|((x, p), (y, q))| (x & y) | ((x ^ p) | (y ^ q)))
        .collect(alloc)
}

/// Word by word where a Kleene disjunction is not null: where one row is true, or both are false.
/// `p` and `q` are the validity of `a` and `b`.
fn or_validity_words(
    alloc: Global,
    a: &[u64],
    p: &[u64],
    b: &[u64],
    q: &[u64],
) -> Result<Vec<u64>, AllocError>
    ensures { IfOk result (λ v. v.items ≡ map
        (λ w. bit_or (bit_or w.0.0 w.1.0) (bit_and (bit_xor w.0.0 w.0.1) (bit_xor w.1.0 w.1.1)))
        (zip (zip a.now p.now) (zip b.now q.now))) }
{
    a.iter()
        .zip(p)
        .zip(b.iter().zip(q))
        .map(|((x, p), (y, q))| (x | y) | ((x ^ p) & (y ^ q)))
        .collect(alloc)
}

/// Word by word the bits of just one of the two, where `mask` is set.
fn masked_xor_words(
    alloc: Global,
    a: &[u64],
    b: &[u64],
    mask: &[u64],
) -> Result<Vec<u64>, AllocError>
    ensures { IfOk result (λ v. v.items ≡ map
        (λ w. bit_and (bit_xor w.0.0 w.0.1) w.1) (zip (zip a.now b.now) mask.now)) }
{
    a.iter()
        .zip(b)
        .zip(mask)
        .map(|((x, y), m)| (x ^ y) & m)
        .collect(alloc)
}

/// The word whose bit i is set where lane i is not 0.
fn set_lanes(lanes: u8x64) -> u64
    requires { length lanes ≡ 64 }
    ensures { result ≡ mask_l (map (λ x. not (x == 0)) lanes) }
{
    lanes.simd_ne(u8x64::splat(0)).to_bitmask()
}

/// The word whose bit i is `bits[i]`. The bits go through 64 lanes at once.
fn pack(bits: &[bool]) -> u64
    requires { length bits.now ≤ 64 }
    ensures { result ≡ mask_l bits.now }
{
    let mut bytes = [0; 64];
    for i in 0..bits.len() {
        bytes[i] = u8::from(bits[i]);
    }
    set_lanes(u8x64::from_array(bytes))
}

/// The number of bits of a word that are set.
fn set_bits(word: u64) -> usize
    ensures ones { result ≡ count_ones word }
    ensures below_limit { word < 2 ^ 64 }
{
    word.count_ones() as usize
}

/// The word of which the first `count` bits are `bit`, and the others zero.
fn same_bits(bit: bool, count: usize) -> u64
    requires { count ≤ 64 }
    ensures { result ≡ mask_l (replicate count bit) }
{
    if bit && 0 < count {
        u64::MAX >> (64 - count)
    } else {
        0
    }
}

impl Bitmap {
    ghost use Rattle.px_arrays.specs.BitmapOf.{bit_of};

    /// These bits, in order, of which there are fewer than 2^32.
    pub fn from_bools(alloc: Global, bits: &[bool]) -> Result<Bitmap, AllocError>
        requires { length bits.now < 2 ^ 32 }
        ensures { IfOk result (λ b. b ≡ bits.now) }
    {
        let len = bits.len();
        let count = (len + 63) / 64;
        let mut words = Vec::with_capacity(alloc, count)?;
        for at in 0..count {
            let start = at * 64;
            let end = len.min(start + 64);
            words.push(pack(&bits[start..end]))?;
        }
        Ok(Bitmap { words, len })
    }

    /// The same bit `len` times, fewer than 2^32.
    pub fn filled(alloc: Global, len: usize, bit: bool) -> Result<Bitmap, AllocError>
        requires { len < 2 ^ 32 }
        ensures { IfOk result (λ b. b ≡ replicate len bit) }
    {
        let count = (len + 63) / 64;
        let mut words = Vec::with_capacity(alloc, count)?;
        words.resize(len / 64, same_bits(bit, 64))?;
        words.resize(count, same_bits(bit, len % 64))?;
        Ok(Bitmap { words, len })
    }

    /// The same bits.
    pub fn try_clone(&self, alloc: Global) -> Result<Bitmap, AllocError>
        ensures { IfOk result (λ b. b ≡ self.now) }
    {
        let words = Vec::from_slice(alloc, self.words.as_slice())?;
        Ok(Bitmap {
            words,
            len: self.len,
        })
    }

    /// The number of bits, which is below 2^32.
    pub fn len(&self) -> usize
        ensures bits { result ≡ length self.now }
        ensures below_limit { result < 2 ^ 32 }
    {
        self.len
    }

    /// The number of bits that are not set, which is below 2^32.
    pub fn zeros(&self) -> usize
        ensures count { result ≡ count_by not self.now }
        ensures below_limit { result < 2 ^ 32 }
    {
        let mut ones = 0;
        for i in 0..self.words.len() {
            ones += set_bits(self.words[i]);
        }
        self.len - ones
    }

    /// The words, (length + 63) / 64 of them. Each bit past the last is zero.
    pub fn words(&self) -> &[u64]
        ensures whole { length result.now ≡ (length self.now + 63) / 64 }
        ensures bits { (i : ℕ) → bit_of result.now i ≡ get_or self.now i false }
    {
        self.words.as_slice()
    }

    /// Bit `i`, which is below the length.
    pub fn get(&self, i: usize) -> bool
        requires { i < length self.now }
        ensures { result ≡ get_or self.now i false }
    {
        (self.words[i / 64] >> (i % 64)) & 1 == 1
    }

    /// Bit by bit whether both have it. The two have one length.
    pub fn and(&self, alloc: Global, other: &Bitmap) -> Result<Bitmap, AllocError>
        requires { length self.now ≡ length other.now }
        ensures { IfOk result (λ b. b ≡ zip2 (λ x y. x && y) self.now other.now) }
    {
        let words = and_words(alloc, self.words.as_slice(), other.words.as_slice())?;
        Ok(Bitmap {
            words,
            len: self.len,
        })
    }

    /// The same bits where `bit` is true, and else no bits.
    pub fn and_bit(&self, alloc: Global, bit: bool) -> Result<Bitmap, AllocError>
        ensures { IfOk result (λ b. b ≡ map (λ x. x && bit) self.now) }
    {
        if bit {
            self.try_clone(alloc)
        } else {
            Bitmap::filled(alloc, self.len, false)
        }
    }

    /// The complement, bit by bit.
    pub fn not(&self, alloc: Global) -> Result<Bitmap, AllocError>
        ensures { IfOk result (λ b. b ≡ map not self.now) }
    {
        let all = Bitmap::filled(alloc, self.len, true)?;
        all.xor(alloc, self)
    }

    /// Bit by bit whether one of the two has it. The two have one length.
    pub fn or(&self, alloc: Global, other: &Bitmap) -> Result<Bitmap, AllocError>
        requires { length self.now ≡ length other.now }
        ensures { IfOk result (λ b. b ≡ zip2 (λ x y. x || y) self.now other.now) }
    {
        let words = or_words(alloc, self.words.as_slice(), other.words.as_slice())?;
        Ok(Bitmap {
            words,
            len: self.len,
        })
    }

    /// Bit by bit whether just one of the two has it. The two have one length.
    pub fn xor(&self, alloc: Global, other: &Bitmap) -> Result<Bitmap, AllocError>
        requires { length self.now ≡ length other.now }
        ensures { IfOk result (λ b. b ≡ zip2 (λ x y. cond x (not y) y) self.now other.now) }
    {
        let words = xor_words(alloc, self.words.as_slice(), other.words.as_slice())?;
        Ok(Bitmap {
            words,
            len: self.len,
        })
    }

    /// The bits that just one of the two has, where `mask` is set.
    pub(crate) fn masked_xor(
        &self,
        alloc: Global,
        other: &Bitmap,
        mask: &Bitmap,
    ) -> Result<Bitmap, AllocError>
        requires same_length { length self.now ≡ length other.now }
        requires mask { length self.now ≡ length mask.now }
        ensures { IfOk result (λ b. b ≡ zip2
            (λ x y. x && y) (zip2 (λ x y. cond x (not y) y) self.now other.now) mask.now) }
    {
        let words = masked_xor_words(
            alloc,
            self.words.as_slice(),
            other.words.as_slice(),
            mask.words.as_slice(),
        )?;
        Ok(Bitmap {
            words,
            len: self.len,
        })
    }

    /// The validity of the Kleene conjunction of two lists of Booleans, each given by its truth
    /// and its validity: set where both are true, or one is false.
    pub(crate) fn and_validity(
        alloc: Global,
        a: &Bitmap,
        p: &Bitmap,
        b: &Bitmap,
        q: &Bitmap,
    ) -> Result<Bitmap, AllocError>
        requires same_length { length a.now ≡ length b.now }
        requires first { length a.now ≡ length p.now }
        requires second { length b.now ≡ length q.now }
        ensures { IfOk result (λ v. v ≡ zip2
            (λ x y. x || y) (zip2 (λ x y. x && y) a.now b.now) (zip2
            (λ x y. x || y) (zip2 (λ x y. cond x (not y) y) a.now p.now) (zip2
            (λ x y. cond x (not y) y) b.now q.now))) }
    {
        let words = and_validity_words(
            alloc,
            a.words.as_slice(),
            p.words.as_slice(),
            b.words.as_slice(),
            q.words.as_slice(),
        )?;
        Ok(Bitmap { words, len: a.len })
    }

    /// The validity of the Kleene disjunction of two lists of Booleans, each given by its truth
    /// and its validity: set where one is true, or both are false.
    pub(crate) fn or_validity(
        alloc: Global,
        a: &Bitmap,
        p: &Bitmap,
        b: &Bitmap,
        q: &Bitmap,
    ) -> Result<Bitmap, AllocError>
        requires same_length { length a.now ≡ length b.now }
        requires first { length a.now ≡ length p.now }
        requires second { length b.now ≡ length q.now }
        ensures { IfOk result (λ v. v ≡ zip2
            (λ x y. x || y) (zip2 (λ x y. x || y) a.now b.now) (zip2
            (λ x y. x && y) (zip2 (λ x y. cond x (not y) y) a.now p.now) (zip2
            (λ x y. cond x (not y) y) b.now q.now))) }
    {
        let words = or_validity_words(
            alloc,
            a.words.as_slice(),
            p.words.as_slice(),
            b.words.as_slice(),
            q.words.as_slice(),
        )?;
        Ok(Bitmap { words, len: a.len })
    }
}
