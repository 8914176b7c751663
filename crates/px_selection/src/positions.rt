//! Positions of rows: an offset as one, and selection vectors.
ghost use Rattle.std.specs.Prelude.{◌≡◌, ℕ, ◌+◌, ◌-◌, ◌<◌, ◌≤◌, ◌^◌, ◌==◌, ◌++◌, [], ◌∷◌, cond, length, map, is_some, IfOk, OnOk};
ghost use Rattle.std.specs.Int.{bit_at};
ghost use Rattle.std.specs.List.{filter, range_with_len};
ghost use Rattle.px_semantics.specs.Slices.{range_start};
ghost use Rattle.px_selection.specs.Positions.{set_positions};
ghost use Rattle.px_column.specs.ColumnOf.{rows_of};

use px_arrays::Bitmap;
use px_column::Buffer;
use std::alloc::{AllocError, Global};

/// The position of an offset, which may be outside of the `len` rows. A negative offset counts from the end.
pub fn from_start(offset: i128, len: u32) -> i128
    ensures { result ≡ range_start len offset }
{
    if offset < 0 {
        offset + i128::from(len)
    } else {
        offset
    }
}

/// The positions of `len` rows from the last to the first.
pub fn reversed_positions(alloc: Global, len: u32) -> Result<Vec<u32>, AllocError>
    ensures { IfOk result (λ v. v.items ≡ map (λ i. len - 1 - i) (range_with_len 0 len)) }
{
    (0..len).map(|i| len - 1 - i).collect(alloc)
}

/// One position more where the flag is set.
fn push_if(positions: &mut Vec<u32>, position: u32, is_set: bool) -> Result<(), AllocError>
    ensures { OnOk result (positions.new.items ≡ positions.old.items ++ cond is_set (position ∷ []) []) }
{
    if is_set {
        positions.push(position)?;
    }
    Ok(())
}

/// The 64 positions from `start` on.
fn push_all(positions: &mut Vec<u32>, start: u32) -> Result<(), AllocError>
    requires { start + 64 ≤ 2 ^ 32 }
    ensures { OnOk result (positions.new.items ≡ positions.old.items ++ range_with_len start 64) }
{
    for i in 0..64 {
        positions.push(start + i)?;
    }
    Ok(())
}

/// The positions of the bits of a word that are set, its first bit at `start`.
fn push_some(positions: &mut Vec<u32>, start: u32, word: u64) -> Result<(), AllocError>
    requires { start + 64 ≤ 2 ^ 32 }
    ensures { OnOk result (positions.new.items
        ≡ positions.old.items ++ filter (λ i. bit_at word (i - start) == 1) (range_with_len start 64)) }
{
    for i in 0..64 {
        push_if(positions, start + i, (word >> i) & 1 == 1)?;
    }
    Ok(())
}

/// The same, where a word of which all bits are equal is not looked at bit by bit.
fn push_word(positions: &mut Vec<u32>, start: u32, word: u64) -> Result<(), AllocError>
    requires { start + 64 ≤ 2 ^ 32 }
    ensures { OnOk result (positions.new.items
        ≡ positions.old.items ++ filter (λ i. bit_at word (i - start) == 1) (range_with_len start 64)) }
{
    match word {
        0 => Ok(()),
        u64::MAX => push_all(positions, start),
        _ => push_some(positions, start, word),
    }
}

/// The positions of the bits that are set, in order. They are counted first, and found word by word.
pub fn set_positions(alloc: Global, bits: &Bitmap) -> Result<Vec<u32>, AllocError>
    ensures positions { IfOk result (λ v. v.items ≡ set_positions bits.now) }
    ensures below_limit { IfOk result (λ v. length v.items < 2 ^ 32) }
{
    let count = bits.len() - bits.zeros();
    let words = bits.words();
    let mut positions = Vec::with_capacity(alloc, count)?;
    for i in 0..words.len() {
        push_word(&mut positions, (i * 64) as u32, words[i])?;
    }
    Ok(positions)
}

/// The positions of the rows that are not null, in order.
pub fn valid_positions(alloc: Global, a: &Buffer) -> Result<Vec<u32>, AllocError>
    ensures positions { IfOk result (λ v. v.items ≡ set_positions (map is_some (rows_of a.now))) }
    ensures below_limit { IfOk result (λ v. length v.items < 2 ^ 32) }
{
    match a.validity() {
        Some(valid) => set_positions(alloc, valid),
        None => Ok(Vec::new(alloc)),
    }
}
