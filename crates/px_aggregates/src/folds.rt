//! An operation on all values of a buffer that are not null, in one pass.
ghost use Rattle.std.specs.Prelude.{◌≡◌, ◌≤◌, ◌<◌, ◌+◌, ◌/◌, ◌^◌, [], ◌∷◌, length, map, cond};
ghost use Rattle.px_semantics.specs.Aggregates.{numbers_of};
ghost use Rattle.px_arrays.specs.BitmapOf.{bit_of};
ghost use Rattle.px_types.specs.Integers.{into};
ghost use Rattle.px_aggregates.specs.Folds.{fold_into, set_numbers};

use px_arrays::IntegerArray;
use px_integers::{Integer, Operation, Residue};

/// The number, taken into another type.
fn residue_of<T: Integer, A: Residue>(value: T) -> A
    ensures { A.integer result ≡ into A.value_type (T.integer value) }
{
    A::residue(value.to_wide())
}

/// The operation on the start and each number in turn.
fn fold_values<T: Integer, A: Residue, O: Operation<A>>(start: A, values: &[T]) -> A
    ensures { A.integer result ≡ fold_into A.value_type O.meaning (A.integer start) (map T.integer values.now) }
{
    let mut answer = start;
    for i in 0..values.len() {
        answer = O::apply(answer, residue_of::<T, A>(values[i]));
    }
    answer
}

/// Whether bit `i` of the word is set.
fn is_set(word: u64, i: usize) -> bool
    requires { i < 64 }
    ensures { result ≡ bit_of (word ∷ []) i }
{
    (word >> i) & 1 == 1
}

/// The operation on the answer so far and a number, where bit `i` of the word is set.
fn apply_where_set<T: Integer, A: Residue, O: Operation<A>>(
    answer: A,
    value: T,
    word: u64,
    i: usize,
) -> A
    requires { i < 64 }
    ensures { A.integer result ≡ cond (bit_of (word ∷ []) i)
        (O.meaning (A.integer answer) (into A.value_type (T.integer value))) (A.integer answer) }
{
    if is_set(word, i) {
        return O::apply(answer, residue_of::<T, A>(value));
    }
    answer
}

/// The operation on the start and each number whose bit of the word is set.
fn fold_set_bits<T: Integer, A: Residue, O: Operation<A>>(start: A, values: &[T], word: u64) -> A
    requires { length values.now ≤ 64 }
    ensures { A.integer result ≡ fold_into A.value_type O.meaning (A.integer start)
        (set_numbers (word ∷ []) (map T.integer values.now)) }
{
    let mut answer = start;
    for i in 0..values.len() {
        answer = apply_where_set::<T, A, O>(answer, values[i], word, i);
    }
    answer
}

/// The same, with no test of each bit where all are set.
fn fold_word<T: Integer, A: Residue, O: Operation<A>>(start: A, values: &[T], word: u64) -> A
    requires { length values.now ≤ 64 }
    ensures { A.integer result ≡ fold_into A.value_type O.meaning (A.integer start)
        (set_numbers (word ∷ []) (map T.integer values.now)) }
{
    if word == u64::MAX {
        return fold_values::<T, A, O>(start, values);
    }
    fold_set_bits::<T, A, O>(start, values, word)
}

/// The operation on the start and each number whose bit of the words is set.
fn fold_words<T: Integer, A: Residue, O: Operation<A>>(start: A, values: &[T], words: &[u64]) -> A
    requires below_limit { length values.now < 2 ^ 32 }
    requires whole { length words.now ≡ (length values.now + 63) / 64 }
    ensures { A.integer result ≡ fold_into A.value_type O.meaning (A.integer start)
        (set_numbers words.now (map T.integer values.now)) }
{
    let mut answer = start;
    for at in 0..words.len() {
        let first = at * 64;
        let end = values.len().min(first + 64);
        let word = words[at];
        answer = fold_word::<T, A, O>(answer, &values[first..end], word);
    }
    answer
}

/// The operation on the start and each value that is not null, in the order of the rows.
pub fn fold_valid<T: Integer, A: Residue, O: Operation<A>>(start: A, rows: &IntegerArray<T>) -> A
    ensures { A.integer result ≡ fold_into A.value_type O.meaning (A.integer start) (numbers_of rows.now) }
{
    let values = rows.values();
    let valid = rows.valid();
    if valid.zeros() == 0 {
        return fold_values::<T, A, O>(start, values);
    }
    prove!(rows.len() == valid.len());
    fold_words::<T, A, O>(start, values, valid.words())
}
