//! The top call.
ghost use Rattle.std.specs.Prelude.{◌≡◌, ◌≢◌, ◌⊎◌, ◌↔◌, ◌≤◌, ◌<◌, ℕ, List, None};
ghost use Rattle.std.specs.Io.KnownBytes.{IsAtEnd};
ghost use Rattle.px_streams.specs.Causes.{Rose};
ghost use Rattle.px_streams.specs.Reading.{TookMore, TookAtMost};
ghost use Rattle.px_app.specs.Answers.{IsReport, IsErrorLine, IsExpected};
ghost use Rattle.px_app.specs.Statuses.{HasText, status_of};
ghost use Rattle.px_app.specs.Words as words_for;
ghost use Rattle.px_app.specs.Written.{IfBytesKnown, Puts, PutsPart};

use crate::reply::reply_to;
use crate::status::{
    ANSWERED, NO_DOCUMENT, NO_MEMORY, OTHER_WORDS, READ_FAULT, REFUSED, TOO_LONG, WRITE_FAULT,
};
use px_expr::Context;
use px_streams::{LIMIT, ReadError, Sink, Source, read_whole, write_whole};
use px_types::{SmallStr, Steps};
use std::alloc::Global;
use std::sync::ledger::Ledger;

/// Answers the document that the source gives, and ends with a status. The words are `select` or
/// `filter` alone, which is the context of the document's expressions. Nothing is written before the
/// whole text is there.
///
/// | Status | When | Written |
/// |---|---|---|
/// | 0 | the document was answered | the report and a line feed |
/// | 1 | the expressions have a fault, of themselves or on these columns | its line |
/// | 2 | the bytes are no document | nothing |
/// | 3 | out of memory | nothing |
/// | 4 | a read failed | nothing |
/// | 5 | a write failed | a part at the front of the report or the line |
/// | 6 | the words are others; nothing is read | nothing |
/// | 7 | there are more than 64 MiB | nothing |
pub fn run_document<S: Source, K: Sink, L: Ledger>(
    alloc: Global,
    words: &[SmallStr],
    source: &mut S,
    sink: &mut K,
    steps: &mut Steps<L>,
) -> u8
    ensures range { result ≤ TOO_LONG }

    // Other words come first: nothing is read, written or counted then.
    ensures words { (result ≡ OTHER_WORDS) ↔ (words_for.context_of words.now ≡ None) }
    ensures untouched { result ≡ OTHER_WORDS → (source.new ≡ source.old) × (sink.new ≡ sink.old)
        × (steps.new ≡ steps.old) }

    // What is written, where the source has known bytes.
    ensures answered { result ≡ ANSWERED → IfBytesKnown (words_for.context_of words.now) (S.left source.old)
        (λ context bytes. Puts (K.contents sink.old) (K.contents sink.new) (IsReport context bytes)) }
    ensures refused { result ≡ REFUSED → IfBytesKnown (words_for.context_of words.now) (S.left source.old)
        (λ context bytes. Puts (K.contents sink.old) (K.contents sink.new) (IsErrorLine context bytes)) }
    ensures cut_off { result ≡ WRITE_FAULT → IfBytesKnown (words_for.context_of words.now) (S.left source.old)
        (λ context bytes. PutsPart (K.contents sink.old) (K.contents sink.new) (IsExpected context bytes)) }
    ensures sink_unchanged { result ≢ ANSWERED → result ≢ REFUSED → result ≢ WRITE_FAULT → sink.new ≡ sink.old }

    // How far the source was read.
    ensures read_to_end { (result ≡ ANSWERED) ⊎ (result ≡ REFUSED) ⊎ (result ≡ NO_DOCUMENT)
        ⊎ (result ≡ WRITE_FAULT) → IsAtEnd (S.left source.new) }
    ensures too_long { result ≡ TOO_LONG → TookMore (S.left source.old) (S.left source.new) LIMIT }
    ensures cut_short { result ≡ READ_FAULT → TookAtMost (S.left source.old) (S.left source.new) LIMIT }

    // The status is that of the bytes, but for out of memory and a fault that was counted. A write
    // fails only where a text is expected.
    ensures status { IfBytesKnown (words_for.context_of words.now) (S.left source.old) (λ context bytes.
        (result ≡ status_of LIMIT context bytes) ⊎ (result ≡ NO_MEMORY) ⊎ (result ≡ READ_FAULT)
        ⊎ ((result ≡ WRITE_FAULT) × HasText (status_of LIMIT context bytes))) }
    ensures read_fault { result ≡ READ_FAULT → Rose (S.faults source.old) (S.faults source.new) }
    ensures write_fault { result ≡ WRITE_FAULT → Rose (K.faults sink.old) (K.faults sink.new) }
    ensures read_faults_count_up { S.faults source.old ≤ S.faults source.new }
    ensures write_faults_count_up { K.faults sink.old ≤ K.faults sink.new }
{
    let Some(context) = context_of(words) else {
        return OTHER_WORDS;
    };
    match read_whole(alloc, source) {
        Err(ReadError::ReadFault) => READ_FAULT,
        Err(ReadError::TooLarge) => TOO_LONG,
        Err(ReadError::OutOfMemory) => NO_MEMORY,
        Ok(bytes) => match reply_to(alloc, bytes, context, steps) {
            Err(_) => NO_MEMORY,
            Ok(None) => NO_DOCUMENT,
            Ok(Some(reply)) => match write_whole(sink, reply.text.as_slice()) {
                Ok(()) => reply.status,
                Err(_) => WRITE_FAULT,
            },
        },
    }
}

/// What the words ask for, or None where they are none that the program knows.
fn context_of(words: &[SmallStr]) -> Option<Context>
    ensures { result ≡ words_for.context_of words.now }
{
    match words {
        [word] => context_named(word.as_str()),
        _ => None,
    }
}

fn context_named(word: &str) -> Option<Context>
    ensures { result ≡ words_for.context_named word.now }
{
    if word == "select" {
        Some(Context::Select)
    } else if word == "filter" {
        Some(Context::Filter)
    } else {
        None
    }
}
