//! px for callers in C, Rust, Python and other languages, as a static library.
#![tactic(auto)]

ghost use Rattle.std.specs.Prelude.{◌≡◌, ◌≤◌, ◌<◌, ◌++◌, ◌+◌, ◌*◌, length, drop, IfSome, IfNone};
ghost use Rattle.px_c.specs.Calls as calls;
ghost use Rattle.px_c.specs.Calls.{IsCallIn};

mod codes;
#[cfg(test)]
mod tests;

use crate::codes::{FILTER, OTHER_CONTEXT, SELECT, TOO_SHORT, VERSION};
use px_app::{Answer, answer_bytes};
use px_expr::Context;
use px_streams::LIMIT;
use px_types::Steps;
use std::alloc::Global;
use std::marker::Brand;
use std::sync::ledger::{Blank, Ledger};

/// How a call ended.
#[repr(C)]
#[derive(Clone, Copy, Debug)]
pub struct PxAnswer {
    /// The whole length of the reply in bytes, also where the buffer is shorter; 0 where there is none.
    pub length: usize,
    /// How the call ended.
    pub status: u8,
}

/// Answers a document in a context, which is 0 for `select` and 1 for `filter`. The document is only
/// read, and not copied. Each call is answered.
///
/// | Status | When | Length | Written into the buffer |
/// |---|---|---|---|
/// | 0 | the document was answered | the reply's | the report and a line feed, at the front |
/// | 1 | the expressions have a fault, of themselves or on these columns | the reply's | its line, at the front |
/// | 2 | the bytes are no document | 0 | nothing |
/// | 3 | out of memory | 0 | nothing |
/// | 5 | the buffer is shorter than the reply | the reply's | nothing |
/// | 6 | the context is another | 0 | nothing |
/// | 7 | there are more than 64 MiB | 0 | nothing |
#[unsafe(no_mangle)]
pub extern "C" fn px_answer(
    alloc: Global,
    context: u32,
    document: &[u8],
    buffer: &mut [u8],
) -> PxAnswer
    ensures other_context { IfNone (calls.context_of context) ((result.status ≡ OTHER_CONTEXT)
        × (result.length ≡ 0) × (buffer.new ≡ buffer.old)) }
    ensures call { IfSome (calls.context_of context)
        (λ c. IsCallIn c document.now buffer.old buffer.new result.status result.length) }
{
    match context_of(context) {
        None => PxAnswer {
            length: 0,
            status: OTHER_CONTEXT,
        },
        Some(context) => answer_in::<Brand>(alloc, context, document, buffer, Blank::new(1)),
    }
}

/// What the code of a context asks for.
fn context_of(code: u32) -> Option<Context>
    ensures { result ≡ calls.context_of code }
{
    if code == SELECT {
        Some(Context::Select)
    } else if code == FILTER {
        Some(Context::Filter)
    } else {
        None
    }
}

/// Answers in a context, with a counter of steps that nobody reads.
fn answer_in<L: Ledger>(
    alloc: Global,
    context: Context,
    document: &[u8],
    buffer: &mut [u8],
    blank: Blank,
) -> PxAnswer
    requires name { blank.name ≡ L.name }
    requires parts { blank.parts ≡ L.parts }
    requires one { blank.parts ≡ 1 }
    ensures { IsCallIn context document.now buffer.old buffer.new result.status result.length }
{
    let mut steps: Steps<L> = Steps::new(blank);
    let answer = answer_bytes(alloc, document, context, &mut steps);
    deliver(&answer, buffer)
}

/// Puts an answer's text at the front of the buffer, where it fits.
fn deliver(answer: &Answer, buffer: &mut [u8]) -> PxAnswer
    ensures fits { length answer.now.text.items ≤ length buffer.old → (result.status ≡ answer.now.status)
        × (buffer.new ≡ answer.now.text.items ++ drop (length answer.now.text.items) buffer.old) }
    ensures too_short { length buffer.old < length answer.now.text.items → (result.status ≡ TOO_SHORT)
        × (buffer.new ≡ buffer.old) }
    ensures reply_length { result.length ≡ length answer.now.text.items }
{
    let length = answer.text.len();
    if length > buffer.len() {
        return PxAnswer {
            length,
            status: TOO_SHORT,
        };
    }
    buffer[..length].copy_from_slice(answer.text.as_slice());
    PxAnswer {
        length,
        status: answer.status,
    }
}

/// The most bytes that a document may have: 64 MiB.
#[unsafe(no_mangle)]
pub extern "C" fn px_limit() -> usize
    ensures { result ≡ LIMIT }
{
    LIMIT
}

/// The version of px as 0xMMmmpp: major, minor, patch.
#[unsafe(no_mangle)]
pub extern "C" fn px_version() -> u32
    ensures { result ≡ VERSION }
{
    VERSION
}

/// A length in bytes for the buffer, at a document of so many bytes: an estimate that most replies
/// keep to, and no bound, since one literal can stand in each of a million rows. 0 for a document
/// that is too long, which has no reply.
#[unsafe(no_mangle)]
pub extern "C" fn px_room(document_length: usize) -> usize
    ensures within { document_length ≤ LIMIT → result ≡ 6 * document_length + 256 }
    ensures too_long { LIMIT < document_length → result ≡ 0 }
{
    if document_length > LIMIT {
        return 0;
    }
    6 * document_length + 256
}
