//! The top call over bytes that are lent.
ghost use Rattle.std.specs.Prelude.{◌≡◌, [], Some, None, IfOk, IfErr, IfSome, IfNone};
ghost use Rattle.px_document.specs.Document as spec;
ghost use Rattle.px_app.specs.Statuses.{status_of_document};
ghost use Rattle.px_app.specs.Written.{IsAnswerTo, IsReply};

use crate::reply::{Answer, reply_to_document};
use crate::status::{NO_DOCUMENT, NO_MEMORY, TOO_LONG};
use px_document::document_of_bytes;
use px_expr::Context;
use px_streams::LIMIT;
use px_types::{PlanError, Steps};
use std::alloc::Global;
use std::sync::ledger::Ledger;

/// The answer to the document that the bytes are, in a context: what `run_document` writes for them,
/// and how it ends. The bytes are only read, and not copied. Each call is answered.
///
/// | Status | When | Text |
/// |---|---|---|
/// | 0 | the document was answered | the report and a line feed |
/// | 1 | the expressions have a fault, of themselves or on these columns | its line |
/// | 2 | the bytes are no document | none |
/// | 3 | out of memory | none |
/// | 7 | there are more than 64 MiB | none |
pub fn answer_bytes<L: Ledger>(
    alloc: Global,
    bytes: &[u8],
    context: Context,
    steps: &mut Steps<L>,
) -> Answer
    ensures answer { IsAnswerTo context bytes.now result.status result.text.items }
{
    if bytes.len() > LIMIT {
        return no_text(alloc, TOO_LONG);
    }
    match reply_to_bytes(alloc, bytes, context, steps) {
        Err(_) => no_text(alloc, NO_MEMORY),
        Ok(None) => no_text(alloc, NO_DOCUMENT),
        Ok(Some(answer)) => answer,
    }
}

/// An answer without a text.
fn no_text(alloc: Global, status: u8) -> Answer
    ensures status { result.status ≡ status }
    ensures text { result.text.items ≡ [] }
{
    Answer {
        status,
        text: Vec::new(alloc),
    }
}

/// What is expected for the bytes, or None where they are no document.
fn reply_to_bytes<L: Ledger>(
    alloc: Global,
    bytes: &[u8],
    context: Context,
    steps: &mut Steps<L>,
) -> Result<Option<Answer>, PlanError>
    ensures reply { IfOk result (λ o. IfSome o (λ reply. IsReply context bytes.now reply.status reply.text.items)) }
    ensures status { IfOk result (λ o. IfSome o (λ reply. reply.status
        ≡ status_of_document context (spec.document_of_bytes bytes.now))) }
    ensures none { IfOk result (λ o. IfNone o (spec.document_of_bytes bytes.now ≡ None)) }
    ensures err { IfErr result (λ e. e ≡ PlanError.OutOfMemory) }
{
    let Some(document) = document_of_bytes(alloc, bytes)? else {
        return Ok(None);
    };
    Ok(Some(reply_to_document(alloc, document, context, steps)?))
}
