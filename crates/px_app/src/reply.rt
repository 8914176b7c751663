//! What is expected for a document.
ghost use Rattle.std.specs.Prelude.{◌≡◌, ◌≢◌, Some, None, IfOk, IfErr, IfSome, IfNone, IsSome};
ghost use Rattle.px_forms.specs.Written.{all_data};
ghost use Rattle.px_document.specs.Document as spec;
ghost use Rattle.px_document.specs.Report.{line, error_data};
ghost use Rattle.px_eval.specs.Selected.{answered};
ghost use Rattle.px_app.specs.Answers.{IsAnswered, IsFault, IsReportText};
ghost use Rattle.px_app.specs.Statuses.{status_of_document};
ghost use Rattle.px_app.specs.Written.{IsReply, IsReplyTo};

use crate::report::report_value;
use crate::status::{ANSWERED, REFUSED};
use px_document::{Document, document_of_bytes, error_value, line};
use px_eval::{Collected, run_select};
use px_expr::{Context, KernelList};
use px_types::{PlanError, Steps};
use std::alloc::Global;
use std::sync::ledger::Ledger;

/// What is answered to a document.
#[derive(Drop)]
pub struct Answer {
    /// How it ended, as an exit status.
    pub status: u8,
    /// The report or the line of a fault, with its line feed; empty where the status has none.
    pub text: Vec<u8>,
}

/// What is expected for the bytes, or None where they are no document. They are dropped before the
/// expressions are looked at.
pub(crate) fn reply_to<L: Ledger>(
    alloc: Global,
    bytes: Vec<u8>,
    context: Context,
    steps: &mut Steps<L>,
) -> Result<Option<Answer>, PlanError>
    ensures reply { IfOk result (λ o. IfSome o (λ reply. IsReply context bytes.items reply.status reply.text.items)) }
    ensures status { IfOk result (λ o. IfSome o (λ reply. reply.status
        ≡ status_of_document context (spec.document_of_bytes bytes.items))) }
    ensures none { IfOk result (λ o. IfNone o (spec.document_of_bytes bytes.items ≡ None)) }
    ensures err { IfErr result (λ e. e ≡ PlanError.OutOfMemory) }
{
    let Some(document) = document_of_bytes(alloc, bytes.as_slice())? else {
        return Ok(None);
    };
    drop(bytes);
    Ok(Some(reply_to_document(alloc, document, context, steps)?))
}

/// The report, or the line of a fault.
pub(crate) fn reply_to_document<L: Ledger>(
    alloc: Global,
    document: Document,
    context: Context,
    steps: &mut Steps<L>,
) -> Result<Answer, PlanError>
    ensures reply { IfOk result (λ reply. IsReplyTo context document reply.status reply.text.items) }
    ensures status { IfOk result (λ reply. reply.status ≡ status_of_document context (Some document)) }
    ensures err { IfErr result (λ e. e ≡ PlanError.OutOfMemory) }
{
    match selected(alloc, document, context, steps) {
        Ok(collected) => Ok(Answer {
            status: ANSWERED,
            text: report_line(alloc, collected)?,
        }),
        Err(fault) => refusal(alloc, fault),
    }
}

/// The line of a fault. Out of memory is none.
fn refusal(alloc: Global, fault: PlanError) -> Result<Answer, PlanError>
    ensures fault { IfOk result (λ _. fault ≢ PlanError.OutOfMemory) }
    ensures status { IfOk result (λ reply. reply.status ≡ REFUSED) }
    ensures line { IfOk result (λ reply. reply.text.items ≡ line (error_data fault)) }
    ensures err { IfErr result (λ e. e ≡ PlanError.OutOfMemory) }
{
    match fault {
        PlanError::OutOfMemory => Err(PlanError::OutOfMemory),
        fault => Ok(Answer {
            status: REFUSED,
            text: error_line(alloc, &fault)?,
        }),
    }
}

/// What the document's expressions give, without kernels. The document is dropped before this
/// returns.
fn selected<L: Ledger>(
    alloc: Global,
    document: Document,
    context: Context,
    steps: &mut Steps<L>,
) -> Result<Collected, PlanError>
    ensures answer { IfOk result (λ s. IsAnswered context document s.columns (answered s) s.rewrites) }
    ensures forms { IfOk result (λ s. IsSome (all_data (answered s))) }
    ensures status { IfOk result (λ _. status_of_document context (Some document) ≡ ANSWERED) }
    ensures fault { IfErr result (λ e. e ≢ PlanError.OutOfMemory → IsFault context document e) }
    ensures refused { IfErr result (λ e. e ≢ PlanError.OutOfMemory
        → status_of_document context (Some document) ≡ REFUSED) }
{
    let kernels = KernelList::new(alloc);
    let exprs = document.exprs.as_slice();
    run_select(alloc, &document.frame, exprs, context, &kernels, steps)
}

/// The text of a report.
fn report_line(alloc: Global, collected: Collected) -> Result<Vec<u8>, PlanError>
    requires { IsSome (all_data (answered collected)) }
    ensures text { IfOk result (λ text. IsReportText collected.columns
        (answered collected) collected.rewrites text.items) }
    ensures err { IfErr result (λ e. e ≡ PlanError.OutOfMemory) }
{
    let value = report_value(alloc, &collected)?;
    drop(collected);
    line(alloc, &value)
}

/// The text of an error's line.
fn error_line(alloc: Global, error: &PlanError) -> Result<Vec<u8>, PlanError>
    ensures line { IfOk result (λ text. text.items ≡ line (error_data error.now)) }
    ensures err { IfErr result (λ e. e ≡ PlanError.OutOfMemory) }
{
    let value = error_value(alloc, error)?;
    line(alloc, &value)
}
