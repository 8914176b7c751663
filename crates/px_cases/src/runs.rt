//! How a case ends.
ghost use Rattle.std.specs.Prelude.{◌≡◌};

use crate::cases::{Case, case_of};
use px_app::{MemorySink, MemorySource, run_document};
use px_types::{PlanError, Steps};
use std::alloc::Global;
use std::marker::Brand;
use std::sync::ledger::{Blank, Ledger};

fn counted<L: Ledger>(
    alloc: Global,
    case: &Case,
    source: &mut MemorySource,
    sink: &mut MemorySink,
    blank: Blank,
) -> u8
    requires name { blank.name ≡ L.name }
    requires parts { blank.parts ≡ L.parts }
    requires one { blank.parts ≡ 1 }
{
    let mut steps: Steps<L> = Steps::new(blank);
    run_document(alloc, case.words.as_slice(), source, sink, &mut steps)
}

fn status(alloc: Global, case: &Case, sink: &mut MemorySink) -> Result<u8, PlanError> {
    let document = case.document.as_slice();
    let failing = case.failing_reads.as_slice();
    let mut source = MemorySource::new(alloc, document, failing)?;
    Ok(counted::<Brand>(alloc, case, &mut source, sink, Blank::new(1)))
}

/// The bytes but for a line feed at their end.
fn without_line_feed(bytes: &[u8]) -> &[u8] {
    match bytes.split_last() {
        Some((b'\n', front)) => front,
        _ => bytes,
    }
}

/// The line that says how the case of a line ended.
pub fn answer_of(alloc: Global, line: &str) -> Result<Vec<u8>, PlanError> {
    let case = case_of(alloc, line)?;
    let mut sink = MemorySink::new(alloc, case.room, case.failing_writes.as_slice())?;
    let status = status(alloc, &case, &mut sink)?;
    let contents = sink.contents();
    let count = contents.len();
    let numbers = format!(in alloc; "{status} {count} ")?;
    let mut answer = Vec::new(alloc);
    answer.extend_from_slice(numbers.as_bytes())?;
    answer.extend_from_slice(without_line_feed(contents))?;
    answer.push(b'\n')?;
    Ok(answer)
}
