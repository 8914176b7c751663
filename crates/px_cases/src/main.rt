//! Cases of the program, one a line: standard input says what is asked, standard output how it ended.
//!
//! A case has five fields with a tab between them: the words; the numbers of the reads that fail; the
//! room of the sink; the numbers of the writes that fail; the document. Words and numbers have spaces
//! between them. The document is `=` and its text, or `*`, a count, a space and a text that stands so
//! many times, or `!` and a text after which a byte comes that no UTF-8 text has.
//!
//! The answer is the status, how many bytes the sink holds, and these bytes but for a line feed at
//! their end.
#![tactic(auto)]

mod cases;
mod runs;

use crate::runs::answer_of;
use px_app::{StdSink, StdSource};
use px_streams::{read_whole, write_whole};
use std::alloc::AllocError;
use std::process::ExitCode;

/// No memory, or a fault of reading or writing.
const FAILED: u8 = 3;

fn main(rt: HostRuntime) -> ExitCode {
    match run(rt) {
        Some(()) => ExitCode::from(0),
        None => ExitCode::from(FAILED),
    }
}

/// Answers each line.
fn run(rt: HostRuntime) -> Option<()> {
    let alloc = rt.alloc();
    let mut source = StdSource::new(rt.reader());
    let bytes = read_whole(alloc, &mut source).ok()?;
    let mut sink = StdSink::new(rt);
    let text = str::from_utf8(bytes.as_slice()).ok()?;
    for line in text.lines() {
        let answer = answer_of(alloc, line).ok()?;
        write_whole(&mut sink, answer.as_slice()).ok()?;
    }
    Some(())
}
