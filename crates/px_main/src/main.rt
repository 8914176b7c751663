//! The program: `px select` and `px filter` read a document on standard input and write its report.
#![tactic(auto)]

ghost use Rattle.std.specs.Prelude.{◌≡◌};

use px_app::{NO_MEMORY, OTHER_WORDS, StdSink, StdSource, run_document};
use px_types::{List, PlanError, SmallStr, Steps};
use std::alloc::Global;
use std::marker::Brand;
use std::process::ExitCode;
use std::rt::Env;
use std::sync::ledger::{Blank, Ledger};
use std::{env, io};

fn main(rt: HostRuntime) -> ExitCode {
    let status = match words_of(&rt) {
        Ok(words) => answered::<Brand>(rt, words.as_slice(), Blank::new(1)),
        Err(status) => status,
    };
    ExitCode::from(status)
}

/// Answers over standard input and output, with a counter that nobody reads.
fn answered<L: Ledger>(rt: HostRuntime, words: &[SmallStr], blank: Blank) -> u8
    requires name { blank.name ≡ L.name }
    requires parts { blank.parts ≡ L.parts }
    requires one { blank.parts ≡ 1 }
{
    let alloc = rt.alloc();
    let mut steps: Steps<L> = Steps::new(blank);
    let mut source = StdSource::new(rt.reader());
    let mut sink = StdSink::new(rt);
    run_document(alloc, words, &mut source, &mut sink, &mut steps)
}

/// The arguments after the program's name, or the status without them.
fn words_of(rt: &(impl Env + Alloc<A = Global>)) -> Result<List<SmallStr>, u8> {
    let args = env::args(rt).map_err(status_of)?;
    let mut words = List::new(rt.alloc());
    for arg in args.skip(1) {
        let word = SmallStr::new(rt.alloc(), arg.as_str()).map_err(no_memory)?;
        words.try_push(word).map_err(no_memory)?;
    }
    Ok(words)
}

/// An argument that is not UTF-8 is none of the words.
fn status_of(error: io::Error) -> u8 {
    if error.kind() == io::ErrorKind::OutOfMemory {
        NO_MEMORY
    } else {
        OTHER_WORDS
    }
}

fn no_memory(_error: PlanError) -> u8 {
    NO_MEMORY
}
