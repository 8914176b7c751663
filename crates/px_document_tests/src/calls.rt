//! Calls over sources and sinks. What is answered to which bytes are the cases of px_cases.
ghost use Rattle.std.specs.Prelude.{◌≡◌, None};

use px_app::{
    ANSWERED, Failed, MemorySink, MemorySource, NO_DOCUMENT, OTHER_WORDS, READ_FAULT, REFUSED,
    Source, TOO_LONG, WRITE_FAULT, run_document,
};
use px_types::{List, SmallStr, Steps};
use std::alloc::Global;
use std::marker::Brand;
use std::sync::ledger::{Blank, Ledger};
use std::test::Fail;

const WORKED: &str =
    r#"{"columns":[{"name":"a","dtype":"Int32","values":[1,null,3]}],"exprs":[{"binary":[{"col":"a"},"Plus",{"lit":5}]}]}"#;

const WORKED_REPORT: &str =
    r#"{"columns":[{"dtype":"Int32","name":"a","values":[6,null,8]}],"rewrites":0,"trees":[{"binary":[{"col":"a"},"Plus",{"lit":{"dtype":"Int32","value":5}}]}]}"#;

/// A source that never ends.
#[derive(Drop)]
struct Endless {}

impl Source for Endless {
    ghost left = { λ _. None };

    ghost faults = { λ _. 0 };

    fn read(&mut self, buffer: &mut [u8]) -> Result<usize, Failed> {
        Ok(buffer.len())
    }
}

fn counted<S: Source, L: Ledger>(
    alloc: Global,
    words: &[&str],
    source: &mut S,
    sink: &mut MemorySink,
    blank: Blank,
) -> Result<u8, Fail>
    requires name { blank.name ≡ L.name }
    requires parts { blank.parts ≡ L.parts }
    requires one { blank.parts ≡ 1 }
{
    let mut steps: Steps<L> = Steps::new(blank);
    let mut all = List::new(alloc);
    for word in words {
        all.try_push(SmallStr::new(alloc, word)?)?;
    }
    Ok(run_document(alloc, all.as_slice(), source, sink, &mut steps))
}

fn status<S: Source>(
    alloc: Global,
    words: &[&str],
    source: &mut S,
    sink: &mut MemorySink,
) -> Result<u8, Fail> {
    counted::<S, Brand>(alloc, words, source, sink, Blank::new(1))
}

/// The run ends with the status and writes just the text, and a line feed where there is one.
fn answers(
    alloc: Global,
    word: &str,
    document: &str,
    expected: u8,
    text: &str,
) -> Result<(), Fail> {
    let mut source = MemorySource::new(alloc, document.as_bytes(), &[])?;
    let mut sink = MemorySink::new(alloc, 4096, &[])?;
    let answered = status(alloc, &[word], &mut source, &mut sink)?;
    let contents = sink.contents();
    if answered == expected && contents.strip_suffix(b"\n").unwrap_or(contents) == text.as_bytes() {
        Ok(())
    } else {
        Err(document)?
    }
}

#[test]
fn a_document_is_answered_under_its_word(rt: HostRuntime) -> Result<(), Fail> {
    let alloc = rt.alloc();
    answers(alloc, "select", WORKED, ANSWERED, WORKED_REPORT)?;
    answers(
        alloc,
        "filter",
        WORKED,
        REFUSED,
        r#"{"error":"InvalidOperation"}"#,
    )?;
    answers(alloc, "select", "[]", NO_DOCUMENT, "")
}

/// The words are none that the program knows, and nothing is read or written.
fn are_unknown(alloc: Global, words: &[&str]) -> Result<(), Fail> {
    let mut source = MemorySource::new(alloc, WORKED.as_bytes(), &[])?;
    let mut sink = MemorySink::new(alloc, 4096, &[])?;
    let answered = status(alloc, words, &mut source, &mut sink)?;
    if answered == OTHER_WORDS && source.left() == WORKED.as_bytes() && sink.contents().is_empty() {
        Ok(())
    } else {
        Err("known words")?
    }
}

#[test]
fn other_words_read_nothing(rt: HostRuntime) -> Result<(), Fail> {
    let alloc = rt.alloc();
    are_unknown(alloc, &[])?;
    are_unknown(alloc, &["generate", "1"])?;
    are_unknown(alloc, &["select", "now"])?;
    are_unknown(alloc, &["Select"])
}

/// A run over a source whose reads at these numbers fail, into a sink with this room.
fn fails(
    alloc: Global,
    document: &str,
    reads: &[u64],
    room: usize,
    expected: u8,
    contents: &str,
) -> Result<(), Fail> {
    let mut source = MemorySource::new(alloc, document.as_bytes(), reads)?;
    let mut sink = MemorySink::new(alloc, room, &[])?;
    let answered = status(alloc, &["select"], &mut source, &mut sink)?;
    if answered == expected && sink.contents() == contents.as_bytes() {
        Ok(())
    } else {
        Err(document)?
    }
}

#[test]
fn faults_of_reading_and_writing_are_told(rt: HostRuntime) -> Result<(), Fail> {
    let alloc = rt.alloc();
    fails(alloc, WORKED, &[0], 4096, READ_FAULT, "")?;
    fails(alloc, WORKED, &[1], 4096, READ_FAULT, "")?;
    fails(alloc, WORKED, &[], 10, WRITE_FAULT, "{\"columns\"")?;
    let unknown = r#"{"columns":[],"exprs":[{"col":"b"}]}"#;
    fails(alloc, unknown, &[], 10, WRITE_FAULT, "{\"error\":\"")
}

#[test]
fn more_than_64_mib_are_too_many(rt: HostRuntime) -> Result<(), Fail> {
    let alloc = rt.alloc();
    let mut sink = MemorySink::new(alloc, 16, &[])?;
    assert_eq!(rt;
        status(alloc, &["select"], &mut Endless {}, &mut sink)?,
        TOO_LONG
    );
    assert_eq!(rt; sink.contents().len(), 0);
    Ok(())
}
