//! What a line says.

use px_types::{List, PlanError, SmallStr};
use std::alloc::Global;

/// What is asked of the program.
#[derive(Drop)]
pub struct Case {
    pub words: List<SmallStr>,
    pub failing_reads: Vec<u64>,
    pub room: usize,
    pub failing_writes: Vec<u64>,
    pub document: Vec<u8>,
}

fn words_of(alloc: Global, text: &str) -> Result<List<SmallStr>, PlanError> {
    let mut words = List::new(alloc);
    for word in text.split_whitespace() {
        words.try_push(SmallStr::new(alloc, word)?)?;
    }
    Ok(words)
}

/// The numbers of a text, but for those that are none.
fn numbers_of(alloc: Global, text: &str) -> Result<Vec<u64>, PlanError> {
    let mut numbers = Vec::new(alloc);
    for word in text.split_whitespace() {
        if let Ok(number) = word.parse::<u64>() {
            numbers.push(number)?;
        }
    }
    Ok(numbers)
}

fn repeated(alloc: Global, text: &str) -> Result<Vec<u8>, PlanError> {
    let mut parts = text.splitn(2, ' ');
    let count = match parts.next() {
        Some(word) => word.parse::<u32>().unwrap_or(0),
        None => 0,
    };
    let piece = parts.next().unwrap_or("");
    let mut bytes = Vec::new(alloc);
    for _i in 0..count {
        bytes.extend_from_slice(piece.as_bytes())?;
    }
    Ok(bytes)
}

fn document_of(alloc: Global, text: &str) -> Result<Vec<u8>, PlanError> {
    if let Some(text) = text.strip_prefix("*") {
        return repeated(alloc, text);
    }
    let mut bytes = Vec::new(alloc);
    if let Some(text) = text.strip_prefix("!") {
        bytes.extend_from_slice(text.as_bytes())?;
        bytes.push(255)?;
        return Ok(bytes);
    }
    if let Some(text) = text.strip_prefix("=") {
        bytes.extend_from_slice(text.as_bytes())?;
    }
    Ok(bytes)
}

/// The case of a line. A field that is not there is empty.
pub fn case_of(alloc: Global, line: &str) -> Result<Case, PlanError> {
    let mut fields = line.splitn(5, '\t');
    let words = words_of(alloc, fields.next().unwrap_or(""))?;
    let failing_reads = numbers_of(alloc, fields.next().unwrap_or(""))?;
    let room = fields.next().unwrap_or("").parse::<usize>().unwrap_or(0);
    let failing_writes = numbers_of(alloc, fields.next().unwrap_or(""))?;
    let document = document_of(alloc, fields.next().unwrap_or(""))?;
    Ok(Case {
        words,
        failing_reads,
        room,
        failing_writes,
        document,
    })
}
