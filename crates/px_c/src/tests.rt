use crate::{px_answer, px_limit, px_room, px_version};
use std::alloc::Global;
use std::test::Fail;

const WORKED: &str =
    r#"{"columns":[{"name":"a","dtype":"Int32","values":[1,null,3]}],"exprs":[{"binary":[{"col":"a"},"Plus",{"lit":5}]}]}"#;

const WORKED_REPORT: &str =
    r#"{"columns":[{"dtype":"Int32","name":"a","values":[6,null,8]}],"rewrites":0,"trees":[{"binary":[{"col":"a"},"Plus",{"lit":{"dtype":"Int32","value":5}}]}]}"#;

const MASK: &str =
    r#"{"columns":[{"name":"a","dtype":"Boolean","values":[true,null]}],"exprs":[{"col":"a"}]}"#;

const MASK_REPORT: &str =
    r#"{"columns":[{"dtype":"Boolean","name":"","values":[true,null]}],"rewrites":0,"trees":[{"col":"a"}]}"#;

const MASK_FAULT: &str = r#"{"error":"InvalidOperation"}"#;

/// A call ends with the status and the length of the text with its line feed. The text stands at the
/// front of the buffer if it fits, and the rest is as it was. Nothing is promised of this driver, so
/// that a proof does not carry the contract through each call.
fn ends(
    alloc: Global,
    (context, document, room): (u32, &str, usize),
    status: u8,
    text: &str,
) -> Result<(), Fail> {
    let mut buffer = vec![in alloc; 7u8; room]?;
    let answer = px_answer(alloc, context, document.as_bytes(), buffer.as_mut_slice());
    let bytes = buffer.as_slice();
    let fits = answer.length <= room;
    let written = if status <= 1 && fits {
        answer.length
    } else {
        0
    };
    let expected = if text.is_empty() {
        0
    } else {
        text.len().wrapping_add(1)
    };
    if answer.status == status
        && answer.length == expected
        && bytes.iter().skip(written).all(|byte| *byte == 7)
        && (written == 0 || bytes.starts_with(text.as_bytes()))
    {
        Ok(())
    } else {
        Err(document)?
    }
}

#[test]
fn a_document_is_answered_in_its_context(rt: HostRuntime) -> Result<(), Fail> {
    let alloc = rt.alloc();
    ends(alloc, (0, WORKED, 200), 0, WORKED_REPORT)?;
    ends(alloc, (1, WORKED, 200), 1, MASK_FAULT)?;
    ends(alloc, (1, MASK, 200), 0, MASK_REPORT)
}

#[test]
fn a_short_buffer_is_unchanged(rt: HostRuntime) -> Result<(), Fail> {
    let alloc = rt.alloc();
    ends(alloc, (0, WORKED, 3), 5, WORKED_REPORT)?;
    ends(alloc, (1, WORKED, 28), 5, MASK_FAULT)?;
    ends(alloc, (1, WORKED, 29), 1, MASK_FAULT)?;
    ends(alloc, (1, MASK, 0), 5, MASK_REPORT)
}

#[test]
fn calls_without_a_reply_write_nothing(rt: HostRuntime) -> Result<(), Fail> {
    let alloc = rt.alloc();
    ends(alloc, (0, "{}", 9), 2, "")?;
    ends(alloc, (1, "", 0), 2, "")?;
    ends(alloc, (2, WORKED, 200), 6, "")?;
    ends(alloc, (u32::MAX, "", 9), 6, "")
}

#[test]
fn one_byte_past_the_limit_is_too_long(rt: HostRuntime) -> Result<(), Fail> {
    let alloc = rt.alloc();
    let document = vec![in alloc; 32u8; px_limit().wrapping_add(1)]?;
    let answer = px_answer(alloc, 0, document.as_slice(), &mut []);
    assert_eq!(rt; answer.status, 7);
    assert_eq!(rt; answer.length, 0);
    Ok(())
}

#[test]
fn limit_room_and_version_are_the_documented_ones(rt: HostRuntime) -> Result<(), Fail> {
    assert_eq!(rt; px_limit(), 67_108_864);
    assert_eq!(rt; px_version(), 256);
    assert_eq!(rt; px_room(100), 856);
    assert_eq!(rt; px_room(67_108_865), 0);
    Ok(())
}
