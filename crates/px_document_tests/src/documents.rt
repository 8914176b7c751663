//! What documents are read, and the bytes that are written.

use px_document::{document_of_bytes, error_value, line, report_of};
use px_types::{PlanError, SmallStr};
use std::alloc::Global;
use std::test::Fail;

/// The line of a report of a document's own columns and expressions, or a word where there is none.
fn echo(alloc: Global, document: &[u8], rewrites: u64) -> Result<Vec<u8>, Fail> {
    let Some(document) = document_of_bytes(alloc, document)? else {
        return Ok(b"no document".to_vec(alloc)?);
    };
    let columns = document.frame.columns();
    let exprs = document.exprs.as_slice();
    match report_of(alloc, columns, exprs, rewrites)? {
        Some(report) => Ok(line(alloc, &report)?),
        None => Ok(b"no report".to_vec(alloc)?),
    }
}

/// The document is echoed as the text and a line feed.
fn echoes(alloc: Global, document: &str, rewrites: u64, expected: &str) -> Result<(), Fail> {
    let answer = echo(alloc, document.as_bytes(), rewrites)?;
    if answer.as_slice().strip_suffix(b"\n") == Some(expected.as_bytes()) {
        Ok(())
    } else {
        Err(document)?
    }
}

/// The bytes are no document.
fn is_none(alloc: Global, bytes: &[u8]) -> Result<(), Fail> {
    match document_of_bytes(alloc, bytes)? {
        None => Ok(()),
        Some(_) => Err("a document")?,
    }
}

#[test]
fn columns_are_read_and_written(rt: HostRuntime) -> Result<(), Fail> {
    let alloc = rt.alloc();
    echoes(
        alloc,
        r#" {"exprs":[],"columns":[]} "#,
        0,
        r#"{"columns":[],"rewrites":0,"trees":[]}"#,
    )?;
    echoes(
        alloc,
        r#"{"columns":[{"name":"n","dtype":"Null","values":[null,null]},{"name":"p","dtype":"Boolean","values":[true,null]},{"values":["\"\n\u00e9",null],"dtype":"String","name":"s"}],"exprs":[]}"#,
        1,
        r#"{"columns":[{"dtype":"Null","name":"n","values":[null,null]},{"dtype":"Boolean","name":"p","values":[true,null]},{"dtype":"String","name":"s","values":["\"\né",null]}],"rewrites":1,"trees":[]}"#,
    )?;
    echoes(
        alloc,
        r#"{"columns":[{"name":"a","dtype":"UInt64","values":[18446744073709551615]},{"name":"b","dtype":"Int64","values":[-9223372036854775808]},{"name":"c","dtype":"UInt8","values":[255]},{"name":"d","dtype":"Int8","values":[-128]}],"exprs":[]}"#,
        18446744073709551615,
        r#"{"columns":[{"dtype":"UInt64","name":"a","values":[18446744073709551615]},{"dtype":"Int64","name":"b","values":[-9223372036854775808]},{"dtype":"UInt8","name":"c","values":[255]},{"dtype":"Int8","name":"d","values":[-128]}],"rewrites":18446744073709551615,"trees":[]}"#,
    )?;
    Ok(())
}

#[test]
fn expressions_are_read_and_written(rt: HostRuntime) -> Result<(), Fail> {
    let alloc = rt.alloc();
    // The last of two values under one key stays.
    echoes(
        alloc,
        r#"{"columns":1,"columns":[],"exprs":[{"col":"a"}]}"#,
        2,
        r#"{"columns":[],"rewrites":2,"trees":[{"col":"a"}]}"#,
    )?;
    // Every form of an expression.
    echoes(
        alloc,
        r#"{"columns":[],"exprs":[{"alias":[{"binary":[{"col":"a"},"Plus",{"lit":5}]},"b"]},{"when":[{"fn":["is_null",{"col":"a"}]},{"lit":null},{"cast":[{"lit":true},"Int8","strict"]}]},{"fn":["fma",{"lit":{"value":7,"dtype":"UInt16"}},{"series":{"name":"s","values":[1,null],"dtype":"Int16"}},{"lit":{"dtype":"Int64","value":"-9"}}]}]}"#,
        3,
        r#"{"columns":[],"rewrites":3,"trees":[{"alias":[{"binary":[{"col":"a"},"Plus",{"lit":5}]},"b"]},{"when":[{"fn":["is_null",{"col":"a"}]},{"lit":null},{"cast":[{"lit":true},"Int8","strict"]}]},{"fn":["fma",{"lit":{"dtype":"UInt16","value":7}},{"series":{"dtype":"Int16","name":"s","values":[1,null]}},{"lit":{"dtype":"Int64","value":-9}}]}]}"#,
    )?;
    echoes(
        alloc,
        r#"{"columns":[],"exprs":[{"lit":"x"},{"lit":{"dtype":"Int128","value":"170141183460469231731687303715884105727"}}]}"#,
        4,
        r#"{"columns":[],"rewrites":4,"trees":[{"lit":"x"},{"lit":{"dtype":"Int128","value":"170141183460469231731687303715884105727"}}]}"#,
    )?;
    Ok(())
}

#[test]
fn other_bytes_are_no_document(rt: HostRuntime) -> Result<(), Fail> {
    let alloc = rt.alloc();
    is_none(alloc, b"")?;
    is_none(alloc, b"[]")?;
    is_none(alloc, b"{\"columns\":[],\"exprs\":[")?;
    is_none(alloc, b"{\"columns\":[],\"exprs\":[]} 1")?;
    is_none(alloc, b"{\"columns\":[]}")?;
    is_none(alloc, b"{\"columns\":[],\"expressions\":[]}")?;
    is_none(alloc, b"{\"columns\":[],\"exprs\":[],\"more\":1}")?;
    is_none(alloc, b"{\"columns\":{},\"exprs\":[]}")?;
    is_none(alloc, b"{\"columns\":[],\"exprs\":[{\"col\":\"\xff\"}]}")?;
    is_none(alloc, b"{\"columns\":1e,\"columns\":[],\"exprs\":[]}")?;
    Ok(())
}

#[test]
fn other_values_are_no_document(rt: HostRuntime) -> Result<(), Fail> {
    let alloc = rt.alloc();
    // Heights differ, and a name comes twice.
    is_none(
        alloc,
        br#"{"columns":[{"name":"a","dtype":"Int32","values":[1]},{"name":"b","dtype":"Null","values":[]}],"exprs":[]}"#,
    )?;
    is_none(
        alloc,
        br#"{"columns":[{"name":"a","dtype":"Int32","values":[]},{"name":"a","dtype":"Null","values":[]}],"exprs":[]}"#,
    )?;
    // No column.
    is_none(
        alloc,
        br#"{"columns":[{"name":"a","dtype":"Int32","values":[1.0]}],"exprs":[]}"#,
    )?;
    is_none(alloc, br#"{"columns":[1],"exprs":[]}"#)?;
    // No expression.
    is_none(alloc, br#"{"columns":[],"exprs":[{"lit":1.5}]}"#)?;
    is_none(alloc, br#"{"columns":[],"exprs":[{"col":"a"},{"len":[]}]}"#)?;
    Ok(())
}

/// A document whose one expression lies 62 aliases deep.
fn nested(alloc: Global, inner: &str) -> Result<String, Fail> {
    let mut text = String::from_str(alloc, "{\"columns\":[],\"exprs\":[")?;
    for _ in 0..62 {
        text.push_str("{\"alias\":[")?;
    }
    text.push_str(inner)?;
    for _ in 0..62 {
        text.push_str(",\"x\"]}")?;
    }
    text.push_str("]}")?;
    Ok(text)
}

#[test]
fn values_nest_127_deep_at_most(rt: HostRuntime) -> Result<(), Fail> {
    let alloc = rt.alloc();
    let text = nested(alloc, r#"{"col":"a"}"#)?;
    assert!(rt; document_of_bytes(alloc, text.as_bytes())?.is_some());
    let text = nested(alloc, r#"{"lit":{"dtype":"Int32","value":1}}"#)?;
    assert!(rt; document_of_bytes(alloc, text.as_bytes())?.is_none());
    Ok(())
}

fn error_line(alloc: Global, error: &PlanError) -> Result<Vec<u8>, Fail> {
    let value = error_value(alloc, error)?;
    Ok(line(alloc, &value)?)
}

#[test]
fn errors_are_lines(rt: HostRuntime) -> Result<(), Fail> {
    let alloc = rt.alloc();
    let missing = PlanError::ColumnNotFound(SmallStr::new(alloc, "b")?);
    let expected = "{\"error\":\"ColumnNotFound\",\"name\":\"b\"}\n";
    assert_eq!(rt;
        error_line(alloc, &missing)?.as_slice(),
        expected.as_bytes()
    );
    let repeated = PlanError::Duplicate(SmallStr::new(alloc, "\"\\\n\u{1}é")?);
    let expected = "{\"error\":\"Duplicate\",\"name\":\"\\\"\\\\\\n\\u0001é\"}\n";
    assert_eq!(rt;
        error_line(alloc, &repeated)?.as_slice(),
        expected.as_bytes()
    );
    let expected = "{\"error\":\"KernelFailed\"}\n";
    assert_eq!(rt;
        error_line(alloc, &PlanError::KernelFailed)?.as_slice(),
        expected.as_bytes()
    );
    Ok(())
}
