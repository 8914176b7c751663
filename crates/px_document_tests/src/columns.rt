//! Which values are columns, and what columns are written as.

use px_json::{column_of_value, value_of_column};
use serde_json::Value;
use std::alloc::Global;
use std::test::Fail;

/// The text that the column of the text is written as, or `none`.
fn written(alloc: Global, text: &str) -> Result<String, Fail> {
    let value = Value::from_str(alloc, text)?;
    let column = column_of_value(alloc, &value)?;
    match column {
        Some(column) => Ok(value_of_column(alloc, &column)?.to_string(alloc)?),
        None => Ok(String::from_str(alloc, "none")?),
    }
}

// Each type with its least and greatest values, and the values that JSON writes with care.
const COLUMNS: [&str; 17] = [
    r#"{"dtype":"Null","name":"a","values":[]}"#,
    r#"{"dtype":"Null","name":"","values":[null,null]}"#,
    r#"{"dtype":"Boolean","name":"a","values":[]}"#,
    r#"{"dtype":"Boolean","name":"a","values":[true,null,false]}"#,
    r#"{"dtype":"String","name":"a","values":[]}"#,
    r#"{"dtype":"String","name":"é","values":["",null,"null","\"\\\n","é"]}"#,
    r#"{"dtype":"UInt8","name":"a","values":[0,null,255]}"#,
    r#"{"dtype":"UInt16","name":"a","values":[0,null,65535]}"#,
    r#"{"dtype":"UInt32","name":"a","values":[0,null,4294967295]}"#,
    r#"{"dtype":"UInt64","name":"a","values":[0,null,18446744073709551615]}"#,
    r#"{"dtype":"Int8","name":"a","values":[-128,null,127]}"#,
    r#"{"dtype":"Int16","name":"a","values":[-32768,null,32767]}"#,
    r#"{"dtype":"Int32","name":"a","values":[-2147483648,null,2147483647]}"#,
    r#"{"dtype":"Int64","name":"a","values":[-9223372036854775808,null,9223372036854775807]}"#,
    r#"{"dtype":"Int32","name":"a","values":[]}"#,
    r#"{"dtype":"Int32","name":"a","values":[null]}"#,
    r#"{"dtype":"Boolean","name":"a","values":[null,null,true]}"#,
];

#[test]
fn columns_are_written_as_they_were_read(rt: HostRuntime) -> Result<(), Fail> {
    for text in COLUMNS {
        let again = written(rt.alloc(), text)?;
        assert_eq!(rt; again.as_str(), text);
    }
    Ok(())
}

// In other orders, with spaces, and with a key that comes twice, of which the last value stays.
const READ: [&str; 4] = [
    r#"{"name":"a","dtype":"Int32","values":[1]}"#,
    r#" { "values" : [ 1 ] , "name" : "a" , "dtype" : "Int32" } "#,
    r#"{"name":1,"dtype":"Int32","values":[1],"name":"a"}"#,
    r#"{"values":[1],"dtype":"Int32","name":"\u0061"}"#,
];

#[test]
fn keys_come_in_any_order(rt: HostRuntime) -> Result<(), Fail> {
    for text in READ {
        let again = written(rt.alloc(), text)?;
        assert_eq!(rt;
            again.as_str(),
            r#"{"dtype":"Int32","name":"a","values":[1]}"#
        );
    }
    Ok(())
}

const NO_COLUMNS: [&str; 42] = [
    "1",
    "null",
    "[]",
    "{}",
    r#"{"name":"a","dtype":"Int32"}"#,
    r#"{"name":"a","values":[]}"#,
    r#"{"dtype":"Int32","values":[]}"#,
    r#"{"name":"a","dtype":"Int32","values":[],"more":1}"#,
    r#"{"name":"a","type":"Int32","values":[]}"#,
    r#"{"name":1,"dtype":"Int32","values":[]}"#,
    r#"{"name":"a","dtype":1,"values":[]}"#,
    r#"{"name":"a","dtype":"int32","values":[]}"#,
    r#"{"name":"a","dtype":"Int128","values":[]}"#,
    r#"{"name":"a","dtype":"Float64","values":[]}"#,
    r#"{"name":"a","dtype":"Int","values":[]}"#,
    r#"{"name":"a","dtype":"Int32","values":null}"#,
    r#"{"name":"a","dtype":"Int32","values":{}}"#,
    r#"{"name":"a","dtype":"Int32","values":[1.0]}"#,
    r#"{"name":"a","dtype":"Int32","values":[1e2]}"#,
    r#"{"name":"a","dtype":"Int32","values":[-0]}"#,
    r#"{"name":"a","dtype":"Int32","values":["1"]}"#,
    r#"{"name":"a","dtype":"Int32","values":[true]}"#,
    r#"{"name":"a","dtype":"Int32","values":[[1]]}"#,
    r#"{"name":"a","dtype":"Int32","values":[2147483648]}"#,
    r#"{"name":"a","dtype":"Int32","values":[1,-2147483649]}"#,
    r#"{"name":"a","dtype":"UInt8","values":[256]}"#,
    r#"{"name":"a","dtype":"UInt8","values":[-1]}"#,
    r#"{"name":"a","dtype":"Int8","values":[128]}"#,
    r#"{"name":"a","dtype":"UInt16","values":[65536]}"#,
    r#"{"name":"a","dtype":"Int16","values":[-32769]}"#,
    r#"{"name":"a","dtype":"UInt32","values":[4294967296]}"#,
    r#"{"name":"a","dtype":"UInt64","values":[-1]}"#,
    r#"{"name":"a","dtype":"UInt64","values":[18446744073709551616]}"#,
    r#"{"name":"a","dtype":"Int64","values":[9223372036854775808]}"#,
    r#"{"name":"a","dtype":"Int64","values":[-9223372036854775809]}"#,
    r#"{"name":"a","dtype":"Boolean","values":[0]}"#,
    r#"{"name":"a","dtype":"Boolean","values":["true"]}"#,
    r#"{"name":"a","dtype":"String","values":[1]}"#,
    r#"{"name":"a","dtype":"String","values":[null,true]}"#,
    r#"{"name":"a","dtype":"Null","values":[null,0]}"#,
    r#"{"name":"a","dtype":"Null","values":[""]}"#,
    r#"{"name":"a","dtype":"Null","values":[false]}"#,
];

#[test]
fn other_values_are_no_columns(rt: HostRuntime) -> Result<(), Fail> {
    for text in NO_COLUMNS {
        let again = written(rt.alloc(), text)?;
        assert_eq!(rt; again.as_str(), "none");
    }
    Ok(())
}
