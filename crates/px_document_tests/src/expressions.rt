//! Which values are expressions, and what expressions are written as.

use px_expr::{Expr, LiteralValue};
use px_forms::{expr_of_value, exprs_of_values, value_of_expr, values_of_exprs};
use px_types::{ApplyOptions, DataType, FmtName, FunctionFlags, FunctionOptions, SmallStr};
use serde_json::Value;
use std::alloc::Global;
use std::test::Fail;

/// The text that the expression of the text is written as, or `none`.
fn written(alloc: Global, text: &str) -> Result<String, Fail> {
    let value = Value::from_str(alloc, text)?;
    let expr = expr_of_value(alloc, &value)?;
    match expr {
        Some(expr) => text_of(alloc, &expr),
        None => Ok(String::from_str(alloc, "none")?),
    }
}

/// The text of the expression, or `none`.
fn text_of(alloc: Global, expr: &Expr) -> Result<String, Fail> {
    let value = value_of_expr(alloc, expr)?;
    match value {
        Some(value) => Ok(value.to_string(alloc)?),
        None => Ok(String::from_str(alloc, "none")?),
    }
}

const EXPRS: [&str; 62] = [
    r#"{"col":"a"}"#,
    r#"{"col":"*"}"#,
    r#"{"col":""}"#,
    r#"{"lit":null}"#,
    r#"{"lit":true}"#,
    r#"{"lit":false}"#,
    r#"{"lit":""}"#,
    r#"{"lit":"é\"\n"}"#,
    r#"{"lit":0}"#,
    r#"{"lit":-1}"#,
    r#"{"lit":18446744073709551615}"#,
    r#"{"lit":-9223372036854775808}"#,
    r#"{"lit":{"dtype":"UInt8","value":255}}"#,
    r#"{"lit":{"dtype":"UInt16","value":65535}}"#,
    r#"{"lit":{"dtype":"UInt32","value":4294967295}}"#,
    r#"{"lit":{"dtype":"UInt64","value":18446744073709551615}}"#,
    r#"{"lit":{"dtype":"Int8","value":-128}}"#,
    r#"{"lit":{"dtype":"Int16","value":-32768}}"#,
    r#"{"lit":{"dtype":"Int32","value":-2147483648}}"#,
    r#"{"lit":{"dtype":"Int64","value":-9223372036854775808}}"#,
    r#"{"lit":{"dtype":"Int128","value":0}}"#,
    r#"{"lit":{"dtype":"Int128","value":18446744073709551615}}"#,
    r#"{"lit":{"dtype":"Int128","value":"18446744073709551616"}}"#,
    r#"{"lit":{"dtype":"Int128","value":"-9223372036854775809"}}"#,
    r#"{"lit":{"dtype":"Int128","value":"170141183460469231731687303715884105727"}}"#,
    r#"{"lit":{"dtype":"Int128","value":"-170141183460469231731687303715884105728"}}"#,
    r#"{"lit":{"dtype":"Int","value":"18446744073709551616"}}"#,
    r#"{"lit":{"dtype":"Int","value":"-9223372036854775809"}}"#,
    r#"{"lit":{"dtype":"Int","value":"-170141183460469231731687303715884105728"}}"#,
    r#"{"series":{"dtype":"Int8","name":"s","values":[1,null]}}"#,
    r#"{"series":{"dtype":"Null","name":"","values":[null]}}"#,
    r#"{"series":{"dtype":"String","name":"s","values":["x"]}}"#,
    r#"{"alias":[{"col":"a"},"b"]}"#,
    r#"{"binary":[{"col":"a"},"Eq",{"lit":1}]}"#,
    r#"{"binary":[{"col":"a"},"EqValidity",{"lit":1}]}"#,
    r#"{"binary":[{"col":"a"},"NotEq",{"lit":1}]}"#,
    r#"{"binary":[{"col":"a"},"NotEqValidity",{"lit":1}]}"#,
    r#"{"binary":[{"col":"a"},"Lt",{"lit":1}]}"#,
    r#"{"binary":[{"col":"a"},"LtEq",{"lit":1}]}"#,
    r#"{"binary":[{"col":"a"},"Gt",{"lit":1}]}"#,
    r#"{"binary":[{"col":"a"},"GtEq",{"lit":1}]}"#,
    r#"{"binary":[{"col":"a"},"Plus",{"lit":1}]}"#,
    r#"{"binary":[{"col":"a"},"Minus",{"lit":1}]}"#,
    r#"{"binary":[{"col":"a"},"Multiply",{"lit":1}]}"#,
    r#"{"binary":[{"col":"a"},"Divide",{"lit":1}]}"#,
    r#"{"binary":[{"col":"a"},"TrueDivide",{"lit":1}]}"#,
    r#"{"binary":[{"col":"a"},"FloorDivide",{"lit":1}]}"#,
    r#"{"binary":[{"col":"a"},"Modulus",{"lit":1}]}"#,
    r#"{"binary":[{"col":"a"},"And",{"lit":1}]}"#,
    r#"{"binary":[{"col":"a"},"Or",{"lit":1}]}"#,
    r#"{"binary":[{"col":"a"},"Xor",{"lit":1}]}"#,
    r#"{"binary":[{"col":"a"},"LogicalAnd",{"lit":1}]}"#,
    r#"{"binary":[{"col":"a"},"LogicalOr",{"lit":1}]}"#,
    r#"{"cast":[{"col":"a"},"Null","strict"]}"#,
    r#"{"cast":[{"col":"a"},"Boolean","nonstrict"]}"#,
    r#"{"cast":[{"col":"a"},"String","overflowing"]}"#,
    r#"{"cast":[{"col":"a"},"UInt64","strict"]}"#,
    r#"{"when":[{"col":"p"},{"col":"a"},{"lit":0}]}"#,
    r#"{"fn":["not",{"fn":["is_null",{"col":"a"}]}]}"#,
    r#"{"fn":["fma",{"col":"a"},{"col":"b"},{"col":"c"}]}"#,
    r#"{"fn":["negate"]}"#,
    r#"{"fn":["is_not_null",{"fn":["fsm",{"fn":["fms"]}]},{"lit":1}]}"#,
];

#[test]
fn expressions_are_written_as_they_were_read(rt: HostRuntime) -> Result<(), Fail> {
    for text in EXPRS {
        let again = written(rt.alloc(), text)?;
        assert_eq!(rt; again.as_str(), text);
    }
    Ok(())
}

// Numbers as texts, and small numbers with the type `Int`.
const OTHER_WAYS: [&str; 9] = [
    r#"{"lit":{"value":5,"dtype":"Int"}}"#,
    r#"{"lit":{"dtype":"Int","value":"5"}}"#,
    r#"{"lit":{"dtype":"Int","value":"18446744073709551615"}}"#,
    r#"{"lit":{"dtype":"Int","value":"-9223372036854775808"}}"#,
    r#"{"lit":{"dtype":"Int128","value":"-5"}}"#,
    r#"{"lit":{"dtype":"UInt64","value":"18446744073709551615"}}"#,
    r#"{"lit":{"dtype":"Int8","value":"-128"}}"#,
    r#"{"lit":{"dtype":"UInt8","value":"0"}}"#,
    r#"{"series":{"name":"s","values":[],"dtype":"Int8"}}"#,
];

const WRITTEN: [&str; 9] = [
    r#"{"lit":5}"#,
    r#"{"lit":5}"#,
    r#"{"lit":18446744073709551615}"#,
    r#"{"lit":-9223372036854775808}"#,
    r#"{"lit":{"dtype":"Int128","value":-5}}"#,
    r#"{"lit":{"dtype":"UInt64","value":18446744073709551615}}"#,
    r#"{"lit":{"dtype":"Int8","value":-128}}"#,
    r#"{"lit":{"dtype":"UInt8","value":0}}"#,
    r#"{"series":{"dtype":"Int8","name":"s","values":[]}}"#,
];

#[test]
fn literals_are_written_in_one_way(rt: HostRuntime) -> Result<(), Fail> {
    for i in 0..9 {
        let again = written(rt.alloc(), OTHER_WAYS[i])?;
        assert_eq!(rt; again.as_str(), WRITTEN[i]);
    }
    Ok(())
}

const NO_EXPRS: [&str; 48] = [
    "1",
    "null",
    r#""a""#,
    r#"[{"col":"a"}]"#,
    "{}",
    r#"{"col":1}"#,
    r#"{"col":null}"#,
    r#"{"col":"a","lit":1}"#,
    r#"{"column":"a"}"#,
    r#"{"Col":"a"}"#,
    r#"{"lit":1.5}"#,
    r#"{"lit":-0}"#,
    r#"{"lit":1e2}"#,
    r#"{"lit":18446744073709551616}"#,
    r#"{"lit":-9223372036854775809}"#,
    r#"{"lit":[1]}"#,
    r#"{"lit":{}}"#,
    r#"{"lit":{"dtype":"Int32"}}"#,
    r#"{"lit":{"dtype":"Int32","value":1,"more":1}}"#,
    r#"{"lit":{"dtype":"Null","value":null}}"#,
    r#"{"lit":{"dtype":"Boolean","value":true}}"#,
    r#"{"lit":{"dtype":"String","value":"1"}}"#,
    r#"{"lit":{"dtype":"Float64","value":1}}"#,
    r#"{"lit":{"dtype":1,"value":1}}"#,
    r#"{"series":1}"#,
    r#"{"series":{"dtype":"Int8","name":"s","values":[128]}}"#,
    r#"{"alias":[{"col":"a"}]}"#,
    r#"{"alias":["b",{"col":"a"}]}"#,
    r#"{"alias":[{"col":"a"},"b","c"]}"#,
    r#"{"alias":{"col":"a"}}"#,
    r#"{"binary":[{"col":"a"},"plus",{"col":"a"}]}"#,
    r#"{"binary":[{"col":"a"},"+",{"col":"a"}]}"#,
    r#"{"binary":["Plus",{"col":"a"},{"col":"a"}]}"#,
    r#"{"binary":[{"col":"a"},"Plus"]}"#,
    r#"{"binary":[{"col":"a"},"Plus",{"col":"a"},{"col":"a"}]}"#,
    r#"{"cast":[{"col":"a"},"Int128","strict"]}"#,
    r#"{"cast":[{"col":"a"},"Int32","Strict"]}"#,
    r#"{"cast":[{"col":"a"},"Int32"]}"#,
    r#"{"cast":[{"col":"a"},"Int32","strict",1]}"#,
    r#"{"when":[{"col":"p"},{"col":"a"}]}"#,
    r#"{"when":[{"col":"p"},{"col":"a"},{"col":"a"},{"col":"a"}]}"#,
    r#"{"when":[{"col":"p"},{"col":"a"},1]}"#,
    r#"{"fn":[]}"#,
    r#"{"fn":["abs",{"col":"a"}]}"#,
    r#"{"fn":["not",true,{"col":"a"}]}"#,
    r#"{"fn":[{"col":"a"},"not"]}"#,
    r#"{"len":[]}"#,
    r#"{"agg":["sum",{"col":"a"}]}"#,
];

#[test]
fn other_values_are_no_expressions(rt: HostRuntime) -> Result<(), Fail> {
    for text in NO_EXPRS {
        let again = written(rt.alloc(), text)?;
        assert_eq!(rt; again.as_str(), "none");
    }
    Ok(())
}

const TYPES: [&str; 10] = [
    "UInt8", "UInt16", "UInt32", "UInt64", "Int8", "Int16", "Int32", "Int64", "Int128", "Int",
];

/// How many of the types read the text as a literal.
fn readers(alloc: Global, text: &str) -> Result<u8, Fail> {
    let mut count: u8 = 0;
    for dtype in TYPES {
        let form = format!(in alloc; "{{\"lit\":{{\"dtype\":\"{dtype}\",\"value\":{text}}}}}")?;
        let again = written(alloc, form.as_str())?;
        if again.as_str() != "none" {
            count = count.saturating_add(1);
        }
    }
    Ok(count)
}

// No digits of a number, or of none that 128 bits hold, and numbers that are floats.
const NO_DIGITS: [&str; 19] = [
    r#""""#,
    r#""-""#,
    r#""-0""#,
    r#""+5""#,
    r#""05""#,
    r#""00""#,
    r#""-05""#,
    r#"" 5""#,
    r#""5 ""#,
    r#""5.0""#,
    r#""1e2""#,
    r#""0x5""#,
    r#""٥""#,
    r#""five""#,
    r#""170141183460469231731687303715884105728""#,
    r#""-170141183460469231731687303715884105729""#,
    r#""1000000000000000000000000000000000000000000000000000000000000000000000000000000000""#,
    "5.0",
    "[5]",
];

#[test]
fn other_texts_are_no_numbers(rt: HostRuntime) -> Result<(), Fail> {
    for text in NO_DIGITS {
        let count = readers(rt.alloc(), text)?;
        assert_eq!(rt; count, 0);
    }
    Ok(())
}

const NUMBERS: [&str; 16] = [
    "127",
    "128",
    "-128",
    "-129",
    "255",
    "256",
    "32768",
    "-32769",
    "65536",
    "2147483648",
    "-2147483649",
    "4294967296",
    "9223372036854775808",
    "\"9223372036854775808\"",
    "\"18446744073709551616\"",
    "\"-9223372036854775809\"",
];

const COUNTS: [u8; 16] = [10, 9, 6, 5, 9, 8, 7, 4, 6, 5, 3, 4, 3, 3, 2, 2];

#[test]
fn numbers_are_read_by_the_types_that_hold_them(rt: HostRuntime) -> Result<(), Fail> {
    for i in 0..16 {
        let count = readers(rt.alloc(), NUMBERS[i])?;
        assert_eq!(rt; count, COUNTS[i]);
    }
    Ok(())
}

/// A form that lies so many aliases deep.
fn nested(alloc: Global, depth: u8, inner: &str) -> Result<String, Fail> {
    let mut text = String::new(alloc);
    for _ in 0..depth {
        text.push_str("{\"alias\":[")?;
    }
    text.push_str(inner)?;
    for _ in 0..depth {
        text.push_str(",\"x\"]}")?;
    }
    Ok(text)
}

#[test]
fn forms_nest_127_deep_at_most(rt: HostRuntime) -> Result<(), Fail> {
    let alloc = rt.alloc();
    let text = nested(alloc, 63, r#"{"col":"a"}"#)?;
    let again = written(alloc, text.as_str())?;
    assert_eq!(rt; again.as_str(), text.as_str());
    let text = nested(alloc, 63, r#"{"lit":{"dtype":"Int32","value":1}}"#)?;
    assert!(rt; Value::from_str(alloc, text.as_str()).is_err());
    Ok(())
}

#[test]
fn other_expressions_have_no_form(rt: HostRuntime) -> Result<(), Fail> {
    let alloc = rt.alloc();
    let text = text_of(alloc, &Expr::Wildcard)?;
    assert_eq!(rt; text.as_str(), "none");
    let text = text_of(alloc, &Expr::Nth(0))?;
    assert_eq!(rt; text.as_str(), "none");
    let name = SmallStr::new(alloc, "a")?;
    let text = text_of(alloc, &Expr::Literal(LiteralValue::StrCat(name)))?;
    assert_eq!(rt; text.as_str(), "none");
    let range = LiteralValue::Range {
        low: 0,
        high: 1,
        dtype: DataType::Int32,
    };
    let text = text_of(alloc, &Expr::Literal(range))?;
    assert_eq!(rt; text.as_str(), "none");
    Ok(())
}

fn options_in(expr: &Expr) -> Option<FunctionOptions> {
    match expr {
        Expr::Function { options, .. } => Some(*options),
        _ => None,
    }
}

/// The options of the function that the text stands for.
fn options_of(alloc: Global, text: &str) -> Result<Option<FunctionOptions>, Fail> {
    let value = Value::from_str(alloc, text)?;
    let expr = expr_of_value(alloc, &value)?;
    match expr {
        Some(expr) => Ok(options_in(&expr)),
        None => Ok(None),
    }
}

#[test]
fn functions_go_element_by_element(rt: HostRuntime) -> Result<(), Fail> {
    let options = options_of(rt.alloc(), r#"{"fn":["fma"]}"#)?;
    let expected = FunctionOptions {
        collect_groups: ApplyOptions::ElementWise,
        flags: FunctionFlags::default(),
        fmt_str: FmtName::Empty,
        cast_options: None,
    };
    assert_eq!(rt; options, Some(expected));
    Ok(())
}

#[test]
fn lists_are_read_and_written_whole(rt: HostRuntime) -> Result<(), Fail> {
    let alloc = rt.alloc();
    let value = Value::from_str(alloc, r#"[{"col":"a"},{"lit":1}]"#)?;
    let items = value.as_array().ok_or("no list")?;
    let exprs = exprs_of_values(alloc, items.as_slice())?.ok_or("no expressions")?;
    let values = values_of_exprs(alloc, exprs.as_slice())?.ok_or("no values")?;
    let text = Value::from(values).to_string(alloc)?;
    assert_eq!(rt; text.as_str(), r#"[{"col":"a"},{"lit":1}]"#);
    Ok(())
}
