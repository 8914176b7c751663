//! Tables of types, names and literals, with the answers that are wanted of them.
use crate::class::Class;
use crate::{
    AnyValue, DataType, Field, FieldList, PlanError, Schema, SmallStr, UnknownKind, ValueType,
    boxed, materialize_dyn_int, try_get_supertype,
};
use std::alloc::Global;
use std::process::Abort;
use std::test::Fail;

const VALUE_TYPES: [ValueType; 11] = [
    ValueType::Null,
    ValueType::Boolean,
    ValueType::String,
    ValueType::UInt8,
    ValueType::UInt16,
    ValueType::UInt32,
    ValueType::UInt64,
    ValueType::Int8,
    ValueType::Int16,
    ValueType::Int32,
    ValueType::Int64,
];

// A row for each value type, a column for each in the same order. "f64" is Float64, "-" is none.
const COMMON: [[&str; 11]; 11] = [
    [
        "null", "bool", "str", "u8", "u16", "u32", "u64", "i8", "i16", "i32", "i64",
    ],
    [
        "bool", "bool", "-", "u8", "u16", "u32", "u64", "i8", "i16", "i32", "i64",
    ],
    ["str", "-", "str", "-", "-", "-", "-", "-", "-", "-", "-"],
    [
        "u8", "u8", "-", "u8", "u16", "u32", "u64", "i16", "i16", "i32", "i64",
    ],
    [
        "u16", "u16", "-", "u16", "u16", "u32", "u64", "i32", "i32", "i32", "i64",
    ],
    [
        "u32", "u32", "-", "u32", "u32", "u32", "u64", "i64", "i64", "i64", "i64",
    ],
    [
        "u64", "u64", "-", "u64", "u64", "u64", "u64", "f64", "f64", "f64", "f64",
    ],
    [
        "i8", "i8", "-", "i16", "i32", "i64", "f64", "i8", "i16", "i32", "i64",
    ],
    [
        "i16", "i16", "-", "i16", "i32", "i64", "f64", "i16", "i16", "i32", "i64",
    ],
    [
        "i32", "i32", "-", "i32", "i32", "i64", "f64", "i32", "i32", "i32", "i64",
    ],
    [
        "i64", "i64", "-", "i64", "i64", "i64", "f64", "i64", "i64", "i64", "i64",
    ],
];

fn short_name(dtype: Option<DataType>) -> &'static str {
    match dtype {
        Some(DataType::Null) => "null",
        Some(DataType::Boolean) => "bool",
        Some(DataType::String) => "str",
        Some(DataType::UInt8) => "u8",
        Some(DataType::UInt16) => "u16",
        Some(DataType::UInt32) => "u32",
        Some(DataType::UInt64) => "u64",
        Some(DataType::Int8) => "i8",
        Some(DataType::Int16) => "i16",
        Some(DataType::Int32) => "i32",
        Some(DataType::Int64) => "i64",
        Some(DataType::Float64) => "f64",
        Some(_) => "other",
        None => "-",
    }
}

#[test]
fn value_types_have_these_common_types(rt: HostRuntime) {
    for i in 0..11 {
        for j in 0..11 {
            let common = VALUE_TYPES[i].common_dtype(VALUE_TYPES[j]);
            assert_eq!(rt; short_name(common), COMMON[i][j], "at {i}, {j}");
        }
    }
}

fn dtype_of(class: Class) -> DataType {
    match class {
        Class::Value(value) => DataType::from(value),
        Class::Int128 => DataType::Int128,
        Class::Float32 => DataType::Float32,
        Class::Float64 => DataType::Float64,
        Class::Integer(v) => DataType::Unknown(UnknownKind::Int(v)),
        Class::Float => DataType::Unknown(UnknownKind::Float),
        Class::Str => DataType::Unknown(UnknownKind::Str),
        Class::Anything => DataType::Unknown(UnknownKind::Any),
        Class::Other => DataType::Date,
    }
}

const BOOLEAN: Class = Class::Value(ValueType::Boolean);

const INT8: Class = Class::Value(ValueType::Int8);

const INT64: Class = Class::Value(ValueType::Int64);

const FURTHER: [(Class, Class, Option<Class>); 32] = [
    (Class::Other, Class::Other, Some(Class::Other)),
    (
        Class::Value(ValueType::Null),
        Class::Other,
        Some(Class::Other),
    ),
    (Class::Int128, BOOLEAN, Some(Class::Int128)),
    (
        Class::Int128,
        Class::Value(ValueType::UInt64),
        Some(Class::Int128),
    ),
    (Class::Float32, BOOLEAN, Some(Class::Float32)),
    (
        Class::Float32,
        Class::Value(ValueType::UInt8),
        Some(Class::Float32),
    ),
    (
        Class::Float32,
        Class::Value(ValueType::Int16),
        Some(Class::Float32),
    ),
    (
        Class::Float32,
        Class::Value(ValueType::UInt32),
        Some(Class::Float64),
    ),
    (Class::Float32, Class::Int128, Some(Class::Float64)),
    (Class::Float32, Class::Float64, Some(Class::Float64)),
    (Class::Float64, BOOLEAN, Some(Class::Float64)),
    (Class::Float64, INT8, Some(Class::Float64)),
    (Class::Integer(127), INT8, Some(INT8)),
    (
        Class::Integer(128),
        INT8,
        Some(Class::Value(ValueType::Int32)),
    ),
    (
        Class::Integer(1),
        BOOLEAN,
        Some(Class::Value(ValueType::Int32)),
    ),
    (Class::Integer(1 << 63), INT64, Some(Class::Float64)),
    (Class::Integer(1 << 64), INT64, None),
    (Class::Integer(1 << 64), Class::Int128, Some(Class::Int128)),
    (Class::Integer(1), Class::Float32, Some(Class::Float32)),
    (
        Class::Integer(1),
        Class::Integer(1),
        Some(Class::Integer(1)),
    ),
    (Class::Integer(1), Class::Integer(1 << 40), Some(INT64)),
    (Class::Integer(1), Class::Integer(1 << 64), None),
    (Class::Integer(1), Class::Value(ValueType::String), None),
    (Class::Float, Class::Float32, Some(Class::Float32)),
    (Class::Float, BOOLEAN, Some(Class::Float64)),
    (Class::Float, INT8, Some(Class::Float64)),
    (Class::Float, Class::Float64, Some(Class::Float64)),
    (Class::Float, Class::Integer(1), Some(Class::Float64)),
    (
        Class::Str,
        Class::Value(ValueType::String),
        Some(Class::Value(ValueType::String)),
    ),
    (Class::Str, INT8, None),
    (Class::Anything, Class::Other, Some(Class::Anything)),
    (Class::Other, INT64, None),
];

fn assert_common(
    rt: &impl Abort,
    alloc: Global,
    a: &DataType,
    b: &DataType,
    want: Option<DataType>,
) {
    match try_get_supertype(alloc, a, b) {
        Ok(dtype) => assert!(rt; Some(dtype) == want),
        Err(e) => {
            assert!(rt; e == PlanError::InvalidOperation);
            assert!(rt; want.is_none());
        }
    }
}

#[test]
fn further_types_have_these_common_types(rt: HostRuntime) {
    for (a, b, want) in FURTHER {
        assert_common(
            &rt,
            rt.alloc(),
            &dtype_of(a),
            &dtype_of(b),
            want.map(dtype_of),
        );
        assert_common(
            &rt,
            rt.alloc(),
            &dtype_of(b),
            &dtype_of(a),
            want.map(dtype_of),
        );
    }
}

// A list of lists of a value type.
fn nested(alloc: Global, value: ValueType) -> Result<DataType, PlanError> {
    let inner = DataType::List(boxed(alloc, value.dtype())?);
    Ok(DataType::List(boxed(alloc, inner)?))
}

#[test]
fn lists_have_the_list_of_their_elements_common_type(rt: HostRuntime) -> Result<(), Fail> {
    let alloc = rt.alloc();
    let bytes = nested(alloc, ValueType::UInt8)?;
    let small = nested(alloc, ValueType::Int8)?;
    let wide = nested(alloc, ValueType::Int16)?;
    assert_common(&rt, alloc, &bytes, &small, Some(wide));
    assert_common(&rt, alloc, &bytes, &nested(alloc, ValueType::String)?, None);
    assert_common(&rt, alloc, &bytes, &DataType::UInt8, None);
    Ok(())
}

// The names of fields, and the name that is refused.
const NAMES: [(&[&str], Option<&str>); 7] = [
    (&[], None),
    (&["a", "b", "c"], None),
    (&["a", "a", "b"], Some("a")),
    (&["a", "b", "a"], Some("a")),
    (&["a", "b", "b"], Some("b")),
    (&["a", "b", "b", "a"], Some("b")),
    (&["a", "A", "aa", ""], None),
];

fn fields_of(alloc: Global, names: &[&str]) -> Result<Vec<Field>, Fail> {
    let mut fields = Vec::new(alloc);
    for name in names {
        fields.push(Field::new(SmallStr::new(alloc, name)?, DataType::Int8))?;
    }
    Ok(fields)
}

#[test]
fn the_first_repeated_name_is_refused(rt: HostRuntime) -> Result<(), Fail> {
    let alloc = rt.alloc();
    for (names, refused) in NAMES {
        let fields = fields_of(alloc, names)?;
        let want = match refused {
            Some(name) => Some(PlanError::Duplicate(SmallStr::new(alloc, name)?)),
            None => None,
        };
        assert!(rt; Schema::from_fields(alloc, &fields).err() == want);
    }
    Ok(())
}

#[test]
fn a_schema_has_its_fields_by_name_and_by_place(rt: HostRuntime) -> Result<(), Fail> {
    let alloc = rt.alloc();
    let a = Field::new(SmallStr::new(alloc, "a")?, DataType::Int8);
    let b = Field::new(SmallStr::new(alloc, "b")?, DataType::String);
    let schema = Schema::from_fields(alloc, &[a, b])?;
    assert!(rt; matches!(schema.get("b"), Some(DataType::String)));
    assert!(rt; schema.get("c").is_none());
    assert!(rt; matches!(schema.field_at(0), Some(("a", DataType::Int8))));
    assert!(rt; schema.field_at(2).is_none());
    assert_eq!(rt; schema.place("b"), Some(1));
    assert_eq!(rt; schema.place("c"), None);
    Ok(())
}

// The type of a literal's value, where the value is the literal.
fn type_of(literal: i128) -> &'static str {
    match materialize_dyn_int(literal) {
        Some(AnyValue::Int32(v)) if i128::from(v) == literal => "i32",
        Some(AnyValue::Int64(v)) if i128::from(v) == literal => "i64",
        Some(AnyValue::UInt64(v)) if i128::from(v) == literal => "u64",
        Some(_) => "other",
        None => "-",
    }
}

const LITERALS: [(i128, &str); 11] = [
    (5, "i32"),
    (-2147483648, "i32"),
    (-2147483649, "i64"),
    (2147483647, "i32"),
    (2147483648, "i64"),
    (-9223372036854775808, "i64"),
    (-9223372036854775809, "-"),
    (9223372036854775807, "i64"),
    (9223372036854775808, "u64"),
    (18446744073709551615, "u64"),
    (18446744073709551616, "-"),
];

#[test]
fn literals_have_the_first_default_type_that_holds_them(rt: HostRuntime) {
    for (literal, value_type) in LITERALS {
        assert_eq!(rt; type_of(literal), value_type, "at {literal}");
    }
}

#[test]
fn copies_are_equal_and_each_field_counts(rt: HostRuntime) -> Result<(), Fail> {
    let alloc = rt.alloc();
    let fields = FieldList::from_vec(fields_of(alloc, &["a", "b"])?);
    let record = DataType::Struct(fields);
    assert!(rt; record.try_clone(alloc)? == record);
    let a = Field::new(SmallStr::new(alloc, "a")?, DataType::Int8);
    let mut other = a.try_clone(alloc)?;
    assert!(rt; other == a);
    other.coerce(DataType::Int16);
    assert!(rt; other != a);
    Ok(())
}
