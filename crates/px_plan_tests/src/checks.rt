use px_check::{Checked, CheckedList, KernelList, PlanContext, check_expr, check_list};
use px_expr::{Context, Expr};
use px_texts::{add_field, fields_of, read_expr, read_text, write_text};
use px_types::{DataType, PlanError, Schema, ValueType};
use std::alloc::Global;
use std::test::Fail;

const FIELDS: &[(&str, ValueType)] = &[
    ("a", ValueType::Int64),
    ("i", ValueType::Int8),
    ("u", ValueType::UInt8),
    ("w", ValueType::UInt32),
    ("l", ValueType::UInt64),
    ("p", ValueType::Boolean),
    ("n", ValueType::Null),
    ("s", ValueType::String),
];

fn schema(alloc: Global) -> Result<Schema, PlanError> {
    let mut fields = fields_of(alloc, FIELDS)?;
    add_field(alloc, &mut fields, "f", DataType::Float64)?;
    Schema::from_fields(alloc, fields.as_slice())
}

// The checked tree, its type and its name.
fn checked_text(alloc: Global, checked: &Checked) -> Result<String, PlanError> {
    let mut text = String::new(alloc);
    write_text(alloc, &mut text, checked.tree())?;
    let value_type = checked.value_type();
    let name = checked.name().as_str();
    Ok(format!(in alloc; "{text}, {value_type:?}, {name}")?)
}

fn answer(alloc: Global, schema: &Schema, expr: &Expr) -> Result<String, PlanError> {
    let kernels = KernelList::new(alloc);
    match check_expr(alloc, schema, &kernels, expr) {
        Ok(checked) => {
            let text = checked_text(alloc, &checked);
            drop(checked);
            text
        }
        Err(e) => Ok(format!(in alloc; "{e}")?),
    }
}

// What the check answers to a text.
fn answer_to(alloc: Global, schema: &Schema, text: &str) -> Result<String, PlanError> {
    let expr = read_expr(alloc, text)?;
    let text = answer(alloc, schema, &expr);
    drop(expr);
    text
}

// The first answer that is not the one beside its text, or nothing.
fn first_wrong(alloc: Global, cases: &[(&str, &str)]) -> Result<String, PlanError> {
    let schema = schema(alloc)?;
    for case in cases {
        let answer = answer_to(alloc, &schema, case.0)?;
        if answer.as_str() != case.1 {
            return Ok(answer);
        }
    }
    Ok(String::new(alloc))
}

const LEAVES: &[(&str, &str)] = &[
    ("a", "a, Int64, a"),
    ("p", "p, Boolean, p"),
    ("n", "n, Null, n"),
    ("null", "null, Null, literal"),
    ("true", "true, Boolean, literal"),
    ("s:Boolean(false,true)", "s:Boolean(false,true), Boolean, s"),
    ("n:Int8(1,2)", "n:Int8(1,2), Int8, n"),
    ("2147483647", "2147483647:Int32, Int32, literal"),
    ("2147483648", "2147483648:Int64, Int64, literal"),
    ("-2147483649", "-2147483649:Int64, Int64, literal"),
    (
        "9223372036854775808",
        "9223372036854775808:UInt64, UInt64, literal",
    ),
];

// Columns and literals have their own types, and an integer literal its default type.
#[test]
fn leaves_have_their_types(rt: HostRuntime) -> Result<(), Fail> {
    assert_eq!(rt; first_wrong(rt.alloc(), LEAVES)?.as_str(), "");
    Ok(())
}

const OPERATORS: &[(&str, &str)] = &[
    ("u 300 <", "u as_Int32 300:Int32 <, Boolean, u"),
    ("u 7 <", "u 7:UInt8 <, Boolean, u"),
    ("7 u <", "7:UInt8 u <, Boolean, literal"),
    ("u -1 +", "u as_Int32 -1:Int32 +, Int32, u"),
    ("a 7 +", "a 7:Int64 +, Int64, a"),
    ("i u +", "i as_Int16 u as_Int16 +, Int16, i"),
    ("w a +", "w as_Int64 a +, Int64, w"),
    ("u w -", "u as_UInt32 w -, UInt32, u"),
    ("p u +", "p as_UInt8 u +, UInt8, p"),
    ("null u +", "null as_UInt8 u +, UInt8, literal"),
    ("null 7 +", "null as_Int32 7:Int32 +, Int32, literal"),
    ("p 7 ==", "p as_Int32 7:Int32 ==, Boolean, p"),
    ("n null ==", "n null ==, Boolean, n"),
    ("p true ==", "p true ==, Boolean, p"),
    (
        "1 2147483648 +",
        "1:Int64 2147483648:Int64 +, Int64, literal",
    ),
    ("u 3 &", "u 3:UInt8 &, UInt8, u"),
    ("p null &", "p null as_Boolean &, Boolean, p"),
    ("p null &&", "p null as_Boolean &&, Boolean, p"),
    ("a 1 + u +", "a 1:Int64 + u as_Int64 +, Int64, a"),
];

// The operands of an operator unite, and what lacks the common type is cast to it.
#[test]
fn operands_unite(rt: HostRuntime) -> Result<(), Fail> {
    assert_eq!(rt; first_wrong(rt.alloc(), OPERATORS)?.as_str(), "");
    Ok(())
}

const NODES: &[(&str, &str)] = &[
    ("a .b", "a . b, Int64, b"),
    ("7 .b", "7:Int32 . b, Int32, b"),
    ("a to_Int8", "a to_Int8, Int8, a"),
    ("7 to_Int8", "7:Int32 to_Int8, Int8, literal"),
    ("null to_Boolean", "null to_Boolean, Boolean, literal"),
    (
        "null 1 a if",
        "null as_Boolean 1:Int64 a if, Int64, literal",
    ),
    ("p u i if", "p u as_Int16 i as_Int16 if, Int16, u"),
    ("p null null if", "p null null if, Null, literal"),
    ("p not", "p not, Boolean, p"),
    ("u not", "u not, UInt8, u"),
    ("7 not", "7:Int32 not, Int32, literal"),
    ("i negate", "i negate, Int8, i"),
    ("7 negate", "7:Int32 negate, Int32, literal"),
    ("a is_null", "a is_null, Boolean, a"),
    ("null is_not_null", "null is_not_null, Boolean, literal"),
    ("u 2 w fma", "u as_UInt32 2:UInt32 w fma, UInt32, u"),
    ("u 300 1 fma", "u as_Int32 300:Int32 1:Int32 fma, Int32, u"),
];

// Every other node has the type that its signature gives, and its name.
#[test]
fn nodes_have_their_types(rt: HostRuntime) -> Result<(), Fail> {
    assert_eq!(rt; first_wrong(rt.alloc(), NODES)?.as_str(), "");
    Ok(())
}

const REFUSALS: &[(&str, &str)] = &[
    ("9223372036854775808 -1 +", "InvalidOperation"),
    ("18446744073709551616", "InvalidOperation"),
    ("18446744073709551616 .b", "InvalidOperation"),
    ("l -1 +", "InvalidOperation"),
    ("l a <", "InvalidOperation"),
    ("w 10000000000000000000 5000000000 fma", "InvalidOperation"),
    ("p true +", "InvalidOperation"),
    ("null null +", "InvalidOperation"),
    ("null null &", "InvalidOperation"),
    ("u u &&", "InvalidOperation"),
    ("a u true_div", "InvalidOperation"),
    ("null not", "InvalidOperation"),
    ("u negate", "InvalidOperation"),
    ("p negate", "InvalidOperation"),
    ("u 1 2 if", "InvalidOperation"),
    ("7 1 2 if", "InvalidOperation"),
    ("s", "InvalidOperation"),
    ("f", "InvalidOperation"),
    ("text", "InvalidOperation"),
    ("a text <", "InvalidOperation"),
    ("Int128", "InvalidOperation"),
    ("a to_String", "InvalidOperation"),
    ("not_none", "InvalidOperation"),
    ("a a not_two", "InvalidOperation"),
    ("a a fma_two", "InvalidOperation"),
    ("a min", "InvalidOperation"),
    ("a explode", "InvalidOperation"),
    ("a is_unique", "InvalidOperation"),
    ("a kernel", "InvalidOperation"),
    ("a p filter", "InvalidOperation"),
    ("len", "InvalidOperation"),
];

// What has no type is refused.
#[test]
fn what_has_no_type_is_refused(rt: HostRuntime) -> Result<(), Fail> {
    assert_eq!(rt; first_wrong(rt.alloc(), REFUSALS)?.as_str(), "");
    Ok(())
}

const FAULTS: &[(&str, &str)] = &[
    ("z", "ColumnNotFound: z"),
    ("y z +", "ColumnNotFound: y"),
    ("s z +", "InvalidOperation"),
    ("z s +", "ColumnNotFound: z"),
    ("18446744073709551616 z +", "ColumnNotFound: z"),
    ("18446744073709551616 .b z +", "InvalidOperation"),
    ("Int128 z +", "InvalidOperation"),
    ("a u true_div z +", "InvalidOperation"),
    ("x y z if", "ColumnNotFound: x"),
    ("a y z if", "ColumnNotFound: y"),
    ("a a z if", "ColumnNotFound: z"),
    ("a z not_two", "ColumnNotFound: z"),
    ("z a fma_two", "ColumnNotFound: z"),
    ("y z a fma", "ColumnNotFound: y"),
    ("z .b", "ColumnNotFound: z"),
    ("z to_String", "ColumnNotFound: z"),
    ("z explode", "ColumnNotFound: z"),
    ("z is_unique", "ColumnNotFound: z"),
    ("z min", "ColumnNotFound: z"),
    ("z kernel", "ColumnNotFound: z"),
    ("y z filter", "ColumnNotFound: y"),
    ("a z filter", "ColumnNotFound: z"),
];

// The faults of inputs come first, from left to right, and an integer literal has none until its node.
#[test]
fn faults_come_in_order(rt: HostRuntime) -> Result<(), Fail> {
    assert_eq!(rt; first_wrong(rt.alloc(), FAULTS)?.as_str(), "");
    Ok(())
}

// The names of checked expressions, each after a space.
fn names(alloc: Global, list: &CheckedList) -> Result<String, PlanError> {
    let mut text = String::new(alloc);
    for one in list.as_slice() {
        text.push(' ')?;
        text.push_str(one.name().as_str())?;
    }
    Ok(text)
}

fn list_text(alloc: Global, plan: &PlanContext<'_>, exprs: &[Expr]) -> Result<String, PlanError> {
    match check_list(alloc, plan, exprs) {
        Ok(list) => names(alloc, &list),
        Err(e) => Ok(format!(in alloc; "{e}")?),
    }
}

fn list_answer(alloc: Global, context: Context, text: &str) -> Result<String, PlanError> {
    let schema = schema(alloc)?;
    let exprs = read_text(alloc, text)?;
    let kernels = KernelList::new(alloc);
    let plan = PlanContext {
        schema: &schema,
        kernels: &kernels,
        context,
    };
    list_text(alloc, &plan, exprs.as_slice())
}

// The first answer that is not the one beside its text, or nothing.
fn first_wrong_list(
    alloc: Global,
    context: Context,
    cases: &[(&str, &str)],
) -> Result<String, PlanError> {
    for case in cases {
        let answer = list_answer(alloc, context, case.0)?;
        if answer.as_str() != case.1 {
            return Ok(answer);
        }
    }
    Ok(String::new(alloc))
}

const SELECTS: &[(&str, &str)] = &[
    ("", ""),
    ("a u 1 + 7", " a u literal"),
    ("a a .b", " a b"),
    ("a u a", "Duplicate: a"),
    ("a u a z", "ColumnNotFound: z"),
    ("a a u negate", "InvalidOperation"),
    ("1 null", "Duplicate: literal"),
    ("a u u .a u", "Duplicate: a"),
];

// In a select each name comes once, and one that comes twice is refused after all other faults.
#[test]
fn names_of_a_select_are_distinct(rt: HostRuntime) -> Result<(), Fail> {
    assert_eq!(rt;
        first_wrong_list(rt.alloc(), Context::Select, SELECTS)?.as_str(),
        ""
    );
    Ok(())
}

const FILTERS: &[(&str, &str)] = &[
    ("p u 1 < p", " p u p"),
    ("p a z", "InvalidOperation"),
    ("p z a", "ColumnNotFound: z"),
    ("null", "InvalidOperation"),
];

// A filter refuses at its place what is not Boolean, and names may repeat.
#[test]
fn a_filter_takes_masks(rt: HostRuntime) -> Result<(), Fail> {
    assert_eq!(rt;
        first_wrong_list(rt.alloc(), Context::Filter, FILTERS)?.as_str(),
        ""
    );
    Ok(())
}
