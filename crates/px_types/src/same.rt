//! Equality of types. It is exact: two types are equal where their variants and all
//! their fields are.
ghost use Rattle.std.specs.Prelude.{◌≡◌, IsTrue, ◌↔◌};

use crate::dtype::{DataType, Field, FieldList};
use px_base::SmallStr;

#[cycle(same)]
fn same_dtype(a: &DataType, b: &DataType) -> bool
    ensures { IsTrue result ↔ (a.now ≡ b.now) }
{
    match (a, b) {
        (DataType::Null, DataType::Null) => true,
        (DataType::Boolean, DataType::Boolean) => true,
        (DataType::String, DataType::String) => true,
        (DataType::Binary, DataType::Binary) => true,
        (DataType::UInt8, DataType::UInt8) => true,
        (DataType::UInt16, DataType::UInt16) => true,
        (DataType::UInt32, DataType::UInt32) => true,
        (DataType::UInt64, DataType::UInt64) => true,
        (DataType::Int8, DataType::Int8) => true,
        (DataType::Int16, DataType::Int16) => true,
        (DataType::Int32, DataType::Int32) => true,
        (DataType::Int64, DataType::Int64) => true,
        (DataType::Int128, DataType::Int128) => true,
        (DataType::Float32, DataType::Float32) => true,
        (DataType::Float64, DataType::Float64) => true,
        (DataType::Date, DataType::Date) => true,
        (DataType::Time, DataType::Time) => true,
        (DataType::Datetime(a, zone_a), DataType::Datetime(b, zone_b)) => {
            *a == *b && same_zone(zone_a, zone_b)
        }
        (DataType::Duration(a), DataType::Duration(b)) => *a == *b,
        (DataType::Categorical, DataType::Categorical) => true,
        (DataType::List(a), DataType::List(b)) => same_dtype(a.get(), b.get()),
        (DataType::Array(a, m), DataType::Array(b, n)) => *m == *n && same_dtype(a.get(), b.get()),
        (DataType::Struct(a), DataType::Struct(b)) => same_fields(a, b),
        (DataType::Unknown(a), DataType::Unknown(b)) => *a == *b,
        _ => false,
    }
}

fn same_text(a: &SmallStr, b: &SmallStr) -> bool
    ensures { IsTrue result ↔ (a.now ≡ b.now) }
{
    *a == *b
}

fn same_zone(a: &Option<SmallStr>, b: &Option<SmallStr>) -> bool
    ensures { IsTrue result ↔ (a.now ≡ b.now) }
{
    match (a, b) {
        (None, None) => true,
        (Some(a), Some(b)) => same_text(a, b),
        _ => false,
    }
}

#[cycle(same)]
fn same_field(a: &Field, b: &Field) -> bool
    ensures { IsTrue result ↔ (a.now ≡ b.now) }
{
    same_text(&a.name, &b.name) && same_dtype(&a.dtype, &b.dtype)
}

#[cycle(same)]
fn same_fields(a: &FieldList, b: &FieldList) -> bool
    ensures { IsTrue result ↔ (a.now ≡ b.now) }
{
    let (a, b) = (a.as_slice(), b.as_slice());
    if a.len() != b.len() {
        return false;
    }
    for i in 0..a.len() {
        if !same_field(&a[i], &b[i]) {
            return false;
        }
    }
    true
}

impl PartialEq for DataType {
    ghost use Rattle.px_base.specs.Exact.{same};
    ghost use Rattle.px_base.proofs.Exact.{same-partial};
    ghost use Rattle.px_types.specs.contracts.dtype.DataType.{the_row};
    ghost use Rattle.std.specs.Prelude.{◌≡◌, IsTrue, ◌↔◌};

    ghost eq = { same the_row.coded };

    ghost laws = { same-partial the_row.coded };

    fn eq(&self, other: &DataType) -> bool
        ensures value { result ≡ same the_row.coded self.now other.now }
        ensures exact { IsTrue result ↔ (self.now ≡ other.now) }
    {
        same_dtype(self, other)
    }
}

impl Eq for DataType {
    ghost use Rattle.px_base.proofs.Exact.{same-equivalence};
    ghost use Rattle.px_types.specs.contracts.dtype.DataType.{the_row};

    ghost laws = { same-equivalence the_row.coded };
}

impl PartialEq for Field {
    ghost use Rattle.px_base.specs.Exact.{same};
    ghost use Rattle.px_base.proofs.Exact.{same-partial};
    ghost use Rattle.px_types.specs.contracts.dtype.Field.{the_row};
    ghost use Rattle.std.specs.Prelude.{◌≡◌, IsTrue, ◌↔◌};

    ghost eq = { same the_row.coded };

    ghost laws = { same-partial the_row.coded };

    fn eq(&self, other: &Field) -> bool
        ensures value { result ≡ same the_row.coded self.now other.now }
        ensures exact { IsTrue result ↔ (self.now ≡ other.now) }
    {
        same_field(self, other)
    }
}

impl Eq for Field {
    ghost use Rattle.px_base.proofs.Exact.{same-equivalence};
    ghost use Rattle.px_types.specs.contracts.dtype.Field.{the_row};

    ghost laws = { same-equivalence the_row.coded };
}
