//! A frame: columns with distinct names and one height.
ghost use Rattle.std.specs.Prelude.{◌≡◌, ◌⊎◌, length, map, true, None, Err, IfOk, IfErr};
ghost use Rattle.std.specs.Bool.{OnTrue};
ghost use Rattle.std.specs.Option.{option_copied};
ghost use Rattle.px_base.specs.Answer.{AnswersOrMemory};
ghost use Rattle.px_types.specs.Schemas.{first_repeated};
ghost use Rattle.px_semantics.specs.Columns.{is_column, are_columns};
ghost use Rattle.px_semantics.specs.Frames.{IsFrame, frame_of, column_named, column_names, heights, are_equal, height_of};
ghost use Rattle.px_column.specs.FrameOf.{field_of};

use crate::column::Column;
use px_types::{Field, List, PlanError, Schema};
use std::alloc::Global;
use std::marker::Model;

/// A list of columns, in order.
pub type ColumnList = List<Column>;

/// Columns with distinct names and one height, in order. Contracts see a frame as the list of them.
#[derive(Drop)]
pub struct Frame {
    columns: ColumnList,
    schema: Schema,
}

impl Model for Frame {
    ghost use Rattle.std.specs.Prelude.{◌≡◌, List, map, true, Ok};
    ghost use Rattle.px_semantics.specs.Columns.{are_columns};
    ghost use Rattle.px_semantics.specs.Rows.{Contents};
    ghost use Rattle.px_semantics.specs.Frames.{frame_of};
    ghost use Rattle.px_column.specs.FrameOf.{field_of};

    ghost Value = { List Contents };

    ghost view = { λ f. f.columns.entries };

    ghost invariant = { λ f. (frame_of f.columns.entries ≡ Ok f.columns.entries) × (are_columns f.columns.entries ≡ true) × (f.schema ≡ map field_of f.columns.entries) };
}

impl Frame {
    /// The columns as a frame. `Duplicate`, with the first name that is equal to an earlier one,
    /// where there is such a name; else `ShapeMismatch` where two differ in height. Else the only
    /// error is out of memory.
    pub fn new(alloc: Global, columns: ColumnList) -> Result<Frame, PlanError>
        ensures { AnswersOrMemory (λ frame. frame) result (frame_of columns.entries) }
    {
        let schema = schema_of(alloc, columns.as_slice())?;
        if !have_one_height(columns.as_slice()) {
            return Err(PlanError::ShapeMismatch);
        }
        Ok(Frame { columns, schema })
    }

    /// The columns, in order.
    #[tactic(auto, using(crate::proofs::Framed::is_frame))]
    pub fn columns(&self) -> &[Column]
        ensures columns { result.now ≡ self.now }
        ensures frame { IsFrame self.now }
    {
        self.columns.as_slice()
    }

    /// The names and the types of the columns, in order.
    #[tactic(auto, using(crate::proofs::Framed::is_frame))]
    pub fn schema(&self) -> &Schema
        ensures fields { result.now ≡ map field_of self.now }
        ensures frame { IsFrame self.now }
    {
        &self.schema
    }

    /// The number of rows of each column, and 0 without columns.
    pub fn height(&self) -> u32
        ensures { result ≡ height_of self.now }
    {
        match self.columns.get(0) {
            None => 0,
            Some(column) => column.len(),
        }
    }

    /// The column of this name, and None where there is no such column.
    pub fn column(&self, name: &str) -> Option<&Column>
        ensures { option_copied result ≡ column_named self.now name.now }
    {
        let place = self.schema.place(name)?;
        self.columns.get(place)
    }
}

fn schema_of(alloc: Global, columns: &[Column]) -> Result<Schema, PlanError>
    ensures ok { IfOk result (λ schema. (schema ≡ map field_of columns.now)
        × (first_repeated (column_names columns.now) ≡ None)) }
    ensures err { IfErr result (λ e. (e ≡ PlanError.OutOfMemory) ⊎ (frame_of columns.now ≡ Err e)) }
{
    let mut schema = Schema::new(alloc);
    for column in columns {
        let name = column.name().try_clone(alloc)?;
        schema.push(Field::new(name, column.value_type().dtype()))?;
    }
    Ok(schema)
}

// The number of rows of a column, which is one by its own invariant.
#[tactic(auto, using(crate::proofs::Framed::passes))]
fn height_of(column: &Column) -> u32
    ensures height { result ≡ length column.now.values.rows }
    ensures column { is_column column.now.values ≡ true }
{
    column.len()
}

// Whether each column has the height of the first one.
fn have_one_height(columns: &[Column]) -> bool
    ensures height { result ≡ are_equal (heights columns.now) }
    ensures columns { OnTrue result (are_columns columns.now ≡ true) }
{
    let Some((first, others)) = columns.split_first() else {
        return true;
    };
    let height = height_of(first);
    for column in others {
        if height_of(column) != height {
            return false;
        }
    }
    true
}
