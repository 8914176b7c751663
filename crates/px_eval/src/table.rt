//! The rows that places of an arena mean, each kept once.
ghost use Rattle.std.specs.Prelude.{◌≡◌, ◌<◌, length, slice_set, replicate, Some, None, IfOk, IfErr, IsSome};
ghost use Rattle.px_base.specs.Answer.{GivesOrMemory};
ghost use Rattle.px_column.specs.Buffers as buffers;
ghost use Rattle.px_eval.specs.Table.{values_of, rows_at, GivesValues};

use px_arena::Node;
use px_column::{Buffer, Column};
use px_types::{PlanError, SmallStr};
use std::alloc::Global;
use std::marker::Model;
use std::rc::Rc;

/// The rows of a place: those in a column that the frame or a literal has, or in a new buffer, which
/// places may share.
#[derive(Drop)]
pub enum Rows<'f> {
    Borrowed(&'f Buffer),
    Shared(Rc<Buffer>),
}

impl<'f> Rows<'f> {
    /// The rows of a new buffer.
    pub fn new(alloc: Global, buffer: Buffer) -> Result<Rows<'f>, PlanError>
        ensures { GivesValues result (buffers.values_of buffer) }
    {
        match Rc::new(alloc, buffer) {
            Ok(buffer) => Ok(Rows::Shared(buffer)),
            Err(_) => Err(PlanError::OutOfMemory),
        }
    }

    /// The rows of a column, not copied.
    pub fn from_column(column: &'f Column) -> Rows<'f>
        ensures { values_of result ≡ column.now.values }
    {
        Rows::Borrowed(column.buffer())
    }

    /// The buffer that has them.
    pub fn buffer(&self) -> &Buffer
        ensures { buffers.values_of result.now ≡ values_of self.now }
    {
        match self {
            Rows::Borrowed(buffer) => *buffer,
            Rows::Shared(buffer) => buffer.as_ref(),
        }
    }

    /// The same rows, not copied.
    pub fn share(&self) -> Result<Rows<'f>, PlanError>
        ensures { GivesValues result (values_of self.now) }
    {
        match self {
            Rows::Borrowed(buffer) => Ok(Rows::Borrowed(*buffer)),
            Rows::Shared(buffer) => Ok(Rows::Shared(buffer.clone()?)),
        }
    }

    /// A column of them under the name: a copy where another has them too.
    pub fn into_column(self, alloc: Global, name: SmallStr) -> Result<Column, PlanError>
        ensures { GivesOrMemory result (record { name = name; values = values_of self.entry }) }
    {
        match self {
            Rows::Borrowed(buffer) => Ok(Column::new(name, buffer.try_clone(alloc)?)),
            Rows::Shared(buffer) => match Rc::try_unwrap(buffer) {
                Ok(buffer) => Ok(Column::new(name, buffer)),
                Err(buffer) => Ok(Column::new(name, buffer.try_clone(alloc)?)),
            },
        }
    }
}

/// The rows of places. Contracts see what each place holds.
#[derive(Drop)]
pub struct Table<'f> {
    places: Vec<Option<Rows<'f>>>,
}

impl<'f> Model for Table<'f> {
    ghost use Rattle.std.specs.Prelude.{List, Option, map, option_map};
    ghost use Rattle.px_semantics.specs.Rows.{TypedRows};
    ghost use Rattle.px_eval.specs.Table.{values_of};

    ghost Value = { List (Option TypedRows) };

    ghost view = { λ t. map (option_map values_of) t.places.items };
}

impl<'f> Table<'f> {
    /// A table of so many places that hold nothing.
    pub fn new(alloc: Global, len: usize) -> Result<Table<'f>, PlanError>
        ensures ok { IfOk result (λ t. t ≡ replicate len None) }
        ensures err { IfErr result (λ e. e ≡ PlanError.OutOfMemory) }
    {
        let mut places: Vec<Option<Rows<'f>>> = Vec::new(alloc);
        for _i in 0..len {
            places.push(None)?;
        }
        Ok(Table { places })
    }

    /// The rows of a place that holds some.
    fn rows(&self, node: Node) -> &Rows<'f>
        requires { IsSome (rows_at self.now node.0) }
        ensures { rows_at self.now node.0 ≡ Some (values_of result.now) }
    {
        prove!(node.0 < self.places.len());
        match &self.places[node.0] {
            Some(rows) => rows,
            None => unreachable!(),
        }
    }

    /// The buffer of the rows of a place that holds some.
    pub fn at(&self, node: Node) -> &Buffer
        requires { IsSome (rows_at self.now node.0) }
        ensures { rows_at self.now node.0 ≡ Some (buffers.values_of result.now) }
    {
        self.rows(node).buffer()
    }

    /// The rows of a place that holds some, not copied.
    pub fn share(&self, node: Node) -> Result<Rows<'f>, PlanError>
        requires { IsSome (rows_at self.now node.0) }
        ensures ok { IfOk result (λ r. rows_at self.now node.0 ≡ Some (values_of r)) }
        ensures err { IfErr result (λ e. e ≡ PlanError.OutOfMemory) }
    {
        self.rows(node).share()
    }

    /// The place holds the rows from now on.
    pub fn put(&mut self, node: Node, rows: Rows<'f>)
        requires { node.0 < length self.old }
        ensures { self.new ≡ slice_set self.old node.0 (Some (values_of rows.entry)) }
    {
        self.places[node.0] = Some(rows);
    }

    /// The place holds nothing from now on.
    pub fn clear(&mut self, node: Node)
        requires { node.0 < length self.old }
        ensures { self.new ≡ slice_set self.old node.0 None }
    {
        self.places[node.0] = None;
    }
}
