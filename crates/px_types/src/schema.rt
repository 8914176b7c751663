//! The names and the types of a frame's columns.
ghost use Rattle.std.specs.Prelude.{◌≡◌, ◌⊎◌, ◌<◌, [], ◌∷◌, ◌++◌, length, position, slice_get, option_map, None, OnOk, OnErr, IfErr, IfSome, IsTrue, ◌↔◌, true, false};
ghost use Rattle.std.specs.List.{list_any};
ghost use Rattle.std.specs.Map.Iter.{deref_pair};
ghost use Rattle.std.specs.Option.{option_copied};
ghost use Rattle.std.specs.Str.{bytes_eq};
ghost use Rattle.px_base.specs.Answer.{AnswersOrMemory};
ghost use Rattle.px_types.specs.Schemas.{dtype_at, entry_of, first_repeated, names_of, distinct};

use crate::dtype::{DataType, Field};
use indexmap::IndexMap;
use px_base::{PlanError, SmallStr};
use std::alloc::Global;
use std::marker::Model;

/// Fields with distinct names, in order. Contracts see a schema as the list of its fields.
#[derive(Drop)]
pub struct Schema {
    types: IndexMap<String, DataType>,
}

impl Model for Schema {
    ghost use Rattle.std.specs.Prelude.{◌≡◌, List, map, None};
    ghost use Rattle.px_types.specs.declared.dtype.Field.{Field};
    ghost use Rattle.px_types.specs.contracts.dtype.Field as field;
    ghost use Rattle.px_types.specs.Schemas.{field_named, first_repeated, names_of};
    ghost use Rattle.std.specs.Coded.{codes};

    ghost Value = { List Field };

    ghost coded = { Prim.hlevel (codes, field.the_row.coded) };

    ghost view = { λ s. map field_named s.types.entries };

    ghost invariant = { λ s. first_repeated (names_of (map field_named s.types.entries)) ≡ None };
}

impl Schema {
    /// A schema without fields.
    pub fn new(alloc: Global) -> Schema
        ensures { result ≡ [] }
    {
        Schema {
            types: IndexMap::new(alloc),
        }
    }

    /// The schema of these fields, in their order. `Duplicate`, with the first name that is equal
    /// to an earlier one, where there is such a name. Else the only error is out of memory.
    pub fn from_fields(alloc: Global, fields: &[Field]) -> Result<Schema, PlanError>
        ensures { AnswersOrMemory (λ schema. schema) result (distinct fields.now) }
    {
        let mut schema = Schema::new(alloc);
        for field in fields {
            schema.push(field.try_clone(alloc)?)?;
        }
        Ok(schema)
    }

    /// Puts a field last. `Duplicate`, with its name, where a field has that name. Else the only
    /// error is out of memory. After an error the schema is as before.
    pub fn push(&mut self, field: Field) -> Result<(), PlanError>
        ensures last { OnOk result (self.new ≡ self.old ++ field ∷ []) }
        ensures absent { OnOk result (list_any (bytes_eq field.name) (names_of self.old) ≡ false) }
        ensures unchanged { OnErr result (self.new ≡ self.old) }
        ensures err { IfErr result (λ e. (e ≡ PlanError.OutOfMemory)
            ⊎ ((e ≡ PlanError.Duplicate field.name) × (list_any (bytes_eq field.name) (names_of self.old) ≡ true))) }
    {
        let Field { name, dtype } = field;
        if self.contains(name.as_str()) {
            return Err(PlanError::Duplicate(name));
        }
        self.types.insert(name.into_string(), dtype)?;
        Ok(())
    }

    /// The type of the field of this name, and None where there is no such field. It takes no scan.
    pub fn get(&self, name: &str) -> Option<&DataType>
        ensures { option_copied result ≡ dtype_at self.now name.now }
    {
        self.types.get(name)
    }

    /// The place of the field of this name, from 0 on, and None where there is no such field. It
    /// takes no scan.
    pub fn place(&self, name: &str) -> Option<usize>
        ensures place { result ≡ position (bytes_eq name.now) (names_of self.now) }
        ensures within { IfSome result (λ i. i < length self.now) }
    {
        self.types.get_index_of(name)
    }

    /// The number of fields, of which no two have one name.
    pub fn len(&self) -> usize
        ensures fields { result ≡ length self.now }
        ensures distinct { first_repeated (names_of self.now) ≡ None }
    {
        self.types.len()
    }

    /// Whether there are no fields.
    pub fn is_empty(&self) -> bool
        ensures { IsTrue result ↔ (self.now ≡ []) }
    {
        self.len() == 0
    }

    /// The name and the type of field `i`, and None from the number of fields on.
    pub fn field_at(&self, i: usize) -> Option<(&str, &DataType)>
        ensures { option_map deref_pair result ≡ option_map entry_of (slice_get self.now i) }
    {
        let (name, dtype) = self.types.get_index(i)?;
        Some((name.as_str(), dtype))
    }

    fn contains(&self, name: &str) -> bool
        ensures { result ≡ list_any (bytes_eq name.now) (names_of self.now) }
    {
        self.types.contains_key(name)
    }
}
