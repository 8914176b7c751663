//! Checked expressions.
ghost use Rattle.std.specs.Prelude.{◌≡◌};
ghost use Rattle.px_types.specs.ValueTypes.{dtype_of};
ghost use Rattle.px_expr.specs.Tree.{tree_of};
ghost use Rattle.px_meaning.specs.Lowerable.{IsLowerable};
ghost use Rattle.px_meaning.specs.Names.{name};

use crate::name::name_of;
use px_expr::Expr;
use px_types::{DataType, List, PlanError, SmallStr, ValueType};
use std::alloc::Global;
use std::marker::Model;

/// A checked expression with its type and its name. Contracts see the expression and the type, which
/// decide the name; each node of the tree is one that a plan has.
#[derive(Drop)]
pub struct Checked {
    tree: Expr,
    value_type: ValueType,
    dtype: DataType,
    name: SmallStr,
}

/// Checked expressions, in order.
pub type CheckedList = List<Checked>;

impl Model for Checked {
    ghost use Rattle.std.specs.Prelude.{◌≡◌};
    ghost use Rattle.px_types.specs.ValueTypes.{dtype_of};
    ghost use Rattle.px_expr.specs.Tree.{tree_of};
    ghost use Rattle.px_meaning.specs.Names as meaning;
    ghost use Rattle.px_meaning.specs.Lowerable.{IsLowerable};
    ghost use Rattle.px_coercion.specs.CheckedTree.{CheckedTree};
    ghost use Rattle.std.specs.Coded.{codes};
    ghost use Rattle.px_expr.specs.contracts.expr.Expr as expr;

    ghost Value = { CheckedTree };

    ghost coded = { Prim.hlevel (codes, expr.the_row.coded) };

    ghost view = { λ c. record { tree = c.tree; value_type = c.value_type } };

    ghost invariant = { λ c. (c.dtype ≡ dtype_of c.value_type) × (c.name ≡ meaning.name (tree_of c.tree)) × IsLowerable (tree_of c.tree) };
}

impl Checked {
    ghost use Rattle.px_base.specs.Answer.{GivesSeen};

    /// The expression under its type and its name.
    pub fn new(alloc: Global, tree: Expr, value_type: ValueType) -> Result<Checked, PlanError>
        requires { IsLowerable (tree_of tree) }
        ensures { GivesSeen (λ c. c) result (record { tree = tree; value_type = value_type }) }
    {
        match SmallStr::new(alloc, name_of(&tree)) {
            Ok(name) => Ok(Checked {
                tree,
                value_type,
                dtype: value_type.dtype(),
                name,
            }),
            Err(e) => {
                drop(tree);
                Err(e)
            }
        }
    }

    /// The checked expression.
    pub fn tree(&self) -> &Expr
        ensures value { result.now ≡ self.now.tree }
        ensures lowerable { IsLowerable (tree_of result.now) }
    {
        &self.tree
    }

    /// Its type, as a value type.
    pub fn value_type(&self) -> ValueType
        ensures { result ≡ self.now.value_type }
    {
        self.value_type
    }

    /// Its type.
    pub fn dtype(&self) -> &DataType
        ensures { result.now ≡ dtype_of self.now.value_type }
    {
        &self.dtype
    }

    /// The name of what it means.
    pub fn name(&self) -> &SmallStr
        ensures { result.now ≡ name (tree_of self.now.tree) }
    {
        &self.name
    }
}
