//! The work that is timed.
ghost use Rattle.std.specs.Prelude.{◌≡◌, ◌<◌};

use crate::trees::{Leaf, balanced, named_columns, only, path};
use px_expr::ExprList;
use px_plan::{Context, KernelList, PlanContext, check_list, optimize};
use px_types::{DataType, Field, List, Operator, PlanError, Schema, SmallStr, Steps};
use std::alloc::Global;
use std::marker::Brand;
use std::sync::ledger::{Blank, Ledger};

/// A piece of work.
pub enum Work {
    CheckTree,
    CheckList,
    OptimizeNormal,
    OptimizeLonger,
    OptimizePath,
}

/// Each piece of work, in the order in which it is timed.
pub static ALL: [Work; 5] = [
    Work::CheckTree,
    Work::CheckList,
    Work::OptimizeNormal,
    Work::OptimizeLonger,
    Work::OptimizePath,
];

/// A path is so many times shorter than the other trees, since a call for each of its nodes stands on
/// the stack.
const SHORTER: u32 = 100;

impl Work {
    pub fn label(&self) -> &'static str {
        match self {
            Work::CheckTree => "check a balanced tree of Plus",
            Work::CheckList => "check a list of named columns",
            Work::OptimizeNormal => "optimize a balanced tree with nothing to rewrite",
            Work::OptimizeLonger => "optimize a balanced tree with a rewrite at every third node",
            Work::OptimizePath => "optimize a path of not, a hundredth as long",
        }
    }

    /// Expressions of about so many nodes.
    pub fn exprs(&self, alloc: Global, nodes: u32) -> Result<ExprList, PlanError> {
        match self {
            Work::CheckTree => tree(alloc, Operator::Plus, Leaf::Number, nodes / 2),
            Work::CheckList => named_columns(alloc, nodes / 2),
            Work::OptimizeNormal => tree(alloc, Operator::Or, Leaf::Mask, nodes / 2),
            Work::OptimizeLonger => tree(alloc, Operator::Or, Leaf::Longer, nodes / 6),
            Work::OptimizePath => only(alloc, path(alloc, nodes / SHORTER)?),
        }
    }

    /// Does the work once, and gives a number that depends on the answer.
    pub fn run(
        &self,
        alloc: Global,
        schema: &Schema,
        kernels: &KernelList,
        exprs: &ExprList,
    ) -> Result<u64, PlanError> {
        match self {
            Work::CheckTree | Work::CheckList => check(alloc, schema, kernels, exprs),
            Work::OptimizeNormal | Work::OptimizeLonger | Work::OptimizePath => {
                rewrites::<Brand>(alloc, schema, kernels, exprs, Blank::new(1))
            }
        }
    }
}

fn tree(alloc: Global, op: Operator, leaves: Leaf, count: u32) -> Result<ExprList, PlanError> {
    only(alloc, balanced(alloc, op, leaves, count)?)
}

fn check(
    alloc: Global,
    schema: &Schema,
    kernels: &KernelList,
    exprs: &ExprList,
) -> Result<u64, PlanError> {
    let plan = PlanContext {
        schema,
        kernels,
        context: Context::Select,
    };
    let checked = check_list(alloc, &plan, exprs.as_slice())?;
    Ok(checked.len() as u64)
}

fn rewrites<L: Ledger>(
    alloc: Global,
    schema: &Schema,
    kernels: &KernelList,
    exprs: &ExprList,
    blank: Blank,
) -> Result<u64, PlanError>
    requires name { blank.name ≡ L.name }
    requires parts { blank.parts ≡ L.parts }
    requires one { 0 < L.parts }
{
    let mut steps: Steps<L> = Steps::new(blank);
    let optimized = optimize(
        alloc,
        schema,
        exprs.as_slice(),
        Context::Select,
        kernels,
        &mut steps,
    )?;
    Ok(optimized.rewrites())
}

/// A schema of one integer and one Boolean column.
pub fn schema(alloc: Global) -> Result<Schema, PlanError> {
    let mut fields = List::new(alloc);
    fields.try_push(Field::new(SmallStr::new(alloc, "a")?, DataType::Int64))?;
    fields.try_push(Field::new(SmallStr::new(alloc, "p")?, DataType::Boolean))?;
    Schema::from_fields(alloc, fields.as_slice())
}
