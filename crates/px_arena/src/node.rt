//! Nodes of an arena: what a place holds, and the places of its inputs.
ghost use Rattle.std.specs.Prelude.{◌≡◌, ◌<◌, length, slice_get, Some};
ghost use Rattle.px_base.specs.Answer.{GivesOrMemory};
ghost use Rattle.px_arena.specs.Denotes.{inputs_of, agg_inputs};

use px_expr::LiteralValue;
use px_functions::FunctionExpr;
use px_types::{
    CastOptions, DataType, FunctionOptions, List, Operator, PlanError, SmallStr, TryClone,
};
use std::alloc::Global;

/// A place of an arena.
#[derive(Clone, Copy, Debug, PartialEq, Eq, Hash)]
pub struct Node(pub usize);

/// The place of an expression.
#[derive(Clone, Copy, Debug, PartialEq, Eq, Hash)]
pub struct ExprIR(pub Node);

/// Places, in order.
pub type NodeList = List<Node>;

/// Places of expressions, in order.
pub type ExprIRList = List<ExprIR>;

impl TryClone for Node {
    fn try_clone_in(&self, _alloc: Global) -> Result<Node, PlanError> {
        Ok(*self)
    }
}

impl TryClone for ExprIR {
    fn try_clone_in(&self, _alloc: Global) -> Result<ExprIR, PlanError> {
        Ok(*self)
    }
}

/// An aggregate of a place.
#[derive(Clone, Copy, Debug)]
pub enum IRAggExpr {
    Min(Node),
    Max(Node),
    First(Node),
    Last(Node),
    Sum(Node),
    /// The number of rows, or of those that are not null.
    Count(Node, bool),
}

impl IRAggExpr {
    /// The place of its input.
    pub fn input(&self) -> Node
        ensures { slice_get (agg_inputs self.now) 0 ≡ Some result.0 }
    {
        match self {
            IRAggExpr::Min(input)
            | IRAggExpr::Max(input)
            | IRAggExpr::First(input)
            | IRAggExpr::Last(input)
            | IRAggExpr::Sum(input)
            | IRAggExpr::Count(input, _) => *input,
        }
    }
}

/// What a place holds: a node of a checked tree, with the places of its inputs.
#[derive(Drop)]
pub enum AExpr {
    Alias(Node, SmallStr),
    Column(SmallStr),
    Literal(LiteralValue),
    BinaryExpr {
        left: Node,
        op: Operator,
        right: Node,
    },
    Cast {
        expr: Node,
        dtype: DataType,
        options: CastOptions,
    },
    Gather {
        expr: Node,
        idx: Node,
        returns_scalar: bool,
    },
    Slice {
        input: Node,
        offset: Node,
        length: Node,
    },
    Filter {
        input: Node,
        by: Node,
    },
    Ternary {
        predicate: Node,
        truthy: Node,
        falsy: Node,
    },
    Agg(IRAggExpr),
    Function {
        input: ExprIRList,
        function: FunctionExpr,
        options: FunctionOptions,
    },
    AnonymousFunction {
        input: ExprIRList,
        kernel: u32,
        options: FunctionOptions,
    },
    Len,
}

impl AExpr {
    /// An equal node.
    pub fn try_clone(&self, alloc: Global) -> Result<AExpr, PlanError>
        ensures { GivesOrMemory result self.now }
    {
        match self {
            AExpr::Alias(input, name) => Ok(AExpr::Alias(*input, name.try_clone(alloc)?)),
            AExpr::Column(name) => Ok(AExpr::Column(name.try_clone(alloc)?)),
            AExpr::Literal(value) => Ok(AExpr::Literal(value.try_clone(alloc)?)),
            AExpr::BinaryExpr { left, op, right } => Ok(AExpr::BinaryExpr {
                left: *left,
                op: *op,
                right: *right,
            }),
            AExpr::Cast {
                expr,
                dtype,
                options,
            } => Ok(AExpr::Cast {
                expr: *expr,
                dtype: dtype.try_clone(alloc)?,
                options: *options,
            }),
            AExpr::Gather {
                expr,
                idx,
                returns_scalar,
            } => Ok(AExpr::Gather {
                expr: *expr,
                idx: *idx,
                returns_scalar: *returns_scalar,
            }),
            AExpr::Slice {
                input,
                offset,
                length,
            } => Ok(AExpr::Slice {
                input: *input,
                offset: *offset,
                length: *length,
            }),
            AExpr::Filter { input, by } => Ok(AExpr::Filter {
                input: *input,
                by: *by,
            }),
            AExpr::Ternary {
                predicate,
                truthy,
                falsy,
            } => Ok(AExpr::Ternary {
                predicate: *predicate,
                truthy: *truthy,
                falsy: *falsy,
            }),
            AExpr::Agg(agg) => Ok(AExpr::Agg(*agg)),
            AExpr::Function {
                input,
                function,
                options,
            } => Ok(AExpr::Function {
                input: input.try_clone(alloc)?,
                function: function.try_clone(alloc)?,
                options: *options,
            }),
            AExpr::AnonymousFunction {
                input,
                kernel,
                options,
            } => Ok(AExpr::AnonymousFunction {
                input: input.try_clone(alloc)?,
                kernel: *kernel,
                options: *options,
            }),
            AExpr::Len => Ok(AExpr::Len),
        }
    }

    /// How many inputs it has.
    pub fn input_count(&self) -> usize
        ensures { result ≡ length (inputs_of self.now) }
    {
        match self {
            AExpr::Column(_) | AExpr::Literal(_) | AExpr::Len => 0,
            AExpr::Alias(_, _) | AExpr::Cast { .. } | AExpr::Agg(_) => 1,
            AExpr::BinaryExpr { .. } | AExpr::Gather { .. } | AExpr::Filter { .. } => 2,
            AExpr::Slice { .. } | AExpr::Ternary { .. } => 3,
            AExpr::Function { input, .. } | AExpr::AnonymousFunction { input, .. } => input.len(),
        }
    }

    /// The place of the input i.
    pub fn input(&self, i: usize) -> Node
        requires { i < length (inputs_of self.now) }
        ensures { slice_get (inputs_of self.now) i ≡ Some result.0 }
    {
        match self {
            AExpr::Column(_) | AExpr::Literal(_) | AExpr::Len => unreachable!(),
            AExpr::Alias(input, _) => *input,
            AExpr::Cast { expr, .. } => *expr,
            AExpr::Agg(agg) => agg.input(),
            AExpr::BinaryExpr {
                left: a,
                right: b,
                ..
            }
            | AExpr::Gather {
                expr: a,
                idx: b,
                ..
            }
            | AExpr::Filter { input: a, by: b } => { if i == 0 { *a } else { *b } }
            AExpr::Slice {
                input: a,
                offset: b,
                length: c,
            }
            | AExpr::Ternary {
                predicate: a,
                truthy: b,
                falsy: c,
            } => {
                if i == 0 {
                    *a
                } else if i == 1 {
                    *b
                } else {
                    *c
                }
            }
            AExpr::Function { input, .. } | AExpr::AnonymousFunction { input, .. } => {
                input.as_slice()[i].0
            }
        }
    }
}
