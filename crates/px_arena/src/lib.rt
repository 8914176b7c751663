//! An arena of expression nodes that may be shared.
#![tactic(auto)]

mod arena;
mod lowering;
mod node;
mod raising;

pub use arena::Arena;
pub use lowering::lower;
pub use node::{AExpr, ExprIR, ExprIRList, IRAggExpr, Node, NodeList};
pub use raising::raise;
