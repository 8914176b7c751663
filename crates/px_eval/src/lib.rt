//! What the trees of an arena mean on a frame.
#![tactic(auto)]

mod answers;
mod evaluation;
mod filling;
mod functions;
mod operators;
mod order;
mod own;
mod scalars;
mod selection;
mod table;

pub use evaluation::evaluate;
pub use selection::{Collected, run_select};
