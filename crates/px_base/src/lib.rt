//! What every crate of px stands on: the planner's error, strings, lists and boxes that contracts see
//! as plain data, and a counter of steps that takes no bytes.
#![tactic(auto)]

mod boxes;
mod copy;
mod error;
mod list;
mod steps;
#[cfg(test)]
mod tests;
mod text;

pub use boxes::boxed;
pub use copy::TryClone;
pub use error::PlanError;
pub use list::List;
pub use sqlite_items::{Boxed, Items};
pub use steps::Steps;
pub use text::SmallStr;
