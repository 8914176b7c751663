//! The integers of the eight integer types as one trait, and the operations on two of them.
#![tactic(auto)]

mod bitwise;
mod divide;
mod integer;
mod integers;
mod laws;
mod operation;
mod residue;
mod ring;

pub use bitwise::{BitAnd, BitOr, BitXor};
pub use divide::{Division, Quotient, Remainder};
pub use integer::Integer;
pub use laws::{floor_quotient_is_one, floor_quotient_is_the_only_one};
pub use operation::Operation;
pub use residue::Residue;
pub use ring::{Difference, Product, Sum};
