//! Kernels that select rows of columns: in reverse, by a range, by a mask, by indices, without nulls; and two
//! columns as one.
#![tactic(auto)]

mod arms;
mod concatenation;
mod indices;
mod laws;
mod masks;
mod order;
mod positions;
mod ranges;
mod slices;
mod take;

pub use concatenation::{append, append_buffers};
pub use indices::{gather, gather_buffers};
pub use laws::{
    append_keeps_its_parts, not_null_drops_nulls, nulls_add_up, reverse_undoes_reverse,
};
pub use masks::{drop_nulls, drop_nulls_buffer, filter, filter_buffers};
pub use order::{reverse, reverse_buffer};
pub use slices::{slice, slice_buffers};
