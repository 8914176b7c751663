//! Tests of the kernels that select rows, as tables.
#![tactic(auto)]

#[cfg(test)]
mod selection_calls;
#[cfg(test)]
mod selection_lengths;
#[cfg(test)]
mod selections;
