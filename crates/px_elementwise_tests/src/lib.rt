//! Tests of the elementwise kernels and of those across columns, as tables.
#![tactic(auto)]

#[cfg(test)]
mod elementwise;
#[cfg(test)]
mod elementwise_calls;
#[cfg(test)]
mod horizontal_calls;
#[cfg(test)]
mod horizontals;
