//! Tests of columns, of frames and of the kernels of the core language, as tables.
#![tactic(auto)]

#[cfg(test)]
mod frames;
#[cfg(test)]
mod kernel_calls;
#[cfg(test)]
mod kernels;
