//! Tests of the JSON forms and of the calls over sources and sinks.
#![tactic(auto)]

#[cfg(test)]
mod calls;
#[cfg(test)]
mod columns;
#[cfg(test)]
mod documents;
#[cfg(test)]
mod expressions;
