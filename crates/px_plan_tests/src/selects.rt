//! What is selected from frames, as tables of texts.

mod casts;
mod driver;
mod lists;
mod logic;
mod numbers;
mod worked;
