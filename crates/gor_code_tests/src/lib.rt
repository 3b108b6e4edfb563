//! Tests of the public calls of the codes, of what stands below them, and of texts and names: a file for each library.
//!
//! A test is data: a table of rows, or a list of steps, with the answer that is wanted of each. What does a row or a step is a
//! small function.
//!
//! - `bits`, `times`, `values`, `block`: the codes; `spelled` makes bits of texts.
//! - `ring`, `name`: the ring of a cell, and names.
//! - `model`, `text`, `outside`: points, lines, and what a run reads and writes in memory.
#![tactic(auto)]

#[cfg(test)]
mod bits;
#[cfg(test)]
mod block;
#[cfg(test)]
mod model;
#[cfg(test)]
mod name;
#[cfg(test)]
mod outside;
#[cfg(test)]
mod ring;
#[cfg(test)]
mod spelled;
#[cfg(test)]
mod text;
#[cfg(test)]
mod times;
#[cfg(test)]
mod values;
