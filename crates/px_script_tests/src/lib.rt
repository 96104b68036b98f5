//! Tests of scripts: lines whose values, or that they have none, were written down by hand, and inputs in pieces.
//!
//! `told` writes a line's value in numbers, `grammar` has the table of lines, `inputs` reads whole inputs.
#![tactic(auto)]

#[cfg(test)]
mod grammar;
#[cfg(test)]
mod inputs;
#[cfg(test)]
mod told;
