//! Tests of the payloads of frames against bytes that were written by hand.
#![tactic(auto)]

#[cfg(test)]
mod changes;
