//! Tests of what the sessions have in memory: two sessions, call by call.
#![tactic(auto)]

#[cfg(test)]
mod calls;
