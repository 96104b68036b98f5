//! Tests of frames that are appended with their cells: a version, its commit and a rollback, made durable and read again.
#![tactic(auto)]

#[cfg(test)]
mod appending;
