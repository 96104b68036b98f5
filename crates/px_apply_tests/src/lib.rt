//! Tests of cells that are written to a site in memory: at places computed by hand, until a write that fails, and until a
//! crash.
#![tactic(auto)]

#[cfg(test)]
mod changes;
#[cfg(test)]
mod crashes;
#[cfg(test)]
mod places;
