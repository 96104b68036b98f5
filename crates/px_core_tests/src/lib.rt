//! Tests of the core: scripts over a store that was just made, call by call, and the log that they leave; and drawn calls, beside their definitions.
//!
//! `making` makes the core, and how a test sees it; `scripts` has the calls with their answers, `tests` runs them. `drawn` draws calls,
//! `definitions` answers each by going through all transactions, `beside` runs both.
#![tactic(auto)]

#[cfg(test)]
mod beside;
#[cfg(test)]
mod definitions;
#[cfg(test)]
mod drawn;
#[cfg(test)]
mod making;
#[cfg(test)]
mod scripts;
#[cfg(test)]
mod tests;
