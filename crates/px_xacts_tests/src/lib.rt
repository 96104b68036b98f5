//! Tests of the open and ended transactions: a history whose marks were computed by hand, the last stored numbers, and
//! many transactions in a row.
#![tactic(auto)]

#[cfg(test)]
mod history;
#[cfg(test)]
mod limits;
#[cfg(test)]
mod store;
