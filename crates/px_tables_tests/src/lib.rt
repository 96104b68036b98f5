//! Tests of a table in memory, of cells laid over each other and of the survey of what was read.
//!
//! - `making`: versions that come and go, each through all its halves; the chains of a table as plain lists have them.
//! - `life`: a small table, step by step, against walks and cells written down by hand; single cells.
//! - `drawn`, `lists`: steps drawn at random, made on a table and on plain lists.
//! - `opening`: the table that the cells of a log say.
//! - `flaws`: small tables with one mistake each. `layers`: changes laid over each other.
#![tactic(auto)]

#[cfg(test)]
mod drawn;
#[cfg(test)]
mod flaws;
#[cfg(test)]
mod layers;
#[cfg(test)]
mod life;
#[cfg(test)]
mod lists;
#[cfg(test)]
mod making;
#[cfg(test)]
mod opening;
