//! Tests of a store's beginning: it is made, and opened again, over a site in memory.
//!
//! `files` has the bytes of a store that another program computed, and `stores` lays them on a site and opens them. `making` and `opening`
//! try each call and what it finds, `damage` what isn't opened. `scripts` runs transactions and reads the rows again, and `stopping`
//! crashes them, and openings, at every moment.
#![tactic(auto)]

#[cfg(test)]
mod damage;
#[cfg(test)]
mod files;
#[cfg(test)]
mod making;
#[cfg(test)]
mod opening;
#[cfg(test)]
mod scripts;
#[cfg(test)]
mod stopping;
#[cfg(test)]
mod stores;
