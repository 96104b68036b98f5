//! Tests of the crates of cells: bytes that were put together by hand from the format, and each call that takes memory once
//! where there is enough.
#![tactic(auto)]

#[cfg(test)]
mod places;
#[cfg(test)]
mod slots;
#[cfg(test)]
mod tops;
