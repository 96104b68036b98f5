//! Tests of the program over a site in memory, with inputs and texts that were written down by hand.
//!
//! `stores` calls the program on a site, and `calls` has the table of calls and what they tell. `scripts` has the scripts
//! that are crashed, `crashes` stops their runs at every moment, and every opening of what is left, and `faults` lets a call
//! of the site or a read of the input fail. `inputs` counts what was taken of an input. `limits` reaches what a run or a
//! transaction can't pass, and plays long scripts.
#![tactic(auto)]

#[cfg(test)]
mod calls;
#[cfg(test)]
mod crashes;
#[cfg(test)]
mod faults;
#[cfg(test)]
mod inputs;
#[cfg(test)]
mod limits;
#[cfg(test)]
mod scripts;
#[cfg(test)]
mod stores;
