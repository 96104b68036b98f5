//! Tests of `px_model` and `px_calls`: each text as it is to be printed, and each call that takes memory once where
//! there is enough.
#![tactic(auto)]

#[cfg(test)]
mod copies;
#[cfg(test)]
mod texts;
