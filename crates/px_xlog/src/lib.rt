//! The transaction log's file: which one it is, and what a crash leaves of its bytes.
//!
//! No code: the definitions are `specs/Contents`, which file the log is, and `specs/Written`, what a crash may leave where no torn
//! record's sum matches by chance. `proofs/AtRest` says that of a file at rest a crash leaves what it is.
#![tactic(auto)]
