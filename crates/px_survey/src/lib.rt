//! Whether the cells of a table are sound, and where not.
//!
//! At an opening the cells are read that files and log say; they may be anything. `survey` walks along the free lists and along
//! the chain of each row pointer and marks the slots that it meets. Either the cells are sound, or it names the first flaw, in
//! the order header, row pointers, slots.
//!
//! - `surveying`: `survey`, the public call. `laws`: sound cells have no flaw; flaws by example.
//! - `flaw`: `Flaw`, where cells aren't sound.
//! - `cells`: the cells; `links`: the lists that hang together in them; `walking`: a walk along one; `rows`: the row pointers,
//!   one after the other; `keys`: the keys of their chains.
//!
//! `specs/Flaws` says what a flaw is, `specs/Cells` which table the cells make, `specs/Walked` what walks meet.
#![tactic(auto)]

mod cells;
mod flaw;
mod keys;
mod laws;
mod links;
mod rows;
mod surveying;
mod walking;

pub use flaw::Flaw;
pub use laws::{flaws_by_example, sound_cells_have_no_flaw};
pub use surveying::survey;
