//! What is asked of a store, what it replies, and the texts of both.
//!
//! `Call`, `Activity` and `Event` are what is asked, `Reply` and `Status` what is answered. `specs/Steps` says what a
//! store is bound to: the reply to each call, the refusals in their order, and the state that it leaves; `Sweeps` says
//! the same of the sweeper, and `Histories` of many calls after each other. `Texts` and `Closing` say how each answer
//! is printed, and `reply_text`, `row_line`, `closing_line` and their kin print it so. `laws` are what holds of every
//! machine; `worked` are short examples, as laws too.
#![tactic(auto)]

mod call;
mod event;
pub mod laws;
mod reply;
mod short_line;
mod status;
mod text;
mod texts;
mod told;
mod turn;
pub mod worked;

pub use call::Call;
pub use event::{Activity, Event};
pub use reply::Reply;
pub use short_line::{LONGEST_SHORT_LINE, ShortLine};
pub use status::Status;
pub use texts::{reply_text, row_line};
pub use told::{closing_line, count_line, made_line, opened_line};
pub use turn::Turn;
