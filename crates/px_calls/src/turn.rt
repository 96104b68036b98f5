use crate::{Call, Reply};
use px_model::Session;

/// An entry of a history: whose call it was, the call, and its reply.
#[derive(Debug, Drop)]
pub struct Turn {
    pub session: Session,
    pub call: Call,
    pub reply: Reply,
}
