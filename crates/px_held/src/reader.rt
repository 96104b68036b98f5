use px_xacts::Xacts;

/// Who reads: its stored number, how many transactions had ended when it began, and what became of them.
#[derive(Clone, Copy, Drop)]
pub struct Reader<'a> {
    pub xacts: &'a Xacts,
    pub own: u64,
    pub snapshot: u64,
}
