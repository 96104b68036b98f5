// What is played.

/// One call of the engine.
#[derive(Drop)]
pub(crate) struct Scene {
    /// What is to be seen.
    pub about: &'static str,
    /// The words of the command line.
    pub command: &'static str,
    /// The input: a line for each call of a session.
    pub lines: &'static str,
}

/// The scenes in their order.
pub(crate) const SCENES: [Scene; 5] = [
    Scene {
        about: "A store is made in a new folder: one table, with bodies of up to 64 bytes.",
        command: "make 1 64",
        lines: "",
    },
    Scene {
        about: "Session a writes two rows, reads one and commits. `committed 1` is told once the commit is on the disk.",
        command: "run",
        lines: "a begin
a insert 1 6170706c65 3 726564
a insert 1 70656172 3 677265656e
a get 1 6170706c65
a commit
",
    },
    Scene {
        about: "The folder is opened again, and the rows are found. What isn't committed by the end of a run is gone: the delete.",
        command: "run",
        lines: "b begin
b get 1 6170706c65
b delete 1 70656172
b get 1 70656172
",
    },
    Scene {
        about: "Reader c keeps its snapshot while others commit, and blocks nobody. Of the writers a and b of one row the second is
refused at once; after a has committed it is refused still, since its snapshot is older. A new transaction goes on.",
        command: "run",
        lines: "c begin
a begin
b begin
a update 1 6170706c65 4 79656c6c6f77
b update 1 6170706c65 5 626c7565
a commit
c get 1 6170706c65
b update 1 6170706c65 5 626c7565
b rollback
c commit
c begin
c get 1 6170706c65
",
    },
    Scene {
        about: "All rows, in order of their keys.",
        command: "dump",
        lines: "",
    },
];
