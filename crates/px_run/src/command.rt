// What the words of the command line ask for.
ghost use Rattle.std.specs.Prelude.{◌≡◌, ◌≤◌, [], ◌∷◌, IfSome};
ghost use Rattle.px_run.specs.Command.{IsMakeable, command_of, make_of, number_from};

use px_model::{LONGEST_SHORT, MOST_TABLES, SHORTEST_SHORT, WordList};
use px_script::number_of;

/// What the words of the command line ask for.
#[derive(Clone, Copy, Debug)]
pub enum Command {
    /// That a store is made, with so many tables, 1 to 8, and this short length, 16 to 1,024 bytes.
    Make { tables: u32, short: u32 },
    /// That the script on the input is played.
    Run,
    /// That the rows are told.
    Dump,
}

impl Command {
    /// The command that these words are, the program's name not among them. None exactly where they are none.
    #[tactic(auto, unfolding(crate::specs::Command::command_of))]
    pub fn of(words: &WordList) -> Option<Command>
        ensures command { result ≡ command_of words.now }
        ensures makeable { IfSome result IsMakeable }
    {
        match words.as_slice() {
            [verb] => Command::of_one(verb.as_slice()),
            [verb, tables, short] => {
                if verb.as_slice() == b"make".as_slice() {
                    Command::of_make(tables.as_slice(), short.as_slice())
                } else {
                    None
                }
            }
            _ => None,
        }
    }

    #[tactic(auto, unfolding(crate::specs::Command::command_of))]
    fn of_one(verb: &[u8]) -> Option<Command>
        ensures command { result ≡ command_of (verb.now ∷ []) }
        ensures makeable { IfSome result IsMakeable }
    {
        if verb == b"run".as_slice() {
            Some(Command::Run)
        } else if verb == b"dump".as_slice() {
            Some(Command::Dump)
        } else {
            None
        }
    }

    /// The words behind `make`.
    #[tactic(auto, unfolding(crate::specs::Command::make_of))]
    fn of_make(tables: &[u8], short: &[u8]) -> Option<Command>
        ensures command { result ≡ make_of tables.now short.now }
        ensures makeable { IfSome result IsMakeable }
    {
        let tables = number_from(1, MOST_TABLES, tables)?;
        let short = number_from(SHORTEST_SHORT, LONGEST_SHORT, short)?;
        Some(Command::Make { tables, short })
    }
}

/// The number from `least` to `most` whose decimal text the word is.
fn number_from(least: u32, most: u32, word: &[u8]) -> Option<u32>
    ensures number { result ≡ number_from least most word.now }
    ensures between { IfSome result (λ n. (least ≤ n) × (n ≤ most)) }
{
    let number = number_of(most, word)?;
    if number >= least { Some(number) } else { None }
}
