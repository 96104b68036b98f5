//! What holds of the grammar, and what it says of small examples.
#![tactic(auto)]

ghost use Rattle.std.specs.Prelude.{◌≡◌, ◌≤◌, List, ℕ, [], ◌∷◌, codes, ◌++◌, length};
ghost use Rattle.px_engine.specs.Requests.{Ask, Stat as Numbers};
ghost use Rattle.px_script.specs.Grammar.{line_of, command_line, requests_of, longest_line};
ghost use Rattle.px_script.specs.LineText.{CanBeLine, line_text};
ghost use Rattle.px_script.specs.Lines.{complete_lines, open_line, lines_at_end};
ghost use Rattle.px_script.specs.declared.line.Line.{Line as LineValue};
ghost use Rattle.px_calls.specs.Histories.{by, sweep};
ghost use Rattle.px_calls.specs.declared.call.Call.{Call};
ghost use Rattle.px_calls.specs.declared.event.Event.{Event};
ghost use Rattle.px_calls.specs.declared.event.Event.TheVariants.{Session as ByCall};

use crate::Line;
use px_calls::{Call, Event};

/// The text of each value that a line can have is read as that value: no text has two readings.
pub fn text_is_read()
    ensures { (line : LineValue) → CanBeLine line → length (line_text line) ≤ longest_line → line_of (line_text line) ≡ Some line }
{}

/// A line is the text of the value that it is read as: no value has two texts, and nothing else is a line.
pub fn a_line_is_its_text()
    ensures { (bytes : List ℕ) (line : LineValue) → line_of bytes ≡ Some line → (bytes ≡ line_text line) × CanBeLine line }
{}

pub fn what_is_a_line()
    ensures get { line_of (codes "a get 1 01") ≡ Some (Line.Step (ByCall 0 (Call.Get 1 (1 ∷ [])))) }
    ensures leading_zero { line_of (codes "a get 01 01") ≡ None }
    ensures odd { line_of (codes "a get 1 0") ≡ None }
    ensures two_spaces { line_of (codes "a  begin") ≡ None }
    ensures no_session { line_of (codes "q begin") ≡ None }
    ensures empty { line_of [] ≡ None }
    ensures upper { line_of (codes "a get 1 0A") ≡ None }
    ensures insert { command_line (codes "p insert 4294967295 6b31 0 -") ≡ Some (Ask (by 15 (Call.Insert 4294967295 (107 ∷ 49 ∷ []) 0 []))) }
    ensures great { line_of (codes "p scan 4294967296") ≡ None }
    ensures sweeper { command_line (codes "sweeper") ≡ Some (Ask sweep) }
    ensures stat { command_line (codes "stat") ≡ Some Numbers }
    ensures not_built { command_line (codes "writer") ≡ None }
    ensures drain { line_of (codes "drain") ≡ Some Line.Drain }
{}

pub fn how_bytes_are_lines()
    ensures complete { complete_lines (codes "a begin" ++ 10 ∷ 10 ∷ codes "a com") ≡ codes "a begin" ∷ [] ∷ [] }
    ensures open_one { open_line (codes "a begin" ++ 10 ∷ 10 ∷ codes "a com") ≡ codes "a com" }
    ensures at_end { lines_at_end (codes "a begin" ++ 10 ∷ codes "b commit") ≡ codes "a begin" ∷ codes "b commit" ∷ [] }
    ensures requests { requests_of (lines_at_end (codes "a begin" ++ 10 ∷ codes "stat" ++ 10 ∷ codes "a frobnicate" ++ 10 ∷ codes "b commit")) ≡ Ask (by 0 Call.Begin) ∷ Numbers ∷ [] }
{}
