ghost use Rattle.std.specs.Prelude.{◌≡◌, ◌≤◌, ℕ, true, false, length};
ghost use Rattle.px_survey.specs.Walked.{Comes, Fails};

use crate::links::Links;

/// Walks along a list from a place, and marks what it meets: whether it came to 0 over places of the list that weren't marked.
pub(crate) fn walk<L: Links>(links: &L, from: u32, marks: &mut [bool]) -> bool
    requires { (n : ℕ) → L.is_on links.now n → n ≤ length marks.old }
    ensures ends { result ≡ true → Comes (L.is_on links.now) (L.next links.now) from 0 marks.old marks.new }
    ensures fails { result ≡ false → Fails (L.is_on links.now) (L.next links.now) from marks.old }
{
    let mut at = from;
    while at != 0 {
        let Some(next) = links.next(at) else {
            return false;
        };
        let mark = &mut marks[at as usize - 1];
        if *mark {
            return false;
        }
        *mark = true;
        at = next;
    }
    true
}
