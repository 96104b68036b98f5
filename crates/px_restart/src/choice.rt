ghost use Rattle.std.specs.Prelude.{IfSome, IfNone};
ghost use Rattle.px_restart.specs.declared.restart.Restart.{Restart};
ghost use Rattle.px_restart.specs.Restart.{RestartAt, IsPicked};

use crate::file::File;
use crate::restart::Restart;

/// Which of the two files' restarts counts: the one with the greater serial of those that check, that of
/// `a` where both have the same. None exactly where neither checks. It takes no memory.
pub fn pick(a: &[u8], b: &[u8]) -> Option<Restart>
    ensures found { IfSome result (IsPicked a.now b.now) }
    ensures none_in_a { IfNone result ((restart : Restart) → ¬ RestartAt a.now restart) }
    ensures none_in_b { IfNone result ((restart : Restart) → ¬ RestartAt b.now restart) }
{
    match (read_restart(a), read_restart(b)) {
        (Some(first), Some(second)) => {
            if second.serial > first.serial {
                Some(second)
            } else {
                Some(first)
            }
        }
        (Some(first), None) => Some(first),
        (None, second) => second,
    }
}

/// None exactly where the file doesn't check.
fn read_restart(bytes: &[u8]) -> Option<Restart>
    ensures found { IfSome result (RestartAt bytes.now) }
    ensures none { IfNone result ((restart : Restart) → ¬ RestartAt bytes.now restart) }
{
    let file = File::read(bytes)?;
    if file.checks(bytes) {
        Some(file.restart)
    } else {
        None
    }
}
