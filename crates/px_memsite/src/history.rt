// The events of a site, and its moments.
ghost use Rattle.std.specs.Prelude.{◌≡◌, ◌≤◌, length, take};
ghost use Rattle.px_memsite.specs.Events.{reached};
ghost use Rattle.px_memsite.specs.Moments.{moment_at};

use crate::event::Event;

/// How many events the files have seen at a moment: a change from the moment within it on, and a sync
/// from the one after it on.
pub fn events_seen(history: &[Event], moment: u64) -> usize
    requires { moment ≤ length (reached history.now).past }
    ensures bound { result ≤ length history.now }
    ensures files { (moment_at moment (reached history.now)).files ≡ (reached (take result history.now)).now.files }
{
    let mut left = moment;
    for (i, event) in history.iter().enumerate() {
        let moments = event.moments();
        // The moment is before this event, or within it.
        if left < moments {
            return if left == 1 && event.is_change() {
                i + 1
            } else {
                i
            };
        }
        left -= moments;
    }
    history.len()
}
