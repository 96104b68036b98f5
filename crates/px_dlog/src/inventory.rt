// Which data logs there are, with their lengths.
ghost use Rattle.std.specs.Prelude.{◌≡◌, ◌+◌, ◌^◌, ℕ, ◌<◌, ◌≤◌, None, length, take, drop, IfSome, IfNone, OnOk};
ghost use Rattle.std.specs.List.{AllByRecursion};
ghost use Rattle.px_dlog.specs.Inventory.{HasNoneFrom, HasRoom, IsFirstFrom, IsSound, Rise, closed_len, kept_of, logs_of};
ghost use Rattle.px_dlog.specs.Logs.{HasNonePast, IsClosed, IsEnd, IsGrown, IsLogPast, IsPast, IsWithout, all_synced, extent_of, full_at, part_log, to_close, to_sync};

use std::alloc::AllocError;

/// A data log of so many bytes takes no part any more.
pub const LOG_SIZE: u64 = 1_048_576;

/// A log that takes no part any more. Each of its parts is synced.
#[derive(Clone, Copy, Debug, PartialEq, Eq)]
pub(crate) struct ClosedLog {
    pub(crate) number: u32,
    pub(crate) len: u64,
}

/// The log that parts are appended to.
#[derive(Clone, Copy, Debug, PartialEq, Eq)]
pub(crate) struct CurrentLog {
    pub(crate) number: u32,
    pub(crate) len: u64,
    /// It may have a part that isn't synced.
    pub(crate) unsynced: bool,
}

/// The data logs that there are, and the number of the one that is begun next.
#[derive(Debug, Drop)]
pub(crate) struct Inventory {
    /// In the order of their numbers, which come before that of the current one.
    pub(crate) closed: Vec<ClosedLog>,
    pub(crate) current: Option<CurrentLog>,
    /// From 1 to 2^32, which no log has.
    pub(crate) next: u64,
}

/// Where a part goes: the end of a log.
#[derive(Clone, Copy)]
pub(crate) struct End {
    pub(crate) log: u32,
    pub(crate) place: u32,
}

impl Inventory {
    /// These logs, and no current one. The next number is past each of theirs and past this one.
    pub(crate) fn of_closed(closed: Vec<ClosedLog>, named: u32) -> Inventory
        requires { Rise 1 (2 ^ 32) closed.items }
        ensures closed { result.closed.items ≡ closed.items }
        ensures current { result.current ≡ None }
        ensures past { IsPast named (logs_of (kept_of result)) }
        ensures sound { IsSound (kept_of result) }
    {
        let greatest = match closed.last().copied() {
            Some(log) => log.number,
            None => 0,
        };
        Inventory {
            closed,
            current: None,
            next: u64::from(greatest.max(named)) + 1,
        }
    }

    /// The current log, where it takes one more part.
    fn growing(&self) -> Option<CurrentLog>
        ensures some { IfSome result (λ log. (self.now.current ≡ Some log) × (log.len < LOG_SIZE)) }
        ensures none { IfNone result (part_log (logs_of (kept_of self.now)) ≡ self.now.next) }
    {
        match self.current {
            Some(log) if log.len < LOG_SIZE => Some(log),
            _ => None,
        }
    }

    /// Where the next part goes. None where its log would have the number 2^32.
    pub(crate) fn end(&self) -> Option<End>
        requires { IsSound (kept_of self.now) }
        ensures log { IfSome result (λ end. end.log ≡ part_log (logs_of (kept_of self.now))) }
        ensures from_one { IfSome result (λ end. 1 ≤ end.log) }
        ensures place { IfSome result (λ end. end.place ≡ (logs_of (kept_of self.now)).len end.log) }
        ensures small { IfSome result (λ end. end.place < LOG_SIZE) }
        ensures fresh { IfSome result (λ end. end.place ≡ 0 → end.log ≡ self.now.next) }
        ensures current { IfSome result (λ end. 1 ≤ end.place → (logs_of (kept_of self.now)).current ≡ Some end.log) }
        ensures none { IfNone result (full_at (logs_of (kept_of self.now)) ≡ Some self.now.next) }
        ensures not_full { IfSome result (λ end. full_at (logs_of (kept_of self.now)) ≡ None) }
    {
        if let Some(current) = self.growing() {
            return Some(End {
                log: current.number,
                place: current.len as u32,
            });
        }
        match u32::try_from(self.next) {
            Ok(log) => Some(End { log, place: 0 }),
            Err(_) => None,
        }
    }

    /// Takes the memory in which the current log is kept once it is closed.
    pub(crate) fn reserve(&mut self) -> Result<(), AllocError>
        ensures room { OnOk result (HasRoom self.new) }
        ensures same { kept_of self.new ≡ kept_of self.old }
    {
        self.closed.reserve(1)
    }

    /// The log that is to be synced before a part goes to this end.
    pub(crate) fn to_close(&self, end: End) -> Option<u32>
        ensures { result ≡ to_close (logs_of (kept_of self.now)) end.place }
    {
        if end.place == 0 {
            self.unsynced()
        } else {
            None
        }
    }

    /// A part of this size was appended there. It takes no memory.
    pub(crate) fn extend(&mut self, end: End, size: u32)
        requires sound { IsSound (kept_of self.old) }
        requires room { HasRoom self.old }
        requires end { IsEnd (logs_of (kept_of self.old)) end.log end.place }
        requires size { 1 ≤ size }
        ensures logs { IsGrown end.log size (logs_of (kept_of self.old)) (logs_of (kept_of self.new)) }
        ensures sound { IsSound (kept_of self.new) }
    {
        if end.place == 0 {
            self.close();
        }
        self.current = Some(CurrentLog {
            number: end.log,
            len: u64::from(end.place) + u64::from(size),
            unsynced: true,
        });
        self.next = self.next.max(u64::from(end.log) + 1);
    }

    fn close(&mut self)
        requires sound { IsSound (kept_of self.old) }
        requires room { HasRoom self.old }
        ensures len { (n : ℕ) → closed_len self.new.closed.items n ≡ (logs_of (kept_of self.old)).len n }
        ensures order { Rise 1 self.new.next self.new.closed.items }
        ensures next { self.new.next ≡ self.old.next }
    {
        if let Some(log) = self.current {
            self.closed
                .push(ClosedLog {
                    number: log.number,
                    len: log.len,
                })
                .unwrap();
            self.current = None;
        }
    }

    /// Each part was synced.
    pub(crate) fn set_synced(&mut self)
        ensures logs { logs_of (kept_of self.new) ≡ all_synced (logs_of (kept_of self.old)) }
        ensures sound { IsSound (kept_of self.old) → IsSound (kept_of self.new) }
    {
        if let Some(current) = &mut self.current {
            current.unsynced = false;
        }
    }

    /// The log that may have a part that isn't synced.
    pub(crate) fn unsynced(&self) -> Option<u32>
        ensures { result ≡ to_sync (logs_of (kept_of self.now)) }
    {
        match self.current {
            Some(log) if log.unsynced => Some(log.number),
            _ => None,
        }
    }

    /// How many closed logs come before this number.
    fn count_before(&self, number: u64) -> usize
        requires { IsSound (kept_of self.now) }
        ensures bound { result ≤ length self.now.closed.items }
        ensures before { AllByRecursion (λ log. log.number < number) (take result self.now.closed.items) }
        ensures not_before { AllByRecursion (λ log. number ≤ log.number) (drop result self.now.closed.items) }
    {
        self.closed
            .partition_point(|log| u64::from(log.number) < number)
    }

    /// The first closed log with this number or a later one.
    fn closed_from(&self, number: u64) -> Option<ClosedLog>
        requires { IsSound (kept_of self.now) }
        ensures first { IfSome result (IsFirstFrom number self.now.closed.items) }
        ensures none { IfNone result (HasNoneFrom number self.now.closed.items) }
    {
        self.closed.get(self.count_before(number)).copied()
    }

    /// The next log past this number.
    pub(crate) fn next_log(&self, after: u32) -> Option<u32>
        requires { IsSound (kept_of self.now) }
        ensures next { IfSome result (IsLogPast after (logs_of (kept_of self.now))) }
        ensures none { IfNone result (HasNonePast after (logs_of (kept_of self.now))) }
    {
        if let Some(log) = self.closed_from(u64::from(after) + 1) {
            return Some(log.number);
        }
        match self.current {
            Some(log) if after < log.number => Some(log.number),
            _ => None,
        }
    }

    /// The bytes of a log, and whether it is closed.
    pub(crate) fn extent(&self, number: u32) -> Option<(u64, bool)>
        requires { IsSound (kept_of self.now) }
        ensures { result ≡ extent_of (logs_of (kept_of self.now)) number }
    {
        match self.current {
            Some(log) if log.number == number => return Some((log.len, false)),
            _ => {}
        }
        match self.closed_from(u64::from(number)) {
            Some(log) if log.number == number => Some((log.len, true)),
            _ => None,
        }
    }

    /// A closed log was removed. It takes no memory.
    pub(crate) fn remove(&mut self, number: u32)
        requires sound { IsSound (kept_of self.old) }
        requires closed { IsClosed (logs_of (kept_of self.old)) number }
        ensures logs { IsWithout number (logs_of (kept_of self.old)) (logs_of (kept_of self.new)) }
        ensures sound { IsSound (kept_of self.new) }
    {
        let at = self.count_before(u64::from(number));
        let _ = self.closed.remove(at);
    }
}
