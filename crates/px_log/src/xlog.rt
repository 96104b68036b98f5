ghost use Rattle.std.specs.Prelude.{◌≡◌, ℕ, ◌*◌, ◌^◌, ◌≤◌, true, List, [], ◌∷◌, ◌++◌, Some, IfOk, IfErr, IsErrOf, OnOk, OnErr};
ghost use Rattle.px_change.specs.Grammar.{may_hold};
ghost use Rattle.px_change.specs.declared.change.Change.{Change};
ghost use Rattle.px_site.specs.Cause.{HasCause, IsOwn, NoneFell, Rose};
ghost use Rattle.px_site.specs.State.{EachMoment, OnFile, OnShort};
ghost use Rattle.px_log.specs.Errors.{HasLogCause, IsFaultOf, LeavesUntouched, OnShortage};
ghost use Rattle.px_log.specs.Log.{HasFirst, IsLogOf, full_at, with_frame};
ghost use Rattle.px_log.specs.Touching.{TouchesLog};
ghost use Rattle.px_log.specs.Window.{longest_frame};
ghost use Rattle.px_xlog.specs.Contents.{the_log};

use crate::LogError;
use crate::frame_buffer::FrameBuffer;
use crate::place::{FIRST_NUMBER, MOST_FRAMES, ONLY_SEGMENT, log_file};
use px_change::Payload;
use px_restart::Restart;
use px_site::{Fault, Site, SiteError};
use std::alloc::Global;
use std::marker::Model;

/// The transaction log, to which frames are appended. Contracts see it as its counts; `IsLogOf` says which changes it
/// has on a site. Its owner gives it up after a fault of the site.
#[derive(Debug, Drop)]
pub struct Xlog {
    tables: u32,
    short: u32,
    frames: u64,
    durable: u64,
    size: u64,
    buffer: FrameBuffer,
}

impl Model for Xlog {
    ghost use Rattle.std.specs.Prelude.{◌*◌, ◌^◌, ◌≤◌};
    ghost use Rattle.px_log.specs.Log.{Log};
    ghost use Rattle.px_log.specs.Window.{longest_frame};

    ghost Value = { Log };

    ghost view = { λ x. record { tables = x.tables; short = x.short; frames = x.frames; durable = x.durable; size = x.size } };

    // No frame is longer, so the next one's place fits; and no frame has a greater number.
    ghost invariant = { λ x. (x.size ≤ longest_frame * x.frames) × (x.frames ≤ 2 ^ 48) };
}

impl Xlog {
    /// The log of this restart's store, which was read from its file, all of it durable.
    pub(crate) fn recovered(alloc: Global, restart: &Restart, frames: u64, size: u64) -> Xlog
        requires sized { size ≤ longest_frame * frames }
        requires numbered { frames ≤ 2 ^ 48 }
        ensures { result ≡ record { tables = restart.now.tables; short = restart.now.short; frames = frames; durable = frames; size = size } }
    {
        Xlog {
            tables: restart.tables,
            short: restart.short,
            frames,
            durable: frames,
            size,
            buffer: FrameBuffer::new(alloc),
        }
    }

    /// Appends a frame of the payload, and answers its number. LogFull where the log takes no frame of that number;
    /// OutOfMemory where the site wants memory or, for a change with cells alone, the call itself does. Both leave the
    /// site as it was; a fault may not.
    pub fn append<W: Site, P: Payload>(
        &mut self,
        site: &mut W,
        payload: &P,
    ) -> Result<u64, LogError>
        requires { may_hold self.old.tables self.old.frames self.old.short (P.change payload.now) ≡ true }
        ensures number { IfOk result (λ number. number ≡ self.old.frames) }
        ensures marks { OnOk result (self.new ≡ with_frame (P.change payload.now) self.old) }
        ensures as_before { OnErr result (self.new ≡ self.old) }
        ensures logged { W.tells → (changes : List Change) → IsLogOf self.old changes (W.state site.old)
            → OnOk result (IsLogOf self.new (changes ++ P.change payload.now ∷ []) (W.state site.new)) }
        ensures untouched { W.tells → IfErr result (LeavesUntouched (W.state site.old) (W.state site.new)) }
        ensures moments { W.tells → (changes : List Change) → IsLogOf self.old changes (W.state site.old)
            → EachMoment (OnFile the_log (W.state site.old).now (HasFirst self.old.durable (changes ++ P.change payload.now ∷ []))) (W.state site.old) (W.state site.new) }
        ensures touches { W.tells → TouchesLog 1 (W.state site.old) (W.state site.new) }
        ensures full { full_at self.old ≡ Some self.old.frames → IsErrOf result (LogError.LogFull self.old.frames) }
        ensures room { (P.change payload.now).cells ≡ []
            → IfErr result (λ error. OnShortage error (Rose (W.counts site.old).shorts (W.counts site.new).shorts)) }
        ensures none_fell { NoneFell (W.counts site.old) (W.counts site.new) }
        ensures cause { IfErr result (HasLogCause self.old (W.counts site.old) (W.counts site.new)) }
        ensures own { IfErr result (IsFaultOf Fault.Write) }
    {
        let number = self.frames;
        if number >= MOST_FRAMES {
            return Err(LogError::LogFull(number));
        }
        self.buffer.fill(number, payload, self.short)?;
        let frame = self.buffer.as_slice();
        site.write_at(log_file(), self.size, frame)?;
        self.size += frame.len() as u64;
        self.frames = number + 1;
        Ok(number)
    }

    /// Makes each frame durable. Where each is, nothing is done. OutOfMemory where the site wants memory, which leaves it
    /// as it was; a fault may not.
    pub fn flush<W: Site>(&mut self, site: &mut W) -> Result<(), SiteError>
        ensures marks { OnOk result (self.new ≡ record self.old { durable = self.old.frames }) }
        ensures as_before { OnErr result (self.new ≡ self.old) }
        ensures logged { W.tells → (changes : List Change) → IsLogOf self.old changes (W.state site.old)
            → OnOk result (IsLogOf self.new changes (W.state site.new)) }
        ensures idle { W.tells → self.old.durable ≡ self.old.frames → W.state site.new ≡ W.state site.old }
        ensures untouched { W.tells → OnShort result (W.state site.new ≡ W.state site.old) }
        ensures moments { W.tells → (changes : List Change) → IsLogOf self.old changes (W.state site.old)
            → EachMoment (OnFile the_log (W.state site.old).now (HasFirst self.old.durable changes)) (W.state site.old) (W.state site.new) }
        ensures touches { W.tells → TouchesLog 1 (W.state site.old) (W.state site.new) }
        ensures none_fell { NoneFell (W.counts site.old) (W.counts site.new) }
        ensures cause { IfErr result (HasCause (W.counts site.old) (W.counts site.new)) }
        ensures own { IfErr result (IsOwn Fault.Sync) }
    {
        if self.durable == self.frames {
            return Ok(());
        }
        let file = log_file();
        site.sync(file)?;
        self.durable = self.frames;
        Ok(())
    }

    /// How many frames the log has: the next one's number.
    pub fn frames(&self) -> u64
        ensures { result ≡ self.now.frames }
    {
        self.frames
    }

    /// How many of them are durable.
    pub fn durable(&self) -> u64
        ensures { result ≡ self.now.durable }
    {
        self.durable
    }

    /// The segment of a frame, and that segment's first number.
    pub fn segment_of(&self, number: u64) -> (u32, u64)
        requires { number ≤ self.now.frames }
        ensures { result ≡ (1, 0) }
    {
        let _number = number;
        (ONLY_SEGMENT, FIRST_NUMBER)
    }

    /// The number with which the next append answers LogFull. None exactly where it doesn't.
    pub fn full(&self) -> Option<u64>
        ensures { result ≡ full_at self.now }
    {
        if self.frames < MOST_FRAMES {
            None
        } else {
            Some(self.frames)
        }
    }
}
