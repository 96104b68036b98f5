ghost use Rattle.std.specs.Prelude.{◌≡◌, ◌↔◌, ◌-◌, ◌^◌, ◌≤◌, ℕ, List, [], drop, IfOk, IfErr, OnOk, IsTrue};
ghost use Rattle.px_site.specs.Cause.{NoneFell};
ghost use Rattle.px_log.specs.Errors.{IsFileFault, IsOfSite};
ghost use Rattle.px_xlog.specs.Contents.{the_log};
ghost use Rattle.px_log.specs.Window.{Covers, Sees};

use crate::LogOpenError;
use crate::place::log_file;
use px_bytes::LONGEST_PAYLOAD;
use px_frame::HEADER_SIZE;
use px_site::Site;
use std::alloc::{AllocError, Global};
use std::marker::Model;

/// The size of a frame with the longest payload.
const LONGEST_FRAME: u64 = (HEADER_SIZE + LONGEST_PAYLOAD) as u64;

/// So many bytes hold some frames of each size.
const ROOM: usize = 65_536;

/// Some bytes of the log, read into one buffer, and read anew where a frame may end behind them.
#[derive(Drop)]
pub struct Window {
    place: u64,
    buffer: Vec<u8>,
    len: usize,
    ended: bool,
}

impl Model for Window {
    ghost use Rattle.std.specs.Prelude.{◌^◌, ◌≤◌, take, vec_len};
    ghost use Rattle.px_log.specs.Window.{Seen, longest_frame};

    ghost Value = { Seen };

    ghost view = { λ w. record { place = w.place; bytes = take w.len w.buffer.items; ended = w.ended } };

    ghost invariant = { λ w. (w.len ≤ vec_len w.buffer) × (w.place ≤ 2 ^ 62) × (longest_frame ≤ vec_len w.buffer) };
}

impl Window {
    /// A window that shows nothing yet.
    pub fn new(alloc: Global) -> Result<Window, AllocError>
        ensures { IfOk result (λ window. (content : List ℕ) → Sees content window) }
    {
        let buffer = vec![in alloc; 0; ROOM]?;
        Ok(Window {
            place: 0,
            buffer,
            len: 0,
            ended: false,
        })
    }

    /// Moves the window, if need be, so that it covers the place.
    pub fn cover<W: Site>(&mut self, site: &mut W, place: u64) -> Result<(), LogOpenError>
        requires { place ≤ 2 ^ 62 }
        ensures covers { OnOk result (Covers place self.new) }
        ensures sees { W.tells → Sees ((W.state site.old).content the_log) self.old
            → OnOk result (Sees ((W.state site.old).content the_log) self.new) }
        ensures same { W.tells → W.state site.new ≡ W.state site.old }
        ensures cause { IfErr result (IsOfSite (W.counts site.old) (W.counts site.new)) }
        ensures own { IfErr result IsFileFault }
        ensures none_fell { NoneFell (W.counts site.old) (W.counts site.new) }
    {
        if self.has_covered(place) {
            return Ok(());
        }
        let len = site.read_at(log_file(), place, &mut self.buffer)?;
        self.place = place;
        self.len = len;
        self.ended = len < self.buffer.len();
        Ok(())
    }

    fn has_covered(&self, place: u64) -> bool
        requires { place ≤ 2 ^ 62 }
        ensures { IsTrue result → Covers place self.now }
    {
        let end = self.place + self.len as u64;
        self.place <= place && place <= end && (place + LONGEST_FRAME <= end || self.ended)
    }

    /// The bytes from the place on.
    pub fn from(&self, place: u64) -> &[u8]
        requires { Covers place self.now }
        ensures { result.now ≡ drop (place - self.now.place) self.now.bytes }
    {
        let start = (place - self.place) as usize;
        &self.buffer[start..self.len]
    }
}
