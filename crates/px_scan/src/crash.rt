ghost use Rattle.std.specs.Prelude.{◌≡◌, ◌+◌, ◌≤◌, ◌++◌, ◌∷◌, [], ℕ, List, length, take, drop};
ghost use Rattle.px_frame.specs.Frame.{frame, FrameAt};
ghost use Rattle.px_scan.specs.Scan.{frames_of, frames, CanFrames};
ghost use Rattle.px_scan.specs.Crash.{appends, overlay, IsPlainSince};
ghost use Rattle.px_scan.specs.Segments.{scan_segments, segments, AreFull, all_of};

/// A log holds the frames of `payloads`, of which the first `durable` were synced and the others appended
/// since. Whatever a crash leaves behind the synced bytes, the scan finds all the synced frames and some
/// first part of the others, in order.
pub fn appended_frames_survive_in_order()
    ensures { (number durable : ℕ) (payloads : List (List ℕ)) (image behind : List ℕ)
        → CanFrames number payloads → durable ≤ length payloads
        → let synced = frames number (take durable payloads) in
        image ≡ synced ++ behind
        → IsPlainSince image synced (appends (length synced) (number + durable) (drop durable payloads)) number
        → (kept : ℕ) × (durable ≤ kept) × (kept ≤ length payloads) × (frames_of image number ≡ take kept payloads) }
{}

/// The same of a log in segments: the full ones were synced before the last was begun, so the scan goes
/// through them and on into what a crash leaves of the last.
pub fn segments_survive_in_order()
    ensures { (first durable : ℕ) (full : List (List (List ℕ))) (payloads : List (List ℕ)) (image behind : List ℕ)
        → AreFull first full
        → let number = first + length (all_of full) in
        CanFrames number payloads → durable ≤ length payloads
        → let synced = frames number (take durable payloads) in
        image ≡ synced ++ behind
        → IsPlainSince image synced (appends (length synced) (number + durable) (drop durable payloads)) number
        → (kept : ℕ) × (durable ≤ kept) × (kept ≤ length payloads)
        × (scan_segments (segments first full ++ image ∷ []) first ≡ all_of full ++ take kept payloads) }
{}

/// Recovery cuts a log where its scan stops. Until that is synced a crash may bring any tail back, and the
/// scan stops there all the same.
pub fn cut_tail_stays_away()
    ensures { (number : ℕ) (payloads : List (List ℕ)) (tail image behind : List ℕ)
        → CanFrames number payloads
        → ((payload : List ℕ) → ¬ FrameAt tail (number + length payloads) payload)
        → image ≡ frames number payloads ++ behind
        → IsPlainSince image (frames number payloads ++ tail) [] number
        → frames_of image number ≡ payloads }
{}

/// Why a cut is synced before anything is written behind it: the tail may be torn in its first frame alone
/// and have a whole frame `c` behind it. Where a frame `b` of the torn one's size is written over the torn
/// one before the cut is synced, a crash may leave `b` with the old `c` behind it, and the scan finds both.
pub fn unsynced_cut_brings_a_frame_back()
    ensures { (number : ℕ) (a b c torn : List ℕ)
        → CanFrames number (a ∷ b ∷ c ∷ []) → length torn ≡ length (frame (number + 1) b)
        → let synced = frame number a ++ (torn ++ frame (number + 1 + 1) c) in
        let write : ℕ × List ℕ = (length (frame number a), frame (number + 1) b) in
        let image = overlay synced write in
        IsPlainSince image synced (write ∷ []) number × (frames_of image number ≡ a ∷ b ∷ c ∷ []) }
{}
