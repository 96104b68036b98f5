ghost use Rattle.std.specs.Prelude.{◌≡◌, ◌+◌, ◌++◌, ℕ, List, length};
ghost use Rattle.px_frame.specs.Frame.{FrameAt};
ghost use Rattle.px_scan.specs.Scan.{frames_of, frames, CanFrames};

/// Frames that were written one after the other are scanned again, whatever follows.
pub fn frames_are_scanned_again()
    ensures { (number : ℕ) (payloads : List (List ℕ)) (rest : List ℕ) → CanFrames number payloads
        → frames_of (frames number payloads ++ rest) number ≡ payloads ++ frames_of rest (number + length payloads) }
{}

/// What is scanned stands at the front, and no frame checks behind it.
pub fn scan_is_longest()
    ensures { (bytes : List ℕ) (number : ℕ) → (rest : List ℕ)
        × (bytes ≡ frames number (frames_of bytes number) ++ rest)
        × CanFrames number (frames_of bytes number)
        × ((payload : List ℕ) → ¬ FrameAt rest (number + length (frames_of bytes number)) payload) }
{}
