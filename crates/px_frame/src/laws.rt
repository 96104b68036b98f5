ghost use Rattle.std.specs.Prelude.{◌≡◌, ◌↔◌, ◌++◌, ℕ, List, Some};
ghost use Rattle.px_frame.specs.Frame.{CanFrame, FrameAt, frame, payload_at};

/// What was written is read again as the same payload, whatever follows it.
pub fn written_is_read()
    ensures { (number : ℕ) (payload rest : List ℕ) → CanFrame number payload
        → FrameAt (frame number payload ++ rest) number payload }
{}

/// Nothing else is read as that payload with that number.
pub fn read_is_written()
    ensures { (bytes : List ℕ) (number : ℕ) (payload : List ℕ) → FrameAt bytes number payload
        → (rest : List ℕ) × (bytes ≡ frame number payload ++ rest) }
{}

/// Bytes are read in one way: at their front stands one number with one payload at most.
pub fn one_reading()
    ensures { (bytes : List ℕ) (m n : ℕ) (p q : List ℕ) → FrameAt bytes m p → FrameAt bytes n q
        → (m ≡ n) × (p ≡ q) }
{}

/// The test that computes says where a frame checks.
pub fn test_is_exact()
    ensures { (bytes : List ℕ) (number : ℕ) (payload : List ℕ)
        → (payload_at bytes number ≡ Some payload) ↔ FrameAt bytes number payload }
{}
