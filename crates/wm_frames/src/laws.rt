//! Laws of frames and of the one reading of bytes.
ghost use Rattle.std.specs.Prelude.{◌≡◌, ◌++◌, List, ℕ, Some, None, length};
ghost use Rattle.std.specs.List.{flat_map, AllByRecursion};
ghost use Rattle.wm_frames.specs.Frame.{frame, IsFramed, IsShort};
ghost use Rattle.wm_frames.specs.Reading.{messages, tail, ending, rest, AreBytes, Splits};
ghost use Rattle.wm_frames.specs.Decoding.{fault_of};
ghost use Rattle.wm_frames.specs.declared.message.Message.{Message};
ghost use Rattle.wm_frames.specs.declared.message.FrameFault.{FrameFault};

/// Bytes are the frames of their messages, one after another, and then bytes that begin with no frame. No
/// other messages and no other tail are so. Without a fault the tail is the rest.
pub fn one_reading()
    ensures splits { (bytes : List ℕ) → AreBytes bytes → Splits bytes (messages bytes) (tail bytes) }
    ensures only { (bytes after : List ℕ) → (given : List Message) → AreBytes bytes → Splits bytes given after
        → (messages bytes ≡ given) × (tail bytes ≡ after) }
    ensures rest { (bytes : List ℕ) → fault_of (ending bytes) ≡ None → ending bytes ≡ rest (length (tail bytes)) }
{}

/// No frame begins another.
pub fn no_frame_begins_another()
    ensures { (m n : Message) → (x y : List ℕ) → IsFramed m → IsFramed n → frame m ++ x ≡ frame n ++ y
        → (m ≡ n) × (x ≡ y) }
{}

/// Frames of payloads within the limit are read, whatever follows them.
pub fn frames_read_back()
    ensures messages { (given : List Message) → (more : List ℕ) → AllByRecursion IsShort given
        → messages (flat_map frame given ++ more) ≡ given ++ messages more }
    ensures tail { (given : List Message) → (more : List ℕ) → AllByRecursion IsShort given
        → tail (flat_map frame given ++ more) ≡ tail more }
{}

/// Bytes that come in two pieces are read as one, and a fault is for good.
pub fn pieces_are_one()
    ensures messages { (first more : List ℕ)
        → messages (first ++ more) ≡ messages first ++ messages (tail first ++ more) }
    ensures tail { (first more : List ℕ) → tail (first ++ more) ≡ tail (tail first ++ more) }
    ensures for_good { (first more : List ℕ) → (fault : FrameFault) → fault_of (ending first) ≡ Some fault
        → ending (first ++ more) ≡ ending first }
{}
