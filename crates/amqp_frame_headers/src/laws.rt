//! The laws of frames and of protocol headers. The functions do nothing; their contracts are proved.
ghost use Rattle.std.specs.Prelude.{◌≡◌, ◌+◌, ◌^◌, ◌<◌, ◌≤◌, ◌⊎◌, ◌++◌, [], ◌∷◌, ℕ, List, length};
ghost use Rattle.amqp_frame_headers.specs.declared.frame_error.FrameError.{FrameError};
ghost use Rattle.amqp_frame_headers.specs.declared.frame_header.FrameHeader.{FrameHeader};
ghost use Rattle.amqp_frame_headers.specs.declared.frame_header.FrameKind.{FrameKind};
ghost use Rattle.amqp_frame_headers.specs.declared.protocol_header.ProtocolHeader.{ProtocolHeader};
ghost use Rattle.amqp_frame_headers.specs.Frames.{BeginsWithFrame, FrameFault, NeedsMore, MayHave, frame_header_bytes, header_of_body};
ghost use Rattle.amqp_frame_headers.specs.Headers.{BeginsWithHeader, NeedsHeader, IsNoHeader, protocol_header_bytes};

use crate::ProtocolHeader;

/// An input begins with at most one frame, whatever the maximum is (Part 2, section 2.3).
pub fn one_frame()
    ensures { (max limit : ℕ) (input : List ℕ) (h k : FrameHeader) (x y b c : List ℕ)
        → BeginsWithFrame max input h x b → BeginsWithFrame limit input k y c → (h ≡ k) × (x ≡ y) × (b ≡ c) }
{}

/// The frame at the start of an input is at the start of every longer input, too. A fault of an input is one of every longer input.
pub fn longer_input()
    ensures frame { (max : ℕ) (input more : List ℕ) (h : FrameHeader) (x b : List ℕ)
        → BeginsWithFrame max input h x b → BeginsWithFrame max (input ++ more) h x b }
    ensures fault { (max : ℕ) (input more : List ℕ) (e : FrameError)
        → FrameFault max input e → FrameFault max (input ++ more) e }
{}

/// An input has one answer at most: a frame, a number of bytes that it lacks, or one fault. So the bytes and the maximum determine what
/// `next_frame` returns.
pub fn one_answer()
    ensures one_fault { (max : ℕ) (input : List ℕ) (e d : FrameError)
        → FrameFault max input e → FrameFault max input d → e ≡ d }
    ensures one_need { (max limit : ℕ) (input : List ℕ) (m n : ℕ)
        → NeedsMore max input m → NeedsMore limit input n → m ≡ n }
    ensures frame_or_fault { (max : ℕ) (input : List ℕ) (h : FrameHeader) (x b : List ℕ) (e : FrameError)
        → BeginsWithFrame max input h x b → FrameFault max input e → ⊥ }
    ensures frame_or_need { (max : ℕ) (input : List ℕ) (h : FrameHeader) (x b : List ℕ) (n : ℕ)
        → BeginsWithFrame max input h x b → NeedsMore max input n → ⊥ }
    ensures need_or_fault { (max : ℕ) (input : List ℕ) (n : ℕ) (e : FrameError)
        → NeedsMore max input n → FrameFault max input e → ⊥ }
{}

/// If an input lacks n bytes, then with fewer than n more bytes it has a fault, or lacks at least the rest of the n: exactly the rest if
/// its size was there. By `one_answer`, it has no frame then.
pub fn needs_agree()
    ensures { (max n : ℕ) (input more : List ℕ) → NeedsMore max input n → length more < n
        → ((m : ℕ) × NeedsMore max (input ++ more) m × (n ≤ length more + m) × (4 ≤ length input → n ≡ length more + m))
        ⊎ ((e : FrameError) × FrameFault max (input ++ more) e) }
{}

/// Each proper prefix of a frame lacks bytes, and no more than the rest of the frame: exactly the rest if the size is in the prefix.
pub fn prefix_needs_more()
    ensures { (max : ℕ) (input more : List ℕ) (h : FrameHeader) (x b : List ℕ)
        → BeginsWithFrame max (input ++ more) h x b → length input < h.size
        → (n : ℕ) × NeedsMore max input n × (length input + n ≤ h.size) × (4 ≤ length input → length input + n ≡ h.size) }
{}

/// The bytes of a header for a body, and then a body of that length, are read as a frame with this header, no extended header and this
/// body, if the frame has at most `max` bytes. A SASL frame must have at most 512 (Part 2, section 2.3; Part 5, section 5.3.1).
pub fn written_is_read()
    ensures { (max : ℕ) (kind : FrameKind) (body more : List ℕ)
        → max < 2 ^ 32 → 8 + length body ≤ max → MayHave kind (8 + length body)
        → BeginsWithFrame max (frame_header_bytes (header_of_body kind (length body)) ++ body ++ more)
        (header_of_body kind (length body)) [] body }
{}

/// The bytes of a protocol header are read as this header, whatever follows them (Part 2, section 2.2).
pub fn protocol_header_is_read()
    ensures { (h : ProtocolHeader) (more : List ℕ) → BeginsWithHeader (protocol_header_bytes h ++ more) h }
{}

/// An input begins with at most one protocol header (Part 2, section 2.2).
pub fn one_protocol_header()
    ensures { (input : List ℕ) (h k : ProtocolHeader) → BeginsWithHeader input h → BeginsWithHeader input k → h ≡ k }
{}

/// The protocol header at the start of an input is at the start of every longer input, too. An input that doesn't begin with `AMQP` has
/// no longer input that does.
pub fn longer_protocol_header()
    ensures header { (input more : List ℕ) (h : ProtocolHeader)
        → BeginsWithHeader input h → BeginsWithHeader (input ++ more) h }
    ensures fault { (input more : List ℕ) (e : FrameError) → IsNoHeader input e → IsNoHeader (input ++ more) e }
{}

/// An input has one answer at most: a protocol header, a number of bytes that it lacks, or an error.
pub fn one_protocol_answer()
    ensures header_or_need { (input : List ℕ) (h : ProtocolHeader) (n : ℕ)
        → BeginsWithHeader input h → NeedsHeader input n → ⊥ }
    ensures header_or_fault { (input : List ℕ) (h : ProtocolHeader) (e : FrameError)
        → BeginsWithHeader input h → IsNoHeader input e → ⊥ }
    ensures need_or_fault { (input : List ℕ) (n : ℕ) (e : FrameError) → NeedsHeader input n → IsNoHeader input e → ⊥ }
{}

/// The bytes of the three protocol headers of the standard (Part 2, section 2.2; Part 5, sections 5.2.1 and 5.3.2).
pub fn three_protocol_headers()
    ensures amqp { protocol_header_bytes ProtocolHeader.AMQP ≡ 0x41 ∷ 0x4d ∷ 0x51 ∷ 0x50 ∷ 0 ∷ 1 ∷ 0 ∷ 0 ∷ [] }
    ensures tls { protocol_header_bytes ProtocolHeader.TLS ≡ 0x41 ∷ 0x4d ∷ 0x51 ∷ 0x50 ∷ 2 ∷ 1 ∷ 0 ∷ 0 ∷ [] }
    ensures sasl { protocol_header_bytes ProtocolHeader.SASL ≡ 0x41 ∷ 0x4d ∷ 0x51 ∷ 0x50 ∷ 3 ∷ 1 ∷ 0 ∷ 0 ∷ [] }
{}
