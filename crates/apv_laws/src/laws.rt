//! Laws of judging components, frames, access units and files. Each is the contract of a function that does nothing.
ghost use Rattle.std.specs.Prelude.{◌≡◌, ℕ, Bool, List};
ghost use Rattle.apv_base.specs.declared.exits.Exit.{Exit};
ghost use Rattle.apv_base.specs.laws.Answer.{HasOneAnswer, HasSomeAnswer};
ghost use Rattle.apv_base.specs.laws.Judge.{ComponentsHaveOne, ComponentsHaveSome, AreValidUnitBytes};
ghost use Rattle.apv_base.specs.laws.Run.{HasOneRun, HasSomeRun};
ghost use Rattle.apv_base.specs.model.Bits.{AreBytes};
ghost use Rattle.apv_base.specs.model.CodedFrame.{CodedFrame, HasFrame, Levels, HasLevels};
ghost use Rattle.apv_base.specs.model.Encode.{Qps, frame_with, frame_body};
ghost use Rattle.apv_base.specs.declared.header.FrameHeader.{FrameHeader};
ghost use Rattle.apv_base.specs.model.Judge.{DecodedUnit, ContentBreaks, UnitBreaks};
ghost use Rattle.apv_base.specs.model.Output.{OutputSettings, by_content, DecodesTo, dec_out, dec_payloads};
ghost use Rattle.apv_base.specs.laws.Answer.{HasExactlyOne};
ghost use Rattle.apv_laws.specs.Decoding.{HasDecoding};
ghost use Rattle.apv_base.specs.model.Header.{IsSoundHeader};
ghost use Rattle.apv_laws.specs.Fits.{Fits, ArePermittedQps, AreLevelsFor};

/// The bytes of a component are n blocks in one way, or break one rule, and one of the two, not both.
pub fn component()
    ensures once { ComponentsHaveOne }
    ensures some { ComponentsHaveSome }
{}

/// The content of a frame is levels in one way, or breaks one rule first, in one component of one tile, and one of the
/// two, not both.
pub fn content()
    ensures once { (frame : CodedFrame) → HasOneAnswer (HasLevels frame) (ContentBreaks frame) }
    ensures some { (frame : CodedFrame) → HasSomeAnswer (HasLevels frame) (ContentBreaks frame) }
{}

/// An access unit is valid, with its PBUs and its frames, in one way, or it breaks one rule first, at one place, or
/// doesn't keep the limit on frames, and one of the two where it is bytes, not both; judged strictly or not.
pub fn unit()
    ensures once { (strict : Bool) (n : ℕ) (bytes : List ℕ)
        → HasOneAnswer (AreValidUnitBytes strict bytes) (UnitBreaks strict n bytes) }
    ensures some { (strict : Bool) (n : ℕ) (bytes : List ℕ) → AreBytes bytes
        → HasSomeAnswer (AreValidUnitBytes strict bytes) (UnitBreaks strict n bytes) }
{}

/// For any settings a file decodes to one list of units at most, which is the longest at its start, and one answer; so
/// it has one picture output and one payload output. A file of bytes decodes to one.
pub fn runs()
    ensures one { (settings : OutputSettings) (file : List ℕ)
        → HasOneRun (by_content settings) file }
    ensures some { (settings : OutputSettings) (file : List ℕ) → AreBytes file
        → HasSomeRun (by_content settings) file }
    ensures output { (settings : OutputSettings) (file : List ℕ)
        (units others : List DecodedUnit) (exit other : Exit)
        → DecodesTo settings file units exit → DecodesTo settings file others other
        → dec_out settings units ≡ dec_out settings others }
    ensures payloads { (settings : OutputSettings) (file : List ℕ)
        (units others : List DecodedUnit) (exit other : Exit)
        → DecodesTo settings file units exit → DecodesTo settings file others other
        → dec_payloads settings units ≡ dec_payloads settings others }
{}

/// A file of bytes has, for any settings, exactly one decoding: its units, where the decoder stops, and the bytes of
/// the picture output and of the payload output.
pub fn decodings()
    ensures { (settings : OutputSettings) (file : List ℕ) → AreBytes file
        → HasExactlyOne (HasDecoding settings file) }
{}

/// A coded frame that fits is read back from its bytes. The frame that an encoder makes of levels has these levels.
pub fn spelled_frame()
    ensures frame { (frame : CodedFrame) → Fits frame → HasFrame (frame_body frame) frame }
    ensures levels { (header : FrameHeader) (qps : Qps) (levels : Levels)
        → AreLevelsFor header levels → HasLevels (frame_with header qps levels) levels }
{}

/// The frame that an encoder makes of levels fits where its header breaks no rule and each QP is at most the maximum of
/// the bit depth: the size of each tile has four bytes. So the frame is read back from its bytes.
pub fn encoded_frame()
    ensures fits { (header : FrameHeader) (qps : Qps) (levels : Levels) → IsSoundHeader header
        → ArePermittedQps header qps → AreLevelsFor header levels
        → Fits (frame_with header qps levels) }
    ensures frame { (header : FrameHeader) (qps : Qps) (levels : Levels) → IsSoundHeader header
        → ArePermittedQps header qps → AreLevelsFor header levels
        → HasFrame (frame_body (frame_with header qps levels)) (frame_with header qps levels) }
{}
