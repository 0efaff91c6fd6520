//! Laws of the definitions. Each is the contract of a function that does nothing, or names a law of `apv_quant` that it
//! rests on.
ghost use Rattle.std.specs.Prelude.{◌≡◌, ℕ, ℤ, ◌≤◌, Bool, true, List, length};
ghost use Rattle.apv_base.specs.declared.format.Format.{Format};
ghost use Rattle.apv_base.specs.declared.header.FrameHeader.{FrameHeader};
ghost use Rattle.apv_base.specs.laws.Answer.{HasOneAnswer, HasSomeAnswer};
ghost use Rattle.apv_base.specs.model.Encode.{Qps};
ghost use Rattle.apv_base.specs.model.Header.{IsSoundHeader};
ghost use Rattle.apv_base.specs.model.Judge.{DecodedUnit};
ghost use Rattle.apv_base.specs.model.Nearest.{AreLevelsOf};
ghost use Rattle.apv_base.specs.model.Output.{OutputSettings};
ghost use Rattle.apv_base.specs.model.Payload.{Payload, ArePayloads};
ghost use Rattle.apv_base.specs.model.Picture.{Samples};
ghost use Rattle.apv_base.specs.model.Run.{MAX_UNIT, MAX_UNITS};
ghost use Rattle.apv_base.specs.laws.Answer.{HasExactlyOne};
ghost use Rattle.apv_encoding.specs.AccessUnit.{Pictures, EncodedUnit, IsUnitOf};
ghost use Rattle.apv_encoding.specs.Answer.{Inputs};
ghost use Rattle.apv_encoding.specs.DecodedUnit.{IsDecodedAs};
ghost use Rattle.apv_encoding.specs.DecodedUnit.{DecodesToReconstruction};
ghost use Rattle.apv_encoding.specs.Generated.{generated};
ghost use Rattle.apv_encoding.specs.Laws.{HaveSoundHeaders, IsUnitAt, HasPermittedQp, IsChosenUnit, IsTooLarge};
ghost use Rattle.apv_encoding.specs.Laws.{AreTracks, AreByteContents, FollowsFrame, Ending, HasEnding};
ghost use Rattle.apv_encoding.specs.Laws.{AreSoundSettings, IsSoundRate, FormatsPass};
ghost use Rattle.apv_encoding.specs.Laws.{Encoding, HasEncoding};
ghost use Rattle.apv_encoding.specs.Settings.{EncoderSettings, Source, Track};
ghost use Rattle.apv_encoding.specs.Settings.{tracks_of};
ghost use Rattle.apv_encoding.specs.Tracks.{Contents, FramesStop};

use apv_quant::one_nearest;

/// Worked numbers of the generated video.
pub fn generated_samples()
    ensures first { generated 7 0 0 0 0 ≡ 259 }
    ensures small { generated 0 1 2 3 4 ≡ 320 }
    ensures great { generated 4294967295 0 0 0 0 ≡ 987 }
    ensures last { generated 0 2 7 319 359 ≡ 237 }
{}

/// A picture has exactly one list of levels nearest to its coefficients, for a header that breaks no rule and any QPs.
#[tactic(auto, using(crate::proofs::LevelsLemmas::one_levels))]
pub fn levels()
    ensures { (header : FrameHeader) (qps : Qps) (samples : Samples) → IsSoundHeader header
        → HasExactlyOne (AreLevelsOf header qps samples) }
{
    one_nearest();
}

/// Pictures have exactly one access unit at each QP, where the headers of the tracks break no rule.
#[tactic(auto, using(crate::proofs::UnitLemmas::one_unit))]
pub fn unit()
    ensures { (settings : EncoderSettings) (tracks : List Track) (payloads : List ℕ)
        (pictures : Pictures) (q : ℕ) → HaveSoundHeaders tracks
        → HasExactlyOne (IsUnitAt settings tracks payloads pictures q) }
{
    one_nearest();
}

/// Pictures have one access unit at the QP that is chosen, or their access units are too large with one least size,
/// and not both; and one of the two, where a QP is permitted.
pub fn chosen()
    ensures once { (settings : EncoderSettings) (depth : ℕ) (tracks : List Track)
        (payloads : List ℕ) (pictures : Pictures) → HaveSoundHeaders tracks
        → HasOneAnswer (IsChosenUnit settings depth tracks payloads pictures)
        (IsTooLarge settings depth tracks payloads pictures) }
    ensures some { (settings : EncoderSettings) (depth : ℕ) (tracks : List Track)
        (payloads : List ℕ) (pictures : Pictures) → HaveSoundHeaders tracks
        → HasPermittedQp settings.rate depth
        → HasSomeAnswer (IsChosenUnit settings depth tracks payloads pictures)
        (IsTooLarge settings depth tracks payloads pictures) }
{
    one_nearest();
}

/// The tracks of sound settings are those of an encoder where the formats pass: that of `Input` is the first, no two
/// have the same slot, and their headers break no rule.
pub fn tracks()
    ensures { (settings : EncoderSettings) (format : Format) (tile_offset : ℕ → ℤ)
        → AreSoundSettings settings → FormatsPass settings format
        → AreTracks (tracks_of settings format tile_offset) }
{}

/// After n frames a further frame follows, or the frames stop for one reason, and not both; and one of the two, where
/// at most the maximum number of frames were taken and bytes are left.
pub fn next_frame()
    ensures once { (source : Source) (tracks : List Track) (n : ℕ) (left : Contents)
        → AreTracks tracks
        → HasOneAnswer (λ (follows : Unit {0}). FollowsFrame source tracks n left)
        (FramesStop source tracks n left) }
    ensures some { (source : Source) (tracks : List Track) (n : ℕ) (left : Contents)
        → AreTracks tracks → n ≤ MAX_UNITS → AreByteContents left
        → HasSomeAnswer (λ (follows : Unit {0}). FollowsFrame source tracks n left)
        (FramesStop source tracks n left) }
{}

/// The frames of slots end in one way at most: after one number of frames, and for one reason. Those of bytes end.
pub fn ending()
    ensures one { (source : Source) (tracks : List Track) (left : Contents) → AreTracks tracks
        → (a b : Ending) → HasEnding source tracks left a → HasEnding source tracks left b
        → a ≡ b }
    ensures some { (source : Source) (tracks : List Track) (left : Contents) → AreTracks tracks
        → AreByteContents left → (ending : Ending) × HasEnding source tracks left ending }
{}

/// An encoder with sound settings makes one thing at most of its inputs: its access units, the bytes of both outputs
/// and its answer. Of bytes, where the rate is sound too, it makes one.
pub fn answer()
    ensures once { (settings : EncoderSettings) (inputs : Inputs) → AreSoundSettings settings
        → (a b : Encoding) → HasEncoding settings inputs a → HasEncoding settings inputs b
        → a ≡ b }
    ensures some { (settings : EncoderSettings) (inputs : Inputs) → AreSoundSettings settings
        → IsSoundRate settings.rate → AreByteContents inputs.contents
        → (encoding : Encoding) × HasEncoding settings inputs encoding }
{
    one_nearest();
}

/// The access unit of pictures, with whole payloads and within the limit L1, is valid, judged strictly or not: its frames
/// are those of the levels of the tracks, and its metadata has the payloads.
pub fn valid_unit()
    ensures { (settings : EncoderSettings) (format : Format) (tile_offset : ℕ → ℤ)
        (bytes : List ℕ) (payloads : List Payload) (pictures : Pictures) (unit : EncodedUnit)
        (strict : Bool) → AreSoundSettings settings → FormatsPass settings format
        → ArePayloads bytes payloads
        → IsUnitOf settings (tracks_of settings format tile_offset) bytes pictures unit
        → length unit.bytes ≤ MAX_UNIT → (decoded : DecodedUnit)
        × IsDecodedAs (tracks_of settings format tile_offset) payloads strict unit decoded }
{}

/// What an encoder has written is a whole file, whatever the answer: a decoder reads it to its end, and makes of it the
/// frames of all tracks, of which the primary ones are the reconstruction, and the payloads.
pub fn written_decodes()
    ensures { (settings : EncoderSettings) (inputs : Inputs) (encoding : Encoding)
        (decoder : OutputSettings) → AreSoundSettings settings
        → settings.output ≡ true → HasEncoding settings inputs encoding
        → DecodesToReconstruction settings inputs encoding decoder }
{}
