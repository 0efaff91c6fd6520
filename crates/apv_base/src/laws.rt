//! Laws of the definitions. Each is the contract of a function that does nothing.
ghost use Rattle.std.specs.Prelude.{◌≡◌, ℕ, List};
ghost use Rattle.apv_base.specs.declared.format.Format.{Format};
ghost use Rattle.apv_base.specs.model.CodeWord.{code_word};
ghost use Rattle.apv_base.specs.model.AuInfo.{au_info_table};
ghost use Rattle.apv_base.specs.model.Header.{info_table, header_table};
ghost use Rattle.apv_base.specs.model.Payload.{payload_table};
ghost use Rattle.apv_base.specs.model.Tile.{Layout, tiles_table};
ghost use Rattle.apv_base.specs.model.Bits.{AreBytes};
ghost use Rattle.apv_base.specs.model.CodedFrame.{CodedFrame, HasFrame};
ghost use Rattle.apv_base.specs.model.Frame.{IsFrame};
ghost use Rattle.apv_base.specs.model.Output.{AreOne, FormatsDiffer};
ghost use Rattle.apv_base.specs.model.Pbu.{Pbu, pbu_table, metadata_table};
ghost use Rattle.apv_base.specs.model.Strict.{IsStrict, StrictBreaks};
ghost use Rattle.apv_base.specs.model.Sound.{by_structure};
ghost use Rattle.apv_base.specs.laws.Answer.{HasOneAnswer, HasSomeAnswer};
ghost use Rattle.apv_base.specs.laws.CodeWord.{IsPrefixFree, HasOnePrefix, HasOneReading};
ghost use Rattle.apv_base.specs.laws.Table.{WalkInvertsSpell};
ghost use Rattle.apv_base.specs.laws.Run.{GivesRuns};

/// No code word of h(v) begins another, for each parameter k.
#[tactic(auto, using(crate::proofs::CodeWordLemmas::is_prefix_free))]
pub fn no_word_begins_another()
    ensures { (k : ℕ) → IsPrefixFree (code_word k) }
{}

/// Of a list that begins with code words of h(v), one word and one rest are read.
#[tactic(auto, using(crate::proofs::CodeWordLemmas::prefix_free))]
pub fn one_prefix()
    ensures { (k : ℕ) → HasOnePrefix (code_word k) }
{}

/// A list of bits has at most one reading: a value, or an end inside a word.
#[tactic(auto, using(crate::proofs::CodeWordLemmas::code_word_reading))]
pub fn one_reading()
    ensures { (k : ℕ) → HasOneReading (code_word k) }
{}

/// To walk the fields before a PBU's body, of a metadata body, of a payload, of `frame_info()`, of a frame header, of
/// the tiles of a frame or of access unit information inverts to spell them.
pub fn walk_inverts_spell()
    ensures info { WalkInvertsSpell 2 info_table }
    ensures header { WalkInvertsSpell 2 header_table }
    ensures tiles { (layout : Layout) → WalkInvertsSpell 256 (tiles_table layout) }
    ensures au_info { WalkInvertsSpell 2 au_info_table }
    ensures pbu { WalkInvertsSpell 256 pbu_table }
    ensures metadata { WalkInvertsSpell 256 metadata_table }
    ensures payload { WalkInvertsSpell 256 payload_table }
{}

/// A file has one run at most, and a file of bytes has one, where units are judged by their structure: its units, which
/// are the longest list of accepted units at its start, and what stops a reader after them.
pub fn runs()
    ensures { GivesRuns by_structure }
{}

/// A body is one coded frame at most: its header and its tiles are determined by its bytes.
pub fn one_frame()
    ensures { (body : List ℕ) (frame other : CodedFrame)
        → HasFrame body frame → HasFrame body other → frame ≡ other }
{}

/// A body of bytes that breaks no rule of a frame's structure is a coded frame.
pub fn some_frame()
    ensures { (body header tiles : List ℕ) → AreBytes body → IsFrame body header tiles
        → (frame : CodedFrame) × HasFrame body frame }
{}

/// PBUs pass the rules of strict judging, or break one of them first, at one PBU, and not both.
pub fn strict()
    ensures once { (pbus : List Pbu)
        → HasOneAnswer (λ (accepted : Unit {0}). IsStrict pbus) (StrictBreaks pbus) }
    ensures some { (pbus : List Pbu)
        → HasSomeAnswer (λ (accepted : Unit {0}). IsStrict pbus) (StrictBreaks pbus) }
{}

/// Formats agree, or differ in one way, and not both.
pub fn formats()
    ensures once { (all : List Format)
        → HasOneAnswer (λ (accepted : Unit {0}). AreOne all) (FormatsDiffer all) }
    ensures some { (all : List Format)
        → HasSomeAnswer (λ (accepted : Unit {0}). AreOne all) (FormatsDiffer all) }
{}
