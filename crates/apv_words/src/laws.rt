//! Laws of the definitions. Each is the contract of a function that does nothing.
ghost use Rattle.std.specs.Prelude.{◌≡◌, List, true};
ghost use Rattle.apv_words.specs.Decoder.{settings_by};
ghost use Rattle.apv_words.specs.Encoder.{enc_settings_by};
ghost use Rattle.apv_words.specs.Laws.{HasOneCut, HasOneFault, HasOneSettings, HasSettingsOrFault};
ghost use Rattle.apv_words.specs.Laws.{HasSomeCut};
ghost use Rattle.apv_words.specs.Table.{OptionRow, Text, is_table};

/// Words can be cut in one way at most, and either they can be cut or they can't.
pub fn one_cut()
    ensures one { (table : List OptionRow) → is_table table ≡ true → (words : List Text)
        → HasOneCut table words }
    ensures some { (table : List OptionRow) → is_table table ≡ true → (words : List Text)
        → HasSomeCut table words }
{}

/// Words have one fault at most.
pub fn one_fault()
    ensures { (table : List OptionRow) → is_table table ≡ true → (words : List Text)
        → HasOneFault table words }
{}

/// Words give the decoder settings or have a fault, and not both, and there is one such answer.
pub fn one_answer()
    ensures one { (table : List OptionRow) → is_table table ≡ true → (words : List Text)
        → HasOneSettings settings_by table words }
    ensures some { (table : List OptionRow) → is_table table ≡ true → (words : List Text)
        → HasSettingsOrFault settings_by table words }
{}

/// The same for the encoder.
pub fn one_answer_enc()
    ensures one { (table : List OptionRow) → is_table table ≡ true → (words : List Text)
        → HasOneSettings enc_settings_by table words }
    ensures some { (table : List OptionRow) → is_table table ≡ true → (words : List Text)
        → HasSettingsOrFault enc_settings_by table words }
{}
