//! Why a block isn't whole.
ghost use Rattle.std.specs.Prelude.{◌≡◌};
ghost use Rattle.apv_scan.specs.BlockBreak.{rule_of};

use apv_base::Rule;

/// Why a block isn't whole.
///
/// - `Ends`: V27: the data end inside a code word or before a sign.
/// - `Over`: V28: the bits are no prefix of a code word of a permitted value.
/// - `Run`: V29: a run of zeros (`coeff_zero_run`) is above `64 - p` at scan place p.
/// - `Level`: V30: a level is outside -32768 to 32767.
#[derive(Clone, Copy, PartialEq, Eq, Debug)]
pub enum BlockBreak {
    Ends,
    Over,
    Run,
    Level,
}

impl BlockBreak {
    /// The rule that is broken: V27, V28, V29 or V30.
    pub fn rule(self) -> Rule
        ensures { result ≡ rule_of self }
    {
        match self {
            BlockBreak::Ends => Rule::V27,
            BlockBreak::Over => Rule::V28,
            BlockBreak::Run => Rule::V29,
            BlockBreak::Level => Rule::V30,
        }
    }
}
