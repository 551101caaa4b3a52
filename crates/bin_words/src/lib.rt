//! Street: meaning.
//!
//! The words of the kinds of bins, as they are printed.
#![tactic(auto)]

ghost use Rattle.std.specs.Prelude.{◌≡◌};
ghost use Rattle.bin_words.specs.Words.{kind_word as kind_meant};

use design_data::BinKind;

/// The word of a kind of bin: that of a coverage bin, an illegal one (IEEE 1800-2017, 19.5.6), an ignored one (19.5.5) or
/// a default one (19.5.1), in capitals.
pub fn kind_word(kind: BinKind) -> &'static str
    ensures { result.now ≡ kind_meant kind }
{
    match kind {
        BinKind::CvgBin => "CVGBIN",
        BinKind::IllegalBin => "ILLEGALBIN",
        BinKind::IgnoreBin => "IGNOREBIN",
        BinKind::DefaultBin => "DEFAULTBIN",
    }
}
