//! What the words of a declaration of bins mean (IEEE 1800-2017, 19.5).
ghost use Rattle.std.specs.Prelude.{◌≡◌};
ghost use Rattle.elab_values.specs.Words.{kind_of as kind_meant, is_array as is_array_size};

use cov_tree::{Size, Word};
use design_data::BinKind;

/// The kind of the bins that a word declares.
pub fn kind_of(word: Word) -> BinKind
    ensures { result ≡ kind_meant word }
{
    match word {
        Word::Bins => BinKind::CvgBin,
        Word::Illegal => BinKind::IllegalBin,
        Word::Ignore => BinKind::IgnoreBin,
    }
}

/// Whether `[]` stands, so that each value or each list of values has a bin.
pub fn is_array(size: &Size) -> bool
    ensures { result ≡ is_array_size size.now }
{
    match size {
        Size::Scalar => false,
        Size::Open => true,
        Size::Fixed(_) => false,
    }
}
