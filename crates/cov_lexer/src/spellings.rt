//! The words and operators, each with what it is to the grammar.
ghost use Rattle.std.specs.Prelude.{◌≡◌, map};
ghost use Rattle.cov_lexer.specs.Spellings.{words, operators, kind_among, starting};
ghost use Rattle.cov_lexer.specs.Reading.{seen};

use crate::kind::Kind;

/// A text with its kind.
pub(crate) type Spelling = (&'static [u8], Kind);

/// The keywords that begin with this byte.
fn words_from(first: u8) -> &'static [Spelling]
    ensures { map seen result.now ≡ starting first words }
{
    match first {
        b'b' => &[
            (b"bit", Kind::BitWord),
            (b"byte", Kind::ByteWord),
            (b"bins", Kind::BinsWord),
            (b"binsof", Kind::BinsofWord),
        ],
        b'c' => &[
            (b"covergroup", Kind::CovergroupWord),
            (b"coverpoint", Kind::CoverpointWord),
            (b"cross", Kind::CrossWord),
            (b"class", Kind::OtherWord),
        ],
        b'd' => &[(b"default", Kind::DefaultWord)],
        b'e' => &[
            (b"enum", Kind::EnumWord),
            (b"endgroup", Kind::EndgroupWord),
            (b"edge", Kind::EdgeWord),
            (b"extends", Kind::OtherWord),
        ],
        b'f' => &[(b"function", Kind::OtherWord)],
        b'i' => &[
            (b"int", Kind::IntWord),
            (b"integer", Kind::IntegerWord),
            (b"illegal_bins", Kind::IllegalBinsWord),
            (b"ignore_bins", Kind::IgnoreBinsWord),
            (b"iff", Kind::IffWord),
            (b"intersect", Kind::IntersectWord),
            (b"input", Kind::InputWord),
            (b"interface", Kind::OtherWord),
            (b"inside", Kind::OtherWord),
        ],
        b'l' => &[
            (b"logic", Kind::LogicWord),
            (b"longint", Kind::LongintWord),
            (b"localparam", Kind::OtherWord),
        ],
        b'm' => &[(b"module", Kind::OtherWord), (b"matches", Kind::OtherWord)],
        b'n' => &[(b"new", Kind::NewWord), (b"negedge", Kind::NegedgeWord)],
        b'o' => &[(b"or", Kind::OrWord), (b"option", Kind::OptionWord)],
        b'p' => &[
            (b"posedge", Kind::PosedgeWord),
            (b"program", Kind::OtherWord),
            (b"package", Kind::OtherWord),
            (b"parameter", Kind::OtherWord),
        ],
        b'r' => &[
            (b"reg", Kind::RegWord),
            (b"ref", Kind::RefWord),
            (b"real", Kind::OtherWord),
        ],
        b's' => &[
            (b"shortint", Kind::ShortintWord),
            (b"signed", Kind::SignedWord),
            (b"sequence", Kind::SequenceWord),
            (b"shortreal", Kind::OtherWord),
            (b"string", Kind::OtherWord),
        ],
        b't' => &[
            (b"typedef", Kind::TypedefWord),
            (b"type_option", Kind::TypeOptionWord),
            (b"time", Kind::OtherWord),
        ],
        b'u' => &[(b"unsigned", Kind::UnsignedWord)],
        b'w' => &[(b"wildcard", Kind::WildcardWord), (b"with", Kind::WithWord)],
        _ => &[],
    }
}

/// The operators that begin with this byte, longer ones first.
pub(crate) fn operators_from(first: u8) -> &'static [Spelling]
    ensures { map seen result.now ≡ starting first operators }
{
    match first {
        b'=' => &[
            (b"===", Kind::NotSupported),
            (b"==?", Kind::NotSupported),
            (b"=>", Kind::FatArrow),
            (b"==", Kind::EqualEqual),
            (b"=", Kind::Assign),
        ],
        b'!' => &[
            (b"!==", Kind::NotSupported),
            (b"!=?", Kind::NotSupported),
            (b"!=", Kind::NotEqual),
            (b"!", Kind::Bang),
        ],
        b'<' => &[
            (b"<<<", Kind::SignedLeft),
            (b"<=", Kind::LessEqual),
            (b"<<", Kind::ShiftLeft),
            (b"<", Kind::Less),
        ],
        b'>' => &[
            (b">>>", Kind::SignedRight),
            (b">=", Kind::GreaterEqual),
            (b">>", Kind::ShiftRight),
            (b">", Kind::Greater),
        ],
        b'-' => &[
            (b"->", Kind::ThinArrow),
            (b"--", Kind::NotSupported),
            (b"-", Kind::Minus),
        ],
        b'&' => &[(b"&&", Kind::AndAnd), (b"&", Kind::Ampersand)],
        b'|' => &[(b"||", Kind::OrOr), (b"|", Kind::Bar)],
        b'~' => &[
            (b"~&", Kind::TildeAnd),
            (b"~|", Kind::TildeOr),
            (b"~^", Kind::TildeCaret),
            (b"~", Kind::Tilde),
        ],
        b'^' => &[(b"^~", Kind::TildeCaret), (b"^", Kind::Caret)],
        b'@' => &[(b"@@", Kind::NotSupported), (b"@", Kind::AtSign)],
        b'*' => &[(b"**", Kind::NotSupported), (b"*", Kind::Star)],
        b'+' => &[(b"++", Kind::NotSupported), (b"+", Kind::PlusSign)],
        b':' => &[(b"::", Kind::NotSupported), (b":", Kind::Colon)],
        b'(' => &[(b"(", Kind::OpenParen)],
        b')' => &[(b")", Kind::CloseParen)],
        b'[' => &[(b"[", Kind::OpenSquare)],
        b']' => &[(b"]", Kind::CloseSquare)],
        b'{' => &[(b"{", Kind::OpenBrace)],
        b'}' => &[(b"}", Kind::CloseBrace)],
        b',' => &[(b",", Kind::Comma)],
        b';' => &[(b";", Kind::Semi)],
        b'.' => &[(b".", Kind::Dot)],
        b'/' => &[(b"/", Kind::Slash)],
        b'%' => &[(b"%", Kind::Percent)],
        b'?' => &[(b"?", Kind::Question)],
        b'$' => &[(b"$", Kind::DollarSign)],
        b'#' => &[(b"#", Kind::NotSupported)],
        b'\'' => &[(b"'", Kind::NotSupported)],
        _ => &[],
    }
}

/// The kind of a text in a table, where it has the text.
fn kind_in(text: &[u8], table: &[Spelling]) -> Option<Kind>
    ensures { result ≡ kind_among text.now (map seen table.now) }
{
    for spelling in table {
        if spelling.0 == text {
            return Some(spelling.1);
        }
    }
    None
}

/// The kind of a keyword; none where the text is no keyword.
pub(crate) fn keyword(text: &[u8]) -> Option<Kind>
    ensures { result ≡ kind_among text.now words }
{
    if text.is_empty() {
        return None;
    }
    kind_in(text, words_from(text[0]))
}
