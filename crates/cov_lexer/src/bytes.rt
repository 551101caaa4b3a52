//! Classes of bytes, and the bases of numbers.
ghost use Rattle.std.specs.Prelude.{◌≡◌, ◌^◌, ◌-◌};
ghost use Rattle.cov_lexer.specs.Bytes.{is_letter, is_digit, is_word, is_number, is_blank, is_inside, is_sign, is_unknown, is_base_digit, is_base_more, has};
ghost use Rattle.cov_lexer.specs.Literals.{base_of, digit_bits, radix};

/// The base of a number (IEEE 1800-2017, 5.7.1).
#[derive(Clone, Copy, PartialEq, Eq)]
pub enum Base {
    /// `b`, with digits of one bit.
    Binary,
    /// `o`, with digits of three bits.
    Octal,
    /// `d`, and that of a number without a base.
    Decimal,
    /// `h`, with digits of four bits.
    Hexadecimal,
}

/// Bytes that stand in runs.
#[derive(Clone, Copy, PartialEq, Eq)]
pub(crate) enum Class {
    /// What a name goes on with.
    Word,
    /// What a decimal number goes on with.
    Number,
    /// The space alone.
    Space,
    /// What stands in a line comment.
    Line,
    /// What stands between the quotes of a string.
    Inside,
    /// What a number of this base goes on with.
    Digits(Base),
}

/// A letter or `_`.
pub(crate) fn is_letter(byte: u8) -> bool
    ensures { result ≡ is_letter byte }
{
    matches!(byte, b'a'..=b'z' | b'A'..=b'Z' | b'_')
}

/// A decimal digit.
pub(crate) fn is_digit(byte: u8) -> bool
    ensures { result ≡ is_digit byte }
{
    matches!(byte, b'0'..=b'9')
}

/// What a name goes on with.
fn is_word(byte: u8) -> bool
    ensures { result ≡ is_word byte }
{
    is_letter(byte) || is_digit(byte) || byte == b'$'
}

/// What a decimal number goes on with.
fn is_number(byte: u8) -> bool
    ensures { result ≡ is_number byte }
{
    is_digit(byte) || byte == b'_'
}

/// Space, tab, newline, carriage return or form feed.
pub(crate) fn is_blank(byte: u8) -> bool
    ensures { result ≡ is_blank byte }
{
    matches!(byte, b' ' | b'\t' | b'\n' | b'\r' | 12)
}

/// What stands between the quotes of a string.
fn is_inside(byte: u8) -> bool
    ensures { result ≡ is_inside byte }
{
    byte != b'"' && byte != b'\n'
}

/// The sign of a literal, `s` or `S`.
pub(crate) fn is_sign(byte: u8) -> bool
    ensures { result ≡ is_sign byte }
{
    matches!(byte, b's' | b'S')
}

/// `x`, `z` in either case, or `?`.
pub(crate) fn is_unknown(byte: u8) -> bool
    ensures { result ≡ is_unknown byte }
{
    matches!(byte, b'x' | b'X' | b'z' | b'Z' | b'?')
}

impl Base {
    /// The base that this letter stands for, in either case.
    pub(crate) fn of(letter: u8) -> Option<Base>
        ensures { result ≡ base_of letter }
    {
        match letter {
            b'b' | b'B' => Some(Base::Binary),
            b'o' | b'O' => Some(Base::Octal),
            b'd' | b'D' => Some(Base::Decimal),
            b'h' | b'H' => Some(Base::Hexadecimal),
            _ => None,
        }
    }

    /// Whether the byte is a digit of this base; `x`, `z` and `?` are, but for decimal numbers.
    pub(crate) fn is_digit(self, byte: u8) -> bool
        ensures { result ≡ is_base_digit self byte }
    {
        match self {
            Base::Binary => matches!(byte, b'0' | b'1') || is_unknown(byte),
            Base::Octal => matches!(byte, b'0'..=b'7') || is_unknown(byte),
            Base::Decimal => is_digit(byte),
            Base::Hexadecimal => is_digit(byte)
                || matches!(byte, b'a'..=b'f' | b'A'..=b'F')
                || is_unknown(byte),
        }
    }

    /// How many digits it has.
    pub(crate) fn radix(self) -> u8
        ensures { result ≡ radix self }
    {
        match self {
            Base::Binary => 2,
            Base::Octal => 8,
            Base::Decimal => 10,
            Base::Hexadecimal => 16,
        }
    }

    /// How many bits a digit stands for; 0 for decimal numbers, where none is its own.
    pub(crate) fn digit_bits(self) -> u8
        ensures { result ≡ digit_bits self }
    {
        match self {
            Base::Binary => 1,
            Base::Octal => 3,
            Base::Decimal => 0,
            Base::Hexadecimal => 4,
        }
    }

    /// The bits of an unknown digit, which are all free.
    pub(crate) fn unknown_digit(self) -> u8
        ensures { result ≡ 2 ^ digit_bits self - 1 }
    {
        match self {
            Base::Binary => 1,
            Base::Octal => 7,
            Base::Decimal => 0,
            Base::Hexadecimal => 15,
        }
    }

    /// Whether the byte is a digit of this base or an underscore.
    fn goes_on_with(self, byte: u8) -> bool
        ensures { result ≡ is_base_more self byte }
    {
        self.is_digit(byte) || byte == b'_'
    }
}

impl Class {
    /// Whether the byte is in this class.
    pub(crate) fn has(self, byte: u8) -> bool
        ensures { result ≡ has self byte }
    {
        match self {
            Class::Word => is_word(byte),
            Class::Number => is_number(byte),
            Class::Space => byte == b' ',
            Class::Line => byte != b'\n',
            Class::Inside => is_inside(byte),
            Class::Digits(base) => base.goes_on_with(byte),
        }
    }
}
