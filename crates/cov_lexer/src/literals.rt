//! What an integer literal means.
ghost use Rattle.std.specs.Prelude.{◌≡◌, ◌≤◌, ◌⊎◌, ◌^◌, ◌*◌, ◌+◌, ◌&&◌, MatchOption, IfSome, IfNone, None, find, not, count_by, nat_lt, false, length, slice_range, ℕ};
ghost use Rattle.cov_ground.specs.Limits.{most_bits};
ghost use Rattle.cov_lexer.specs.declared.bytes.Base.TheVariants.{Decimal};
ghost use Rattle.cov_lexer.specs.Literals.{digit_value, digit_free, is_gap, natural_width, value_of, free_of, above, made, meaning, lettered, based_literal, decimal_literal, literal_of, leads_unknown, IsDecimal, IsBased, IsLiteral, IsNumber};

use crate::bytes::{Base, Class, is_digit, is_sign, is_unknown};
use crate::runs::{byte_at, run_end};
use cov_ground::limits::MOST_BITS;
use cov_tree::Literal;

/// The digits of a literal as bits.
#[derive(Clone, Copy)]
struct Digits {
    /// Their value, unknown digits being 0.
    bits: u64,
    /// The bits of unknown digits.
    free: u64,
}

/// The meaning of a decimal or based literal with this text (IEEE 1800-2017, 5.7.1).
///
/// None where the literal is too wide: its size is outside 1 to 64, or a bit of its digits is outside its width. None too where
/// the text is no literal.
pub fn literal(text: &[u8]) -> Option<Literal>
    ensures is { result ≡ literal_of text.now }
    ensures decimal { IsDecimal text.now → result ≡ decimal_literal (value_of Decimal text.now) }
    ensures based { (size : _) (signed : _) (base : _) (digits : _) →
        IsBased text.now size signed base digits → result ≡ meaning size signed base digits }
    ensures found { (whole : _) (i : ℕ) (j : ℕ) → IsNumber whole i j → text.now
        ≡ slice_range whole i j → IsLiteral text.now }
    ensures none { (IsLiteral text.now → ⊥) → result ≡ None }
{
    from_front(text)
}

/// The same, read from its front.
fn from_front(text: &[u8]) -> Option<Literal>
    ensures { result ≡ literal_of text.now }
{
    if !is_digit(byte_at(text, 0)) {
        return based_literal(text, &[], 0);
    }
    let end = run_end(text, 1, Class::Number);
    if end == text.len() {
        return decimal_literal(text);
    }
    let apostrophe = run_end(text, end, Class::Space);
    based_literal(text, &text[..end], apostrophe)
}

/// A decimal literal: signed, of 32 bits where they hold it, else of 64.
fn decimal_literal(text: &[u8]) -> Option<Literal>
    ensures { result ≡ decimal_literal (value_of Decimal text.now) }
{
    let bits = read_digits(text, Base::Decimal)?.bits;
    let width = if bits < 1 << 31 {
        32
    } else if bits < 1 << 63 {
        64
    } else {
        return None;
    };
    Some(Literal {
        width,
        sized: false,
        signed: true,
        bits,
        free: 0,
    })
}

/// A literal of its size, and of the apostrophe at this place with what follows it.
fn based_literal(text: &[u8], size: &[u8], at: usize) -> Option<Literal>
    requires { at ≤ length text.now }
    ensures { result ≡ based_literal text.now size.now at }
{
    if byte_at(text, at) != b'\'' {
        return None;
    }
    if is_sign(byte_at(text, at + 1)) {
        lettered(text, size, true, at + 2)
    } else {
        lettered(text, size, false, at + 1)
    }
}

/// A literal of its size, and of the base letter at this place with what follows it.
fn lettered(text: &[u8], size: &[u8], signed: bool, at: usize) -> Option<Literal>
    requires { at ≤ length text.now }
    ensures { result ≡ lettered text.now size.now signed at }
{
    let Some(base) = Base::of(byte_at(text, at)) else {
        return None;
    };
    let first = run_end(text, at + 1, Class::Space);
    if !base.is_digit(byte_at(text, first)) {
        return None;
    }
    if run_end(text, first + 1, Class::Digits(base)) != text.len() {
        return None;
    }
    meaning(size, signed, base, &text[first..])
}

/// The meaning of a based literal of these parts; it has no size where there are no digits of one.
fn meaning(size: &[u8], signed: bool, base: Base, digits: &[u8]) -> Option<Literal>
    ensures { result ≡ meaning size.now signed base digits.now }
{
    if size.is_empty() {
        return unsized_literal(signed, base, digits);
    }
    let width = read_digits(size, Base::Decimal)?.bits;
    if width == 0 {
        return None;
    }
    if width > u64::from(MOST_BITS) {
        return None;
    }
    let read = read_digits(digits, base)?;
    made(read, true, signed, base, width as u8, digits)
}

/// A literal without size: of 32 bits where they hold its digits, else of 64.
fn unsized_literal(signed: bool, base: Base, digits: &[u8]) -> Option<Literal>
    ensures { result ≡ made false signed base (natural_width base digits.now) digits.now }
{
    let read = read_digits(digits, base)?;
    let width = if read.fits(32) { 32 } else { MOST_BITS };
    made(read, false, signed, base, width, digits)
}

/// A literal of this width, if its digits fit.
fn made(
    read: Digits,
    sized: bool,
    signed: bool,
    base: Base,
    width: u8,
    digits: &[u8],
) -> Option<Literal>
    requires bits { read.bits ≡ value_of base digits.now }
    requires free { read.free ≡ free_of base digits.now }
    requires width { width ≤ most_bits }
    ensures { result ≡ made sized signed base width digits.now }
{
    if !read.fits(width) {
        return None;
    }
    Some(Literal {
        width,
        sized,
        signed,
        bits: read.bits,
        free: read.free | above(base, width, digits),
    })
}

impl Digits {
    /// Whether all its bits are below the width.
    fn fits(self, width: u8) -> bool
        requires { width ≤ most_bits }
        ensures { result ≡ (nat_lt self.bits (2 ^ width) && nat_lt self.free (2 ^ width)) }
    {
        u128::from(self.bits) < limit(width) && u128::from(self.free) < limit(width)
    }
}

/// The bits of the width above all digits, where the leftmost digit is unknown.
fn above(base: Base, width: u8, digits: &[u8]) -> u64
    requires { width ≤ most_bits }
    ensures { result ≡ above base width digits.now }
{
    if !leads_unknown(digits) {
        return 0;
    }
    let known = count_digits(digits) as u128 * u128::from(base.digit_bits());
    if known >= u128::from(width) {
        return 0;
    }
    (limit(width) - limit(known as u8)) as u64
}

/// How many digits there are.
fn count_digits(digits: &[u8]) -> usize
    ensures { result ≡ count_by (λ c. not (is_gap c)) digits.now }
{
    digits.iter().filter(|digit| !is_gap(**digit)).count()
}

/// The least number that this many bits don't hold.
fn limit(width: u8) -> u128
    requires { width ≤ most_bits }
    ensures { result ≡ 2 ^ width }
{
    1 << width
}

/// Whether the leftmost digit is unknown.
fn leads_unknown(digits: &[u8]) -> bool
    ensures { result ≡ leads_unknown (find (λ c. not (is_gap c)) digits.now) }
{
    for digit in digits {
        if !is_gap(*digit) {
            return is_unknown(*digit);
        }
    }
    false
}

/// An underscore, which stands for nothing among digits.
fn is_gap(byte: u8) -> bool
    ensures { result ≡ is_gap byte }
{
    byte == b'_'
}

/// The value of a digit, 0 for an unknown one.
fn digit_value(digit: u8) -> u8
    ensures { result ≡ digit_value digit }
{
    match digit {
        b'0'..=b'9' => digit - b'0',
        b'a'..=b'f' => digit - b'a' + 10,
        b'A'..=b'F' => digit - b'A' + 10,
        _ => 0,
    }
}

/// The bits of a digit that are free: all or none.
fn digit_free(base: Base, digit: u8) -> u8
    ensures { result ≡ digit_free base digit }
{
    if is_unknown(digit) {
        base.unknown_digit()
    } else {
        0
    }
}

/// The number with one digit more, if 64 bits hold it.
fn with_digit(number: u64, radix: u8, digit: u8) -> Option<u64>
    ensures { MatchOption result (2 ^ 64 ≤ number * radix + digit) (λ n. n ≡ number * radix + digit) }
{
    number
        .checked_mul(u64::from(radix))?
        .checked_add(u64::from(digit))
}

/// The bits of the digits, if 64 hold them.
fn read_digits(digits: &[u8], base: Base) -> Option<Digits>
    ensures none { IfNone result ((2 ^ 64 ≤ value_of base digits.now) ⊎ (2 ^ 64 ≤ free_of base digits.now)) }
    ensures bits { IfSome result (λ read. read.bits ≡ value_of base digits.now) }
    ensures free { IfSome result (λ read. read.free ≡ free_of base digits.now) }
{
    let radix = base.radix();
    let mut bits = 0;
    let mut free = 0;
    for digit in digits {
        if !is_gap(*digit) {
            bits = with_digit(bits, radix, digit_value(*digit))?;
            free = with_digit(free, radix, digit_free(base, *digit))?;
        }
    }
    Some(Digits { bits, free })
}
