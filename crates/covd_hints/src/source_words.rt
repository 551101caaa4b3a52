//! Words of a design text around a place.
ghost use Rattle.std.specs.Prelude.{◌≤◌, length};

/// The least number above what the low end of a span may be.
const ABOVE_LOW_ENDS: u64 = 256;

/// Words of SystemVerilog that a design text would read as names.
const FOREIGN_WORDS: [&[u8]; 24] = [
    b"always",
    b"always_comb",
    b"always_ff",
    b"assert",
    b"assign",
    b"begin",
    b"clocking",
    b"const",
    b"cover",
    b"endclass",
    b"endmodule",
    b"endpackage",
    b"import",
    b"initial",
    b"output",
    b"property",
    b"rand",
    b"static",
    b"struct",
    b"task",
    b"union",
    b"var",
    b"virtual",
    b"wire",
];

fn is_word_byte(byte: u8) -> bool {
    byte.is_ascii_alphanumeric() || byte == b'_' || byte == b'$'
}

/// How many bytes of a word stand first.
fn word_length(text: &[u8]) -> usize
    ensures { result ≤ length text.now }
{
    for (at, byte) in text.iter().enumerate() {
        if !is_word_byte(*byte) {
            return at;
        }
    }
    text.len()
}

/// The word that stands first in the text, of letters, digits, `_` and `$`; none where there is none.
pub(crate) fn first_word(text: &[u8]) -> Option<&str> {
    let word = &text[..word_length(text)];
    match str::from_utf8(word) {
        Ok(word) if !word.is_empty() => Some(word),
        _ => None,
    }
}

/// The text behind its first blanks.
fn behind_blanks(text: &[u8]) -> &[u8] {
    for (at, byte) in text.iter().enumerate() {
        if !byte.is_ascii_whitespace() {
            return &text[at..];
        }
    }
    &[]
}

/// The first word of a line, where it is one of SystemVerilog that a design text would read as a name.
pub(crate) fn foreign_word(line: &[u8]) -> Option<&str> {
    let word = first_word(behind_blanks(line))?;
    for foreign in &FOREIGN_WORDS {
        if word.as_bytes() == *foreign {
            return Some(word);
        }
    }
    None
}

/// The bytes behind the first of this kind; none where there is none.
fn behind_byte(text: &[u8], wanted: u8) -> Option<&[u8]> {
    for (at, byte) in text.iter().enumerate() {
        if *byte == wanted {
            return Some(&text[at + 1..]);
        }
    }
    None
}

/// The number that is written in decimal digits up to `]`.
fn number_before_end(text: &[u8]) -> Option<u64> {
    let word = first_word(behind_blanks(text))?;
    let number = word.parse::<u64>().ok()?;
    let rest = behind_blanks(behind_blanks(text).get(word.len()..)?);
    if rest.starts_with(b"]") {
        Some(number)
    } else {
        None
    }
}

/// The low end of the span in this declaration, where it is written in decimal digits and is above 255.
pub(crate) fn high_low_end(declaration: &[u8]) -> Option<u64> {
    let span = behind_byte(declaration, b'[')?;
    let number = number_before_end(behind_byte(span, b':')?)?;
    if number >= ABOVE_LOW_ENDS {
        Some(number)
    } else {
        None
    }
}
