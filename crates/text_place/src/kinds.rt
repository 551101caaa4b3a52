//! What a file is, by the bytes at its front.
ghost use Rattle.std.specs.Prelude.{◌≡◌, map};
ghost use Rattle.text_place.specs.Kinds.{is_blank, from_word, begins_any, has_any, dump_words, fst_marks, port_words, source_words, kind_of_text, kind_of};

/// What a file is. Other is all that isn't known by its front.
#[derive(Clone, Copy)]
pub enum FileKind {
    /// Bytes that are compressed by gzip (RFC 1952).
    Gzip,
    /// A dump in the form FST.
    FstDump,
    /// A program or a library, in the form ELF.
    Program,
    /// A test record.
    Record,
    /// A value change dump (VCD; IEEE 1800-2017, 21.7.2).
    Dump,
    /// An extended value change dump, which is of ports (EVCD; 21.7.3).
    PortDump,
    /// A text of SystemVerilog.
    Source,
    Other,
}

/// Marks of files in the form FST: a header of 329 bytes, or the whole file compressed.
const FST_MARKS: [&[u8]; 2] = [b"\0\0\0\0\0\0\0\x01\x49", b"\xFE\0\0\0"];

/// Words with which a value change dump begins.
const DUMP_WORDS: [&[u8]; 7] = [
    b"$comment",
    b"$date",
    b"$enddefinitions",
    b"$scope",
    b"$timescale",
    b"$var",
    b"$version",
];

/// Words that only a dump of ports has.
const PORT_WORDS: [&[u8]; 3] = [b"$dumpports", b"$var port", b"$vcdclose"];

/// Words with which a text of SystemVerilog mostly begins.
const SOURCE_WORDS: [&[u8]; 16] = [
    b"//",
    b"/*",
    b"`",
    b"module",
    b"package",
    b"interface",
    b"program",
    b"class",
    b"covergroup",
    b"typedef",
    b"bit",
    b"logic",
    b"reg",
    b"int",
    b"byte",
    b"import",
];

/// Whether the bytes begin with one of the marks.
#[tactic(auto, unfolding(crate::specs::Kinds::begins_any))]
fn begins_any(front: &[u8], marks: &[&[u8]]) -> bool
    ensures { result ≡ begins_any front.now (map (λ mark. mark.now) marks.now) }
{
    for mark in marks {
        if front.starts_with(mark) {
            return true;
        }
    }
    false
}

fn is_blank(byte: u8) -> bool
    ensures { result ≡ is_blank byte }
{
    byte == b' ' || byte == b'\t' || byte == b'\n' || byte == b'\r'
}

/// The bytes from the first on that is no blank.
#[tactic(auto, unfolding(crate::specs::Kinds::from_word))]
fn from_word(front: &[u8]) -> &[u8]
    ensures { result.now ≡ from_word front.now }
{
    let mut rest = front;
    while let Some((byte, later)) = rest.split_first() {
        if !is_blank(*byte) {
            return rest;
        }
        rest = later;
    }
    rest
}

/// Whether one of the words stands somewhere in the text.
#[tactic(auto, unfolding(crate::specs::Kinds::has_any))]
fn has_any(text: &[u8], words: &[&[u8]]) -> bool
    ensures { result ≡ has_any text.now (map (λ word. word.now) words.now) }
{
    let mut rest = text;
    while let Some((_, later)) = rest.split_first() {
        if begins_any(rest, words) {
            return true;
        }
        rest = later;
    }
    false
}

fn is_dump(text: &[u8]) -> bool
    ensures { result ≡ begins_any text.now dump_words }
{
    begins_any(text, &DUMP_WORDS)
}

fn has_ports(text: &[u8]) -> bool
    ensures { result ≡ has_any text.now port_words }
{
    has_any(text, &PORT_WORDS)
}

fn is_source(text: &[u8]) -> bool
    ensures { result ≡ begins_any text.now source_words }
{
    begins_any(text, &SOURCE_WORDS)
}

/// The kind of a text that begins with a word.
fn kind_of_text(text: &[u8]) -> FileKind
    ensures { result ≡ kind_of_text text.now }
{
    if is_dump(text) {
        if has_ports(text) {
            return FileKind::PortDump;
        }
        return FileKind::Dump;
    }
    if is_source(text) {
        FileKind::Source
    } else {
        FileKind::Other
    }
}

/// What a file is that begins with these bytes: by its mark where it has one, and else by its first word behind blanks. A
/// dump is told from one of ports by the words that stand among the bytes.
pub fn kind_of(front: &[u8]) -> FileKind
    ensures { result ≡ kind_of front.now }
{
    if front.starts_with(b"CVRC") {
        return FileKind::Record;
    }
    if front.starts_with(b"\x1F\x8B") {
        return FileKind::Gzip;
    }
    if begins_any(front, &FST_MARKS) {
        return FileKind::FstDump;
    }
    if front.starts_with(b"\x7FELF") {
        return FileKind::Program;
    }
    kind_of_text(from_word(front))
}
