//! The declarations of a dump: scopes and variables.
ghost use Rattle.std.specs.Prelude.{◌≡◌, ◌≤◌, length, IfOk, OnOk};
ghost use Rattle.std.specs.List.{position_or_len, list_all};
ghost use Rattle.name_map.specs.Names.{meaning_of, with_name};
ghost use Rattle.vcd_dump.specs.Header.{keyword_of, size_of, code_of, with_code, is_open, is_decimal, is_index, name_in, declared, with_var};

use crate::DumpVar;
use crate::numbers::number_in;
use crate::scopes::Scopes;
use cov_ground::Memory;
use cov_tree::{List, Name};
use name_map::NameMap;
use std::alloc::Global;

/// What an identifier code stands for.
#[derive(Clone, Copy)]
pub struct Code {
    /// Its number, by its first declaration: the first code has 0.
    pub number: u32,
    /// How many bits it has, of 1 to 2^32 - 1.
    pub width: u32,
}

/// What was declared.
#[derive(Drop)]
pub(crate) struct Header {
    pub(crate) vars: List<DumpVar>,
    pub(crate) codes: NameMap<Code>,
    pub(crate) scopes: Scopes,
}

/// What a declaration begins with.
#[derive(Clone, Copy)]
pub(crate) enum Keyword {
    /// `$date`, `$version`, `$timescale` or `$comment`, behind which text stands.
    Text,
    /// `$scope`
    Scope,
    /// `$upscope`
    Upscope,
    /// `$var`
    Var,
    /// `$enddefinitions`
    EndDefinitions,
    /// Something else.
    Other,
}

/// The keyword that a word is.
#[tactic(auto, unfolding(crate::specs::Header::keyword_of))]
pub(crate) fn keyword_of(text: &[u8]) -> Keyword
    ensures { result ≡ keyword_of text.now }
{
    if text == b"$var".as_slice() {
        return Keyword::Var;
    }
    if text == b"$scope".as_slice() {
        return Keyword::Scope;
    }
    if text == b"$upscope".as_slice() {
        return Keyword::Upscope;
    }
    if text == b"$comment".as_slice() {
        return Keyword::Text;
    }
    if text == b"$date".as_slice() {
        return Keyword::Text;
    }
    if text == b"$version".as_slice() {
        return Keyword::Text;
    }
    if text == b"$timescale".as_slice() {
        return Keyword::Text;
    }
    if text == b"$enddefinitions".as_slice() {
        return Keyword::EndDefinitions;
    }
    Keyword::Other
}

/// A size in bits, of 1 to 2^32 - 1.
#[tactic(auto, unfolding(crate::specs::Header::size_of))]
pub(crate) fn size_of(text: &[u8]) -> Option<u32>
    ensures { result ≡ size_of text.now }
{
    let size = number_in(10, text)?;
    if size == 0 {
        return None;
    }
    if size > u32::MAX as u64 {
        return None;
    }
    Some(size as u32)
}

/// How many bytes stand before the first bracket.
fn bracket(text: &[u8]) -> usize
    ensures within { result ≤ length text.now }
    ensures end { result ≡ position_or_len is_open text.now }
{
    let mut end = 0;
    for byte in text {
        if *byte == b'[' {
            return end;
        }
        end += 1;
    }
    end
}

/// Whether all bytes are decimal digits.
fn are_decimal(text: &[u8]) -> bool
    ensures { result ≡ list_all is_decimal text.now }
{
    text.iter().all(|byte| b'0' <= *byte && *byte <= b'9')
}

/// Whether a text is a number in brackets.
#[tactic(auto, unfolding(crate::specs::Header::is_index))]
fn is_index(text: &[u8]) -> bool
    ensures { result ≡ is_index text.now }
{
    let count = text.len();
    if count <= 2 {
        return false;
    }
    if text[0] != b'[' {
        return false;
    }
    if text[count - 1] != b']' {
        return false;
    }
    are_decimal(&text[1..count - 1])
}

/// The code of these letters, which is a new one of this width where none has them.
#[tactic(auto, unfolding(crate::specs::Header::code_of, crate::specs::Header::with_code))]
pub(crate) fn declare_code(
    alloc: Global,
    text: &[u8],
    width: u32,
    header: &mut Header,
) -> Result<Code, Memory>
    ensures code { IfOk result (λ code. code ≡ code_of header.old.codes text.now width) }
    ensures header { OnOk result (header.new ≡ with_code text.now width header.old) }
{
    if let Some(code) = header.codes.get(text) {
        return Ok(*code);
    }
    let code = Code {
        number: number_of(header.codes.len())?,
        width,
    };
    header.codes.declare(Name::of(alloc, text)?, code)?;
    Ok(code)
}

/// A count of codes as a number. No memory has room for more of them.
fn number_of(count: usize) -> Result<u32, Memory>
    ensures { IfOk result (λ number. number ≡ count) }
{
    if count > u32::MAX as usize {
        return Err(Memory);
    }
    Ok(count as u32)
}

/// A variable of this code, by its reference and by what stands behind it.
#[tactic(auto, unfolding(crate::specs::Header::declared, crate::specs::Header::name_in))]
fn declared(
    alloc: Global,
    reference: &[u8],
    select: &[u8],
    code: Code,
    header: &Header,
) -> Result<DumpVar, Memory>
    ensures { IfOk result (λ var. var ≡ declared reference.now select.now code header.now) }
{
    let (name, index) = reference.split_at(bracket(reference));
    let scope = header.scopes.name(alloc)?;
    let name = Name::of(alloc, name)?;
    Ok(DumpVar {
        scope,
        name,
        width: code.width,
        selected: is_index(index) || is_index(select),
        code: code.number,
    })
}

/// One variable more.
#[tactic(auto, unfolding(crate::specs::Header::with_var))]
pub(crate) fn add_var(
    alloc: Global,
    reference: &[u8],
    select: &[u8],
    code: Code,
    header: &mut Header,
) -> Result<(), Memory>
    ensures { OnOk result (header.new ≡ with_var reference.now select.now code header.old) }
{
    let var = declared(alloc, reference, select, code, header)?;
    header.vars.push(var)?;
    Ok(())
}
