//! Reading a dump, word by word.
ghost use Rattle.std.specs.Prelude.{◌≡◌, ◌≤◌, ◌-◌, length, drop, slice_index};
ghost use Rattle.vcd_dump.specs.Words.{words};
ghost use Rattle.vcd_dump.specs.Gives.{Gives, Makes};
ghost use Rattle.vcd_dump.specs.Header.{is_open};
ghost use Rattle.vcd_dump.specs.Reading.{is_end, read_words, whole, longest_dump, told, reading, HasRead};

use crate::body::{Body, Kind, kind_of};
use crate::fault::Fault;
use crate::header::{Code, Header, Keyword, add_var, declare_code, keyword_of, size_of};
use crate::kept::Kept;
use crate::numbers::number_in;
use crate::scopes::Scopes;
use crate::values::{are_digits, change_of};
use crate::words::next_word;
use crate::{Dump, DumpFault};
use cov_ground::Memory;
use cov_tree::List;
use name_map::NameMap;
use std::alloc::Global;

/// What the next word has to be.
#[derive(Clone, Copy)]
pub(crate) enum Expected {
    /// What begins a declaration.
    Declaration,
    /// Text, or the end of it.
    Text,
    /// The type of a scope, and its name.
    ScopeType,
    ScopeName,
    /// The end of a declaration.
    Close,
    /// The end of the last declaration.
    LastClose,
    /// The parts of a variable, each with what is known by then.
    VarType,
    VarSize,
    VarCode { width: u32 },
    VarName { code: Code },
    VarSelect { code: Code },
    /// A time, a change, or a word that is skipped.
    Statement,
    /// The text of a comment, or the end of it.
    Comment,
    /// The code of a vector.
    VectorCode,
    /// The code of a value that isn't read.
    SkippedCode,
}

/// What was read so far.
#[derive(Drop)]
pub(crate) struct Reading {
    pub(crate) expected: Expected,
    pub(crate) header: Header,
    /// The reference of a variable, or the digits of a vector.
    pub(crate) kept: Kept,
    pub(crate) body: Body,
}

fn is_end(text: &[u8]) -> bool
    ensures { result ≡ is_end text.now }
{
    text == b"$end".as_slice()
}

impl Reading {
    ghost use Rattle.std.specs.Prelude.{◌≡◌, [], length, drop, Ok, IfOk, if◌then◌else◌};
    ghost use Rattle.vcd_dump.specs.Words.{Word};
    ghost use Rattle.vcd_dump.specs.Gives.{Gives, Makes};
    ghost use Rattle.vcd_dump.specs.Numbers.{number_in};
    ghost use Rattle.vcd_dump.specs.Header.{keyword_of, size_of, outer};
    ghost use Rattle.vcd_dump.specs.Body.{kind_of};
    ghost use Rattle.vcd_dump.specs.declared.header.Keyword.TheVariants as keyword;
    ghost use Rattle.vcd_dump.specs.Reading.{is_end, declaration, leave, skipped, scope_named, closed, var_sized, var_coded, var_named, var_selected, timed, scalar, vector, statement, vector_coded, unless_end, next, read_word, nothing_read, ended};

    /// Nothing is read yet, with room for the changes of a dump of so many bytes.
    fn with_room(alloc: Global, room: usize) -> Result<Reading, Memory>
        ensures { IfOk result (λ all. all ≡ nothing_read) }
    {
        let body = Body::with_room(alloc, room)?;
        Ok(Reading {
            expected: Expected::Declaration,
            header: Header {
                vars: List::new(alloc),
                codes: NameMap::new(alloc),
                scopes: Scopes::new(alloc),
            },
            kept: Kept::new(alloc),
            body,
        })
    }

    /// The innermost scope ends.
    fn leave(&mut self, left: usize) -> Result<(), Fault>
        ensures { Makes result self.new (leave (record { left = left; text = [] }) (outer self.old.header.scopes) self.old) }
    {
        if !self.header.scopes.leave() {
            return Err(Fault::Syntax { left });
        }
        self.expected = Expected::Close;
        Ok(())
    }

    /// The declarations end.
    fn leave_all(&mut self, left: usize, text: &[u8]) -> Result<(), Fault>
        ensures { Makes result self.new (declaration keyword.EndDefinitions (record { left = left; text = text.now }) self.old) }
    {
        if self.header.scopes.is_open() {
            return Err(Fault::Syntax { left });
        }
        self.expected = Expected::LastClose;
        Ok(())
    }

    /// What begins a declaration.
    fn declaration(&mut self, left: usize, text: &[u8]) -> Result<(), Fault>
        ensures { Makes result self.new (declaration (keyword_of text.now) (record { left = left; text = text.now }) self.old) }
    {
        match keyword_of(text) {
            Keyword::Text => {
                self.expected = Expected::Text;
                Ok(())
            }
            Keyword::Scope => {
                self.expected = Expected::ScopeType;
                Ok(())
            }
            Keyword::Upscope => self.leave(left),
            Keyword::Var => {
                self.expected = Expected::VarType;
                Ok(())
            }
            Keyword::EndDefinitions => self.leave_all(left, text),
            Keyword::Other => Err(Fault::Syntax { left }),
        }
    }

    /// Text up to its end.
    fn skip(&mut self, behind: Expected, again: Expected, text: &[u8])
        ensures { self.new ≡ next (if is_end text.now then behind else again) self.old }
    {
        self.expected = if is_end(text) { behind } else { again };
    }

    /// Any word but the end of a declaration.
    fn pass(&mut self, behind: Expected, left: usize, text: &[u8]) -> Result<(), Fault>
        ensures { Makes result self.new (unless_end (record { left = left; text = text.now }) (Ok (next behind self.old))) }
    {
        if is_end(text) {
            return Err(Fault::Syntax { left });
        }
        self.expected = behind;
        Ok(())
    }

    /// The end of a declaration.
    fn close(&mut self, behind: Expected, left: usize, text: &[u8]) -> Result<(), Fault>
        ensures { Makes result self.new (closed behind (record { left = left; text = text.now }) self.old) }
    {
        if !is_end(text) {
            return Err(Fault::Syntax { left });
        }
        self.expected = behind;
        Ok(())
    }

    /// The name of a scope.
    fn scope_name(&mut self, alloc: Global, left: usize, text: &[u8]) -> Result<(), Fault>
        ensures { Makes result self.new (scope_named (record { left = left; text = text.now }) self.old) }
    {
        if is_end(text) {
            return Err(Fault::Syntax { left });
        }
        self.header.scopes.enter(alloc, text)?;
        self.expected = Expected::Close;
        Ok(())
    }

    /// The size of a variable.
    fn var_size(&mut self, left: usize, text: &[u8]) -> Result<(), Fault>
        ensures { Makes result self.new (var_sized (size_of text.now) (record { left = left; text = text.now }) self.old) }
    {
        let Some(width) = size_of(text) else {
            return Err(Fault::Syntax { left });
        };
        self.expected = Expected::VarCode { width };
        Ok(())
    }

    /// The code of a variable.
    fn var_code(&mut self, alloc: Global, width: u32, left: usize, text: &[u8]) -> Result<(), Fault>
        ensures { Makes result self.new (var_coded width (record { left = left; text = text.now }) self.old) }
    {
        if is_end(text) {
            return Err(Fault::Syntax { left });
        }
        let code = declare_code(alloc, text, width, &mut self.header)?;
        self.expected = Expected::VarName { code };
        Ok(())
    }

    /// The reference of a variable.
    fn var_name(&mut self, code: Code, left: usize, text: &[u8]) -> Result<(), Fault>
        ensures { Makes result self.new (var_named code (record { left = left; text = text.now }) self.old) }
    {
        if is_end(text) {
            return Err(Fault::Syntax { left });
        }
        self.kept.keep(text)?;
        self.expected = Expected::VarSelect { code };
        Ok(())
    }

    /// A select, or the end of a variable.
    fn var_select(
        &mut self,
        alloc: Global,
        code: Code,
        left: usize,
        text: &[u8],
    ) -> Result<(), Fault>
        ensures { Makes result self.new (var_selected code (record { left = left; text = text.now }) self.old) }
    {
        if is_end(text) {
            add_var(alloc, self.kept.as_slice(), &[], code, &mut self.header)?;
            self.expected = Expected::Declaration;
            return Ok(());
        }
        if !begins_select(text) {
            return Err(Fault::Syntax { left });
        }
        add_var(alloc, self.kept.as_slice(), text, code, &mut self.header)?;
        self.expected = Expected::Close;
        Ok(())
    }

    /// A time.
    fn time(&mut self, alloc: Global, left: usize, text: &[u8]) -> Result<(), Fault>
        ensures { Makes result self.new (timed (number_in 10 (drop 1 text.now)) (record { left = left; text = text.now }) self.old) }
    {
        let Some(time) = number_in(10, behind_first(text)) else {
            return Err(Fault::Syntax { left });
        };
        self.body.at_time(alloc, left, time)
    }

    /// A digit and its code.
    fn scalar(&mut self, alloc: Global, left: usize, text: &[u8]) -> Result<(), Fault>
        ensures { Makes result self.new (scalar (record { left = left; text = text.now }) self.old) }
    {
        if text.len() < 2 {
            return Err(Fault::Syntax { left });
        }
        let (digit, letters) = text.split_at(1);
        let Some(code) = self.header.codes.get(letters) else {
            return Err(Fault::UnknownCode { left });
        };
        self.body.add(alloc, change_of(*code, digit))?;
        self.expected = Expected::Statement;
        Ok(())
    }

    /// The digits of a vector.
    fn vector(&mut self, left: usize, text: &[u8]) -> Result<(), Fault>
        ensures { Makes result self.new (vector (record { left = left; text = text.now }) self.old) }
    {
        let digits = behind_first(text);
        if !are_digits(digits) {
            return Err(Fault::Syntax { left });
        }
        self.kept.keep(digits)?;
        self.expected = Expected::VectorCode;
        Ok(())
    }

    /// The code of a vector.
    fn vector_code(&mut self, alloc: Global, left: usize, text: &[u8]) -> Result<(), Fault>
        ensures { Makes result self.new (vector_coded (record { left = left; text = text.now }) self.old) }
    {
        if is_end(text) {
            return Err(Fault::Syntax { left });
        }
        let Some(code) = self.header.codes.get(text) else {
            return Err(Fault::UnknownCode { left });
        };
        self.body
            .add(alloc, change_of(*code, self.kept.as_slice()))?;
        self.expected = Expected::Statement;
        Ok(())
    }

    /// A word among the changes.
    fn statement(&mut self, alloc: Global, left: usize, text: &[u8]) -> Result<(), Fault>
        ensures { Makes result self.new (statement (kind_of text.now) (record { left = left; text = text.now }) self.old) }
    {
        match kind_of(text) {
            Kind::Time => self.time(alloc, left, text),
            Kind::Scalar => self.scalar(alloc, left, text),
            Kind::Vector => self.vector(left, text),
            Kind::Skipped => {
                self.expected = Expected::SkippedCode;
                Ok(())
            }
            Kind::Mark => Ok(()),
            Kind::Comment => {
                self.expected = Expected::Comment;
                Ok(())
            }
            Kind::Other => Err(Fault::Syntax { left }),
        }
    }

    /// One word more, with so many bytes left where it begins.
    #[tactic(auto, unfolding(crate::specs::Reading::read_word))]
    fn read(&mut self, alloc: Global, left: usize, text: &[u8]) -> Result<(), Fault>
        ensures { Makes result self.new (read_word (record { left = left; text = text.now }) self.old) }
    {
        match self.expected {
            Expected::Declaration => self.declaration(left, text),
            Expected::Text => {
                self.skip(Expected::Declaration, Expected::Text, text);
                Ok(())
            }
            Expected::ScopeType => self.pass(Expected::ScopeName, left, text),
            Expected::ScopeName => self.scope_name(alloc, left, text),
            Expected::Close => self.close(Expected::Declaration, left, text),
            Expected::LastClose => self.close(Expected::Statement, left, text),
            Expected::VarType => self.pass(Expected::VarSize, left, text),
            Expected::VarSize => self.var_size(left, text),
            Expected::VarCode { width } => self.var_code(alloc, width, left, text),
            Expected::VarName { code } => self.var_name(code, left, text),
            Expected::VarSelect { code } => self.var_select(alloc, code, left, text),
            Expected::Statement => self.statement(alloc, left, text),
            Expected::Comment => {
                self.skip(Expected::Statement, Expected::Comment, text);
                Ok(())
            }
            Expected::VectorCode => self.vector_code(alloc, left, text),
            Expected::SkippedCode => self.pass(Expected::Statement, left, text),
        }
    }

    /// The dump that was read, where the text may end here.
    fn finish(self) -> Result<Dump, Fault>
        ensures { Gives result (ended self) }
    {
        let Reading {
            expected,
            header,
            kept: _,
            body,
        } = self;
        match expected {
            Expected::Statement => {
                Ok(Dump {
                    vars: header.vars,
                    steps: body.into_steps(),
                })
            }
            _ => Err(Fault::Syntax { left: 0 }),
        }
    }
}

/// Whether a word begins with a bracket.
fn begins_select(text: &[u8]) -> bool
    ensures { result ≡ is_open (slice_index text.now 0) }
{
    match text.first() {
        Some(byte) => *byte == b'[',
        None => false,
    }
}

/// The bytes behind the first.
fn behind_first(text: &[u8]) -> &[u8]
    ensures { result.now ≡ drop 1 text.now }
{
    match text.split_first() {
        Some((_, rest)) => rest,
        None => text,
    }
}

/// Reads all words.
fn read_words(alloc: Global, bytes: &[u8], all: &mut Reading) -> Result<(), Fault>
    ensures { Makes result all.new (read_words (words bytes.now) all.old) }
{
    let mut rest = bytes;
    while let Some((text, later)) = next_word(rest) {
        all.read(alloc, text.len() + later.len(), text)?;
        rest = later;
    }
    Ok(())
}

/// The dump that is all of the bytes, or their first fault.
#[tactic(auto, unfolding(crate::specs::Reading::whole))]
fn whole(alloc: Global, bytes: &[u8]) -> Result<Dump, Fault>
    ensures { Gives result (whole bytes.now) }
{
    let mut all = Reading::with_room(alloc, bytes.len())?;
    read_words(alloc, bytes, &mut all)?;
    all.finish()
}

/// The place where so many bytes are left, counted from the front.
fn place(total: usize, left: usize) -> u32
    requires { total ≤ longest_dump }
    ensures { result ≡ total - left }
{
    total.saturating_sub(left) as u32
}

/// The fault with its place counted from the front.
fn fault_told(total: usize, fault: Fault) -> DumpFault
    requires { total ≤ longest_dump }
    ensures { result ≡ told total fault }
{
    match fault {
        Fault::Syntax { left } => DumpFault::Syntax {
            at: place(total, left),
        },
        Fault::TimeBack { left } => DumpFault::TimeBack {
            at: place(total, left),
        },
        Fault::UnknownCode { left } => DumpFault::UnknownCode {
            at: place(total, left),
        },
        Fault::Memory => DumpFault::Memory,
    }
}

/// The dump that the bytes write; or the first fault in reading order, with its place. The bytes are at most 33,554,432.
#[tactic(auto, unfolding(crate::specs::Reading::reading))]
pub fn read_dump(alloc: Global, bytes: &[u8]) -> Result<Dump, DumpFault>
    requires { length bytes.now ≤ longest_dump }
    ensures { HasRead result (reading bytes.now) }
{
    match whole(alloc, bytes) {
        Ok(dump) => Ok(dump),
        Err(fault) => Err(fault_told(bytes.len(), fault)),
    }
}
