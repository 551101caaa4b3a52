//! A text of JSON that is written token by token.
ghost use Rattle.std.specs.Prelude.{◌≡◌, ℕ, [], ◌∷◌, ◌++◌, IfOk, OnOk};
ghost use Rattle.json.specs.Token.{begin_object, end_object, begin_array, end_array, key as key_token};
ghost use Rattle.json.specs.Tree.{json_tokens};
ghost use Rattle.json.specs.Print.{print};
ghost use Rattle.json_text.specs.Values.{text as text_value, number as number_value, truth as truth_value, member_tokens};

use crate::characters::{as_text, characters_of};
use cov_ground::Memory;
use itoa::Buffer;
use json::Writer;
use std::alloc::Global;
use std::marker::Model;

/// 2^53 - 1: whole numbers up to this one are exact for every reader (RFC 8259, section 6).
const MOST_EXACT: u128 = 9_007_199_254_740_991;

/// A text of JSON, built in one buffer. It places commas and colons; that brackets close one another is its caller's.
/// Contracts see the tokens that are written.
#[derive(Drop)]
pub struct JsonWriter {
    alloc: Global,
    writer: Writer,
}

impl Model for JsonWriter {
    ghost use Rattle.std.specs.Prelude.{◌≡◌, List, []};
    ghost use Rattle.json.specs.Token.{Token, tokens_code};

    ghost Value = { List Token };

    ghost coded = { tokens_code };

    ghost view = { λ w. w.writer.tokens };

    ghost invariant = { λ w. w.writer.before ≡ [] };
}

impl JsonWriter {
    /// Nothing is written so far.
    pub fn new(alloc: Global) -> JsonWriter
        ensures { result ≡ [] }
    {
        JsonWriter {
            alloc,
            writer: Writer::new(Vec::new(alloc)),
        }
    }

    /// Begins an object: its members follow, and then `end_object`.
    pub fn begin_object(&mut self) -> Result<(), Memory>
        ensures { OnOk result (self.new ≡ self.old ++ begin_object ∷ []) }
    {
        self.writer.begin_object()?;
        Ok(())
    }

    /// Ends an object.
    pub fn end_object(&mut self) -> Result<(), Memory>
        ensures { OnOk result (self.new ≡ self.old ++ end_object ∷ []) }
    {
        self.writer.end_object()?;
        Ok(())
    }

    /// Begins an array: its values follow, and then `end_array`.
    pub fn begin_array(&mut self) -> Result<(), Memory>
        ensures { OnOk result (self.new ≡ self.old ++ begin_array ∷ []) }
    {
        self.writer.begin_array()?;
        Ok(())
    }

    /// Ends an array.
    pub fn end_array(&mut self) -> Result<(), Memory>
        ensures { OnOk result (self.new ≡ self.old ++ end_array ∷ []) }
    {
        self.writer.end_array()?;
        Ok(())
    }

    /// The name of a member, whose value follows.
    pub fn key(&mut self, name: &str) -> Result<(), Memory>
        ensures { OnOk result (self.new ≡ self.old ++ key_token name.now ∷ []) }
    {
        self.writer.key(name)?;
        Ok(())
    }

    /// A string of bytes, each of which is the character of its number, U+0000 to U+00FF. No memory but the text's is taken
    /// where all of them are ASCII.
    pub fn text(&mut self, bytes: &[u8]) -> Result<(), Memory>
        ensures { OnOk result (self.new ≡ self.old ++ json_tokens (text_value bytes.now)) }
    {
        if let Some(text) = as_text(bytes) {
            self.writer.string(text)?;
            return Ok(());
        }
        let text = characters_of(self.alloc, bytes)?;
        self.writer.string(text.as_str())?;
        Ok(())
    }

    /// A whole number: up to 2^53 - 1 as one, above as a string of its digits.
    #[tactic(auto, unfolding(crate::specs::Values::number))]
    pub fn number(&mut self, number: u128) -> Result<(), Memory>
        ensures { OnOk result (self.new ≡ self.old ++ json_tokens (number_value number)) }
    {
        if number <= MOST_EXACT {
            self.writer.u64(number as u64)?;
            return Ok(());
        }
        let mut buffer = Buffer::new();
        self.writer.string(buffer.format(number))?;
        Ok(())
    }

    /// `true` or `false`.
    pub fn truth(&mut self, holds: bool) -> Result<(), Memory>
        ensures { OnOk result (self.new ≡ self.old ++ json_tokens (truth_value holds)) }
    {
        self.writer.boolean(holds)?;
        Ok(())
    }

    /// A member whose value is a string of bytes.
    #[tactic(auto, unfolding(crate::specs::Values::member_tokens))]
    pub fn text_member(&mut self, name: &str, bytes: &[u8]) -> Result<(), Memory>
        ensures { OnOk result (self.new ≡ self.old ++ member_tokens (name.now, text_value bytes.now)) }
    {
        self.key(name)?;
        self.text(bytes)
    }

    /// A member whose value is a whole number.
    #[tactic(auto, unfolding(crate::specs::Values::member_tokens))]
    pub fn number_member(&mut self, name: &str, number: u128) -> Result<(), Memory>
        ensures { OnOk result (self.new ≡ self.old ++ member_tokens (name.now, number_value number)) }
    {
        self.key(name)?;
        self.number(number)
    }

    /// A member whose value is a truth value.
    #[tactic(auto, unfolding(crate::specs::Values::member_tokens))]
    pub fn truth_member(&mut self, name: &str, holds: bool) -> Result<(), Memory>
        ensures { OnOk result (self.new ≡ self.old ++ member_tokens (name.now, truth_value holds)) }
    {
        self.key(name)?;
        self.truth(holds)
    }

    /// The text of all that is written, with a newline at its end.
    pub fn into_line(self) -> Result<Vec<u8>, Memory>
        ensures { IfOk result (λ text. text.items ≡ print self ++ 10 ∷ []) }
    {
        let JsonWriter { writer, .. } = self;
        let mut text = writer.into_inner();
        text.push(b'\n')?;
        Ok(text)
    }
}
