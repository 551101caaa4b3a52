//! The tokens of a text.
ghost use Rattle.std.specs.Prelude.{◌≡◌, ◌≤◌, ◌≢◌, length, IfOk, IfErr};
ghost use Rattle.cov_ground.specs.Limits.{longest_design};
ghost use Rattle.cov_lexer.specs.declared.token.LexFault.TheVariants.{Memory};
ghost use Rattle.cov_lexer.specs.Lexes.{Lexes, IsLexFault, Ascend, AllWithin};

use crate::pieces::piece_at;
use crate::token::{LexFault, Token};
use std::alloc::Global;

/// The tokens of a text of at most 1,048,576 bytes, each the longest that begins at its place.
///
/// Blanks and comments stand between tokens. The first fault of the text is answered in place of the tokens.
pub fn lex(alloc: Global, text: &[u8]) -> Result<Vec<Token>, LexFault>
    requires { length text.now ≤ longest_design }
    ensures read { IfOk result (λ tokens. Lexes text.now tokens.items) }
    ensures only { IfOk result
        (λ tokens. (others : _) → Lexes text.now others → others ≡ tokens.items) }
    ensures ascend { IfOk result (λ tokens. Ascend 0 tokens.items (length text.now)) }
    ensures within { IfOk result (λ tokens. AllWithin text.now tokens.items) }
    ensures sound { IfOk result (λ _. (fault : _) → IsLexFault text.now fault → ⊥) }
    ensures cause { IfErr result (λ fault. fault ≢ Memory → IsLexFault text.now fault) }
    ensures only_cause { IfErr result
        (λ fault. fault ≢ Memory → (other : _) → IsLexFault text.now other → other ≡ fault) }
    ensures none { IfErr result
        (λ fault. fault ≢ Memory → (tokens : _) → Lexes text.now tokens → ⊥) }
{
    let mut tokens = Vec::new(alloc);
    let mut at = 0;
    while at < text.len() {
        let found = piece_at(text, at)?;
        if let Some(sort) = found.sort {
            tokens.push(Token {
                kind: sort.kind,
                spelled: sort.spelled,
                at: at as u32,
                len: (found.end - at) as u32,
            })?;
        }
        at = found.end;
    }
    Ok(tokens)
}
