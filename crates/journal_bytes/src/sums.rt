//! The sums of items.
ghost use Rattle.std.specs.Prelude.{◌≡◌, ◌++◌};
ghost use Rattle.sha2.specs.Sha256.{sha256};

use sha2::{Digest, Sha256};

/// The sum of an item with this head and these bytes, behind one with the sum `before`. Before the first item stands the
/// digest of the journal's design text.
pub fn sum_behind(before: &[u8; 32], head: &[u8; 9], content: &[u8]) -> [u8; 32]
    ensures { result ≡ sha256 (before.now ++ (head.now ++ sha256 content.now)) }
{
    let mut hasher = Sha256::new();
    hasher.update(before);
    hasher.update(head);
    let own = Sha256::digest(content);
    hasher.update(&own);
    hasher.finalize()
}
