//! The header of a journal.
ghost use Rattle.std.specs.Prelude.{◌≡◌, ◌≢◌, ◌++◌, ◌∷◌, [], take, MatchOption};
ghost use Rattle.journal_bytes.specs.Items.{letters, header};

/// What each journal begins with.
const LETTERS: [u8; 8] = *b"CVJL\0\0\0\x01";

/// A journal without items, for the design text of this SHA-256: its header and a shut gate.
pub fn empty_journal(digest: &[u8; 32]) -> [u8; 41]
    ensures { result ≡ header digest.now ++ 0 ∷ [] }
{
    let mut bytes = [0; 41];
    bytes[..8].copy_from_slice(&LETTERS);
    bytes[8..40].copy_from_slice(digest);
    bytes
}

/// The SHA-256 that the first 41 bytes of a journal name, and none where they don't begin one.
pub fn kept_digest(bytes: &[u8; 41]) -> Option<[u8; 32]>
    ensures { MatchOption result (take 8 bytes.now ≢ letters) (λ digest. take 40 bytes.now ≡ header digest) }
{
    if !bytes.starts_with(&LETTERS) {
        return None;
    }
    let mut digest = [0; 32];
    digest.copy_from_slice(&bytes[8..40]);
    Some(digest)
}
