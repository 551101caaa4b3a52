//! The sums beside a journal.
ghost use Rattle.std.specs.Prelude.{◌≡◌};
ghost use Rattle.journal_file.specs.Damage.{whole, Compares};

/// How many whole sums these bytes are.
pub(crate) fn whole_sums(sums: &[u8]) -> u64
    ensures { result ≡ whole sums.now }
{
    sums.len() as u64 / 32
}

/// Whether the sum at this place, if there is a whole one, is this.
pub(crate) fn agrees_at(sums: &[u8], place: u64, sum: &[u8; 32]) -> bool
    ensures { Compares sums.now place sum.now result }
{
    if place >= whole_sums(sums) {
        return true;
    }
    let at = 32 * place as usize;
    if sums[at..at + 32] == sum[..] {
        return true;
    }
    false
}
