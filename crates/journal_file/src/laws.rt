//! What holds of journals that are opened. Each function does nothing: it stands for the law that it ensures.
ghost use Rattle.journal_file.specs.Laws.{SumsTellDamage, RightIsOpened};

/// Items that agree with the sums of others are the same as far as there are sums, unless SHA-256 has a known collision.
pub fn sums_tell_damage()
    ensures { SumsTellDamage }
{}

/// A file that stands for items, beside sums that agree with them, is refused by a fault of the machine alone.
pub fn a_right_journal_is_opened()
    ensures { RightIsOpened }
{}
