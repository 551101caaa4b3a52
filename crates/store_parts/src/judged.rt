//! What becomes of a record.
use crate::AdmitFault;
use cov_history::Amounts;

/// What becomes of a record, apart from want of memory.
pub enum Judged {
    /// It is here: the point after its first admission.
    Here { point: u64 },
    /// It is refused, and not for want of memory.
    Refused(AdmitFault),
    /// It may be admitted: what the history amounts to afterwards.
    May(Amounts),
}
