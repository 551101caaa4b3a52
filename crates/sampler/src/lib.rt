//! Street: sampling.
//!
//! Records under designs: how often each bin of a design is hit in a record.
#![tactic(auto)]

mod binning;
mod encoded;
mod instance;
mod lists;
mod planned;
mod prepared;
mod quick;
mod starting;
mod values;
mod walking;

pub use binning::{bin_record, bin_record_under, counts_under, part_counts, tally_of, zeros};
pub use encoded::EncodedRecord;
pub use instance::{InstState, ItemState};
pub use planned::Planned;
pub use prepared::{Prepared, prepare, prepare_under};
pub use sampler_plans::{InstPlan, ItemPlan, Plan, WrongShape, label, labels_at, shape_fits};
