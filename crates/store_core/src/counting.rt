//! Records counted under a design.
ghost use Rattle.std.specs.Prelude.{◌≡◌, ◌<◌, ◌≤◌, ◌^◌, All, length, map, sum_by, IfOk};
ghost use Rattle.std.specs.Arc.{arc_value};
ghost use Rattle.tally.specs.Rows.{rows_from, count_in, Adds, HasRoom};
ghost use Rattle.ucis_model.specs.declared.answers.Which.TheVariants.{Tests};
ghost use Rattle.sampler.specs.Plans.{IsDesignPlan};
ghost use Rattle.cov_history.specs.Tallies.{tally as tally_meant};
ghost use Rattle.cov_history.specs.History.{bins_hit, most};
ghost use Rattle.cov_history.specs.Sums.{all_hits};
ghost use Rattle.store_core.specs.Rebins.{tallies_of as tallies_meant, AreSums};

use crate::parts::tallies_in_threads;
use cov_base::Memory;
use cov_tree::List;
use design_data::Design;
use record_codec::Record;
use sampler::{EncodedRecord, Plan, Planned, bin_record_under};
use std::alloc::Global;
use std::sync::Arc;
use std::thread::Threads;
use tally::Tally;

/// What records count under a design.
#[derive(Drop)]
pub(crate) struct Counted {
    pub(crate) tallies: Vec<Arc<Tally>>,
    pub(crate) counts: Vec<u64>,
    pub(crate) entries: u64,
}

fn tally_of(
    alloc: Global,
    plan: &Plan,
    design: &Design,
    content: &Record,
) -> Result<Arc<Tally>, Memory>
    requires { IsDesignPlan design.now.instances plan.now }
    ensures { IfOk result (λ tally. arc_value tally ≡ rows_from 0 (tally_meant design.now content.now)) }
{
    let tally = bin_record_under(alloc, plan, design, content)?;
    let shared = Arc::new(alloc, tally)?;
    Ok(shared)
}

/// The tally of a record, which is decoded for that alone.
fn decoded_tally(
    alloc: Global,
    plan: &Plan,
    design: &Design,
    content: &EncodedRecord,
) -> Result<Arc<Tally>, Memory>
    requires { IsDesignPlan design.now.instances plan.now }
    ensures { IfOk result (λ tally. arc_value tally ≡ rows_from 0 (tally_meant design.now content.now)) }
{
    let rec = content.decode(alloc)?;
    let tally = tally_of(alloc, plan, design, &rec)?;
    Ok(tally)
}

/// The tally of each record, in order.
pub(crate) fn tallies_of(
    alloc: Global,
    plan: &Plan,
    design: &Design,
    records: &[Arc<EncodedRecord>],
) -> Result<Vec<Arc<Tally>>, Memory>
    requires { IsDesignPlan design.now.instances plan.now }
    ensures { IfOk result (λ tallies. map arc_value tallies.items ≡ tallies_meant design.now (map arc_value records.now)) }
{
    let mut tallies = Vec::new(alloc);
    for content in records {
        tallies.push(decoded_tally(alloc, plan, design, content)?)?;
    }
    Ok(tallies)
}

/// The records once more, shared.
pub(crate) fn shared_records(
    alloc: Global,
    records: &[Arc<EncodedRecord>],
) -> Result<List<Arc<EncodedRecord>>, Memory>
    ensures { IfOk result (λ list. map arc_value list ≡ map arc_value records.now) }
{
    let mut list = Vec::new(alloc);
    for content in records {
        list.push(content.clone()?)?;
    }
    Ok(List::of(list))
}

/// Adds a tally.
fn add(counts: &mut Vec<u64>, tally: &Tally)
    requires inside { All (λ row. row.0 < length counts.old.items) tally.now }
    requires room { HasRoom (count_in tally.now) counts.old.items }
    ensures { Adds (count_in tally.now) counts.old.items counts.new.items }
{
    tally.add_into(counts.as_mut_slice());
}

/// How often the records hit each bin together.
fn sums(
    alloc: Global,
    design: &Design,
    records: &[Arc<EncodedRecord>],
    tallies: &[Arc<Tally>],
) -> Result<Vec<u64>, Memory>
    requires few { length records.now ≤ most Tests }
    requires tallies { map arc_value tallies.now ≡ tallies_meant design.now (map arc_value records.now) }
    ensures { IfOk result (λ counts. AreSums design.now (map arc_value records.now) counts.items) }
{
    let mut counts = vec![in alloc; 0u64; design.bin_count() as usize]?;
    for place in 0..records.len() {
        add(&mut counts, &tallies[place]);
    }
    Ok(counts)
}

/// How many bins the tests hit, each test counted for itself.
fn entries(tallies: &[Arc<Tally>]) -> u64
    requires { sum_by (λ tally. length (arc_value tally)) tallies.now < 2 ^ 64 }
    ensures { result ≡ sum_by (λ tally. length (arc_value tally)) tallies.now }
{
    tallies.iter().map(|tally| tally.rows().len() as u64).sum()
}

/// Counts the records under the design, in as many threads as there are processors.
pub(crate) fn count_records<R: Threads + Sync>(
    rt: &R,
    alloc: Global,
    design: &Planned,
    records: &[Arc<EncodedRecord>],
) -> Result<Counted, Memory>
    requires { length records.now ≤ most Tests }
    ensures tallies { IfOk result (λ counted. map arc_value counted.tallies.items ≡ tallies_meant design.now (map arc_value records.now)) }
    ensures counts { IfOk result (λ counted. counted.counts.items ≡ all_hits design.now (map arc_value records.now)) }
    ensures entries { IfOk result (λ counted. counted.entries ≡ sum_by (bins_hit design.now) (map arc_value records.now)) }
{
    let plan = design.plan();
    let tallies = tallies_in_threads(rt, alloc, plan, design.design(), records)?;
    let counts = sums(alloc, design.design(), records, tallies.as_slice())?;
    let entries = entries(tallies.as_slice());
    Ok(Counted {
        tallies,
        counts,
        entries,
    })
}
