//! A record that is binned and encoded.
ghost use Rattle.std.specs.Prelude.{◌≡◌, IfOk};
ghost use Rattle.std.specs.Arc.{arc_value};
ghost use Rattle.sha2.specs.Sha256.{sha256};
ghost use Rattle.record_codec.specs.Spelling.{spelling};
ghost use Rattle.sampler_plans.specs.Plans.{IsDesignPlan};
ghost use Rattle.sampler.specs.Plans.{IsTallyOf};

use crate::EncodedRecord;
use crate::binning::{bin_record, bin_record_under};
use cov_base::{Gate, Memory};
use cov_tree::Name;
use design_data::Design;
use record_codec::Record;
use sampler_plans::Plan;
use std::alloc::Global;
use std::marker::Model;
use std::sync::Arc;
use tally::Tally;

/// A record as its encoding, with its tally under a design. Its events stand in the encoding alone.
#[derive(Drop)]
pub struct Prepared {
    design: Arc<Design>,
    rec: Arc<EncodedRecord>,
    tally: Arc<Tally>,
}

impl Model for Prepared {
    ghost use Rattle.std.specs.Arc.{arc_value};
    ghost use Rattle.record_codec.specs.Spelling.{spelling};
    ghost use Rattle.sampler.specs.Plans.{IsTallyOf};
    ghost use Rattle.sampler.specs.Preparing.{Whole};
    ghost use Rattle.std.specs.Coded.{codes};
    ghost use Rattle.design_data.specs.contracts.design.Design as design_type;
    ghost use Rattle.record_codec.specs.contracts.record.Record as record_type;

    ghost Value = { Whole };

    ghost coded = { Prim.hlevel (codes, design_type.the_row.coded, record_type.the_row.coded) };

    ghost view = { λ p. record {
      under = arc_value p.design;
      of = arc_value p.rec;
      content = spelling (arc_value p.rec);
      counted = arc_value p.tally;
    } };

    ghost invariant = { λ p. IsTallyOf (arc_value p.design) (arc_value p.rec) (arc_value p.tally) };
}

impl Prepared {
    /// The record with its encoding and the digest of that, and with this tally, which is its own under the design.
    pub fn of(
        alloc: Global,
        design: &Arc<Design>,
        rec: Record,
        tally: Tally,
    ) -> Result<Prepared, Memory>
        requires { IsTallyOf (arc_value design.now) rec tally }
        ensures design { IfOk result (λ p. p.under ≡ arc_value design.now) }
        ensures of { IfOk result (λ p. p.of ≡ rec) }
    {
        Prepared::of_encoded(alloc, design, EncodedRecord::of(alloc, rec)?, tally)
    }

    /// The same of a record that is encoded already.
    pub fn of_encoded(
        alloc: Global,
        design: &Arc<Design>,
        rec: EncodedRecord,
        tally: Tally,
    ) -> Result<Prepared, Memory>
        requires { IsTallyOf (arc_value design.now) rec tally }
        ensures design { IfOk result (λ p. p.under ≡ arc_value design.now) }
        ensures of { IfOk result (λ p. p.of ≡ rec) }
    {
        let rec = Arc::new(alloc, rec)?;
        let tally = Arc::new(alloc, tally)?;
        let design = design.clone()?;
        Ok(Prepared { design, rec, tally })
    }

    /// The design under which it is binned.
    pub fn design(&self) -> &Arc<Design>
        ensures { arc_value result.now ≡ self.now.under }
    {
        &self.design
    }

    /// The record as its encoding, shared.
    pub fn record(&self) -> &Arc<EncodedRecord>
        ensures { arc_value result.now ≡ self.now.of }
    {
        &self.rec
    }

    /// The name of the record's test.
    pub fn id(&self) -> &Name
        ensures { result.now ≡ self.now.of.id }
    {
        self.rec.id()
    }

    /// The record's encoding.
    pub fn bytes(&self) -> &[u8]
        ensures bytes { result.now ≡ self.now.content }
        ensures spelled { self.now.content ≡ spelling self.now.of }
    {
        self.rec.bytes()
    }

    /// The SHA-256 of the record's encoding. It was taken when the record was prepared.
    pub fn digest(&self) -> [u8; 32]
        ensures { result ≡ sha256 (spelling self.now.of) }
    {
        self.rec.digest()
    }

    /// How often each bin of the design is hit in the record.
    pub fn tally(&self) -> &Arc<Tally>
        ensures tally { arc_value result.now ≡ self.now.counted }
        ensures counted { IsTallyOf self.now.under self.now.of self.now.counted }
    {
        &self.tally
    }

    /// Gives away the record and the tally. It takes no memory.
    pub fn into_parts(self) -> (Arc<EncodedRecord>, Arc<Tally>)
        ensures of { arc_value result.0 ≡ self.of }
        ensures tally { arc_value result.1 ≡ self.counted }
        ensures counted { IsTallyOf self.under self.of self.counted }
    {
        (self.rec, self.tally)
    }
}

/// The record with its encoding and its tally under the design. The gate is passed at place 1 before the record is binned
/// and at place 2 after it.
pub fn prepare<G: Gate>(
    alloc: Global,
    design: &Arc<Design>,
    rec: Record,
    gate: &G,
) -> Result<Prepared, Memory>
    ensures design { IfOk result (λ p. p.under ≡ arc_value design.now) }
    ensures of { IfOk result (λ p. p.of ≡ rec) }
{
    gate.pass(1);
    let tally = bin_record(alloc, design, &rec)?;
    gate.pass(2);
    Prepared::of(alloc, design, rec, tally)
}

/// The same by what is worked out of the design, for callers that prepare many records under one design.
pub fn prepare_under<G: Gate>(
    alloc: Global,
    plan: &Plan,
    design: &Arc<Design>,
    rec: Record,
    gate: &G,
) -> Result<Prepared, Memory>
    requires { IsDesignPlan (arc_value design.now).instances plan.now }
    ensures design { IfOk result (λ p. p.under ≡ arc_value design.now) }
    ensures of { IfOk result (λ p. p.of ≡ rec) }
{
    gate.pass(1);
    let tally = bin_record_under(alloc, plan, design, &rec)?;
    gate.pass(2);
    Prepared::of(alloc, design, rec, tally)
}
