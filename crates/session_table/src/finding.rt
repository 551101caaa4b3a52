//! What the bytes of a whole upload are.
ghost use Rattle.std.specs.Prelude.{◌≡◌, ◌≤◌, length};
ghost use Rattle.std.specs.Arc.{arc_value};
ghost use Rattle.cov_ground.specs.Limits.{longest_design, longest_record};
ghost use Rattle.cov_compile.specs.Compiling.{is_memory, IsDesignFault};
ghost use Rattle.record_codec.specs.Reading.{HasFault};
ghost use Rattle.answer_frames.specs.Frames.{IsWritable};
ghost use Rattle.session_table.specs.Says.{FindsRecord, FindsText, Refuses, IsFaultBody};
ghost use Rattle.session_table.specs.Contents.{IsContent, IsTextContent};
ghost use Rattle.session_table.specs.Table.{said_to, said_to_text, record_refusal};

use crate::tables::tables_apart;
use cov_compile::{CompileFault, Compiled, refusal_of};
use cov_ground::limits::LONGEST_DESIGN;
use cov_proto::Body;
use cov_tree::Name;
use design_data::Design;
use record_codec::{Record, RecordFault, decode};
use sampler::shape_fits;
use std::alloc::Global;
use ucis_model::Answer;

// How a reply says why bytes are no record.
#[tactic(auto, unfolding(answer_frames::specs::Frames::IsWritable, cov_proto::specs::Spelled::body_fields, cov_proto::specs::Spelled::answer_fields))]
fn no_record(fault: RecordFault) -> Body
    ensures body { result ≡ record_refusal fault }
    ensures writable { IsWritable result }
{
    match fault {
        RecordFault::Short { at } => Body::BadRecord {
            code: 1,
            number: at as u64,
        },
        RecordFault::BadMagic => Body::BadRecord { code: 2, number: 0 },
        RecordFault::BadVersion { v } => Body::BadRecord {
            code: 3,
            number: v as u64,
        },
        RecordFault::BadField { at } => Body::BadRecord {
            code: 4,
            number: at as u64,
        },
        RecordFault::TooManyEvents { n } => Body::BadRecord { code: 5, number: n },
        RecordFault::Trailing { at } => Body::BadRecord {
            code: 6,
            number: at as u64,
        },
        RecordFault::Memory => Body::Store(Answer::Memory),
    }
}

/// The record that the bytes encode, whose tables are the opening design's; or what is replied instead.
#[tactic(auto, unfolding(answer_frames::specs::Frames::IsWritable, cov_proto::specs::Spelled::body_fields, cov_proto::specs::Spelled::answer_fields))]
pub(crate) fn record_of(alloc: Global, opening: &Design, bytes: &[u8]) -> Result<Record, Body>
    requires { length bytes.now ≤ longest_record }
    ensures { FindsRecord opening.now bytes.now result }
{
    let rec = match decode(alloc, bytes) {
        Ok(rec) => rec,
        Err(fault) => return Err(no_record(fault)),
    };
    match shape_fits(opening, &rec) {
        Ok(()) => Ok(rec),
        Err(wrong) => Err(Body::WrongShape { at: wrong.at }),
    }
}

// How a reply says why a text declares no design.
#[tactic(auto, unfolding(answer_frames::specs::Frames::IsWritable, cov_proto::specs::Spelled::body_fields, cov_proto::specs::Spelled::answer_fields))]
fn no_design(alloc: Global, fault: CompileFault) -> Body
    ensures body { IsFaultBody fault result }
    ensures writable { IsWritable result }
{
    let Some(refusal) = refusal_of(fault) else {
        return Body::Store(Answer::Memory);
    };
    match Name::of(alloc, refusal.kind.as_bytes()) {
        Ok(kind) => Body::BadDesign {
            at: refusal.at,
            kind,
        },
        Err(_) => Body::Store(Answer::Memory),
    }
}

// The same for a text that isn't too long.
fn short_text_of(alloc: Global, opening: &Design, text: &[u8]) -> Result<Compiled, Body>
    requires short { length text.now ≤ longest_design }
    ensures { FindsText opening.now text.now result }
{
    let compiled = match Compiled::of(alloc, text) {
        Ok(compiled) => compiled,
        Err(fault) => return Err(no_design(alloc, fault)),
    };
    match tables_apart(opening, compiled.design()) {
        None => Ok(compiled),
        Some(at) => Err(Body::ShapeDiffers { at }),
    }
}

/// The text with the design that it declares, whose tables are the opening design's; or what is replied instead.
#[tactic(auto, unfolding(answer_frames::specs::Frames::IsWritable, cov_proto::specs::Spelled::body_fields, cov_proto::specs::Spelled::answer_fields))]
pub(crate) fn text_of(alloc: Global, opening: &Design, text: &[u8]) -> Result<Compiled, Body>
    ensures { FindsText opening.now text.now result }
{
    if text.len() > LONGEST_DESIGN as usize {
        return Err(Body::TooLong {
            n: text.len() as u64,
        });
    }
    short_text_of(alloc, opening, text)
}
