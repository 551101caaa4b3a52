//! A record that is kept as its bytes.
ghost use Rattle.std.specs.Prelude.{◌≡◌, IfOk};
ghost use Rattle.sha2.specs.Sha256.{sha256};
ghost use Rattle.record_codec.specs.Spelling.{spelling};
ghost use Rattle.sampler.specs.Encoded.{AreRecord, AreRecord-prop};

use cov_base::Memory;
use cov_tree::Name;
use record_codec::{Record, RecordFault, decode, encode};
use sha2::{Digest, Sha256};
use std::alloc::Global;
use std::marker::Model;

/// A record as its bytes, with their digest and with what a test is listed by. Its events stand in the bytes alone.
/// Contracts see it as the record that the bytes spell.
pub struct EncodedRecord {
    bytes: Vec<u8>,
    digest: [u8; 32],
    id: Name,
    status: u8,
    seed: u64,
    time: u64,
    user: Name,
    ghost are: { AreRecord bytes.items } by { AreRecord-prop bytes.items },
}

impl Drop for EncodedRecord {
    fn drop(self) {
        let EncodedRecord {
            bytes: _,
            digest: _,
            id: _,
            status: _,
            seed: _,
            time: _,
            user: _,
        } = self;
    }
}

impl Model for EncodedRecord {
    ghost use Rattle.std.specs.Prelude.{◌≡◌};
    ghost use Rattle.sha2.specs.Sha256.{sha256};
    ghost use Rattle.sampler.specs.Encoded.{the_record};
    ghost use Rattle.record_codec.specs.declared.record.Record.{Record};
    ghost use Rattle.record_codec.specs.contracts.record.Record as record_type;

    ghost Value = { Record };

    ghost coded = { record_type.the_row.coded };

    ghost view = { λ e. the_record e.are };

    ghost invariant = { λ e. (e.digest ≡ sha256 e.bytes.items)
        × (e.id ≡ (the_record e.are).id)
        × (e.status ≡ (the_record e.are).status)
        × (e.seed ≡ (the_record e.are).seed)
        × (e.time ≡ (the_record e.are).time)
        × (e.user ≡ (the_record e.are).user) };
}

impl EncodedRecord {
    /// The record as its bytes. It takes no more memory than they need.
    pub fn of(alloc: Global, rec: Record) -> Result<EncodedRecord, Memory>
        ensures { IfOk result (λ e. e ≡ rec) }
    {
        let mut bytes = encode(alloc, &rec)?;
        bytes.shrink_to_fit();
        let digest = Sha256::digest(bytes.as_slice());
        Ok(EncodedRecord {
            bytes,
            digest,
            id: rec.id,
            status: rec.status,
            seed: rec.seed,
            time: rec.time,
            user: rec.user,
        })
    }

    /// The record, with its events.
    #[tactic(auto, unfolding(crate::specs::Encoded::the_record))]
    pub fn decode(&self, alloc: Global) -> Result<Record, Memory>
        ensures { IfOk result (λ r. r ≡ self.now) }
    {
        match decode(alloc, self.bytes.as_slice()) {
            Ok(rec) => Ok(rec),
            Err(RecordFault::Memory) => Err(Memory),
            Err(_) => unreachable!(),
        }
    }

    /// Its bytes.
    #[tactic(auto, unfolding(crate::specs::Encoded::the_record))]
    pub fn bytes(&self) -> &[u8]
        ensures { result.now ≡ spelling self.now }
    {
        self.bytes.as_slice()
    }

    /// The SHA-256 of its bytes. It was taken when the record was encoded.
    #[tactic(auto, unfolding(crate::specs::Encoded::the_record))]
    pub fn digest(&self) -> [u8; 32]
        ensures { result ≡ sha256 (spelling self.now) }
    {
        self.digest
    }

    /// The test's name.
    pub fn id(&self) -> &Name
        ensures { result.now ≡ self.now.id }
    {
        &self.id
    }

    /// How the test ended: 0 OK, 1 WARNING, 2 ERROR, 3 FATAL.
    pub fn status(&self) -> u8
        ensures { result ≡ self.now.status }
    {
        self.status
    }

    /// The seed of its random numbers.
    pub fn seed(&self) -> u64
        ensures { result ≡ self.now.seed }
    {
        self.seed
    }

    /// The simulated time, in units of the simulation's own.
    pub fn time(&self) -> u64
        ensures { result ≡ self.now.time }
    {
        self.time
    }

    /// Who ran it.
    pub fn user(&self) -> &Name
        ensures { result.now ≡ self.now.user }
    {
        &self.user
    }
}
