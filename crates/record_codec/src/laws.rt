//! What holds of the form itself. Each function does nothing: it stands for the law that it ensures.
ghost use Rattle.std.specs.Prelude.{◌≡◌, ℕ, ◌<◌, ◌≤◌, List, [], ◌∷◌, ◌++◌, length, take, Ok};
ghost use Rattle.cov_ground.specs.Limits.{longest_record};
ghost use Rattle.record_codec.specs.declared.record.Fields.{Fields};
ghost use Rattle.record_codec.specs.declared.record.Record.{Record};
ghost use Rattle.record_codec.specs.Spelling.{spelling, fields_of, Encodes};
ghost use Rattle.record_codec.specs.Reading.{AreBytes, reading, HasFault};
ghost use Rattle.record_codec.specs.Laws.{IsCut, IsDecidedEarly, IsNoCut};
ghost use Rattle.record_codec.specs.declared.fault.RecordFault.{RecordFault};
ghost use Rattle.record_codec.specs.declared.fault.RecordFault.TheVariants.{Trailing};

/// Bytes spell one record at most: a record is known from its bytes.
pub fn bytes_have_one_record()
    ensures { (bytes : List ℕ) (r q : Record) → Encodes r bytes → Encodes q bytes → r ≡ q }
{}

/// No record's bytes are the front of another's, so that records may follow one another.
pub fn records_are_no_fronts()
    ensures { (r q : Record) (more : List ℕ) → spelling r ++ more ≡ spelling q → (r ≡ q) ×
        (more ≡ []) }
{}

/// The bytes of each record are read as that record, however many they are.
pub fn spelled_is_read()
    ensures { (r : Record) → reading (spelling r) ≡ Ok (fields_of r) }
{}

/// What is read is the one record that the bytes spell.
pub fn read_is_spelled()
    ensures { (bytes : List ℕ) (f : Fields) → AreBytes bytes → length bytes ≤ longest_record
        → reading bytes ≡ Ok f → (r : Record) × (fields_of r ≡ f) × Encodes r bytes }
{}

/// A record that is cut anywhere is Short, at most at the place of the cut.
pub fn fronts_are_short()
    ensures { (r : Record) (n : ℕ) → n < length (spelling r) → IsCut (take n (spelling r)) }
{}

/// Bytes behind a record are Trailing, at the record's length.
pub fn more_bytes_are_trailing()
    ensures { (r : Record) (byte : ℕ) (more : List ℕ) → HasFault (spelling r ++ byte ∷ more)
        (Trailing (length (spelling r))) }
{}

/// Bytes that agree up to the end of the field that is at fault have the same fault.
pub fn faults_are_decided_early()
    ensures { (bytes : List ℕ) (fault : RecordFault) → HasFault bytes fault → IsNoCut fault →
        IsDecidedEarly bytes fault }
{}
