//! Records that are left out.
ghost use Rattle.std.specs.Prelude.{◌≡◌, ◌∷◌, ◌++◌, [], codes, decimal, length, drop, true, false, IfOk, OnOk};
ghost use Rattle.covd_commands.specs.Origins.{origin_of};
ghost use Rattle.covd_filling.specs.Left.{left_line, name_of as name_meant, without_last, refusal_cause, ended_cause as ended_meant};
ghost use Rattle.covd_filling.specs.Steps.{IsLeft, Notes};

use crate::admitting::Taking;
use appending::{append, append_number};
use cov_base::Memory;
use covd_commands::Status;
use covd_commands::answer::Answer;
use covd_commands::origins::Origin;
use covd_commands::stop::Stop;
use std::alloc::Global;
use store_views::status_word;

/// The records that were left out.
#[derive(Drop)]
pub struct Left {
    /// A line for each.
    pub text: Vec<u8>,
    /// Whether one of them could not be taken in.
    pub partly: bool,
}

/// The name of the k-th record that comes from there: its file's, or the id that the generator gives it.
fn name_of(alloc: Global, origin: Origin, k: u64) -> Result<Vec<u8>, Memory>
    ensures { IfOk result (λ name. name.items ≡ name_meant (origin_of origin.entry) k) }
{
    let mut name = Vec::new(alloc);
    match origin {
        Origin::File(file) => append(&mut name, file.as_bytes())?,
        Origin::Made(_) => {
            append(&mut name, b"t")?;
            append_number(&mut name, k)?;
        }
    }
    Ok(name)
}

/// How the test of a record ended that isn't asked for.
fn ended_cause(alloc: Global, status: u8) -> Result<Vec<u8>, Memory>
    ensures { IfOk result (λ cause. cause.items ≡ ended_meant status) }
{
    let mut cause = Vec::new(alloc);
    append(&mut cause, b"status ")?;
    append(&mut cause, status_word(status).as_bytes())?;
    Ok(cause)
}

/// What stands on a line between so many bytes at its front and its last byte.
fn behind_front(front: usize, line: &[u8]) -> &[u8]
    ensures { result.now ≡ without_last (drop front line.now) }
{
    match line.get(front..) {
        Some(rest) => &rest[..rest.len().saturating_sub(1)],
        None => &[],
    }
}

/// What the line of the k-th record says behind its number and these words.
fn cause_behind(alloc: Global, k: u64, words: &str, line: &[u8]) -> Result<Vec<u8>, Memory>
    ensures { IfOk result (λ cause. cause.items
        ≡ without_last (drop (length (codes "record " ++ (decimal k ++ words.now))) line.now)) }
{
    let mut front = Vec::new(alloc);
    append(&mut front, b"record ")?;
    append_number(&mut front, k)?;
    append(&mut front, words.as_bytes())?;
    let mut cause = Vec::new(alloc);
    append(&mut cause, behind_front(front.len(), line))?;
    Ok(cause)
}

/// What the line of a file says that is too long.
fn too_long_cause(alloc: Global, name: &[u8], line: &[u8]) -> Result<Vec<u8>, Memory>
    ensures { IfOk result (λ cause. cause.items
        ≡ codes "too long " ++ without_last (drop (length (codes "too long " ++ (name.now ++ 32 ∷ []))) line.now)) }
{
    let mut front = Vec::new(alloc);
    append(&mut front, b"too long ")?;
    append(&mut front, name)?;
    append(&mut front, b" ")?;
    let mut cause = Vec::new(alloc);
    append(&mut cause, b"too long ")?;
    append(&mut cause, behind_front(front.len(), line))?;
    Ok(cause)
}

/// Why the k-th record, of this name, isn't taken in, as its answer says.
fn cause_of(alloc: Global, k: u64, name: &[u8], answer: &Answer) -> Result<Vec<u8>, Memory>
    ensures { IfOk result (λ cause. cause.items ≡ refusal_cause answer.now.status k name.now answer.now.text.items) }
{
    let line = answer.text.as_slice();
    match answer.status {
        Status::RecordRefused => cause_behind(alloc, k, " refused ", line),
        Status::AdmitRefused => cause_behind(alloc, k, " not admitted ", line),
        Status::FileTooLong => too_long_cause(alloc, name, line),
        _ => {
            let mut cause = Vec::new(alloc);
            append(&mut cause, b"cannot read")?;
            Ok(cause)
        }
    }
}

/// The line of the k-th record, which is left out.
fn append_line(text: &mut Vec<u8>, k: u64, cause: &[u8], name: &[u8]) -> Result<(), Memory>
    ensures { OnOk result (text.new.items ≡ text.old.items ++ left_line k cause.now name.now) }
{
    append(text, b"left ")?;
    append_number(text, k)?;
    append(text, b" ")?;
    append(text, cause)?;
    append(text, b" ")?;
    append(text, name)?;
    append(text, b"\n")
}

impl Left {
    ghost use Rattle.std.specs.Prelude.{◌≡◌, [], true, false, OnOk};
    ghost use Rattle.covd_commands.specs.Origins.{origin_of};
    ghost use Rattle.covd_filling.specs.Left.{left_line, name_of as name_meant, refusal_cause, ended_cause as ended_meant};
    ghost use Rattle.covd_filling.specs.Steps.{IsLeft, Notes};

    /// None.
    pub(crate) fn none(alloc: Global) -> Left
        ensures text { result.text.items ≡ [] }
        ensures partly { result.partly ≡ false }
    {
        Left {
            text: Vec::new(alloc),
            partly: false,
        }
    }

    /// The k-th record is left out, since its test ended so.
    fn unpassed(&mut self, alloc: Global, k: u64, origin: Origin, status: u8) -> Result<(), Memory>
        ensures { OnOk result (IsLeft (left_line k (ended_meant status) (name_meant (origin_of origin.entry) k)) false
            self.old self.new) }
    {
        let name = name_of(alloc, origin, k)?;
        let cause = ended_cause(alloc, status)?;
        append_line(&mut self.text, k, cause.as_slice(), name.as_slice())
    }

    /// The k-th record is left out, since it couldn't be taken in.
    fn refused(
        &mut self,
        alloc: Global,
        k: u64,
        origin: Origin,
        answer: &Answer,
    ) -> Result<(), Memory>
        ensures { let name = name_meant (origin_of origin.entry) k in
            OnOk result (IsLeft (left_line k (refusal_cause answer.now.status k name answer.now.text.items) name) true
            self.old self.new) }
    {
        let name = name_of(alloc, origin, k)?;
        let cause = cause_of(alloc, k, name.as_slice(), answer)?;
        append_line(&mut self.text, k, cause.as_slice(), name.as_slice())?;
        self.partly = true;
        Ok(())
    }

    /// What became of the k-th record: a line more where it is left out. A refusal ends the command, unless others are to be
    /// taken in all the same.
    pub(crate) fn note(
        &mut self,
        alloc: Global,
        keep_going: bool,
        k: u64,
        origin: Origin,
        taken: Result<Taking, Stop>,
    ) -> Result<(), Stop>
        ensures { Notes keep_going k (origin_of origin.entry) self.old self.new taken result }
    {
        match taken {
            Ok(Taking::Taken) => Ok(()),
            Ok(Taking::Unpassed(status)) => Ok(self.unpassed(alloc, k, origin, status)?),
            Err(Stop::Refused(answer)) if keep_going => Ok(self.refused(
                alloc, k, origin, &answer,
            )?),
            Err(stop) => Err(stop),
        }
    }
}
