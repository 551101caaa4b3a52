//! Where a session stands between two bodies.
ghost use Rattle.std.specs.Prelude.{◌≡◌, None};
ghost use Rattle.ucis_model.specs.declared.answers.Answer.TheVariants as answers;
ghost use Rattle.cov_proto.specs.declared.replies.Body.TheVariants as bodies;
ghost use Rattle.answer_frames.specs.Frames.{IsWritable};

use cov_proto::{Body, Reply};
use ucis_model::Answer;
use upload_stage::Stage;

/// The stage, and the point of the last reply.
#[derive(Drop)]
pub struct Talk {
    pub(crate) stage: Stage,
    pub(crate) point: u64,
}

impl Talk {
    /// A session that begins at a point, with no upload.
    pub fn new(point: u64) -> Talk
        ensures stage { result.stage ≡ None }
        ensures point { result.point ≡ point }
    {
        Talk {
            stage: Stage::new(),
            point,
        }
    }

    pub(crate) fn says(&self, body: Body) -> Reply
        requires { IsWritable body }
        ensures point { result.point ≡ self.now.point }
        ensures body { result.body ≡ body }
        ensures writable { IsWritable result.body }
    {
        Reply {
            point: self.point,
            body,
        }
    }

    /// Memory, at the point of the last reply.
    #[tactic(auto, unfolding(answer_frames::specs::Frames::IsWritable, cov_proto::specs::Spelled::body_fields, cov_proto::specs::Spelled::answer_fields))]
    pub(crate) fn lacks(&self) -> Reply
        ensures point { result.point ≡ self.now.point }
        ensures body { result.body ≡ bodies.Store answers.Memory }
        ensures writable { IsWritable result.body }
    {
        self.says(Body::Store(Answer::Memory))
    }

    #[tactic(auto, unfolding(answer_frames::specs::Frames::IsWritable, cov_proto::specs::Spelled::body_fields, cov_proto::specs::Spelled::answer_fields))]
    pub(crate) fn done(&self) -> Reply
        ensures point { result.point ≡ self.now.point }
        ensures body { result.body ≡ bodies.Done }
        ensures writable { IsWritable result.body }
    {
        self.says(Body::Done)
    }

    #[tactic(auto, unfolding(answer_frames::specs::Frames::IsWritable, cov_proto::specs::Spelled::body_fields, cov_proto::specs::Spelled::answer_fields))]
    pub(crate) fn farewell(&self) -> Reply
        ensures point { result.point ≡ self.now.point }
        ensures body { result.body ≡ bodies.Farewell }
        ensures writable { IsWritable result.body }
    {
        self.says(Body::Farewell)
    }

    #[tactic(auto, unfolding(answer_frames::specs::Frames::IsWritable, cov_proto::specs::Spelled::body_fields, cov_proto::specs::Spelled::answer_fields))]
    pub(crate) fn bad_message(&self, at: u32) -> Reply
        ensures point { result.point ≡ self.now.point }
        ensures body { result.body ≡ bodies.BadMessage at }
        ensures writable { IsWritable result.body }
    {
        self.says(Body::BadMessage { at })
    }

    /// What is answered by a turn; the point is that after it.
    pub(crate) fn answers(&mut self, point: u64, answer: Answer) -> Reply
        requires { IsWritable (bodies.Store answer) }
        ensures stage { self.new.stage ≡ self.old.stage }
        ensures moved { self.new.point ≡ point }
        ensures point { result.point ≡ point }
        ensures body { result.body ≡ bodies.Store answer }
        ensures writable { IsWritable result.body }
    {
        self.point = point;
        self.says(Body::Store(answer))
    }
}
