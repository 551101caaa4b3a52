//! What holds of frames and messages. Each function does nothing: it stands for the law that it ensures.
ghost use Rattle.std.specs.Prelude.{◌≡◌, ℕ, ◌+◌, ◌<◌, ◌≤◌, ◌^◌, List, [], ◌∷◌, ◌++◌, length, take, Ok, Err, true, false};
ghost use Rattle.cov_proto.specs.declared.replies.Reply.{Reply};
ghost use Rattle.cov_proto.specs.Frames.{frame};
ghost use Rattle.cov_proto.specs.Laws.{AreBytes, FailsBy, SpellsReply, BeginsReply, stops_reply, is_open, longest_field};
ghost use Rattle.cov_proto.specs.Limits.{IsReply, HasReplyType};
ghost use Rattle.cov_proto.specs.Replies.{reply_read};
ghost use Rattle.cov_proto.specs.Spelled.{reply_spelled};

pub use request_forms::laws::{
    bytes_have_one_request, faults_of_requests_are_decided_early, fronts_of_requests_fail,
    more_bytes_than_requests_have, read_requests_are_spelled, requests_begin_before_faults,
    spelled_requests_are_read,
};

/// The spelling of each reply is read as that reply.
pub fn spelled_replies_are_read()
    ensures { (r : Reply) → IsReply r → HasReplyType r → reply_read (reply_spelled r) ≡ Ok r }
{}

/// What is read as a reply is its spelling.
pub fn read_replies_are_spelled()
    ensures { (body : List ℕ) (r : Reply) → AreBytes body
        → reply_read body ≡ Ok r → SpellsReply r body }
{}

/// Bytes spell one reply at most.
pub fn bytes_have_one_reply()
    ensures { (r q : Reply) (body : List ℕ) → SpellsReply r body → SpellsReply q body → r ≡ q }
{}

/// A fault's place is at most the body's length, and what stands before it begins a reply.
pub fn replies_begin_before_faults()
    ensures { (body : List ℕ) (at : ℕ) → AreBytes body
        → reply_read body ≡ Err at → (at ≤ length body) × BeginsReply (take at body) }
{}

/// A fault is decided by the bytes up to the end of the field: those behind it don't matter.
pub fn faults_of_replies_are_decided_early()
    ensures { (body more : List ℕ) (at : ℕ) → AreBytes body
        → reply_read body ≡ Err at → at + longest_field ≤ length body
        → reply_read (take (at + longest_field) body ++ more) ≡ Err at }
{}

/// A byte behind a reply that no text at its end takes, and no further row, is at fault.
pub fn more_bytes_than_replies_have()
    ensures { (r : Reply) (byte : ℕ) (more : List ℕ) → IsReply r → HasReplyType r
        → stops_reply r.body byte more ≡ true
        → reply_read (reply_spelled r ++ byte ∷ more) ≡ Err (length (reply_spelled r)) }
{}

/// A reply without a text or rows at its end that is cut anywhere is at fault, at most at the place of the cut.
pub fn fronts_of_replies_fail()
    ensures { (body : List ℕ) (r : Reply) (n : ℕ) → AreBytes body → SpellsReply r body
        → is_open r.body ≡ false → n < length body → FailsBy n (reply_read (take n body)) }
{}

/// No frame is the front of another, so that frames may follow one another.
pub fn frames_are_no_fronts()
    ensures { (body other more : List ℕ) → length body < 2 ^ 32 → length other < 2 ^ 32
        → frame body ++ more ≡ frame other → (body ≡ other) × (more ≡ []) }
{}
