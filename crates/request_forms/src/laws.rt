//! What holds of requests. Each function does nothing: it stands for the law that it ensures.
ghost use Rattle.std.specs.Prelude.{◌≡◌, ℕ, ◌+◌, ◌<◌, ◌≤◌, List, ◌∷◌, ◌++◌, length, take, Ok, Err, true, false};
ghost use Rattle.request_forms.specs.declared.requests.Request.{Request};
ghost use Rattle.request_forms.specs.Laws.{AreBytes, FailsBy, SpellsRequest, BeginsRequest, stops_request, longest_field};
ghost use Rattle.request_forms.specs.Limits.{IsRequest, HasRequestType};
ghost use Rattle.request_forms.specs.Requests.{request_read, has_text};
ghost use Rattle.request_forms.specs.Spelled.{request_spelled};

/// The spelling of each request is read as that request.
pub fn spelled_requests_are_read()
    ensures { (r : Request) → IsRequest r → HasRequestType r
        → request_read (request_spelled r) ≡ Ok r }
{}

/// What is read as a request is its spelling.
pub fn read_requests_are_spelled()
    ensures { (body : List ℕ) (r : Request) → AreBytes body
        → request_read body ≡ Ok r → SpellsRequest r body }
{}

/// Bytes spell one request at most.
pub fn bytes_have_one_request()
    ensures { (r q : Request) (body : List ℕ) → SpellsRequest r body → SpellsRequest q body → r
        ≡ q }
{}

/// A fault's place is at most the body's length, and what stands before it begins a request.
pub fn requests_begin_before_faults()
    ensures { (body : List ℕ) (at : ℕ) → AreBytes body
        → request_read body ≡ Err at → (at ≤ length body) × BeginsRequest (take at body) }
{}

/// A fault is decided by the bytes up to the end of the field: those behind it don't matter.
pub fn faults_of_requests_are_decided_early()
    ensures { (body more : List ℕ) (at : ℕ) → AreBytes body
        → request_read body ≡ Err at → at + longest_field ≤ length body
        → request_read (take (at + longest_field) body ++ more) ≡ Err at }
{}

/// A byte behind a request that no text at its end takes is at fault, whatever follows it.
pub fn more_bytes_than_requests_have()
    ensures { (r : Request) (byte : ℕ) (more : List ℕ) → IsRequest r → HasRequestType r
        → stops_request r byte ≡ true
        → request_read (request_spelled r ++ byte ∷ more) ≡ Err (length (request_spelled r)) }
{}

/// A request without a text that is cut anywhere is at fault, at most at the place of the cut.
pub fn fronts_of_requests_fail()
    ensures { (body : List ℕ) (r : Request) (n : ℕ) → AreBytes body → SpellsRequest r body
        → has_text r ≡ false → n < length body → FailsBy n (request_read (take n body)) }
{}
