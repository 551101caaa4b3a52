//! Where a frame ends.
ghost use Rattle.std.specs.Prelude.{◌≡◌, ◌<◌, ◌^◌, ◌++◌, length, MatchOption};
ghost use Rattle.std.specs.Int.{w32, to_be_bytes};
ghost use Rattle.cov_proto.specs.Frames.{Steps};

/// What bytes begin with.
#[derive(Clone, Copy, PartialEq, Eq)]
pub enum FrameStep {
    /// Less than a frame.
    More,
    /// A frame, whose body has this many bytes.
    Body { len: u32 },
    /// A length that no body has: 0, or above 1,048,640.
    BadLength { len: u32 },
}

/// The most bytes of a body.
pub const LONGEST_BODY: u32 = 1_048_640;

// The number in the first four bytes, and what follows them.
fn split_length(bytes: &[u8]) -> Option<(u32, &[u8])>
    ensures { MatchOption result (length bytes.now < 4)
        (λ r. (r.0 < 2 ^ 32) × (bytes.now ≡ to_be_bytes w32 r.0 ++ r.1.now)) }
{
    if bytes.len() < 4 {
        return None;
    }
    let (head, rest) = bytes.split_at(4);
    Some((
        u32::from_be_bytes([head[0], head[1], head[2], head[3]]),
        rest,
    ))
}

/// What the bytes begin with: the length of a body in four bytes, and the body. It takes no memory.
pub fn next_frame(bytes: &[u8]) -> FrameStep
    ensures { Steps bytes.now result }
{
    let Some((len, rest)) = split_length(bytes) else {
        return FrameStep::More;
    };
    if len == 0 {
        return FrameStep::BadLength { len };
    }
    if len > LONGEST_BODY {
        return FrameStep::BadLength { len };
    }
    if rest.len() < len as usize {
        FrameStep::More
    } else {
        FrameStep::Body { len }
    }
}
