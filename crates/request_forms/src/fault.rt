//! Where reading stops.
ghost use Rattle.std.specs.Prelude.{◌≡◌, ◌-◌, ◌≤◌};
ghost use Rattle.request_forms.specs.declared.fault.Fault.TheVariants as faults;
ghost use Rattle.request_forms.specs.Frames.{longest_body};

use std::alloc::{AllocError, AllocFailed};

/// The field or the byte at fault has so many bytes left, its own among them.
#[derive(Clone, Copy, PartialEq, Eq)]
pub struct BadAt {
    pub left: usize,
}

/// Why what takes memory stops.
#[derive(Clone, Copy, PartialEq, Eq)]
pub enum Fault {
    /// At a fault that has so many bytes left.
    At { left: usize },
    /// Memory ran out.
    Memory,
}

impl From<BadAt> for Fault {
    ghost from_gives = { λ b e. e ≡ faults.At b.left };

    fn from(bad: BadAt) -> Self {
        Fault::At { left: bad.left }
    }
}

impl From<cov_tree::Memory> for Fault {
    ghost from_gives = { λ _ e. e ≡ faults.Memory };

    fn from(_: cov_tree::Memory) -> Self {
        Fault::Memory
    }
}

impl<T: Drop> From<AllocFailed<T>> for Fault {
    ghost from_gives = { λ _ e. e ≡ faults.Memory };

    fn from(_: AllocFailed<T>) -> Self {
        Fault::Memory
    }
}

impl From<AllocError> for Fault {
    ghost from_gives = { λ _ e. e ≡ faults.Memory };

    fn from(_: AllocError) -> Self {
        Fault::Memory
    }
}

/// The place where so many bytes are left, counted from the front.
pub fn place(total: usize, left: usize) -> u32
    requires { total ≤ longest_body }
    ensures { result ≡ total - left }
{
    total.saturating_sub(left) as u32
}
