//! Places at which a caller may be held.

/// Something to pass on the way.
pub trait Gate {
    /// Passes the place: 1 before the samples of a record are counted, 2 after it. It promises nothing but its return,
    /// where it returns.
    fn pass(&self, place: u32);
}

/// A gate that holds nobody.
#[derive(Clone, Copy, PartialEq, Eq)]
pub struct OpenGate;

impl Gate for OpenGate {
    fn pass(&self, place: u32) {
        let _place = place;
    }
}
