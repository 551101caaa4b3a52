//! Numbers without order.

/// The number after this one in a row of numbers without order.
pub fn after(number: u64) -> u64 {
    number
        .wrapping_mul(6_364_136_223_846_793_005)
        .wrapping_add(1_442_695_040_888_963_407)
}
