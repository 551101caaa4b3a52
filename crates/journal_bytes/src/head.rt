//! The head of an item.
ghost use Rattle.std.specs.Prelude.{◌≡◌, ◌++◌, ◌∷◌};
ghost use Rattle.std.specs.Int.{w32, to_be_bytes};

/// What stands before the bytes of an item: who made it, the number of its kind, and how many bytes follow.
#[derive(Clone, Copy, Debug, PartialEq, Eq)]
pub struct Head {
    pub caller: u32,
    pub kind: u8,
    pub length: u32,
}

impl Head {
    /// The nine bytes of a head, numbers with the high byte first.
    pub fn to_bytes(&self) -> [u8; 9]
        ensures { result ≡ to_be_bytes w32 self.now.caller ++ self.now.kind ∷ to_be_bytes w32 self.now.length }
    {
        let [a, b, c, d] = self.caller.to_be_bytes();
        let [e, f, g, h] = self.length.to_be_bytes();
        [a, b, c, d, self.kind, e, f, g, h]
    }

    /// The head that nine bytes are. Any nine are one.
    pub fn from_bytes(bytes: [u8; 9]) -> Head
        ensures { bytes ≡ to_be_bytes w32 result.caller ++ result.kind ∷ to_be_bytes w32 result.length }
    {
        let [a, b, c, d, kind, e, f, g, h] = bytes;
        Head {
            caller: u32::from_be_bytes([a, b, c, d]),
            kind,
            length: u32::from_be_bytes([e, f, g, h]),
        }
    }
}
