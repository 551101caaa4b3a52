//! An item of a journal, as it is read.
ghost use Rattle.std.specs.Prelude.{◌≡◌, ◌<◌, ◌^◌, length};
ghost use Rattle.journal_bytes.specs.Items.{head_of};
ghost use Rattle.journal_file.specs.Ending.{item_of};

use journal_bytes::Head;

/// An item: who made it, the number of its kind, and its bytes, fewer than 2^32.
#[derive(Drop)]
pub struct Entry {
    pub caller: u32,
    pub kind: u8,
    pub content: Vec<u8>,
}

impl Entry {
    /// The nine bytes before its own.
    pub fn head(&self) -> [u8; 9]
        requires { length self.now.content.items < 2 ^ 32 }
        ensures { result ≡ head_of (item_of self.now) }
    {
        let head = Head {
            caller: self.caller,
            kind: self.kind,
            length: self.content.len() as u32,
        };
        head.to_bytes()
    }
}
