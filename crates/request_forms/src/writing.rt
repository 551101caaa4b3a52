//! Appending to a `Vec` that has room, which takes no memory.
ghost use Rattle.std.specs.Prelude.{◌≡◌, ◌+◌, ◌≤◌, ◌++◌, ◌∷◌, length, vec_len, vec_capacity};
ghost use Rattle.std.specs.Int.{w32, w64, to_be_bytes};

/// Appends where there is room.
#[inline]
pub fn append(out: &mut Vec<u8>, bytes: &[u8])
    requires { vec_len out.old + length bytes.now ≤ vec_capacity out.old }
    ensures items { out.new.items ≡ out.old.items ++ bytes.now }
    ensures room { vec_capacity out.old ≤ vec_capacity out.new }
{
    let _ = out.extend_from_slice(bytes);
}

/// Appends a byte and others.
#[inline]
pub fn append_tagged(out: &mut Vec<u8>, tag: u8, bytes: &[u8])
    requires { vec_len out.old + (1 + length bytes.now) ≤ vec_capacity out.old }
    ensures items { out.new.items ≡ out.old.items ++ (tag ∷ bytes.now) }
    ensures room { vec_capacity out.old ≤ vec_capacity out.new }
{
    append(out, &[tag]);
    append(out, bytes);
}

/// Appends a number and bytes.
#[inline]
pub fn append_u32_and(out: &mut Vec<u8>, number: u32, bytes: &[u8])
    requires { vec_len out.old + (4 + length bytes.now) ≤ vec_capacity out.old }
    ensures items { out.new.items ≡ out.old.items ++ (to_be_bytes w32 number ++ bytes.now) }
    ensures room { vec_capacity out.old ≤ vec_capacity out.new }
{
    append(out, &number.to_be_bytes());
    append(out, bytes);
}

/// Appends a number and bytes.
#[inline]
pub fn append_u64_and(out: &mut Vec<u8>, number: u64, bytes: &[u8])
    requires { vec_len out.old + (8 + length bytes.now) ≤ vec_capacity out.old }
    ensures items { out.new.items ≡ out.old.items ++ (to_be_bytes w64 number ++ bytes.now) }
    ensures room { vec_capacity out.old ≤ vec_capacity out.new }
{
    append(out, &number.to_be_bytes());
    append(out, bytes);
}
