// A block at the head of bytes (§6.1): its size, its kind, its body and what stands behind it, of any bytes.
ghost use Rattle.std.specs.Prelude.{◌≡◌, ◌<◌, get_or};
ghost use Rattle.model.specs.Listing.{size_at, body_at, behind, is_block};
ghost use Rattle.list.specs.Blocks.{block_len};

// The byte at a place. It is 0 past the end, and no Option: there the definitions of size, kind and key read zeros.
pub fn byte_at(bytes: &[u8], i: usize) -> u8
    ensures { result ≡ get_or bytes.now i 0 }
{
    bytes.get(i).copied().unwrap_or(0)
}

// The size of the body: four bytes, low byte first.
fn size_at(bytes: &[u8]) -> usize
    ensures value { result ≡ size_at bytes.now }
    ensures small { result < 4294967296 }
{
    u32::from_le_bytes([
        byte_at(bytes, 0),
        byte_at(bytes, 1),
        byte_at(bytes, 2),
        byte_at(bytes, 3),
    ]) as usize
}

// Whether a whole block of a kind stands at the head. A kind is the number that the bytes hold (§6.1), as in model's `is_block`.
#[tactic(auto, using(model::proofs::Laws::Heads::kind_bytes))]
pub(crate) fn is_block(bytes: &[u8], kind: u16) -> bool
    ensures { result ≡ is_block kind bytes.now }
{
    6 <= bytes.len()
        && 6 + size_at(bytes) <= bytes.len()
        && u16::from_le_bytes([byte_at(bytes, 4), byte_at(bytes, 5)]) == kind
}

// How many bytes the block takes, all where it is cut.
fn block_len(bytes: &[u8]) -> usize
    ensures { result ≡ block_len bytes.now }
{
    bytes.len().min(6 + size_at(bytes))
}

// The body, as far as it is there.
pub fn body(bytes: &[u8]) -> &[u8]
    ensures { result.now ≡ body_at bytes.now }
{
    let end = block_len(bytes);
    &bytes[end.min(6)..end]
}

// What stands behind the block.
pub fn rest(bytes: &[u8]) -> &[u8]
    ensures { result.now ≡ behind bytes.now }
{
    &bytes[block_len(bytes)..]
}
