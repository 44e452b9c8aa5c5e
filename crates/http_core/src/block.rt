ghost use Rattle.std.specs.Prelude.{◌≡◌, ◌≢◌, ℕ, ◌≤◌, ◌<◌, ◌⊎◌, ◌↔◌, List, [], ◌∷◌, ◌++◌};
ghost use Rattle.std.specs.Prelude.{◌-◌, Some, length, slice_get, take, IsTrue};
ghost use Rattle.std.specs.List.{AllByRecursion};
ghost use Rattle.http_core.specs.Block.{EndsBlock, IsBlock};

/// The greatest length of a block: of the lines of a head, with the empty one at their end.
pub const MAX_BLOCK: usize = 16384;

/// The bytes up to and including the first line feed: at most `most` of them, but at least one.
pub(crate) fn first_line(bytes: &[u8], most: usize) -> &[u8]
    requires { 0 < length bytes.now }
    ensures line { (front : List ℕ) × (last : ℕ) × (result.now ≡ front ++ last ∷ [])
        × AllByRecursion (λ b. b ≢ 10) front }
    ensures most { (length result.now ≤ most) ⊎ (length result.now ≡ 1) }
    ensures front { result.now ≡ take (length result.now) bytes.now }
    ensures within { length result.now ≤ length bytes.now }
    ensures whole { (length result.now ≡ length bytes.now) ⊎ (most ≤ length result.now)
        ⊎ (slice_get bytes.now (length result.now - 1) ≡ Some 10) }
{
    let mut last = 0;
    while last + 1 < bytes.len() && last + 1 < most && bytes[last] != b'\n' {
        last += 1;
    }
    let (line, _) = bytes.split_at(last + 1);
    line
}

/// Whether the bytes are the block of a head: they end where the first of their beginnings does
/// that ends in an empty line.
pub(crate) fn is_block(bytes: &[u8]) -> bool
    ensures { IsTrue result ↔ IsBlock bytes.now }
{
    let mut end = 0;
    while end < bytes.len() {
        let (front, _) = bytes.split_at(end);
        if ends_block(front) {
            return false;
        }
        end += 1;
    }
    ends_block(bytes)
}

/// Whether the bytes end in a line and then an empty line.
pub(crate) fn ends_block(bytes: &[u8]) -> bool
    ensures { IsTrue result ↔ EndsBlock bytes.now }
{
    bytes.ends_with(b"\r\n\r\n")
}
