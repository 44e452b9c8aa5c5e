ghost use Rattle.std.specs.Prelude.{◌≡◌, ℕ, ◌<◌, ◌≤◌, ◌^◌, ◌++◌, List, length, take, drop, Ok};
ghost use Rattle.std.specs.Prelude.{IfOk, IfErr, OnOk, OnErr};
ghost use Rattle.wire.specs.Steps.{Gives};
ghost use Rattle.wire.specs.Varint.{varint, varint_at, varint_by, IsShortest, HasVarintFault};

use crate::error::WireError;
use std::alloc::{AllocError, Allocator};

/// The most bytes that a number of 64 bits takes, seven bits a byte.
const MAX_LEN: usize = 10;

/// The number at the front, and how many bytes it takes. What comes after them isn't looked at.
pub fn read_varint(bytes: &[u8]) -> Result<(u64, usize), WireError>
    ensures exact { Gives (λ found. (found.0, drop found.1 bytes.now)) result
        (varint_at bytes.now) }
    ensures length { IfOk result (λ found. found.1 ≤ length bytes.now) }

    // What is read is the number's one spelling, and a number's spelling is read.
    ensures found { IfOk result (λ found. take found.1 bytes.now ≡ varint found.0) }
    ensures only { (n : ℕ) (rest : List ℕ) → n < 2 ^ 64 → bytes.now ≡ varint n ++ rest
        → result ≡ Ok (n, length (varint n)) }
    ensures fault { IfErr result (λ e. HasVarintFault e bytes.now) }
{
    scan_varint(bytes, true)
}

/// The number at the front, in its shortest form or in any, and how many bytes it takes.
pub(crate) fn scan_varint(bytes: &[u8], shortest: bool) -> Result<(u64, usize), WireError>
    ensures exact { Gives (λ found. (found.0, drop found.1 bytes.now)) result
        (varint_by shortest bytes.now) }
    ensures length { IfOk result (λ found. found.1 ≤ length bytes.now) }
{
    let mut value = 0;
    let mut place = 1;
    for (i, byte) in bytes.iter().enumerate() {
        let byte = u64::from(*byte);
        if i == 9 && byte > 1 {
            return Err(WireError::VarintTooLong);
        }
        if byte < 128 {
            if shortest && byte == 0 && i > 0 {
                return Err(WireError::NotMinimal);
            }
            return Ok((value + byte * place, i + 1));
        }
        value += (byte - 128) * place;
        place *= 128;
    }
    Err(WireError::Truncated)
}

/// Writes the number at the end, in its shortest form. Without memory the buffer stays.
pub fn write_varint<A: Allocator>(out: &mut Vec<u8, A>, value: u64) -> Result<(), AllocError>
    ensures appended { OnOk result (out.new.items ≡ out.old.items ++ varint value) }
    ensures shortest { IsShortest value (varint value) }
    ensures kept { OnErr result (out.new.items ≡ out.old.items) }
{
    let mut groups = [0; MAX_LEN];
    let mut len = 0;
    let mut rest = value;
    while rest >= 128 {
        groups[len] = (rest % 128 + 128) as u8;
        len += 1;
        rest /= 128;
    }
    groups[len] = rest as u8;
    out.extend_from_slice(&groups[..=len])
}
