ghost use Rattle.std.specs.Prelude.{◌≡◌, ◌≤◌, ◌↔◌, ℕ, ◌<◌, List, [], ◌∷◌, ◌++◌, slice_index};
ghost use Rattle.std.specs.Prelude.{IsTrue, IsSome, IfSome, IfOk, Some, Ok, string_bytes, decimal};
ghost use Rattle.std.specs.List.{AllPass};
ghost use Rattle.hex.specs.Hex.{encode_lower, lower_digits};
ghost use Rattle.blob_digest.specs.DigestValue.{DigestValue, IsDigest, IsHash, greatest_size};
ghost use Rattle.blob_digest.specs.Text.{digest_text, is_lower_hex, IsHashText, BeginsWithHash};
ghost use Rattle.blob_digest.specs.Text.{IsDecimal};

use crate::digest::{Digest, GREATEST_SIZE};
use crate::error::DigestError;
use std::alloc::{AllocError, Allocator};

/// What a lower-case hex digit stands for.
fn read_digit(digit: u8) -> Option<u8>
    ensures some { IsSome result ↔ IsTrue (is_lower_hex digit) }
    ensures found { IfSome result
        (λ value. (value < 16) × (slice_index lower_digits value ≡ digit)) }
{
    match digit {
        b'0'..=b'9' => Some(digit - b'0'),
        b'a'..=b'f' => Some(digit - b'a' + 10),
        _ => None,
    }
}

/// The byte that two lower-case hex digits spell.
fn read_byte(high: u8, low: u8) -> Option<u8>
    ensures some { IsSome result ↔ (IsTrue (is_lower_hex high) × IsTrue (is_lower_hex low)) }
    ensures found { IfSome result
        (λ byte. (byte < 256) × (encode_lower (byte ∷ []) ≡ high ∷ low ∷ [])) }
{
    Some(read_digit(high)? * 16 + read_digit(low)?)
}

/// The hash that the text spells: 64 lower-case hex digits, and nothing else.
pub fn read_hash(text: &[u8]) -> Option<[u8; 32]>
    ensures some { IsSome result ↔ IsHashText text.now }
    ensures found { IfSome result (λ hash. IsHash hash × (text.now ≡ encode_lower hash)) }
    ensures only { (hash : List ℕ) → IsHash hash → text.now ≡ encode_lower hash
        → result ≡ Some hash }
{
    if text.len() != 64 {
        return None;
    }
    let mut hash = [0; 32];
    for place in 0..32 {
        hash[place] = read_byte(text[2 * place], text[2 * place + 1])?;
    }
    Some(hash)
}

fn is_decimal(text: &[u8]) -> bool
    ensures { IsTrue result ↔ IsDecimal text.now }
{
    match text {
        [] => false,
        [b'0'] => true,
        [first, ..] => *first != b'0' && text.iter().all(u8::is_ascii_digit),
    }
}

/// The size that the text spells: a decimal in range, without a leading zero.
fn read_size(text: &[u8]) -> Option<u64>
    ensures found { IfSome result (λ size. (size ≤ greatest_size) × (text.now ≡ decimal size)) }
    ensures only { (size : ℕ) → size ≤ greatest_size → text.now ≡ decimal size
        → result ≡ Some size }
{
    if !is_decimal(text) {
        return None;
    }
    let Ok(digits) = str::from_utf8(text) else {
        return None;
    };
    let Ok(size) = digits.parse::<u64>() else {
        return None;
    };
    if size <= GREATEST_SIZE {
        Some(size)
    } else {
        None
    }
}

/// The hash at the front, and what follows the slash after it.
fn split_hash(text: &[u8]) -> Option<([u8; 32], &[u8])>
    ensures some { IsSome result ↔ BeginsWithHash text.now }
    ensures found { IfSome result
        (λ parts. IsHash parts.0 × (text.now ≡ encode_lower parts.0 ++ 47 ∷ parts.1.now)) }
{
    if text.len() < 65 {
        return None;
    }
    let (hash, rest) = text.split_at(64);
    if rest[0] != b'/' {
        return None;
    }
    let hash = read_hash(hash)?;
    Some((hash, &rest[1..]))
}

impl Digest {
    /// The digest of this text, `HASH/SIZE`: 64 lower-case hex digits, a slash and a decimal
    /// without leading zeros. `BadHex` comes before `BadSize`.
    pub fn read_text(text: &[u8]) -> Result<Digest, DigestError>
        ensures found { IfOk result (λ digest. IsDigest digest × (text.now ≡ digest_text digest)) }
        ensures only { (digest : DigestValue) → IsDigest digest → text.now ≡ digest_text digest
            → result ≡ Ok digest }
        ensures bad_hex { (result ≡ Err DigestError.BadHex) ↔ ¬ BeginsWithHash text.now }
    {
        let (hash, rest) = split_hash(text).ok_or(DigestError::BadHex)?;
        let size = read_size(rest).ok_or(DigestError::BadSize)?;
        Ok(Digest::new(hash, size))
    }

    /// The hash as 64 lower-case hex digits.
    pub fn hash_text(&self) -> [u8; 64]
        ensures { result ≡ encode_lower self.now.hash }
    {
        let hash = self.hash();
        let mut text = [0; 64];
        hex::encode_to_slice(&hash, &mut text).unwrap();
        text
    }

    /// The text, `HASH/SIZE`.
    pub fn write_text<A: Allocator + Copy>(&self, alloc: A) -> Result<String<A>, AllocError>
        ensures { IfOk result (λ text. string_bytes text ≡ digest_text self.now) }
    {
        let mut text = hex::encode(alloc, &self.hash())?;
        text.push('/')?;
        text.push_str(self.size().to_string(alloc)?.as_str())?;
        Ok(text)
    }
}
