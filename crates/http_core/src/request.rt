ghost use Rattle.std.specs.Prelude.{◌≡◌, IfOk, option_map};
ghost use Rattle.http_core.specs.Request.{request_text, start_text};
ghost use Rattle.http_core.specs.Rules.{target_text};

use crate::event::Area;
use crate::prefix::Prefix;
use crate::rules::text_of;
use std::alloc::{AllocError, Allocator};

/// The text of a request for the hash in the area: a PUT of the body, or a GET where there is none.
/// The host isn't judged here; `Host::read` does that.
#[tactic(auto, unfolding(crate::specs::Request::request_text))]
pub fn write_request<A: Allocator + Copy>(
    alloc: A,
    area: Area,
    hash: &[u8; 32],
    body: Option<&[u8]>,
    host: &str,
    prefix: &Prefix<A>,
) -> Result<Vec<u8, A>, AllocError>
    ensures { IfOk result (λ text. text.items
        ≡ request_text prefix.now host.now area hash.now (option_map (λ b. b.now) body.entry)) }
{
    match body {
        None => {
            let mut text = write_start(alloc, b"GET", area, hash, host, prefix)?;
            text.extend_from_slice(b"\r\n\r\n")?;
            Ok(text)
        }
        Some(body) => {
            let mut text = write_start(alloc, b"PUT", area, hash, host, prefix)?;
            text.extend_from_slice(b"\r\nContent-Length: ")?;
            text.extend_from_slice(body.len().to_string(alloc)?.as_bytes())?;
            text.extend_from_slice(b"\r\n\r\n")?;
            text.extend_from_slice(body)?;
            Ok(text)
        }
    }
}

/// The request up to the end of its host.
fn write_start<A: Allocator + Copy>(
    alloc: A,
    method: &[u8],
    area: Area,
    hash: &[u8; 32],
    host: &str,
    prefix: &Prefix<A>,
) -> Result<Vec<u8, A>, AllocError>
    ensures { IfOk result
        (λ text. text.items ≡ start_text method.now prefix.now area hash.now host.now) }
{
    let mut text = Vec::from_slice(alloc, method)?;
    let target = write_target(alloc, area, hash, prefix)?;
    text.extend_from_slice(b" ")?;
    text.extend_from_slice(&target)?;
    text.extend_from_slice(b" HTTP/1.1\r\nHost: ")?;
    text.extend_from_slice(host.as_bytes())?;
    Ok(text)
}

/// The target of the hash in the area.
fn write_target<A: Allocator + Copy>(
    alloc: A,
    area: Area,
    hash: &[u8; 32],
    prefix: &Prefix<A>,
) -> Result<Vec<u8, A>, AllocError>
    ensures { IfOk result (λ text. text.items ≡ target_text prefix.now area hash.now) }
{
    let mut text = Vec::from_slice(alloc, prefix.as_bytes())?;
    text.extend_from_slice(text_of(area))?;
    text.extend_from_slice(hex::encode(alloc, hash)?.as_bytes())?;
    Ok(text)
}
