//! Rows of messages that are read and written again.
use crate::answers::{Answer, Broken, said, word};
use action_messages::{Action, ActionResult, Command, Frame, Platform};
use messages::{Directory, MessageError, Tree, decode_digest, encode_digest};
use std::alloc::{Allocator, Global};

type Written<A> = Result<Vec<u8, A>, MessageError>;

fn digest<A: Allocator + Copy>(alloc: A, bytes: &[u8]) -> Written<A> {
    Ok(encode_digest(alloc, &decode_digest(alloc, bytes)?)?)
}

fn directory<A: Allocator + Copy>(alloc: A, bytes: &[u8]) -> Written<A> {
    Ok(Directory::decode(alloc, bytes)?.encode(alloc)?)
}

fn tree<A: Allocator + Copy>(alloc: A, bytes: &[u8]) -> Written<A> {
    Ok(Tree::decode(alloc, bytes)?.encode(alloc)?)
}

fn platform<A: Allocator + Copy>(alloc: A, bytes: &[u8]) -> Written<A> {
    Ok(Platform::decode(alloc, bytes)?.encode(alloc)?)
}

fn command<A: Allocator + Copy>(alloc: A, bytes: &[u8]) -> Written<A> {
    Ok(Command::decode(alloc, bytes)?.encode(alloc)?)
}

fn frame<A: Allocator + Copy>(alloc: A, bytes: &[u8]) -> Written<A> {
    Ok(Frame::decode(alloc, bytes)?.encode(alloc)?)
}

fn action<A: Allocator + Copy>(alloc: A, bytes: &[u8]) -> Written<A> {
    Ok(Action::decode(alloc, bytes)?.encode(alloc)?)
}

fn result<A: Allocator + Copy>(alloc: A, bytes: &[u8]) -> Written<A> {
    Ok(ActionResult::decode(alloc, bytes)?.encode(alloc)?)
}

/// The message of this kind, read and written again.
pub fn written<A: Allocator + Copy>(
    alloc: A,
    kind: &[u8],
    bytes: &[u8],
) -> Result<Vec<u8, A>, Broken> {
    Ok(match word(kind) {
        "Digest" => digest(alloc, bytes)?,
        "Directory" => directory(alloc, bytes)?,
        "Tree" => tree(alloc, bytes)?,
        "Platform" => platform(alloc, bytes)?,
        "Command" => command(alloc, bytes)?,
        "Frame" => frame(alloc, bytes)?,
        "Action" => action(alloc, bytes)?,
        "Result" => result(alloc, bytes)?,
        _ => return Err(Broken::NoRow),
    })
}

/// What the message is written as again, if that isn't the same.
pub fn answer<A: Allocator + Copy>(global: Global, alloc: A, fields: &[Vec<u8>]) -> Answer {
    match fields {
        [kind, bytes, _] => {
            let text = written(alloc, kind, bytes)?;
            if text.as_slice() == bytes.as_slice() {
                said(global, "same")
            } else {
                Ok(Vec::from_slice(global, &text)?)
            }
        }
        _ => Err(Broken::NoRow),
    }
}
