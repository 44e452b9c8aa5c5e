ghost use Rattle.std.specs.Prelude.{◌≡◌, IfOk};
ghost use Rattle.http_core.specs.Reply.{bare, content_bytes, reply_text};

use crate::head_text::HeadText;
use std::alloc::{AllocError, Allocator};
use std::marker::Model;
use std::rc::Rc;

/// The bytes of an answer (RFC 9110, section 6.4): its own, or those that others hold too.
#[derive(Drop)]
pub enum Content<A: Allocator> {
    Own(Vec<u8, A>),
    Shared(Rc<Vec<u8, A>, A>),
}

impl<A: Allocator> Content<A> {
    pub fn as_slice(&self) -> &[u8]
        ensures { result.now ≡ content_bytes self.now }
    {
        match self {
            Content::Own(bytes) => bytes.as_slice(),
            Content::Shared(bytes) => bytes.as_slice(),
        }
    }
}

/// An answer: a status, and the bytes of a blob or of a result, or none.
#[derive(Drop)]
pub struct Reply<A: Allocator> {
    pub status: u16,
    pub body: Content<A>,
}

impl<A: Allocator> Model for Reply<A> {
    ghost use Rattle.http_core.specs.Reply.{ReplyValue, content_bytes};

    ghost Value = { ReplyValue };

    ghost view = { λ r. record { status = r.status; body = content_bytes r.body } };
}

impl<A: Allocator + Copy> Reply<A> {
    /// An answer without a body.
    pub fn bare(alloc: A, status: u16) -> Reply<A>
        ensures { result ≡ bare status }
    {
        Reply {
            status,
            body: Content::Own(Vec::new(alloc)),
        }
    }
}

/// The text of an answer, after which the session closes or stays open.
#[tactic(auto, unfolding(crate::specs::Reply::reply_text))]
pub fn write_reply<A: Allocator + Copy>(
    alloc: A,
    reply: &Reply<A>,
    close: bool,
) -> Result<Vec<u8, A>, AllocError>
    ensures { IfOk result (λ text. text.items ≡ reply_text reply.now close) }
{
    let body = reply.body.as_slice();
    let head = HeadText::new(reply.status, body.len(), close);
    let mut text = Vec::from_slice(alloc, head.as_bytes())?;
    text.extend_from_slice(body)?;
    Ok(text)
}
