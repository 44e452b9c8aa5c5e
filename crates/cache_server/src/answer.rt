ghost use Rattle.std.specs.Prelude.{◌≡◌, IsTrue, false};
ghost use Rattle.http_core.specs.Reply.{reply_text};
ghost use Rattle.cache_server.specs.Answer.{text_of};

use http_core::{Content, HeadText, Reply};
use std::alloc::Allocator;
use std::marker::Model;
use std::rc::Rc;

/// An answer that is still to be sent: its head, and then its body, which the cache may hold too. A
/// blob isn't copied, and stays in memory where the cache gives it up.
#[derive(Drop)]
pub struct Answer<A: Allocator> {
    head: HeadText,
    body: Content<A>,
}

impl<A: Allocator> Model for Answer<A> {
    ghost use Rattle.http_core.specs.Reply.{content_bytes};
    ghost use Rattle.cache_server.specs.Answer.{AnswerValue, is_shared};

    ghost Value = { AnswerValue };

    ghost view = { λ a. record {
      head = a.head;
      body = content_bytes a.body;
      shared = is_shared a.body;
    } };
}

impl<A: Allocator> Answer<A> {
    /// The answer that has this reply, after which the session closes or stays open.
    #[tactic(auto, unfolding(http_core::specs::Reply::reply_text))]
    pub(crate) fn new(reply: Reply<A>, close: bool) -> Answer<A>
        ensures { text_of result ≡ reply_text reply close }
    {
        let Reply { status, body } = reply;
        let head = HeadText::new(status, body.as_slice().len(), close);
        Answer { head, body }
    }

    pub fn head(&self) -> &[u8]
        ensures { result.now ≡ self.now.head }
    {
        self.head.as_bytes()
    }

    pub fn body(&self) -> &[u8]
        ensures { result.now ≡ self.now.body }
    {
        self.body.as_slice()
    }

    /// Whether the cache doesn't hold the body any more, or never did. Of a shared body nothing is
    /// proved: no contract can see who else holds it.
    pub fn is_alone(&self) -> bool
        ensures { self.now.shared ≡ false → IsTrue result }
    {
        match &self.body {
            Content::Own(_) => true,
            Content::Shared(bytes) => Rc::strong_count(bytes) <= 1,
        }
    }
}
