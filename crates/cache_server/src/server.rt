ghost use Rattle.std.specs.Prelude.{◌≡◌, ◌↔◌, ℕ, List, ◌++◌, [], take, IfOk, OnErr, OnOk, None};
ghost use Rattle.std.specs.Prelude.{IsSome, IsTrue, Some, option_map, unwrap_or};
ghost use Rattle.http_core.specs.Event.{event_of};
ghost use Rattle.cache_server.specs.Answer.{text_of};
ghost use Rattle.cache_server.specs.Cache.{CacheValue};
ghost use Rattle.cache_server.specs.History.{HistoryEntry, Piece, End, AnswersTo};
ghost use Rattle.cache_server.specs.Server.{session_at, ServerStands, LeadsTo, LeadsToFailure};
ghost use Rattle.cache_server.specs.Server.{Forgets, IsOpenAt, KeepsOthers, held_bytes_at};
ghost use Rattle.cache_server.specs.Sessions.{ClosesAt, FeedsFirstAt, OpensAt};
ghost use Rattle.cache_server.specs.Turn.{AnswersOne, IsOneAnswerTo};

use crate::answer::Answer;
use crate::cache::Cache;
use crate::counts::Counts;
use http_core::{Event, Prefix, Session};
use std::alloc::{AllocError, Allocator};
use std::collections::BTreeMap;
use std::marker::Model;

/// A cache, and a session for each connection. Clauses see where a history of pieces, failures and
/// ends of any connections leaves it.
#[derive(Drop)]
pub struct Server<A: Allocator> {
    cache: Cache<A>,
    prefix: Prefix<A>,
    sessions: BTreeMap<u64, Session<A>, A>,
}

impl<A: Allocator> Model for Server<A> {
    ghost use Rattle.cache_server.specs.Server.{ServerValue};

    ghost Value = { ServerValue };

    ghost view = { λ s. record {
      cache = s.cache;
      prefix = s.prefix;
      sessions = s.sessions.entries;
    } };
}

impl<A: Allocator + Copy> Server<A> {
    /// A server without connections.
    pub fn new(alloc: A, cache: Cache<A>, prefix: Prefix<A>) -> Server<A>
        ensures stands { ServerStands cache result [] }
        ensures prefix { result.prefix ≡ prefix }
        ensures none { (k : ℕ) → session_at result k ≡ None }
    {
        Server {
            cache,
            prefix,
            sessions: BTreeMap::new(alloc),
        }
    }

    /// The answers to the next piece on the connection, which is a new one where none has the
    /// number. After an `Err` the connection is closed, or still unknown where there was no memory
    /// for its session, the answers are lost, and the cache is as some of the requests left it,
    /// from the first on. One that is closed wants no memory.
    pub fn event(
        &mut self,
        alloc: A,
        connection: u64,
        piece: &[u8],
    ) -> Result<Vec<u8, A>, AllocError>
        ensures answers { IfOk result (λ text. (opening : CacheValue) (history : List HistoryEntry)
            → ServerStands opening self.old history
            → AnswersTo self.old.prefix opening history (Piece connection piece.now) text.items) }
        ensures ok { OnOk result (LeadsTo self.old (Piece connection piece.now) self.new) }
        ensures err { OnErr result (LeadsToFailure self.old connection piece.now self.new) }
        ensures memory { OnErr result (IsOpenAt (session_at self.old connection)) }
        ensures others { (j : ℕ) → (j ≡ connection → ⊥)
            → session_at self.new j ≡ session_at self.old j }
        ensures prefix { self.new.prefix ≡ self.old.prefix }
    {
        self.open(alloc, connection)?;
        let mut text = Vec::new(alloc);
        let mut at = 0;
        while at < piece.len() {
            let (_, rest) = piece.split_at(at);
            let (taken, answer) = self.turn(alloc, connection, rest)?;
            at += taken;
            if push_text(&mut text, answer).is_err() {
                self.close(alloc, connection);
                return Err(AllocError);
            }
        }
        Ok(text)
    }

    /// The answer to the first request that the piece completes on the connection, which is a new
    /// one where none has the number, and how many bytes of the piece were taken: those to the end
    /// of that request, or all where it completes none. After an `Err` the connection is closed: it
    /// answers nothing more, and its request wasn't done. One that is closed wants no memory.
    pub fn next(
        &mut self,
        alloc: A,
        connection: u64,
        piece: &[u8],
    ) -> Result<(usize, Option<Answer<A>>), AllocError>
        ensures one { IfOk result (λ x.
            AnswersOne self.old connection piece.now x.0 (option_map text_of x.1) self.new) }
        ensures answers { IfOk result (λ x. (opening : CacheValue) (history : List HistoryEntry)
            → ServerStands opening self.old history
            → IsOneAnswerTo self.old.prefix opening history (Piece connection (take x.0 piece.now))
            (unwrap_or (option_map text_of x.1) [])) }
        ensures ok { IfOk result (λ x.
            LeadsTo self.old (Piece connection (take x.0 piece.now)) self.new) }
        ensures err { OnErr result (LeadsToFailure self.old connection piece.now self.new) }
        ensures kept { OnErr result (KeepsOthers self.old connection self.new) }
        ensures memory { OnErr result (IsOpenAt (session_at self.old connection)) }
        ensures prefix { self.new.prefix ≡ self.old.prefix }
    {
        self.open(alloc, connection)?;
        self.turn(alloc, connection, piece)
    }

    /// What was answered since the cache was new.
    pub fn counts(&self) -> Counts
        ensures { result ≡ self.now.cache.counts }
    {
        self.cache.counts()
    }

    /// Whether further bytes on the connection can be answered.
    pub fn is_open(&self, connection: u64) -> bool
        ensures { IsTrue result ↔ IsOpenAt (session_at self.now connection) }
    {
        match self.sessions.get(&connection) {
            Some(session) => session.is_open(),
            None => true,
        }
    }

    /// How many bytes are kept of a request on the connection that isn't whole, but for the head
    /// before a body.
    pub fn held_bytes(&self, connection: u64) -> usize
        ensures { result ≡ held_bytes_at (session_at self.now connection) }
    {
        match self.sessions.get(&connection) {
            Some(session) => session.held_bytes(),
            None => 0,
        }
    }

    /// Forgets the connection.
    pub fn end(&mut self, connection: u64)
        ensures stands { LeadsTo self.old (End connection) self.new }
        ensures forgets { Forgets self.old connection self.new }
    {
        self.forget(connection);
    }

    /// The answer to the first request that the piece completes on the connection, which has a
    /// session, and how many bytes were taken. After an `Err` the session is closed.
    fn turn(
        &mut self,
        alloc: A,
        connection: u64,
        piece: &[u8],
    ) -> Result<(usize, Option<Answer<A>>), AllocError>
        requires { IsSome (session_at self.old connection) }
        ensures ok { IfOk result (λ x.
            AnswersOne self.old connection piece.now x.0 (option_map text_of x.1) self.new) }
        ensures err { OnErr result (ClosesAt self.old connection self.new) }
        ensures memory { OnErr result (IsOpenAt (session_at self.old connection)) }
    {
        let (taken, event) = self.first(alloc, connection, piece)?;
        let Some(event) = event else {
            return Ok((taken, None));
        };
        match self.cache.answer_to(alloc, event) {
            Ok(answer) => Ok((taken, Some(answer))),
            Err(error) => {
                self.close(alloc, connection);
                Err(error)
            }
        }
    }

    /// Has the connection a session, which is a new one where it has none.
    fn open(&mut self, alloc: A, connection: u64) -> Result<(), AllocError>
        ensures ok { OnOk result (OpensAt self.old connection self.new) }
        ensures err { OnErr result (ClosesAt self.old connection self.new) }
        ensures none { OnErr result (session_at self.old connection ≡ None) }
    {
        if self.sessions.contains_key(&connection) {
            return Ok(());
        }
        let session = Session::new(alloc, &self.prefix)?;
        self.keep(connection, session)
    }

    /// Hands the piece to the session that the connection has, as far as its first event.
    fn first(
        &mut self,
        alloc: A,
        connection: u64,
        piece: &[u8],
    ) -> Result<(usize, Option<Event<A>>), AllocError>
        requires { IsSome (session_at self.old connection) }
        ensures ok { IfOk result (λ x.
            FeedsFirstAt self.old connection piece.now x.0 (option_map event_of x.1) self.new) }
        ensures err { OnErr result (ClosesAt self.old connection self.new) }
        ensures memory { OnErr result (IsOpenAt (session_at self.old connection)) }
    {
        if let Some(session) = self.sessions.get_mut(&connection) {
            return session.next(alloc, piece);
        }
        Ok((piece.len(), None))
    }

    /// Keeps the session of a connection that has none.
    fn keep(&mut self, connection: u64, session: Session<A>) -> Result<(), AllocError>
        requires { session_at self.old connection ≡ None }
        ensures at { OnOk result (session_at self.new connection ≡ Some session) }
        ensures kept { OnOk result (KeepsOthers self.old connection self.new) }
        ensures err { OnErr result (ClosesAt self.old connection self.new) }
    {
        self.sessions.insert(connection, session)?;
        Ok(())
    }

    /// Closes the session of the connection, if it has one.
    fn close(&mut self, alloc: A, connection: u64)
        ensures { ClosesAt self.old connection self.new }
    {
        if let Some(session) = self.sessions.get_mut(&connection) {
            session.close(alloc);
        }
    }

    fn forget(&mut self, connection: u64)
        ensures { Forgets self.old connection self.new }
    {
        self.sessions.remove(&connection);
    }
}

/// Adds the text of the answer, if there is one.
fn push_text<A: Allocator>(
    text: &mut Vec<u8, A>,
    answer: Option<Answer<A>>,
) -> Result<(), AllocError>
    ensures text { OnOk result
        (text.new.items ≡ text.old.items ++ unwrap_or (option_map text_of answer) []) }
    ensures memory { OnErr result (IsSome answer) }
{
    let Some(answer) = answer else {
        return Ok(());
    };
    text.extend_from_slice(answer.head())?;
    text.extend_from_slice(answer.body())
}
