ghost use Rattle.std.specs.Prelude.{◌≡◌, ◌↔◌, ℕ, Bool, ◌<◌, ◌≤◌, ◌++◌, ◌∷◌, List, [], length, take};
ghost use Rattle.std.specs.Prelude.{map, IsTrue, IfOk, OnErr, OnOk, Option, option_map};
ghost use Rattle.std.specs.Prelude.{option_to_list};
ghost use Rattle.std.specs.List.{AllByRecursion};
ghost use Rattle.http_core.specs.declared.event.Area.{Area};
ghost use Rattle.http_core.specs.Block.{IsBlock};
ghost use Rattle.blob_digest.specs.Body.{greatest_blob};
ghost use Rattle.http_core.specs.Event.{IsValid, event_of};
ghost use Rattle.http_core.specs.Judging.{Judges};
ghost use Rattle.http_core.specs.Session.{SessionValue, Reading, Taking, Stands, Feeds, FeedsFirst};
ghost use Rattle.http_core.specs.Session.{IsOpen, IsClosed, MayRunShort, Takes, Follows, ended};
ghost use Rattle.http_core.specs.Session.{held_bytes, HoldsNoMore, session_state};
ghost use Rattle.http_core.specs.Stream.{body_length, outcome};

use crate::block::{MAX_BLOCK, ends_block, first_line};
use crate::event::{Area, Ask, Event};
use crate::judging::{Judgement, judge};
use crate::prefix::Prefix;
use crate::status::REQUEST_HEADER_FIELDS_TOO_LARGE;
use blob_digest::Body;
use std::alloc::{AllocError, Allocator};
use std::marker::Model;
use std::mem;

/// What comes next: a byte of a block, or of the body of a PUT whose head has come.
#[derive(Clone, Copy, Debug)]
enum Stage {
    Block,
    Body {
        area: Area,
        hash: [u8; 32],
        length: usize,
        close: bool,
    },
    Closed,
}

/// The stream of one connection, cut into requests as its bytes arrive in pieces of any lengths.
#[derive(Drop)]
pub struct Session<A: Allocator> {
    prefix: Prefix<A>,
    stage: Stage,
    block: Vec<u8, A>,
    body: Body<A>,
}

impl<A: Allocator> Model for Session<A> {
    ghost use Rattle.http_core.specs.Session.{SessionValue, HoldsNoMore, session_state};

    ghost Value = { SessionValue };

    ghost view = { λ s. record {
      prefix = s.prefix;
      state = session_state s.stage s.block.items s.body;
    } };

    ghost invariant = { λ s. HoldsNoMore s.stage s.block.items s.body };
}

impl<A: Allocator> Session<A> {
    /// Whether further bytes can give events.
    pub fn is_open(&self) -> bool
        ensures { IsTrue result ↔ IsOpen self.now }
    {
        !matches!(self.stage, Stage::Closed)
    }
}

impl<A: Allocator + Copy> Session<A> {
    /// A session to which no byte has come.
    pub fn new(alloc: A, prefix: &Prefix<A>) -> Result<Session<A>, AllocError>
        ensures stands { IfOk result (λ s. Stands s [] []) }
        ensures prefix { IfOk result (λ s. s.prefix ≡ prefix.now) }
    {
        Ok(Session {
            prefix: prefix.copied(alloc)?,
            stage: Stage::Block,
            block: Vec::new(alloc),
            body: Body::new(alloc),
        })
    }

    /// Takes the next piece of the stream, and answers the events that it completes. After an `Err`
    /// the session is closed. One that is closed, or gets no bytes, wants no memory.
    pub fn feed(&mut self, alloc: A, piece: &[u8]) -> Result<Vec<Event<A>, A>, AllocError>
        ensures ok { IfOk result
            (λ events. Feeds self.old piece.now (map event_of events.items) self.new) }
        ensures err { OnErr result (IsClosed self.new) }
        ensures memory { OnErr result (MayRunShort self.old piece.now) }
        ensures prefix { self.new.prefix ≡ self.old.prefix }
    {
        let events = self.cut(alloc, piece);
        if events.is_err() {
            self.close(alloc);
        }
        events
    }

    /// Takes the next piece of the stream as far as its first event, and answers how many bytes
    /// that is, and the event. Where the piece completes none, all of it is taken. After an `Err`
    /// the session is closed. One that is closed, or gets no bytes, wants no memory.
    pub fn next(&mut self, alloc: A, piece: &[u8]) -> Result<(usize, Option<Event<A>>), AllocError>
        ensures ok { IfOk result
            (λ x. FeedsFirst self.old piece.now x.0 (option_map event_of x.1) self.new) }
        ensures err { OnErr result (IsClosed self.new) }
        ensures memory { OnErr result (MayRunShort self.old piece.now) }
        ensures prefix { self.new.prefix ≡ self.old.prefix }
    {
        let first = self.take_first(alloc, piece);
        if first.is_err() {
            self.close(alloc);
        }
        first
    }

    /// How many bytes it keeps of a request that isn't whole, but for the head before a body.
    pub fn held_bytes(&self) -> usize
        ensures { result ≡ held_bytes self.now.state }
    {
        match self.stage {
            Stage::Block => self.block.len(),
            Stage::Body { .. } => self.body.len(),
            Stage::Closed => 0,
        }
    }

    /// Closes the session. The bytes of a request that isn't whole are dropped.
    pub fn close(&mut self, alloc: A)
        ensures state { IsClosed self.new }
        ensures prefix { self.new.prefix ≡ self.old.prefix }
    {
        self.start(alloc, Stage::Closed);
    }

    /// Takes the piece. After an `Err` the session is in the middle of it.
    fn cut(&mut self, alloc: A, piece: &[u8]) -> Result<Vec<Event<A>, A>, AllocError>
        ensures ok { IfOk result
            (λ events. Feeds self.old piece.now (map event_of events.items) self.new) }
        ensures memory { OnErr result (MayRunShort self.old piece.now) }
        ensures prefix { self.new.prefix ≡ self.old.prefix }
    {
        let mut events = Vec::new(alloc);
        let mut at = 0;
        while at < piece.len() {
            let (_, rest) = piece.split_at(at);
            let (taken, event) = self.take_first(alloc, rest)?;
            at += taken;
            if let Some(event) = event {
                events.push(event)?;
            }
        }
        Ok(events)
    }

    /// Takes the piece to the end of its first event. After an `Err` the session is in the middle
    /// of it.
    fn take_first(
        &mut self,
        alloc: A,
        piece: &[u8],
    ) -> Result<(usize, Option<Event<A>>), AllocError>
        ensures ok { IfOk result
            (λ x. FeedsFirst self.old piece.now x.0 (option_map event_of x.1) self.new) }
        ensures memory { OnErr result (MayRunShort self.old piece.now) }
        ensures prefix { self.new.prefix ≡ self.old.prefix }
    {
        let mut at = 0;
        while at < piece.len() && self.is_open() {
            let (_, rest) = piece.split_at(at);
            let (taken, event) = self.advance(alloc, rest)?;
            at += taken;
            if let Some(event) = event {
                return Ok((at, Some(event)));
            }
        }
        Ok((piece.len(), None))
    }

    /// Takes a front of the piece, at most to the end of a request.
    fn advance(&mut self, alloc: A, piece: &[u8]) -> Result<(usize, Option<Event<A>>), AllocError>
        requires some { 0 < length piece.now }
        requires open { IsOpen self.old }
        ensures takes { IfOk result
            (λ x. Takes self.old piece.now x.0 (option_map event_of x.1) self.new) }
        ensures prefix { self.new.prefix ≡ self.old.prefix }
    {
        match self.stage {
            Stage::Block => self.read_line(alloc, piece),
            Stage::Body { .. } => self.take_body(alloc, piece),
            Stage::Closed => Ok((piece.len(), None)),
        }
    }

    /// Takes bytes of a block, at most to the end of a line.
    fn read_line(&mut self, alloc: A, piece: &[u8]) -> Result<(usize, Option<Event<A>>), AllocError>
        requires some { 0 < length piece.now }
        requires reading { (bytes : List ℕ) × (self.old.state ≡ Reading bytes) }
        ensures takes { IfOk result
            (λ x. Takes self.old piece.now x.0 (option_map event_of x.1) self.new) }
        ensures prefix { self.new.prefix ≡ self.old.prefix }
    {
        let line = first_line(piece, MAX_BLOCK.saturating_sub(self.block.len()));
        self.block.extend_from_slice(line)?;
        if ends_block(self.block.as_slice()) {
            let judgement = judge(self.prefix.as_bytes(), self.block.as_slice());
            return Ok((line.len(), self.follow(alloc, judgement)));
        }
        if self.block.len() < MAX_BLOCK {
            return Ok((line.len(), None));
        }
        self.close(alloc);
        let refusal = Event::Refuse(REQUEST_HEADER_FIELDS_TOO_LARGE, true);
        Ok((line.len(), Some(refusal)))
    }

    /// Goes on after a block.
    fn follow(&mut self, alloc: A, judgement: Judgement) -> Option<Event<A>>
        requires fits { body_length judgement ≤ greatest_blob }
        requires valid { IsValid (outcome judgement []) }
        ensures follows { (prefix block : List ℕ) → IsBlock block → length block ≤ 16384
            → Judges prefix block judgement
            → Follows prefix block (option_map event_of result) self.new.state }
        ensures valid { AllByRecursion IsValid (option_to_list (option_map event_of result)) }
        ensures prefix { self.new.prefix ≡ self.old.prefix }
    {
        match judgement {
            Judgement::Refuse { status, close } => {
                self.end(alloc, close);
                Some(Event::Refuse(status, close))
            }
            Judgement::Get { area, hash, close } => {
                self.end(alloc, close);
                Some(Event::Ask(Ask::Get(area, hash), close))
            }
            Judgement::Put {
                area,
                hash,
                length,
                close,
            } => {
                if length == 0 {
                    self.end(alloc, close);
                    let body = Body::new(alloc).seal();
                    return Some(Event::Ask(Ask::Put(area, hash, body), close));
                }
                let stage = Stage::Body {
                    area,
                    hash,
                    length,
                    close,
                };
                self.start(alloc, stage);
                None
            }
        }
    }

    /// Takes bytes of a body.
    fn take_body(&mut self, alloc: A, piece: &[u8]) -> Result<(usize, Option<Event<A>>), AllocError>
        requires some { 0 < length piece.now }
        requires taking { (area : Area) × (hash : List ℕ) × (size : ℕ) × (close : Bool)
            × (body : List ℕ) × (self.old.state ≡ Taking area hash size close body) }
        ensures takes { IfOk result
            (λ x. Takes self.old piece.now x.0 (option_map event_of x.1) self.new) }
        ensures prefix { self.new.prefix ≡ self.old.prefix }
    {
        let Stage::Body {
            area,
            hash,
            length,
            close,
        } = self.stage
        else {
            return Ok((piece.len(), None));
        };
        let missing = length - self.body.len();
        if piece.len() < missing {
            self.body.push(piece)?;
            return Ok((piece.len(), None));
        }
        let (front, _) = piece.split_at(missing);
        self.body.push(front)?;
        let body = mem::replace(&mut self.body, Body::new(alloc)).seal();
        self.end(alloc, close);
        Ok((missing, Some(Event::Ask(Ask::Put(area, hash, body), close))))
    }

    /// Ends the request at hand, of which nothing is kept.
    fn end(&mut self, alloc: A, close: bool)
        ensures prefix { self.new.prefix ≡ self.old.prefix }
        ensures state { self.new.state ≡ ended close }
    {
        let stage = if close { Stage::Closed } else { Stage::Block };
        self.start(alloc, stage);
    }

    /// Begins a stage, at which nothing is kept yet.
    fn start(&mut self, alloc: A, stage: Stage)
        requires { HoldsNoMore stage [] [] }
        ensures state { self.new.state ≡ session_state stage [] [] }
        ensures prefix { self.new.prefix ≡ self.old.prefix }
    {
        self.block.clear();
        self.body = Body::new(alloc);
        self.stage = stage;
    }
}
