ghost use Rattle.std.specs.Prelude.{◌≡◌, IfOk, Ok};
ghost use Rattle.messages.specs.Gives.{GivesUnlessMemory};
ghost use Rattle.action_messages.specs.Action.{ActionValue, IsAction, with_input, action_bytes};
ghost use Rattle.action_messages.specs.Action.{decoded_action};

use crate::frame::Frame;
use crate::platform::{Platform, read_platform};
use crate::shapes::action_shape;
use blob_digest::Digest;
use canonical::{read_bool, read_bytes, read_message, write_message};
use messages::{Encode, Message, MessageError, decode, read_fields, read_optional};
use std::alloc::{AllocError, Allocator};
use std::marker::Model;

/// A build step: a frame and the root directory of its inputs.
#[derive(Drop)]
#[derive_where(Debug)]
pub struct Action<A: Allocator> {
    frame: Frame<A>,
    input_root_digest: Digest,
}

impl<A: Allocator> Model for Action<A> {
    ghost use Rattle.action_messages.specs.Action.{ActionValue, IsAction};

    ghost Value = { ActionValue };

    ghost view = { λ a. record { frame = a.frame; input = a.input_root_digest } };

    ghost invariant = { λ a. IsAction (record { frame = a.frame; input = a.input_root_digest }) };
}

impl<A: Allocator> Action<A> {
    pub(crate) fn of_frame(frame: Frame<A>, input_root_digest: Digest) -> Action<A>
        ensures { result ≡ with_input frame input_root_digest }
    {
        let _ = frame.salt();
        let _ = input_root_digest.size();
        Action {
            frame,
            input_root_digest,
        }
    }

    /// The action of these fields. The digests are those of the encodings of a command and of a
    /// directory.
    pub fn new(
        command_digest: Digest,
        input_root_digest: Digest,
        do_not_cache: bool,
        salt: Vec<u8, A>,
        platform: Platform<A>,
    ) -> Action<A>
        ensures { result
            ≡ with_input
            (record {
              command = command_digest;
              do_not_cache = do_not_cache;
              salt = salt.items;
              platform = platform;
            })
            input_root_digest }
    {
        let frame = Frame::new(command_digest, do_not_cache, salt, platform);
        Action::of_frame(frame, input_root_digest)
    }

    /// The action without its inputs.
    pub fn frame(&self) -> &Frame<A>
        ensures value { result.now ≡ self.now.frame }
        ensures valid { IsAction self.now }
    {
        &self.frame
    }

    /// The digest of the root directory of the inputs.
    pub fn input_root_digest(&self) -> Digest
        ensures value { result ≡ self.now.input }
        ensures valid { IsAction self.now }
    {
        self.input_root_digest
    }

    /// The digest of the command's encoding.
    pub fn command_digest(&self) -> Digest
        ensures value { result ≡ self.now.frame.command }
        ensures valid { IsAction self.now }
    {
        self.frame.command_digest()
    }

    /// Whether the result is not to be kept for other builds.
    pub fn do_not_cache(&self) -> bool
        ensures value { result ≡ self.now.frame.do_not_cache }
        ensures valid { IsAction self.now }
    {
        self.frame.do_not_cache()
    }

    /// Bytes that tell apart actions which are equal but for them.
    pub fn salt(&self) -> &[u8]
        ensures value { result.now ≡ self.now.frame.salt }
        ensures valid { IsAction self.now }
    {
        self.frame.salt()
    }

    /// What is asked of the machine.
    pub fn platform(&self) -> &Platform<A>
        ensures value { result.now ≡ self.now.frame.platform }
        ensures valid { IsAction self.now }
    {
        self.frame.platform()
    }
}

#[tactic(auto, using(messages::proofs::Spellings::spelled_parts), unfolding(crate::specs::Action::action_bytes))]
impl<A: Allocator + Copy> Encode<A> for Action<A> {
    ghost use Rattle.action_messages.specs.Action.{action_bytes};

    ghost spells = { action_bytes };

    fn write(&self, alloc: A) -> Result<Vec<u8, A>, AllocError> {
        let mut out = Vec::new(alloc);
        write_message(&mut out, 1, Some(&self.command_digest().write(alloc)?))?;
        write_message(&mut out, 2, Some(&self.input_root_digest.write(alloc)?))?;
        self.frame.write_settings(alloc, &mut out)?;
        Ok(out)
    }
}

#[tactic(auto, using(messages::proofs::Spellings::spelled_parts), unfolding(crate::specs::Action::decoded_action))]
impl<A: Allocator + Copy> Message<A> for Action<A> {
    ghost use Rattle.action_messages.specs.Action.{IsAction, decoded_action};

    ghost reads = { decoded_action };

    ghost keeps = { IsAction };

    fn is_exact() {}

    fn read(alloc: A, bytes: &[u8]) -> Result<Action<A>, MessageError> {
        let fields = read_fields(alloc, &action_shape(), bytes)?;
        let command_digest: Option<Digest> = read_optional(alloc, read_message(&fields, 1))?;
        let input_root_digest: Option<Digest> = read_optional(alloc, read_message(&fields, 2))?;
        let platform = read_platform(alloc, read_message(&fields, 10))?;
        let command_digest = command_digest.ok_or(MessageError::MissingField(1))?;
        let input_root_digest = input_root_digest.ok_or(MessageError::MissingField(2))?;
        let salt = Vec::from_slice(alloc, read_bytes(&fields, 9))?;
        Ok(Action::new(
            command_digest,
            input_root_digest,
            read_bool(&fields, 7),
            salt,
            platform,
        ))
    }
}

impl<A: Allocator + Copy> Action<A> {
    /// The action whose canonical encoding the bytes are. The first refusal is that of the first
    /// of: the fields (`Wire`, `Unsupported`), the digests and the platform in the order of the
    /// bytes (`Wire`, `Unsupported`, `BadDigest`, `Unsorted`), and the missing digests by number
    /// (`MissingField`).
    pub fn decode(alloc: A, bytes: &[u8]) -> Result<Action<A>, MessageError>
        ensures found { IfOk result (λ a. IsAction a × (bytes.now ≡ action_bytes a)) }
        ensures only { (a : ActionValue)
            → IsAction a
            → bytes.now ≡ action_bytes a
            → GivesUnlessMemory (λ x. x) result (Ok a) }
        // Which refusal comes first.
        ensures exact { GivesUnlessMemory (λ a. a) result (decoded_action bytes.now) }
    {
        decode(alloc, bytes)
    }

    /// The canonical encoding.
    pub fn encode(&self, alloc: A) -> Result<Vec<u8, A>, AllocError>
        ensures bytes { IfOk result (λ bytes. bytes.items ≡ action_bytes self.now) }
        ensures valid { IsAction self.now }
    {
        let _ = &self.frame;
        self.write(alloc)
    }
}
