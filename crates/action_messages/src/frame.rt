ghost use Rattle.std.specs.Prelude.{◌≡◌, ◌++◌, Bool, List, ℕ, IfOk, OnOk, Ok};
ghost use Rattle.wire.specs.Spelling.{spelling};
ghost use Rattle.canonical.specs.Fields.{bool_field, bytes_field, message_field};
ghost use Rattle.messages.specs.Gives.{GivesUnlessMemory};
ghost use Rattle.action_messages.specs.Platform.{platform_entry};
ghost use Rattle.action_messages.specs.Frame.{FrameValue, IsFrame, frame_bytes, decoded_frame};
ghost use Rattle.action_messages.specs.Action.{with_input};

use crate::action::Action;
use crate::platform::{Platform, read_platform, write_platform};
use crate::shapes::frame_shape;
use blob_digest::Digest;
use canonical::{read_bool, read_bytes, read_message, write_bool, write_bytes, write_message};
use messages::{Encode, Message, MessageError, decode, read_fields, read_optional};
use std::alloc::{AllocError, Allocator};
use std::marker::Model;

/// An action without its inputs: all of a build step that doesn't depend on the files it is given.
#[derive(Drop)]
#[derive_where(Debug)]
pub struct Frame<A: Allocator> {
    command_digest: Digest,
    do_not_cache: bool,
    salt: Vec<u8, A>,
    platform: Platform<A>,
}

impl<A: Allocator> Model for Frame<A> {
    ghost use Rattle.action_messages.specs.Frame.{FrameValue, IsFrame};

    ghost Value = { FrameValue };

    ghost view = { λ a. record {
      command = a.command_digest;
      do_not_cache = a.do_not_cache;
      salt = a.salt.items;
      platform = a.platform;
    } };

    ghost invariant = { λ a. IsFrame (record {
      command = a.command_digest;
      do_not_cache = a.do_not_cache;
      salt = a.salt.items;
      platform = a.platform;
    }) };
}

impl<A: Allocator> Frame<A> {
    /// The frame of these fields. The digest is that of the encoding of a command.
    pub fn new(
        command_digest: Digest,
        do_not_cache: bool,
        salt: Vec<u8, A>,
        platform: Platform<A>,
    ) -> Frame<A>
        ensures { result
            ≡ record {
              command = command_digest;
              do_not_cache = do_not_cache;
              salt = salt.items;
              platform = platform;
            } }
    {
        let _ = command_digest.size();
        let _ = platform.properties();
        Frame {
            command_digest,
            do_not_cache,
            salt,
            platform,
        }
    }

    /// The digest of the command's encoding.
    pub fn command_digest(&self) -> Digest
        ensures value { result ≡ self.now.command }
        ensures valid { IsFrame self.now }
    {
        self.command_digest
    }

    /// Whether the result is not to be kept for other builds.
    pub fn do_not_cache(&self) -> bool
        ensures value { result ≡ self.now.do_not_cache }
        ensures valid { IsFrame self.now }
    {
        self.do_not_cache
    }

    /// Bytes that tell apart actions which are equal but for them.
    pub fn salt(&self) -> &[u8]
        ensures value { result.now ≡ self.now.salt }
        ensures valid { IsFrame self.now }
    {
        &self.salt
    }

    /// What is asked of the machine.
    pub fn platform(&self) -> &Platform<A>
        ensures value { result.now ≡ self.now.platform }
        ensures valid { IsFrame self.now }
    {
        &self.platform
    }

    /// The action of this frame with the root directory of its inputs, by the digest of its
    /// encoding. It takes no memory.
    pub fn with_input(self, input_root_digest: Digest) -> Action<A>
        ensures value { result ≡ with_input self input_root_digest }
        ensures frame { result.frame ≡ self }
    {
        Action::of_frame(self, input_root_digest)
    }
}

impl<A: Allocator + Copy> Frame<A> {
    /// A copy of the frame, over another allocator.
    pub fn copy_of<B: Allocator>(alloc: A, frame: &Frame<B>) -> Result<Frame<A>, AllocError>
        ensures { IfOk result (λ f. f ≡ frame.now) }
    {
        Ok(Frame {
            command_digest: frame.command_digest,
            do_not_cache: frame.do_not_cache,
            salt: Vec::from_slice(alloc, &frame.salt)?,
            platform: Platform::copy_of(alloc, &frame.platform)?,
        })
    }

    /// Writes the fields after the digests: 7, 9 and 10.
    pub(crate) fn write_settings(&self, alloc: A, out: &mut Vec<u8, A>) -> Result<(), AllocError>
        ensures { OnOk result
            (out.new.items
            ≡ out.old.items ++ spelling (bool_field 7 self.now.do_not_cache)
            ++ spelling (bytes_field 9 self.now.salt)
            ++ spelling (message_field 10 (platform_entry self.now.platform))) }
    {
        write_bool(out, 7, self.do_not_cache)?;
        write_bytes(out, 9, &self.salt)?;
        write_platform(alloc, out, &self.platform)
    }
}

#[tactic(auto, using(messages::proofs::Spellings::spelled_parts), unfolding(crate::specs::Frame::frame_bytes))]
impl<A: Allocator + Copy> Encode<A> for Frame<A> {
    ghost use Rattle.action_messages.specs.Frame.{frame_bytes};

    ghost spells = { frame_bytes };

    fn write(&self, alloc: A) -> Result<Vec<u8, A>, AllocError> {
        let mut out = Vec::new(alloc);
        write_message(&mut out, 1, Some(&self.command_digest.write(alloc)?))?;
        self.write_settings(alloc, &mut out)?;
        Ok(out)
    }
}

#[tactic(auto, using(messages::proofs::Spellings::spelled_parts), unfolding(crate::specs::Frame::decoded_frame))]
impl<A: Allocator + Copy> Message<A> for Frame<A> {
    ghost use Rattle.action_messages.specs.Frame.{IsFrame, decoded_frame};

    ghost reads = { decoded_frame };

    ghost keeps = { IsFrame };

    fn is_exact() {}

    fn read(alloc: A, bytes: &[u8]) -> Result<Frame<A>, MessageError> {
        let fields = read_fields(alloc, &frame_shape(), bytes)?;
        let command_digest: Option<Digest> = read_optional(alloc, read_message(&fields, 1))?;
        let platform = read_platform(alloc, read_message(&fields, 10))?;
        let command_digest = command_digest.ok_or(MessageError::MissingField(1))?;
        let salt = Vec::from_slice(alloc, read_bytes(&fields, 9))?;
        Ok(Frame::new(command_digest, read_bool(&fields, 7), salt, platform))
    }
}

impl<A: Allocator + Copy> Frame<A> {
    /// The frame whose canonical encoding the bytes are. The first refusal is that of the first of:
    /// the fields (`Wire`, `Unsupported`), the digest and the platform (`Wire`, `Unsupported`,
    /// `BadDigest`, `Unsorted`), and the missing digest (`MissingField`).
    pub fn decode(alloc: A, bytes: &[u8]) -> Result<Frame<A>, MessageError>
        ensures found { IfOk result (λ f. IsFrame f × (bytes.now ≡ frame_bytes f)) }
        ensures only { (f : FrameValue)
            → IsFrame f
            → bytes.now ≡ frame_bytes f
            → GivesUnlessMemory (λ x. x) result (Ok f) }
        // Which refusal comes first.
        ensures exact { GivesUnlessMemory (λ f. f) result (decoded_frame bytes.now) }
    {
        decode(alloc, bytes)
    }

    /// The canonical encoding.
    pub fn encode(&self, alloc: A) -> Result<Vec<u8, A>, AllocError>
        ensures bytes { IfOk result (λ bytes. bytes.items ≡ frame_bytes self.now) }
        ensures valid { IsFrame self.now }
    {
        let _ = &self.salt;
        self.write(alloc)
    }
}
