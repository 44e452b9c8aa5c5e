ghost use Rattle.std.specs.Prelude.{◌≡◌, ◌↔◌, ◌++◌, [], None, IfOk, IsOk, OnOk, Ok, option_map};
ghost use Rattle.std.specs.List.{AllByRecursion};
ghost use Rattle.wire.specs.Spelling.{spelling};
ghost use Rattle.wire.specs.Steps.{Gives};
ghost use Rattle.canonical.specs.Fields.{message_field};
ghost use Rattle.messages.specs.Gives.{GivesUnlessMemory};
ghost use Rattle.action_messages.specs.Ascending.{IsAscendingBy, ascending_behind};
ghost use Rattle.action_messages.specs.Setting.{IsSetting};
ghost use Rattle.action_messages.specs.Platform.{PlatformValue, IsPlatform, setting_cmp};
ghost use Rattle.action_messages.specs.Platform.{platform_of, platform_entry, platform_at};
ghost use Rattle.action_messages.specs.Platform.{platform_bytes, decoded_platform};

use crate::copying::copy_settings;
use crate::setting::{Property, Setting};
use crate::shapes::platform_shape;
use canonical::{CanonError, write_message};
use messages::{Encode, Message, MessageError, decode, read_each, read_fields, write_each};
use std::alloc::{AllocError, Allocator};
use std::cmp::Ordering;
use std::marker::Model;

/// What an action asks of the machine that runs it: properties, strictly ascending by name and then
/// by value.
#[derive(Drop)]
#[derive_where(Debug)]
pub struct Platform<A: Allocator> {
    properties: Vec<Property<A>, A>,
}

impl<A: Allocator> Model for Platform<A> {
    ghost use Rattle.action_messages.specs.Platform.{PlatformValue, IsPlatform};

    ghost Value = { PlatformValue };

    ghost view = { λ a. record { properties = a.properties.items } };

    ghost invariant = { λ a. IsPlatform (record { properties = a.properties.items }) };
}

/// Whether the properties strictly ascend.
fn check_properties<A: Allocator>(properties: &[Setting<A>]) -> Result<(), MessageError>
    ensures exact { Gives (λ x. x) result (ascending_behind setting_cmp None properties.now) }
    ensures kept { OnOk result (AllByRecursion IsSetting properties.now) }
{
    let mut before: Option<&Setting<A>> = None;
    for property in properties {
        let _ = property.name();
        if let Some(before) = before {
            match before.compare(property) {
                Ordering::Less => {}
                Ordering::Equal | Ordering::Greater => return Err(MessageError::Unsorted),
            }
        }
        before = Some(property);
    }
    Ok(())
}

impl<A: Allocator> Platform<A> {
    /// The platform of these properties. `Unsorted` where they don't strictly ascend.
    #[tactic(auto, unfolding(crate::specs::Platform::platform_of))]
    pub fn new(properties: Vec<Property<A>, A>) -> Result<Platform<A>, MessageError>
        ensures some { IsOk result ↔ IsAscendingBy setting_cmp properties.items }
        ensures exact { Gives (λ p. p) result
            (platform_of (record { properties = properties.items })) }
    {
        check_properties(&properties)?;
        Ok(Platform { properties })
    }

    /// The properties, by name and then by value.
    pub fn properties(&self) -> &[Property<A>]
        ensures value { result.now ≡ self.now.properties }
        ensures valid { IsPlatform self.now }
    {
        &self.properties
    }
}

impl<A: Allocator + Copy> Platform<A> {
    /// A copy of the platform, over another allocator.
    pub(crate) fn copy_of<B: Allocator>(
        alloc: A,
        platform: &Platform<B>,
    ) -> Result<Platform<A>, AllocError>
        ensures { IfOk result (λ p. p ≡ platform.now) }
    {
        Ok(Platform {
            properties: copy_settings(alloc, &platform.properties)?,
        })
    }
}

#[tactic(auto, using(messages::proofs::Spellings::spelled_parts), unfolding(crate::specs::Platform::platform_bytes))]
impl<A: Allocator + Copy> Encode<A> for Platform<A> {
    ghost use Rattle.action_messages.specs.Platform.{platform_bytes};

    ghost spells = { platform_bytes };

    fn write(&self, alloc: A) -> Result<Vec<u8, A>, AllocError> {
        let mut out = Vec::new(alloc);
        write_each(alloc, &mut out, 1, &self.properties)?;
        Ok(out)
    }
}

#[tactic(auto, using(messages::proofs::Spellings::spelled_parts), unfolding(crate::specs::Platform::decoded_platform))]
impl<A: Allocator + Copy> Message<A> for Platform<A> {
    ghost use Rattle.action_messages.specs.Platform.{IsPlatform, decoded_platform};

    ghost reads = { decoded_platform };

    ghost keeps = { IsPlatform };

    fn is_exact() {}

    fn read(alloc: A, bytes: &[u8]) -> Result<Platform<A>, MessageError> {
        let fields = read_fields(alloc, &platform_shape(), bytes)?;
        let properties = read_each(alloc, &fields, 1)?;
        Platform::new(properties)
    }
}

/// The platform of a field: without properties where the field is absent, and refused where it is
/// there and empty.
#[tactic(auto, unfolding(crate::specs::Platform::platform_at))]
pub(crate) fn read_platform<A: Allocator + Copy>(
    alloc: A,
    bytes: Option<&[u8]>,
) -> Result<Platform<A>, MessageError>
    ensures exact { GivesUnlessMemory (λ p. p) result
        (platform_at (option_map (λ x. x.now) bytes.entry)) }
    ensures absent { bytes.entry ≡ None → IsOk result }
{
    match bytes {
        None => Platform::new(Vec::new(alloc)),
        Some([]) => Err(MessageError::Wire(CanonError::DefaultWritten)),
        Some(bytes) => Platform::read(alloc, bytes),
    }
}

/// Writes the field that holds a platform, unless the platform has no properties.
pub(crate) fn write_platform<A: Allocator + Copy>(
    alloc: A,
    out: &mut Vec<u8, A>,
    platform: &Platform<A>,
) -> Result<(), AllocError>
    ensures appended { OnOk result
        (out.new.items
        ≡ out.old.items ++ spelling (message_field 10 (platform_entry platform.now))) }
    ensures none { platform.now.properties ≡ [] → IsOk result }
{
    if platform.properties().is_empty() {
        return Ok(());
    }
    write_message(out, 10, Some(&platform.write(alloc)?))
}

impl<A: Allocator + Copy> Platform<A> {
    /// The platform whose canonical encoding the bytes are. The first refusal is that of the first
    /// of: the fields (`Wire`, `Unsupported`), the properties in the order of the bytes (`Wire`,
    /// `Unsupported`), and their order (`Unsorted`).
    pub fn decode(alloc: A, bytes: &[u8]) -> Result<Platform<A>, MessageError>
        ensures found { IfOk result (λ p. IsPlatform p × (bytes.now ≡ platform_bytes p)) }
        ensures only { (p : PlatformValue)
            → IsPlatform p
            → bytes.now ≡ platform_bytes p
            → GivesUnlessMemory (λ x. x) result (Ok p) }
        // Which refusal comes first.
        ensures exact { GivesUnlessMemory (λ p. p) result (decoded_platform bytes.now) }
    {
        decode(alloc, bytes)
    }

    /// The canonical encoding.
    pub fn encode(&self, alloc: A) -> Result<Vec<u8, A>, AllocError>
        ensures bytes { IfOk result (λ bytes. bytes.items ≡ platform_bytes self.now) }
        ensures valid { IsPlatform self.now }
    {
        let _ = &self.properties;
        self.write(alloc)
    }
}
