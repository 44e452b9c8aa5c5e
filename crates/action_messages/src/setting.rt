ghost use Rattle.std.specs.Prelude.{◌≡◌, IfOk};
ghost use Rattle.std.specs.String.{string_bytes};
ghost use Rattle.action_messages.specs.Setting.{IsSetting};
ghost use Rattle.action_messages.specs.Platform.{setting_cmp};

use crate::shapes::setting_shape;
use canonical::{read_string, write_string};
use messages::{Encode, Message, MessageError, Named, read_fields};
use std::alloc::{AllocError, Allocator};
use std::cmp::Ordering;
use std::marker::Model;

/// A name and its value, both UTF-8 and maybe empty.
#[derive(Drop)]
#[derive_where(Debug)]
pub struct Setting<A: Allocator> {
    name: String<A>,
    value: String<A>,
}

/// A variable of a command's environment.
pub type EnvironmentVariable<A> = Setting<A>;

/// A property of a platform.
pub type Property<A> = Setting<A>;

impl<A: Allocator> Model for Setting<A> {
    ghost use Rattle.std.specs.String.{string_bytes};
    ghost use Rattle.action_messages.specs.Setting.{SettingValue, IsSetting};

    ghost Value = { SettingValue };

    ghost view = { λ a. record { name = string_bytes a.name; value = string_bytes a.value } };

    ghost invariant = { λ a. IsSetting (record {
      name = string_bytes a.name;
      value = string_bytes a.value;
    }) };
}

impl<A: Allocator> Setting<A> {
    /// The setting of this name and value. What may be a name is a rule of the message that holds
    /// the setting.
    pub fn new(name: String<A>, value: String<A>) -> Setting<A>
        ensures { result ≡ record { name = string_bytes name; value = string_bytes value } }
    {
        Setting { name, value }
    }

    /// The name.
    pub fn name(&self) -> &str
        ensures value { result.now ≡ self.now.name }
        ensures valid { IsSetting self.now }
    {
        self.name.as_str()
    }

    /// The value.
    pub fn value(&self) -> &str
        ensures value { result.now ≡ self.now.value }
        ensures valid { IsSetting self.now }
    {
        self.value.as_str()
    }

    /// The order of properties: by the bytes of the name, then by those of the value.
    pub(crate) fn compare(&self, other: &Setting<A>) -> Ordering
        ensures value { result ≡ setting_cmp self.now other.now }
        ensures valid { IsSetting other.now }
    {
        let names = self.name.as_bytes().cmp(other.name.as_bytes());
        names.then(self.value.as_bytes().cmp(other.value.as_bytes()))
    }
}

impl<A: Allocator> Named for Setting<A> {
    ghost use Rattle.action_messages.specs.Setting.{IsSetting};

    ghost name_in = { λ s. s.name };

    ghost keeps = { IsSetting };

    fn name(&self) -> &[u8] {
        let _ = self.value();
        self.name.as_bytes()
    }
}

impl<A: Allocator + Copy> Setting<A> {
    /// A copy of the setting, over another allocator.
    pub(crate) fn copy_of<B: Allocator>(
        alloc: A,
        setting: &Setting<B>,
    ) -> Result<Setting<A>, AllocError>
        ensures { IfOk result (λ s. s ≡ setting.now) }
    {
        Ok(Setting {
            name: String::from_str(alloc, setting.name.as_str())?,
            value: String::from_str(alloc, setting.value.as_str())?,
        })
    }
}

#[tactic(auto, using(messages::proofs::Spellings::spelled_parts), unfolding(crate::specs::Setting::setting_bytes))]
impl<A: Allocator + Copy> Encode<A> for Setting<A> {
    ghost use Rattle.action_messages.specs.Setting.{setting_bytes};

    ghost spells = { setting_bytes };

    fn write(&self, alloc: A) -> Result<Vec<u8, A>, AllocError> {
        let mut out = Vec::new(alloc);
        write_string(&mut out, 1, &self.name)?;
        write_string(&mut out, 2, &self.value)?;
        Ok(out)
    }
}

#[tactic(auto, using(messages::proofs::Spellings::spelled_parts), unfolding(crate::specs::Setting::decoded_setting))]
impl<A: Allocator + Copy> Message<A> for Setting<A> {
    ghost use Rattle.action_messages.specs.Setting.{IsSetting, decoded_setting};

    ghost reads = { decoded_setting };

    ghost keeps = { IsSetting };

    fn is_exact() {}

    fn read(alloc: A, bytes: &[u8]) -> Result<Setting<A>, MessageError> {
        let fields = read_fields(alloc, &setting_shape(), bytes)?;
        let name = read_string(&fields, 1)?;
        let value = read_string(&fields, 2)?;
        Ok(Setting::new(
            String::from_str(alloc, name)?,
            String::from_str(alloc, value)?,
        ))
    }
}
