//! The name of a method.
ghost use Rattle.std.specs.Prelude.{◌≡◌, ◌++◌, ◌∷◌, IfOk};
ghost use Rattle.jmodel.specs.format.Name.{printed};

use crate::bytes::Bytes;
use std::alloc::{AllocError, Global};

/// A method by the name of its class, its own name and its descriptor.
pub struct MethodName {
    pub class: Bytes,
    pub name: Bytes,
    pub descriptor: Bytes,
}

impl Drop for MethodName {
    fn drop(self) {
        let Self {
            class: _,
            name: _,
            descriptor: _,
        } = self;
    }
}

impl MethodName {
    /// The printed form, `CLASS.NAMEDESCRIPTOR`.
    pub fn printed(&self, alloc: Global) -> Result<Bytes, AllocError>
        ensures { IfOk result (λ b. b ≡ printed self.now) }
    {
        let mut text = self.class.copy(alloc)?;
        text.push(b'.')?;
        text.extend_from_slice(self.name.as_slice())?;
        text.extend_from_slice(self.descriptor.as_slice())?;
        Ok(text)
    }
}
