//! Trees made again.

ghost use Rattle.std.specs.Prelude.{◌≡◌, IfOk};

use crate::key::{Key, Keys};
use crate::value::{Value, Values};
use nt_bytes::{Bytes, Units};
use std::alloc::{AllocError, Global};

impl Value {
    /// A value equal to this one.
    pub fn copy(&self, alloc: Global) -> Result<Value, AllocError>
        ensures { IfOk result (λ v. v ≡ self.now) }
    {
        Ok(Value {
            name: Units::from_slice(alloc, self.name.as_slice())?,
            kind: self.kind,
            bytes: Bytes::from_slice(alloc, self.bytes.as_slice())?,
        })
    }
}

impl Values {
    fn copy(&self, alloc: Global) -> Result<Values, AllocError>
        ensures { IfOk result (λ v. v ≡ self.now) }
    {
        let mut made = Vec::new(alloc);
        for value in self.as_slice() {
            made.push(value.copy(alloc)?)?;
        }
        Ok(Values {
            items: made,
            order: Vec::new(alloc),
            orderly: true,
        })
    }
}

impl Key {
    /// A tree equal to this one.
    #[cycle(copy)]
    pub fn copy(&self, alloc: Global) -> Result<Key, AllocError>
        ensures { IfOk result (λ k. k ≡ self.now) }
    {
        Ok(Key {
            name: Units::from_slice(alloc, self.name.as_slice())?,
            flags: self.flags,
            stamp: self.stamp,
            class: Bytes::from_slice(alloc, self.class.as_slice())?,
            security: Bytes::from_slice(alloc, self.security.as_slice())?,
            values: self.values.copy(alloc)?,
            children: self.children.copy(alloc)?,
        })
    }
}

impl Keys {
    #[cycle(copy)]
    fn copy(&self, alloc: Global) -> Result<Keys, AllocError>
        ensures { IfOk result (λ k. k ≡ self.now) }
    {
        let mut made = Vec::new(alloc);
        for child in &self.items {
            made.push(child.copy(alloc)?)?;
        }
        Ok(Keys {
            items: made,
            rising: self.rising,
        })
    }
}
