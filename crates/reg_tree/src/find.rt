//! What a tree has under a name.

ghost use Rattle.std.specs.Prelude.{◌≡◌, ◌≤◌, ◌*◌, find, length, IfOk};
ghost use Rattle.std.specs.Option.{option_copied, is_some};
ghost use Rattle.hive_model.specs.Edit.{has_child};
ghost use Rattle.hive_model.specs.Tree.{head, children, is_named, is_item, find_key, find_item, find_dword, find_string, find_strings, find_data};

use crate::halves::named_key;
use crate::key::{Key, Keys};
use crate::value::{Value, Values};
use crate::value_places::named_value;
use nt_bytes::{Names, Units, multi_sz, sz, u32_at};
use std::alloc::{AllocError, Global};

impl Values {
    /// The first value with this name.
    pub fn find(&self, name: &[u16]) -> Option<&Value>
        ensures { option_copied result ≡ find (is_item name.now) self.now }
    {
        named_value(self.items.as_slice(), self.order.as_slice(), name)
    }
}

impl Keys {
    /// The first child with this name.
    pub fn find(&self, name: &[u16]) -> Option<&Key>
        ensures { option_copied result ≡ find (is_named name.now) self.now }
    {
        named_key(self.items.as_slice(), self.rising, name)
    }
}

impl Value {
    pub fn name(&self) -> &[u16]
        ensures { result.now ≡ self.now.name }
    {
        self.name.as_slice()
    }

    /// The data.
    pub fn data(&self) -> &[u8]
        ensures { result.now ≡ self.now.bytes }
    {
        self.bytes.as_slice()
    }
}

impl Key {
    pub fn name(&self) -> &[u16]
        ensures { result.now ≡ (head self.now).name }
    {
        self.name.as_slice()
    }

    pub fn class(&self) -> &[u8]
        ensures { result.now ≡ (head self.now).class }
    {
        self.class.as_slice()
    }

    /// The security descriptor.
    pub fn security(&self) -> &[u8]
        ensures { result.now ≡ (head self.now).security }
    {
        self.security.as_slice()
    }

    /// The children, in order.
    #[tactic(auto, using(crate::proofs::Trees::listed_trees))]
    pub fn subkeys(&self) -> &[Key]
        ensures { result.now ≡ children self.now }
    {
        self.children.as_slice()
    }

    /// The values, in order.
    pub fn items(&self) -> &[Value]
        ensures { result.now ≡ (head self.now).values }
    {
        self.values.as_slice()
    }

    /// The first child with this name.
    #[tactic(auto, using(crate::proofs::Trees::listed_trees))]
    pub fn child(&self, name: &[u16]) -> Option<&Key>
        ensures { option_copied result ≡ find (is_named name.now) (children self.now) }
    {
        self.children.find(name)
    }

    /// The key that a path from here leads to, at each name by the first child that has it. The empty
    /// path leads here.
    pub fn find(&self, path: &Names) -> Option<&Key>
        ensures { option_copied result ≡ find_key path.now self.now }
    {
        let mut key = self;
        let mut rest = path.as_slice();
        'path: loop {
            let [name, more @ ..] = rest else {
                return Some(key);
            };
            let Some(child) = key.child(name.as_slice()) else {
                return None;
            };
            key = child;
            rest = more;
        }
    }

    /// Whether a child has this name.
    pub fn has_child(&self, name: &[u16]) -> bool
        ensures { result ≡ has_child name.now self.now }
    {
        self.child(name).is_some()
    }

    /// Whether a path from here leads to a key.
    pub fn has_key(&self, path: &Names) -> bool
        ensures { result ≡ is_some (find_key path.now self.now) }
    {
        self.find(path).is_some()
    }

    /// The first value with this name.
    pub fn value(&self, name: &[u16]) -> Option<&Value>
        ensures { option_copied result ≡ find_item name.now self.now }
    {
        self.values.find(name)
    }

    /// The number under this name, where there is a value of type 4 with four bytes.
    pub fn dword(&self, name: &[u16]) -> Option<u32>
        ensures { result ≡ find_dword name.now self.now }
    {
        let value = self.value(name)?;
        if value.kind == 4 && value.bytes.as_slice().len() == 4 {
            Some(u32_at(value.bytes.as_slice(), 0))
        } else {
            None
        }
    }
    /// The string under this name, where there is a value of type 1 or 2.
    pub fn text(&self, alloc: Global, name: &[u16]) -> Result<Option<Units>, AllocError>
        ensures { IfOk result (λ t. t ≡ find_string name.now self.now) }
    {
        let Some(value) = self.value(name) else {
            return Ok(None);
        };
        if value.kind == 1 || value.kind == 2 {
            Ok(Some(sz(alloc, value.bytes.as_slice())?))
        } else {
            Ok(None)
        }
    }

    /// The strings under this name, where there is a value of type 7, else none. Each has two bytes
    /// of its own in the data.
    pub fn strings(&self, alloc: Global, name: &[u16]) -> Result<Names, AllocError>
        ensures names { IfOk result (λ names. names ≡ find_strings name.now self.now) }
        ensures half { IfOk result (λ names. 2 * length names ≤ length (find_data name.now self.now)) }
    {
        let Some(value) = self.value(name) else {
            return Ok(Names::new(alloc));
        };
        if value.kind == 7 {
            multi_sz(alloc, value.bytes.as_slice())
        } else {
            Ok(Names::new(alloc))
        }
    }
}
