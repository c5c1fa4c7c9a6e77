//! Whether two trees are equal.

ghost use Rattle.std.specs.Prelude.{◌≡◌, ◌↔◌, IsTrue};
ghost use Rattle.hive_model.specs.Tree.{head};

use crate::key::{Key, Keys};
use crate::value::{Value, Values};

impl Value {
    fn same(&self, other: &Value) -> bool
        ensures { IsTrue result ↔ (self.now ≡ other.now) }
    {
        self.kind == other.kind
            && self.name.as_slice() == other.name.as_slice()
            && self.bytes.as_slice() == other.bytes.as_slice()
    }
}

impl Values {
    fn same(&self, other: &Values) -> bool
        ensures { IsTrue result ↔ (self.now ≡ other.now) }
    {
        same_values(self.as_slice(), other.as_slice())
    }
}

fn same_values(a: &[Value], b: &[Value]) -> bool
    ensures { IsTrue result ↔ (a.now ≡ b.now) }
{
    let mut xs = a;
    let mut ys = b;
    'values: loop {
        let [x, more_xs @ ..] = xs else {
            return ys.is_empty();
        };
        let [y, more_ys @ ..] = ys else {
            return false;
        };
        if !x.same(y) {
            return false;
        }
        xs = more_xs;
        ys = more_ys;
    }
}

impl Key {
    fn same_head(&self, other: &Key) -> bool
        ensures { IsTrue result ↔ (head self.now ≡ head other.now) }
    {
        if self.flags != other.flags || self.stamp != other.stamp {
            return false;
        }
        if self.name.as_slice() != other.name.as_slice() {
            return false;
        }
        if self.class.as_slice() != other.class.as_slice() {
            return false;
        }
        if self.security.as_slice() != other.security.as_slice() {
            return false;
        }
        self.values.same(&other.values)
    }

    /// Whether the two trees are equal.
    #[cycle(same)]
    pub fn same(&self, other: &Key) -> bool
        ensures { IsTrue result ↔ (self.now ≡ other.now) }
    {
        if !self.same_head(other) {
            return false;
        }
        self.children.same(&other.children)
    }
}

impl Keys {
    #[cycle(same)]
    fn same(&self, other: &Keys) -> bool
        ensures { IsTrue result ↔ (self.now ≡ other.now) }
    {
        if self.items.len() != other.items.len() {
            return false;
        }
        for i in 0..self.items.len() {
            if !self.items[i].same(&other.items[i]) {
                return false;
            }
        }
        true
    }
}
