//! How deep a tree is.

ghost use Rattle.std.specs.Prelude.{◌≡◌, nat_lt};
ghost use Rattle.hive_model.specs.Tree.{trees};
ghost use Rattle.hive_model.specs.Valid.{levels, most_levels};

use crate::key::{Key, Keys};

impl Key {
    /// Whether the tree has more levels than this.
    #[cycle(is_deeper)]
    pub fn is_deeper(&self, most: u32) -> bool
        ensures { result ≡ nat_lt most (levels self.now) }
    {
        if most == 0 {
            return true;
        }
        self.children.are_deeper(most - 1)
    }
}

impl Keys {
    #[cycle(is_deeper)]
    fn are_deeper(&self, most: u32) -> bool
        ensures { result ≡ nat_lt most (most_levels (trees self.now)) }
    {
        let mut rest = self.as_slice();
        'keys: loop {
            let [child, more @ ..] = rest else {
                return false;
            };
            if child.is_deeper(most) {
                return true;
            }
            rest = more;
        }
    }
}
