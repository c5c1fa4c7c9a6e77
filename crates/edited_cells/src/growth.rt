//! By how much a tree's size differs where one key of it changes.

ghost use Rattle.std.specs.Prelude.{◌≡◌, ◌+◌, ℕ, List, length, Some};
ghost use Rattle.nt_bytes.specs.declared.version.HiveVersion.{HiveVersion as Version};
ghost use Rattle.hive_model.specs.Tree.{Tree, Trees, Head, Item, key, head, listed, find_key};
ghost use Rattle.hive_model.specs.Edit.{at_key, of_items, of_children};
ghost use Rattle.hive_model.specs.Size.{items_size, list_size, count, size};
ghost use Rattle.edited_cells.specs.Sizes.{sizes_of};

/// A tree grows by the size of the values that a key of it gets, less that of those that it had.
pub fn other_values_change_the_size()
    ensures { (version : Version) (shared : List ℕ) (path : List (List ℕ)) (t k : Tree) (f : List Item → List Item) → find_key path t ≡ Some k
        → size version shared (at_key path (of_items f) t) + items_size version (head k).values
        ≡ size version shared t + items_size version (f (head k).values) }
{}

/// A tree grows by the size of the lists and the children that a key of it gets, less that of those that it had.
pub fn other_children_change_the_size()
    ensures { (version : Version) (shared : List ℕ) (path : List (List ℕ)) (t : Tree) (h : Head) (ts : Trees) (f : List Tree → List Tree)
        → find_key path t ≡ Some (key h ts)
        → size version shared (at_key path (of_children f) t) + (list_size (count ts) + sizes_of version h.security (listed ts))
        ≡ size version shared t + (list_size (length (f (listed ts))) + sizes_of version h.security (f (listed ts))) }
{}
