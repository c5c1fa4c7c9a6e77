//! A key that was written as a text and read again.

ghost use Rattle.std.specs.Prelude.{◌≡◌, ℕ, List, Ok};
ghost use Rattle.std.specs.List.{All};
ghost use Rattle.nt_bytes.specs.declared.version.HiveVersion.{HiveVersion};
ghost use Rattle.hive_model.specs.Edit.{Step, after_steps, edited};
ghost use Rattle.hive_model.specs.Tree.{Tree};
ghost use Rattle.reg_text.specs.Reading.{reg_steps_of};
ghost use Rattle.reg_text.specs.Writing.{reg_text_of};
ghost use Rattle.text_laws.specs.Back.{key_steps, IsPart, IsTextual, IsOrdered, IsFreeAt, HasBack};

/// The text of a key is read as the edits that make the keys on the way to it, set its values in their order, and do the same
/// for each key below it, in their order.
pub fn a_text_is_read_as_its_edits()
    ensures { (path : List (List ℕ)) (written : Tree) (text : List ℕ) → All IsPart path → IsTextual written
        → reg_text_of path written ≡ Ok text → reg_steps_of text ≡ Ok (key_steps path written) }
{}

/// These edits, made in a tree in which nothing is at the path, give the key's values and all below it, unless one is
/// refused.
pub fn edits_build_the_key()
    ensures { (path : List (List ℕ)) (written root made : Tree) → IsOrdered written → IsFreeAt path root
        → after_steps root (key_steps path written) ≡ Ok made → HasBack path written made }
{}

/// A key that is written as a text and read again, its edits made in a tree in which nothing is at the path, is there with all
/// below it, unless an edit is refused or the tree is too large then.
pub fn a_text_gives_its_key_back()
    ensures { (path : List (List ℕ)) (written root made : Tree) (text : List ℕ) (steps : List Step) (version : HiveVersion)
        → All IsPart path → IsTextual written → IsOrdered written → IsFreeAt path root
        → reg_text_of path written ≡ Ok text → reg_steps_of text ≡ Ok steps
        → edited version root steps ≡ Ok made → HasBack path written made }
{}
