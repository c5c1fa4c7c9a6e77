//! What holds of reading and writing a path.

ghost use Rattle.std.specs.Prelude.{◌≡◌, Ok, Err, List, ℕ};
ghost use Rattle.boot_ini.specs.arc_path.Faults.{IsFirstFault};
ghost use Rattle.boot_ini.specs.arc_path.Reading.{arc_of};
ghost use Rattle.boot_ini.specs.declared.arc_path.arc.Arc.{Arc};
ghost use Rattle.boot_ini.specs.declared.arc_path.arc.ArcFault.{ArcFault};
ghost use Rattle.boot_ini.specs.arc_path.Spelling.{IsPath, IsSpelled, text_of};

/// A text is read as a path exactly where it spells it: words in either case, leading zeros and any
/// number of `\` at the end included. The plain text of a path, lower-case and without leading zeros, is one of those that spell it.
pub fn a_path_reads_as_what_it_spells()
    ensures reads { (text : List ℕ) (arc : Arc) → IsSpelled text arc → arc_of text ≡ Ok arc }
    ensures spelled { (text : List ℕ) (arc : Arc) → arc_of text ≡ Ok arc → IsSpelled text arc }
    ensures written { (arc : Arc) → IsPath arc → IsSpelled (text_of arc) arc }
{}

/// The fault that is named is the first from the left: each piece before its place stands there, and
/// the next one does not. And where that is so, it is named.
pub fn the_first_fault_from_the_left_is_named()
    ensures named { (text : List ℕ) (fault : ArcFault) → IsFirstFault fault text → arc_of text ≡ Err fault }
    ensures first { (text : List ℕ) (fault : ArcFault) → arc_of text ≡ Err fault → IsFirstFault fault text }
{}

/// What was read, written and read again is the same path.
pub fn a_path_is_read_again()
    ensures { (a : Arc) (text : List ℕ) → arc_of text ≡ Ok a → arc_of (text_of a) ≡ Ok a }
{}
