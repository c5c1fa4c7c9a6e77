//! What holds of reading a text of boot.ini.

ghost use Rattle.std.specs.Prelude.{◌≡◌, ℕ, List};
ghost use Rattle.boot_ini.specs.declared.boot_ini.ini.BootIni.{BootIni};
ghost use Rattle.boot_ini.specs.boot_ini.Ini.{ini_of};
ghost use Rattle.boot_ini.specs.boot_ini.Spelling.{IsSpelled};

/// A text says exactly what it spells: sections and keys in either case, blanks, comments, lines that
/// say nothing here and sections that stand several times included.
pub fn a_boot_ini_reads_as_what_it_spells()
    ensures reads { (text system : List ℕ) (ini : BootIni) → IsSpelled text system ini → ini_of text system ≡ ini }
    ensures spelled { (text system : List ℕ) → IsSpelled text system (ini_of text system) }
{}
