//! What the hive of one driver loads as, which another program wrote, and its first fault where a few bytes are changed.

ghost use Rattle.std.specs.Prelude.{[], ◌∷◌, false};
ghost use Rattle.nt_bytes.specs.declared.fault.HiveFaultKind.TheVariants.{BinOffset, BinSign, BinSize, CellPastBin, CellSize, DoubleName, FormKind, FormLength, FormName, FormShort, FormSign, FreeCell, OutOfRange, Shared};
ghost use Rattle.nt_bytes.specs.declared.version.HiveVersion.TheVariants.{V3};
ghost use Rattle.hive_model.specs.Base.{fault_at};
ghost use Rattle.hive_model.specs.Load.{Loads, LoadFault};
ghost use Rattle.hive_examples.specs.OneDriver.{driver_with};
ghost use Rattle.hive_laws.specs.hive_laws.Trees.{one_driver};

/// Its sequence number is 5, its version 1.3, and its tree has a set, a service and `Select`.
pub fn one_driver_loads()
    ensures { Loads (driver_with []) (record { tree = one_driver; sequence = 5; version = V3 }) false }
{}

/// The root's list names the root, a child twice, the free cell, or a place in a cell; the list of `Services`
/// names `Services`; the root's cell is free.
pub fn uses_of_one_driver()
    ensures root { LoadFault (driver_with ((128, 0x20) ∷ [])) (fault_at Shared 32) }
    ensures twice { LoadFault (driver_with ((136, 0x90) ∷ (137, 0) ∷ [])) (fault_at Shared 144) }
    ensures free { LoadFault (driver_with ((136, 8) ∷ (137, 3) ∷ [])) (fault_at FreeCell 776) }
    ensures inside { LoadFault (driver_with ((136, 0x94) ∷ (137, 0) ∷ [])) (fault_at OutOfRange 148) }
    ensures itself { LoadFault (driver_with ((352, 0) ∷ [])) (fault_at Shared 256) }
    ensures free_root { LoadFault (driver_with ((32, 0x58) ∷ (33, 0) ∷ (34, 0) ∷ (35, 0) ∷ [])) (fault_at FreeCell 32) }
{}

/// The node of the root and the list of `Services` have other signatures; that list counts two; the name of
/// `Disk` has 100 bytes, none, a backslash, or half a unit; and a list of lists names another.
pub fn forms_of_one_driver()
    ensures node_sign { LoadFault (driver_with ((36, 0x78) ∷ [])) (fault_at FormSign 32) }
    ensures list_sign { LoadFault (driver_with ((348, 0x78) ∷ [])) (fault_at FormSign 344) }
    ensures list_count { LoadFault (driver_with ((350, 2) ∷ [])) (fault_at FormShort 344) }
    ensures name_length { LoadFault (driver_with ((436, 0x64) ∷ [])) (fault_at FormShort 360) }
    ensures no_name { LoadFault (driver_with ((436, 0) ∷ [])) (fault_at FormName 360) }
    ensures backslash { LoadFault (driver_with ((440, 0x5C) ∷ [])) (fault_at FormName 360) }
    ensures half_unit { LoadFault (driver_with ((366, 0) ∷ (436, 3) ∷ [])) (fault_at FormLength 360) }
    ensures inner_list { LoadFault (driver_with ((124, 0x72) ∷ (125, 0x69) ∷ (128, 0xF0) ∷ (244, 0x72) ∷ (245, 0x69) ∷ [])) (fault_at FormKind 240) }
{}

/// `Disk` counts three values, or four; `Start` has five bytes in place; `Select` has `Current` twice.
pub fn values_of_one_driver()
    ensures more { LoadFault (driver_with ((400, 3) ∷ [])) (fault_at OutOfRange 0) }
    ensures too_many { LoadFault (driver_with ((400, 4) ∷ [])) (fault_at FormShort 448) }
    ensures in_place { LoadFault (driver_with ((472, 5) ∷ [])) (fault_at FormLength 464) }
    ensures double { LoadFault (driver_with ((696, 0x43) ∷ (697, 0x75) ∷ (698, 0x72) ∷ (699, 0x72) ∷ (700, 0x65) ∷ (701, 0x6E) ∷ []))
        (fault_at DoubleName 672) }
{}

/// The bin's signature, offset and size; and the size of the root's cell, which is 0, no whole eights, or
/// past the bin.
pub fn bins_of_one_driver()
    ensures sign { LoadFault (driver_with ((0, 0x78) ∷ [])) (fault_at BinSign 0) }
    ensures offset { LoadFault (driver_with ((5, 0x10) ∷ [])) (fault_at BinOffset 0) }
    ensures size { LoadFault (driver_with ((9, 0x20) ∷ [])) (fault_at BinSize 0) }
    ensures no_cell { LoadFault (driver_with ((32, 0) ∷ (33, 0) ∷ (34, 0) ∷ (35, 0) ∷ [])) (fault_at CellSize 32) }
    ensures uneven_cell { LoadFault (driver_with ((32, 0xA4) ∷ [])) (fault_at CellSize 32) }
    ensures past_bin { LoadFault (driver_with ((32, 0) ∷ (33, 0xF0) ∷ [])) (fault_at CellPastBin 32) }
{}
