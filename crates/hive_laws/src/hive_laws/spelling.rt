//! What is spelled is read back.

ghost use Rattle.std.specs.Prelude.{◌≡◌, ◌<◌, ◌^◌, ◌++◌, ℕ, List, length, Ok};
ghost use Rattle.hive_model.specs.Base.{Base, IsBase, base_text, base_of};
ghost use Rattle.hive_model.specs.KeyNode.{KeyNode, IsKeyNode, key_node_at, key_node_text};
ghost use Rattle.hive_model.specs.KeyValue.{KeyValue, IsKeyValue, key_value_at, key_value_text};
ghost use Rattle.hive_model.specs.BigData.{BigData, IsBigData, big_data_at, big_data_text};
ghost use Rattle.hive_model.specs.Forms.{bytes_in};
ghost use Rattle.hive_model.specs.Security.{SecurityCell, IsSecurityCell, security_at, security_text};
ghost use Rattle.hive_model.specs.Lists.{offsets_in, offsets_text};
ghost use Rattle.hive_model.specs.Lists.{AreOffsets, AreHints, Li, Lf, Lh, Ri, list_at, li_text, lf_text, lh_text, ri_text};

/// A base block whose fields fit their places.
pub fn a_base_block_is_read_back()
    ensures { (base : Base) → IsBase base → base_of (base_text base) base.kind ≡ Ok base }
{}

/// A form whose numbers fit their fields, whatever fills the cell after it.
pub fn forms_are_read_back()
    ensures node { (n : KeyNode) (slack : List ℕ) → IsKeyNode n → key_node_at (key_node_text n ++ slack) ≡ Ok n }
    ensures value { (v : KeyValue) (slack : List ℕ) → IsKeyValue v → key_value_at (key_value_text v ++ slack) ≡ Ok v }
    ensures big_data { (big : BigData) (slack : List ℕ) → IsBigData big → big_data_at (big_data_text big ++ slack) ≡ Ok big }
    ensures security { (s : SecurityCell) (slack : List ℕ) → IsSecurityCell s → security_at (security_text s ++ slack) ≡ Ok s }
    ensures values { (offsets slack : List ℕ) → AreOffsets offsets → offsets_in (length offsets) (offsets_text offsets ++ slack) ≡ Ok offsets }
    ensures bytes { (bytes slack : List ℕ) → bytes_in (length bytes) (bytes ++ slack) ≡ Ok bytes }
{}

/// A list of subkeys of each kind, whatever fills the cell after it.
pub fn lists_are_read_back()
    ensures li { (offsets slack : List ℕ) → length offsets < 2 ^ 16 → AreOffsets offsets
        → list_at (li_text offsets ++ slack) ≡ Ok (record { kind = Li; offsets = offsets }) }
    ensures lf { (offsets : List ℕ) (hints : List (List ℕ)) (slack : List ℕ) → length offsets ≡ length hints → length offsets < 2 ^ 16
        → AreOffsets offsets → AreHints hints
        → list_at (lf_text offsets hints ++ slack) ≡ Ok (record { kind = Lf; offsets = offsets }) }
    ensures lh { (offsets : List ℕ) (hints : List (List ℕ)) (slack : List ℕ) → length offsets ≡ length hints → length offsets < 2 ^ 16
        → AreOffsets offsets → AreHints hints
        → list_at (lh_text offsets hints ++ slack) ≡ Ok (record { kind = Lh; offsets = offsets }) }
    ensures ri { (offsets slack : List ℕ) → length offsets < 2 ^ 16 → AreOffsets offsets
        → list_at (ri_text offsets ++ slack) ≡ Ok (record { kind = Ri; offsets = offsets }) }
{}
