//! What the options make of a text.

ghost use Rattle.std.specs.Prelude.{◌≡◌, ◌↔◌, ◌++◌, ◌∷◌, ℕ, Bool, true, false, List, Option, Some, None, Result, Ok, Err, map, option_map, codes};
ghost use Rattle.reg_text.specs.declared.item.LineItem.{LineItem};
ghost use Rattle.reg_text.specs.Reading.{edits_of, key_after};
ghost use Rattle.std.specs.List.{All, list_any};
ghost use Rattle.nt_bytes.specs.declared.version.HiveVersion.{HiveVersion};
ghost use Rattle.nt_edge.specs.Disk.{DiskState};
ghost use Rattle.hive_model.specs.Edit.{Step, no_key, no_value, edited};
ghost use Rattle.hive_model.specs.State.{HiveState};
ghost use Rattle.hive_model.specs.Tree.{Tree};
ghost use Rattle.start_model.specs.Sets.{is_usable, set_name};
ghost use Rattle.report_text.specs.declared.line_text.form.ReportForm.{ReportForm};
ghost use Rattle.command_words.specs.declared.asked.AskedEncoding.{AskedEncoding};
ghost use Rattle.command_words.specs.declared.asked.AskedEncoding.TheVariants.{Utf16, Utf8};
ghost use Rattle.command_words.specs.declared.asked.AskedSet.TheVariants.{Number};
ghost use Rattle.command_parts.specs.declared.command_parts.inputs.HiveFiles.{HiveFiles};
ghost use Rattle.command_parts.specs.declared.command_parts.refusal.Refusal.{Refusal};
ghost use Rattle.command_parts.specs.declared.command_parts.status.Status.{Status};
ghost use Rattle.command_parts.specs.command_parts.Saves.{Saves};
ghost use Rattle.import_steps.specs.Current.{SetSteps, path_in, step_in, deletes_current, set_steps};
ghost use Rattle.import_steps.specs.Encoding.{unmarked, utf16_of};
ghost use Rattle.import_steps.specs.Left.{left_of};
ghost use Rattle.text_commands.specs.declared.said.How.{How};
ghost use Rattle.text_commands.specs.declared.said.Said.{Said};
ghost use Rattle.text_commands.specs.Changed.{steps_in, change_made, change_for};
ghost use Rattle.text_commands.specs.ImportLines.{number_line, said_text};
ghost use Rattle.text_commands.specs.Imported.{EndsImport};
ghost use Rattle.command_laws.specs.import_laws.Options.{encoded, announced, item_in, edits_in, names_current, deletes_root, IsOfText};

/// A text in UTF-8 has the edits, or the first fault, of the same text in UTF-16 (`reads`), and `import` ends as with that
/// (`ends`). The mark before it makes no difference (`mark`).
pub fn a_text_in_utf8_is_read_as_in_utf16()
    ensures reads { (text wide : List ℕ) → utf16_of text ≡ Some wide → steps_in Utf8 text ≡ steps_in Utf16 wide }
    ensures ends { (found : Result HiveFiles Refusal) (saves : Saves) (how : How) (text wide : List ℕ) (disk : DiskState) (status : Status)
        (old new : List ℕ) → utf16_of text ≡ Some wide
        → (EndsImport found saves (encoded Utf8 how) (Ok text) disk status old new
        ↔ EndsImport found saves (encoded Utf16 how) (Ok wide) disk status old new) }
    ensures mark { (text : List ℕ) → unmarked text ≡ text → utf16_of (0xEF ∷ 0xBB ∷ 0xBF ∷ text) ≡ utf16_of text }
{}

/// With `--current` a change is that by the edits with the set's name in place of `CurrentControlSet`, where none of them deletes the
/// set by that name; and the number of the set is printed first (`change`, `said`). Line by line these are the edits of the text in which
/// that name is written in each line of a key (`lines`, `keys`). No edit that is made names `CurrentControlSet` (`none_named`).
pub fn the_name_of_the_current_set_is_written_out()
    ensures lines { (set : List ℕ) (key : Option (List (List ℕ))) (item : LineItem)
        → edits_in set (edits_of key item) ≡ edits_of (option_map (path_in set) key) (item_in set item) }
    ensures keys { (set : List ℕ) (key : Option (List (List ℕ))) (item : LineItem)
        → option_map (path_in set) (key_after key item) ≡ key_after (option_map (path_in set) key) (item_in set item) }
    ensures change { (n : ℕ) (lenient : Bool) (s : HiveState) (steps : List Step) → is_usable s.tree n ≡ true
        → All (λ step. deletes_current step ≡ false) steps
        → change_for (Some (Number n)) lenient s steps
        ≡ announced n (change_for None lenient s (map (step_in (set_name n)) steps)) }
    ensures said { (form : ReportForm) (n : ℕ) (said : Said) → said.current ≡ None
        → said_text form (record said { current = Some n })
        ≡ number_line form (codes "current") (codes "number") n ++ said_text form said }
    ensures none_named { (n : ℕ) (steps : List Step) → All (λ step. names_current step ≡ false) (set_steps n steps).steps }
{}

/// With `--lenient` the hive is afterwards as the steps that are left would have it, and what was done is the same (`done`,
/// `state`). A value that isn't there is no reason for a refusal (`no_value`), and a key that isn't there only
/// where the text deletes the root (`no_key`). Where nothing was passed over, the steps are those that were given (`all`).
pub fn void_steps_are_left_out()
    ensures done { (current : Option ℕ) (s : HiveState) (made : SetSteps)
        → (change_made current true s made).said.done
        ≡ (change_made current false s (record { steps = (left_of s.tree made.steps).steps; protected = made.protected })).said.done }
    ensures state { (current : Option ℕ) (s : HiveState) (made : SetSteps)
        → (change_made current true s made).state
        ≡ (change_made current false s (record { steps = (left_of s.tree made.steps).steps; protected = made.protected })).state }
    ensures no_value { (version : HiveVersion) (t : Tree) (steps : List Step) → All IsOfText steps
        → edited version t (left_of t steps).steps ≡ Err no_value → ⊥ }
    ensures no_key { (version : HiveVersion) (t : Tree) (encoding : AskedEncoding) (text : List ℕ) (steps : List Step)
        → steps_in encoding text ≡ Ok steps → edited version t (left_of t steps).steps ≡ Err no_key → list_any deletes_root steps ≡ true }
    ensures all { (t : Tree) (steps : List Step) → (left_of t steps).passed ≡ 0 → (left_of t steps).steps ≡ steps }
{}
