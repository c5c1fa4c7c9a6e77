//! Which reason a fault has that one command prints.

ghost use Rattle.std.specs.Prelude.{◌<◌, ◌^◌, List};
ghost use Rattle.nt_bytes.specs.declared.fault.HiveFault.{HiveFault};
ghost use Rattle.nt_edge.specs.Host.{Files};
ghost use Rattle.reg_text.specs.declared.stop.RegFault.{RegFault};
ghost use Rattle.refusal_reason.specs.reason_lines.Texts.{Text};
ghost use Rattle.command_laws.specs.reason_laws.Faults.{ExplainsOther, ExplainsReg};

/// The line on a fault of a registry text, or of a tree that is to be one, has the file, the line and the reason of its kind.
pub fn a_faulty_registry_text_has_its_reason()
    ensures { (words : List Text) (files : Files) (fault : RegFault) → fault.line < 2 ^ 32 → ExplainsReg words files fault }
{}

/// The line on a fault of the second hive of `diff` has the file, the byte and the reason of its kind.
pub fn a_faulty_second_hive_has_its_reason()
    ensures { (words : List Text) (files : Files) (fault : HiveFault) → fault.at < 2 ^ 32 → ExplainsOther words files fault }
{}
