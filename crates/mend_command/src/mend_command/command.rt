//! A hive repaired on its disk.

ghost use Rattle.std.specs.Prelude.{◌≡◌, Bool, true, []};
ghost use Rattle.nt_bytes.specs.declared.fault.HiveFault.{HiveFault as HiveFaultModel};
ghost use Rattle.hive_model.specs.Carries.{Carries};
ghost use Rattle.hive_model.specs.State.{HiveState};
ghost use Rattle.hive_model.specs.Load.{Loads, LoadFault};
ghost use Rattle.nt_edge.specs.Crash.{EachCrash};
ghost use Rattle.hive_commit.specs.Untouched.{IsUntouched};
ghost use Rattle.mend_command.specs.hive_mend.Mending.{LoadsAsOrNext};
ghost use Rattle.mend_command.specs.mend_command.Ends.{Told, SaysAs, SaysFound, SaysRest, HostGoes, DiskGoes, HasMended, IsMended};
ghost use Rattle.mend_command.specs.mend_command.Lines.{device_text, cut_text};
ghost use Rattle.mend_command.specs.declared.mend_command.status.MendStatus.TheVariants.{Done};

use crate::hive_mend::{CommitStop, LoadStop, LoadedHive};
use crate::mend_command::saying::{tell, tell_fault, tell_loaded, tell_mended};
use crate::mend_command::status::MendStatus;
use nt_edge::{Disk, Host};
use std::alloc::Global;

/// Says that the power was lost.
fn tell_cut<H: Host>(host: &mut H) -> MendStatus
    ensures told { Told MendStatus.Cut cut_text result (H.state host.old) (H.state host.new) }
    ensures host { HostGoes result (H.state host.old) (H.state host.new) }
{
    tell(host, b"power lost\n", MendStatus::Cut)
}

/// Says that the device failed.
fn tell_device<H: Host>(host: &mut H) -> MendStatus
    ensures told { Told MendStatus.Device device_text result (H.state host.old) (H.state host.new) }
    ensures host { HostGoes result (H.state host.old) (H.state host.new) }
{
    tell(host, b"device fault\n", MendStatus::Device)
}

/// Packs a hive that was loaded where that makes it shorter, and says so.
fn pack_loaded<H: Host, D: Disk>(
    alloc: Global,
    host: &mut H,
    disk: &mut D,
    hive: LoadedHive,
) -> MendStatus
    requires on { (D.state disk.old).on ≡ true }
    requires still { D.tells ≡ true → (D.state disk.old).flight ≡ [] }
    requires carries { D.tells ≡ true → Carries (D.state disk.old).held hive.base hive.bins }
    ensures said { SaysRest hive result (H.state host.old) (H.state host.new) }
    ensures mended { D.tells ≡ true → result ≡ Done → HasMended hive (D.state disk.new) }
    ensures crash { D.tells ≡ true → (s : HiveState) (dirty : Bool)
        → Loads (D.state disk.old).held s dirty
        → EachCrash (D.state disk.new) (LoadsAsOrNext s) }
    ensures disk { DiskGoes result (D.state disk.old) (D.state disk.new) }
    ensures host { HostGoes result (H.state host.old) (H.state host.new) }
{
    let old = hive.size();
    match hive.mend(alloc, disk) {
        Ok((mended, number)) => tell_mended(alloc, host, number, old, mended.size()),
        Err(CommitStop::PowerLost) => tell_cut(host),
        Err(CommitStop::Device) => tell_device(host),
        Err(CommitStop::Memory) => MendStatus::Memory,
    }
}

/// Says how a hive was found, and repairs it.
fn mend_loaded<H: Host, D: Disk>(
    alloc: Global,
    host: &mut H,
    disk: &mut D,
    hive: LoadedHive,
    dirty: bool,
) -> MendStatus
    requires on { (D.state disk.old).on ≡ true }
    requires still { D.tells ≡ true → (D.state disk.old).flight ≡ [] }
    requires carries { D.tells ≡ true → Carries (D.state disk.old).held hive.base hive.bins }
    ensures said { SaysFound hive dirty result (H.state host.old) (H.state host.new) }
    ensures mended { D.tells ≡ true → result ≡ Done → HasMended hive (D.state disk.new) }
    ensures crash { D.tells ≡ true → (s : HiveState) (was : Bool)
        → Loads (D.state disk.old).held s was
        → EachCrash (D.state disk.new) (LoadsAsOrNext s) }
    ensures disk { DiskGoes result (D.state disk.old) (D.state disk.new) }
    ensures host { HostGoes result (H.state host.old) (H.state host.new) }
{
    match tell_loaded(alloc, host, &hive, dirty) {
        MendStatus::Done => pack_loaded(alloc, host, disk, hive),
        stop => stop,
    }
}

/// Repairs the hive of a disk: recovers it by its log where it is dirty, and packs it where its tree's bulk is at most
/// 16,773,120 bytes and its packed form is shorter. Says `recovered SEQ SIZE` or `clean SEQ SIZE` with the size of
/// the bins data, and `packed SEQ OLD NEW` where it packed. The disk is on and has nothing in flight.
pub fn mend_hive<H: Host, D: Disk>(alloc: Global, host: &mut H, disk: &mut D) -> MendStatus
    requires on { (D.state disk.old).on ≡ true }
    requires still { D.tells ≡ true → (D.state disk.old).flight ≡ [] }
    // What was printed is the report of the status, of the hive that the disk held at entry; or at a stop of the host or of
    // the memory a prefix of such a report. So `HiveFault` comes only where this hive has a fault, and `Done` only where
    // it has none, and each line has the numbers of this hive and of its packed form.
    ensures said { D.tells ≡ true → SaysAs (D.state disk.old).held result (H.state host.old) (H.state host.new) }
    // At Done the disk is clean and carries this hive, packed where that made it shorter.
    ensures mended { D.tells ≡ true → result ≡ Done → IsMended (D.state disk.old).held (D.state disk.new) }
    // At every exit a cut leaves what loads as the disk did at entry, or as the same tree under the next number.
    ensures crash { D.tells ≡ true → (s : HiveState) (dirty : Bool)
        → Loads (D.state disk.old).held s dirty
        → EachCrash (D.state disk.new) (LoadsAsOrNext s) }
    // A hive with a fault is not written, whatever the answer.
    ensures faulty { D.tells ≡ true → (fault : HiveFaultModel) → LoadFault (D.state disk.old).held fault
        → IsUntouched (D.state disk.old) (D.state disk.new) }
    // A stop has its cause, a count that rose in this call; and none rose where no stop is reported, unless the report of it was stopped.
    ensures disk { DiskGoes result (D.state disk.old) (D.state disk.new) }
    ensures host { HostGoes result (H.state host.old) (H.state host.new) }
{
    match LoadedHive::load(alloc, disk) {
        Ok((hive, dirty)) => mend_loaded(alloc, host, disk, hive, dirty),
        Err(LoadStop::Fault(fault)) => tell_fault(alloc, host, fault),
        Err(LoadStop::PowerLost) => tell_cut(host),
        Err(LoadStop::Device) => tell_device(host),
        Err(LoadStop::Memory) => MendStatus::Memory,
    }
}
