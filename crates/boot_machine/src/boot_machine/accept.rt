//! Which events are refused before they are looked at any further.

ghost use Rattle.std.specs.Prelude.{◌≡◌, ◌||◌, not, Some, None, if◌then◌else◌};
ghost use Rattle.std.specs.List.{list_all};
ghost use Rattle.start_model.specs.Events.{is_current, is_digit_unit, names_a_set, is_protected_child, begins_protected, is_current_alone};
ghost use Rattle.report_words.specs.declared.words.RefusedWord.TheVariants as reasons;
ghost use Rattle.start_model.specs.Machine.{is_done, takes_logons, refused_off, refused_running};
ghost use Rattle.boot_machine.specs.boot_machine.Views.{event_in, Answers};

use crate::boot_machine::phases::{is_done, takes_logons};
use crate::boot_machine::refusal::EventRefusal;
use crate::boot_machine::start::Start;
use boot_script::boot_script::Event;
use nt_bytes::{Units, same_folded};
use nt_names::startup_names::{CONTROL_SET, CURRENT_CONTROL_SET, SELECT};

/// What is taken where no start runs.
pub(crate) fn accept_off(event: &Event) -> Result<(), EventRefusal>
    ensures { Answers result (refused_off (event_in event.now)) }
{
    match event {
        Event::Boot { .. } | Event::Fail { .. } | Event::Vital { .. } => Ok(()),
        Event::ArmCut { .. } | Event::ArmFault { .. } => Ok(()),
        _ => Err(EventRefusal::Off),
    }
}

/// What is taken where a start runs.
pub(crate) fn accept_running(start: &Start, event: &Event) -> Result<(), EventRefusal>
    ensures { Answers result (refused_running start.now (event_in event.now)) }
{
    match event {
        Event::Boot { .. } => Err(EventRefusal::Running),
        Event::Go { .. } => accept_go(start),
        Event::Set { path, .. } => accept_edit(begins_protected(path.as_slice())),
        Event::Delete { path, .. } => accept_edit(begins_protected(path.as_slice())),
        Event::Make { path } => accept_edit(is_protected_key(path.as_slice())),
        Event::Remove { path } => accept_edit(is_protected_key(path.as_slice())),
        Event::Logon => accept_logon(start),
        Event::Fail { .. } | Event::Vital { .. } => Ok(()),
        Event::Flush | Event::Off => Ok(()),
        Event::CutNow { .. } | Event::ArmCut { .. } | Event::ArmFault { .. } => Ok(()),
    }
}

/// Steps of the starter are taken until all phases are over.
fn accept_go(start: &Start) -> Result<(), EventRefusal>
    ensures { Answers result (if is_done start.now.phase then Some reasons.Idle else None) }
{
    if is_done(start.phase()) {
        Err(EventRefusal::Idle)
    } else {
        Ok(())
    }
}

/// A logon is taken once, from the automatic phase on.
fn accept_logon(start: &Start) -> Result<(), EventRefusal>
    ensures { Answers result (if not (takes_logons start.now.phase) then Some reasons.Early else (if start.now.logged_on then Some reasons.Again else None)) }
{
    if !takes_logons(start.phase()) {
        Err(EventRefusal::Early)
    } else if start.logged_on() {
        Err(EventRefusal::Again)
    } else {
        Ok(())
    }
}

fn accept_edit(protected: bool) -> Result<(), EventRefusal>
    ensures { Answers result (if protected then Some reasons.Protected else None) }
{
    if protected {
        Err(EventRefusal::Protected)
    } else {
        Ok(())
    }
}

// ---- what is protected

/// Whether the path leads to a key that no script may make or remove.
fn is_protected_key(path: &[Units]) -> bool
    ensures { result ≡ (begins_protected path.now || is_current_alone path.now) }
{
    begins_protected(path) || is_current_alone(path)
}

/// Whether the path begins with a child of the root that no script may edit.
fn begins_protected(path: &[Units]) -> bool
    ensures { result ≡ begins_protected path.now }
{
    match path {
        [] => false,
        [first, ..] => is_protected_child(first.as_slice()),
    }
}

/// Whether the path is `CurrentControlSet` and no more.
fn is_current_alone(path: &[Units]) -> bool
    ensures { result ≡ is_current_alone path.now }
{
    match path {
        [first] => is_current(first.as_slice()),
        _ => false,
    }
}

/// Whether a child of the root is `Select`, or a set by its number.
fn is_protected_child(name: &[u16]) -> bool
    ensures { result ≡ is_protected_child name.now }
{
    same_folded(name, &SELECT) || names_a_set(name)
}

/// Whether the name is `CurrentControlSet`, in letters of either case.
pub fn is_current(name: &[u16]) -> bool
    ensures { result ≡ is_current name.now }
{
    same_folded(name, &CURRENT_CONTROL_SET)
}

/// Whether the name is `ControlSet` and exactly three digits.
fn names_a_set(name: &[u16]) -> bool
    ensures { result ≡ names_a_set name.now }
{
    let end = name.len().saturating_sub(3);
    same_folded(&name[..end], &CONTROL_SET) && are_digits(&name[end..])
}

fn are_digits(units: &[u16]) -> bool
    ensures { result ≡ list_all is_digit_unit units.now }
{
    units.iter().all(|u| 48 <= *u && *u <= 57)
}
