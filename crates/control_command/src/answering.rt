//! What is printed for the commands.

ghost use Rattle.std.specs.Prelude.{◌≡◌, ◌++◌, IfOk, OnOk, codes};
ghost use Rattle.hive_model.specs.Valid.{HoldsKeys};
ghost use Rattle.control_command.specs.Report.{Adds, answer_in, answers_in, no_set_lines_in, report_in, spelled, name_lines_in};
ghost use Rattle.dependencies.specs.Work.{names_of};
ghost use Rattle.service_control.specs.First.{control_of};
ghost use Rattle.control_command.specs.declared.command.ControlCommand.TheVariants as code;

use crate::command::ControlCommand;
use crate::printing::{push_end, push_line, push_lines, push_no_set, push_refused};
use dependencies::Need;
use nt_bytes::{Bytes, Units};
use reg_tree::Key;
use report_text::line_text::ReportForm;
use select_keys::{select_numbers, set_of};
use service_control::Control;
use std::alloc::{AllocError, Global};

/// Starts a service, and says so.
fn start(
    alloc: Global,
    control: &mut Control,
    form: ReportForm,
    name: &Units,
    out: &mut Vec<u8>,
) -> Result<(), AllocError>
    ensures { OnOk result (Adds (answer_in form control.old (code.Start name.now)) control.new out.old.items out.new.items) }
{
    match control.start(alloc, name.as_slice()) {
        Ok(names) => push_lines(out, form, b"started", names.as_slice()),
        Err(stop) => push_refused(out, form, b"start", name.as_slice(), &stop),
    }
}

/// Stops a service, and says so by its own name.
fn stop(
    alloc: Global,
    control: &mut Control,
    form: ReportForm,
    name: &Units,
    out: &mut Vec<u8>,
) -> Result<(), AllocError>
    ensures { OnOk result (Adds (answer_in form control.old (code.Stop name.now)) control.new out.old.items out.new.items) }
{
    let spelled = spelled(alloc, control, name)?;
    match control.stop(alloc, name.as_slice()) {
        Ok(()) => push_line(out, form, b"stopped", spelled.as_slice()),
        Err(stop) => push_refused(out, form, b"stop", name.as_slice(), &stop),
    }
}

/// Stops a service and all that lean on it, and says so.
fn stop_all(
    alloc: Global,
    control: &mut Control,
    form: ReportForm,
    name: &Units,
    out: &mut Vec<u8>,
) -> Result<(), AllocError>
    ensures { OnOk result (Adds (answer_in form control.old (code.StopAll name.now)) control.new out.old.items out.new.items) }
{
    match control.stop_all(alloc, name.as_slice()) {
        Ok(names) => push_lines(out, form, b"stopped", names.as_slice()),
        Err(stop) => push_refused(out, form, b"stopall", name.as_slice(), &stop),
    }
}

/// The service's own name, or nothing where there is none.
fn spelled(alloc: Global, control: &Control, name: &Units) -> Result<Units, AllocError>
    ensures { IfOk result (λ u. u ≡ spelled control.now name.now) }
{
    match control.entry(name.as_slice()) {
        Some(entry) => entry.name.copy(alloc),
        None => Ok(Units::new(alloc)),
    }
}

/// Names those that are started.
fn list(control: &Control, form: ReportForm, out: &mut Vec<u8>) -> Result<(), AllocError>
    ensures { OnOk result (out.new.items ≡ out.old.items ++ name_lines_in form (codes "running") (names_of control.now.running)) }
{
    push_running(out, form, control.running())
}

fn push_running(out: &mut Vec<u8>, form: ReportForm, running: &[Need]) -> Result<(), AllocError>
    ensures { OnOk result (out.new.items ≡ out.old.items ++ name_lines_in form (codes "running") (names_of running.now)) }
{
    for entry in running {
        push_line(out, form, b"running", entry.name.as_slice())?;
    }
    Ok(())
}

/// Obeys a command, and says what came of it.
fn answer(
    alloc: Global,
    control: &mut Control,
    form: ReportForm,
    command: &ControlCommand,
    out: &mut Vec<u8>,
) -> Result<(), AllocError>
    ensures { OnOk result (Adds (answer_in form control.old command.now) control.new out.old.items out.new.items) }
{
    match command {
        ControlCommand::Start(name) => start(alloc, control, form, name, out),
        ControlCommand::Stop(name) => stop(alloc, control, form, name, out),
        ControlCommand::StopAll(name) => stop_all(alloc, control, form, name, out),
        ControlCommand::Listing => list(control, form, out),
    }
}

/// What is printed for the commands on the services of this set.
fn answers(
    alloc: Global,
    form: ReportForm,
    set: &Key,
    commands: &[ControlCommand],
) -> Result<Bytes, AllocError>
    requires { HoldsKeys set.now }
    ensures { IfOk result (λ t. t ≡ answers_in form (control_of set.now) commands.now) }
{
    let mut control = Control::new(alloc, set)?;
    let mut out = Vec::new(alloc);
    for command in commands {
        answer(alloc, &mut control, form, command, &mut out)?;
    }
    push_end(&mut out, form)?;
    Ok(Bytes::from_vec(out))
}

/// What is printed where Default names no usable set.
fn no_set(alloc: Global, form: ReportForm) -> Result<Bytes, AllocError>
    ensures { IfOk result (λ t. t ≡ no_set_lines_in form) }
{
    let mut out = Vec::new(alloc);
    push_no_set(&mut out, form)?;
    Ok(Bytes::from_vec(out))
}

/// What is printed for the commands on the services of this tree in one of the two forms. The tree's keys must be those that a hive can
/// hold.
pub fn report(
    alloc: Global,
    form: ReportForm,
    root: &Key,
    commands: &[ControlCommand],
) -> Result<Bytes, AllocError>
    requires { HoldsKeys root.now }
    ensures { IfOk result (λ t. t ≡ report_in form root.now commands.now) }
{
    match set_of(root, select_numbers(root).default) {
        Some(set) => answers(alloc, form, set, commands),
        None => no_set(alloc, form),
    }
}
