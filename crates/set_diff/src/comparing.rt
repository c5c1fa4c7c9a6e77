//! Two sets, compared.

ghost use Rattle.std.specs.Prelude.{◌≡◌, ◌∷◌, ◌++◌, IfOk, OnOk, IfSome};
ghost use Rattle.std.specs.Option.{option_copied};
ghost use Rattle.hive_model.specs.Valid.{HoldsKeys};
ghost use Rattle.start_model.specs.Order.{orders_of};
ghost use Rattle.set_diff.specs.Boots.{boot_of, attempt_names, lone_names, common_attempts, boots_lines, or_same};
ghost use Rattle.set_diff.specs.Listed.{both_lone};
ghost use Rattle.set_diff.specs.Services.{services_in, service_names, apart_lines, common_lines, services_lines};
ghost use Rattle.set_diff.specs.Sets.{group_names, compared_of, orders_lines, groups_lines, compared_lines, both_lines, absent_lines, sets_lines};

use crate::boot::{Attempt, QuietBoot, attempt_names, boot_of, put_phases};
use crate::groups::{TaggedGroup, group_names, groups_of, listed_groups, put_tags};
use crate::names::{put_both_lone, put_parts, put_shared_parts};
use crate::service::{Service, put_only, put_pairs, service_names, services_in};
use answer_lines::diff_lines::{DiffLine, DiffLines, Part, Sequence, Side};
use nt_bytes::Names;
use nt_names::name_places::NamePlaces;
use reg_tree::Key;
use std::alloc::{AllocError, Global};
use std::marker::Model;

/// What is compared of a set, with the places of its names.
#[derive(Drop)]
pub(crate) struct Compared {
    services: Vec<Service>,
    by_service: NamePlaces,
    listed: Names,
    groups: Vec<TaggedGroup>,
    by_group: NamePlaces,
    boot: QuietBoot,
    by_attempt: NamePlaces,
}

impl Model for Compared {
    ghost use Rattle.set_diff.specs.Indexed.{IsIndexed};
    ghost use Rattle.set_diff.specs.Sets.{Compared as Seen};

    ghost Value = { Seen };

    ghost view = { λ a. record { services = a.services.items; listed = a.listed; groups = a.groups.items; boot = a.boot } };

    ghost invariant = { λ a. IsIndexed a.services.items a.groups.items a.boot.attempts a.by_service a.by_group a.by_attempt };
}

impl Compared {
    /// What is compared of a set. Takes n log n time in its services and groups.
    fn of(alloc: Global, set: &Key) -> Result<Compared, AllocError>
        requires { HoldsKeys set.now }
        ensures { IfOk result (λ c. c ≡ compared_of set.now) }
    {
        let (services, by_service) = read_services(alloc, set)?;
        let (groups, by_group) = read_groups(alloc, set)?;
        let (boot, by_attempt) = read_boot(alloc, set)?;
        Ok(Compared {
            services,
            by_service,
            listed: listed_groups(alloc, set)?,
            groups,
            by_group,
            boot,
            by_attempt,
        })
    }

    fn services(&self) -> &[Service]
        ensures { result.now ≡ self.now.services }
    {
        self.services.as_slice()
    }

    fn service_places(&self) -> &NamePlaces
        ensures { result.now ≡ service_names self.now.services }
    {
        &self.by_service
    }

    fn groups(&self) -> &[TaggedGroup]
        ensures { result.now ≡ self.now.groups }
    {
        self.groups.as_slice()
    }

    fn group_places(&self) -> &NamePlaces
        ensures { result.now ≡ group_names self.now.groups }
    {
        &self.by_group
    }

    fn attempts(&self) -> &[Attempt]
        ensures { result.now ≡ self.now.boot.attempts }
    {
        self.boot.attempts.as_slice()
    }

    fn attempt_places(&self) -> &NamePlaces
        ensures { result.now ≡ attempt_names self.now.boot.attempts }
    {
        &self.by_attempt
    }
}

/// The services of a set, with the places of their names.
fn read_services(alloc: Global, set: &Key) -> Result<(Vec<Service>, NamePlaces), AllocError>
    requires { HoldsKeys set.now }
    ensures services { IfOk result (λ r. r.0.items ≡ services_in set.now) }
    ensures places { IfOk result (λ r. r.1 ≡ service_names r.0.items) }
{
    let services = services_in(alloc, set)?;
    let places = NamePlaces::new(alloc, service_names(alloc, services.as_slice())?)?;
    Ok((services, places))
}

/// Its listed groups, with the places of their names.
fn read_groups(alloc: Global, set: &Key) -> Result<(Vec<TaggedGroup>, NamePlaces), AllocError>
    requires { HoldsKeys set.now }
    ensures groups { IfOk result (λ r. r.0.items ≡ orders_of set.now) }
    ensures places { IfOk result (λ r. r.1 ≡ group_names r.0.items) }
{
    let groups = groups_of(alloc, set)?;
    let places = NamePlaces::new(alloc, group_names(alloc, groups.as_slice())?)?;
    Ok((groups, places))
}

/// Its boot, with the places of the names that are attempted.
fn read_boot(alloc: Global, set: &Key) -> Result<(QuietBoot, NamePlaces), AllocError>
    requires { HoldsKeys set.now }
    ensures boot { IfOk result (λ r. r.0 ≡ boot_of set.now) }
    ensures places { IfOk result (λ r. r.1 ≡ attempt_names r.0.attempts) }
{
    let boot = boot_of(alloc, set)?;
    let places = NamePlaces::new(alloc, attempt_names(alloc, boot.attempts.as_slice())?)?;
    Ok((boot, places))
}

// ---- services

/// Appends the services that one set alone has.
fn put_apart(
    alloc: Global,
    a: &Compared,
    b: &Compared,
    lines: &mut DiffLines,
) -> Result<(), AllocError>
    ensures { OnOk result (lines.new ≡ lines.old ++ apart_lines a.now.services b.now.services) }
{
    put_only(alloc, Side::First, a.services(), b.service_places(), lines)?;
    put_only(alloc, Side::Second, b.services(), a.service_places(), lines)
}

/// Appends what differs between the services that both sets have.
fn put_common(
    alloc: Global,
    a: &Compared,
    b: &Compared,
    lines: &mut DiffLines,
) -> Result<(), AllocError>
    ensures { OnOk result (lines.new ≡ lines.old ++ common_lines a.now.services b.now.services) }
{
    put_pairs(alloc, a.services(), b.services(), b.service_places(), lines)?;
    put_shared_parts(
        alloc,
        Sequence::Registry,
        a.service_places(),
        b.service_places(),
        lines,
    )
}

fn put_services(
    alloc: Global,
    a: &Compared,
    b: &Compared,
    lines: &mut DiffLines,
) -> Result<(), AllocError>
    ensures { OnOk result (lines.new ≡ lines.old ++ services_lines a.now.services b.now.services) }
{
    put_apart(alloc, a, b, lines)?;
    put_common(alloc, a, b, lines)
}

// ---- groups

/// Appends what differs in how groups and tags are listed.
fn put_orders(
    alloc: Global,
    a: &Compared,
    b: &Compared,
    lines: &mut DiffLines,
) -> Result<(), AllocError>
    ensures { OnOk result (lines.new ≡ lines.old ++ orders_lines a.now b.now) }
{
    put_parts(
        alloc,
        Sequence::Groups,
        a.listed.as_slice(),
        b.listed.as_slice(),
        lines,
    )?;
    put_tags(alloc, a.groups(), b.groups(), b.group_places(), lines)
}

fn put_groups(
    alloc: Global,
    a: &Compared,
    b: &Compared,
    lines: &mut DiffLines,
) -> Result<(), AllocError>
    ensures { OnOk result (lines.new ≡ lines.old ++ groups_lines a.now b.now) }
{
    put_both_lone(
        alloc,
        Part::Group,
        a.group_places(),
        b.group_places(),
        lines,
    )?;
    put_orders(alloc, a, b, lines)
}

// ---- boots

/// Appends what one boot alone attempts, or leaves unmet.
fn put_lone_names(
    alloc: Global,
    a: &Compared,
    b: &Compared,
    lines: &mut DiffLines,
) -> Result<(), AllocError>
    ensures { OnOk result (lines.new ≡ lines.old ++ lone_names a.now.boot b.now.boot) }
{
    put_both_lone(
        alloc,
        Part::Start,
        a.attempt_places(),
        b.attempt_places(),
        lines,
    )?;
    put_unmet(alloc, &a.boot.unmet, &b.boot.unmet, lines)
}

/// Appends what differs between the attempts that both boots make.
fn put_common_attempts(
    alloc: Global,
    a: &Compared,
    b: &Compared,
    lines: &mut DiffLines,
) -> Result<(), AllocError>
    ensures { OnOk result (lines.new ≡ lines.old ++ common_attempts a.now.boot.attempts b.now.boot.attempts) }
{
    put_phases(alloc, a.attempts(), b.attempts(), b.attempt_places(), lines)?;
    put_shared_parts(
        alloc,
        Sequence::Starts,
        a.attempt_places(),
        b.attempt_places(),
        lines,
    )
}

fn put_boots(
    alloc: Global,
    a: &Compared,
    b: &Compared,
    lines: &mut DiffLines,
) -> Result<(), AllocError>
    ensures { OnOk result (lines.new ≡ lines.old ++ boots_lines a.now.boot b.now.boot) }
{
    put_lone_names(alloc, a, b, lines)?;
    put_common_attempts(alloc, a, b, lines)
}

/// Appends what one of the two boots alone leaves unmet.
fn put_unmet(alloc: Global, a: &Names, b: &Names, lines: &mut DiffLines) -> Result<(), AllocError>
    ensures { OnOk result (lines.new ≡ lines.old ++ both_lone Part.Unmet a.now b.now) }
{
    let a = NamePlaces::new(alloc, a.copy(alloc)?)?;
    let b = NamePlaces::new(alloc, b.copy(alloc)?)?;
    put_both_lone(alloc, Part::Unmet, &a, &b, lines)
}

fn put_compared(
    alloc: Global,
    a: &Compared,
    b: &Compared,
    lines: &mut DiffLines,
) -> Result<(), AllocError>
    ensures { OnOk result (lines.new ≡ lines.old ++ compared_lines a.now b.now) }
{
    put_services(alloc, a, b, lines)?;
    put_groups(alloc, a, b, lines)?;
    let mut boots = DiffLines::new(alloc);
    put_boots(alloc, a, b, &mut boots)?;
    put_or_same(boots, lines)
}

/// Appends these lines, or that the boots are the same where there are none.
fn put_or_same(boots: DiffLines, lines: &mut DiffLines) -> Result<(), AllocError>
    ensures { OnOk result (lines.new ≡ lines.old ++ or_same boots) }
{
    if boots.is_empty() {
        return lines.push(DiffLine::StartsSame);
    }
    put_all(boots.into_vec(), lines)
}

fn put_all(more: Vec<DiffLine>, lines: &mut DiffLines) -> Result<(), AllocError>
    ensures { OnOk result (lines.new ≡ lines.old ++ more.items) }
{
    for line in more {
        lines.push(line)?;
    }
    Ok(())
}

/// Appends the lines of two sets of these numbers.
#[tactic(auto, unfolding(crate::specs::Sets::both_lines))]
fn put_both(
    alloc: Global,
    n: u32,
    first: &Key,
    m: u32,
    second: &Key,
    lines: &mut DiffLines,
) -> Result<(), AllocError>
    requires first { HoldsKeys first.now }
    requires second { HoldsKeys second.now }
    ensures { OnOk result (lines.new ≡ lines.old ++ both_lines n first.now m second.now) }
{
    let a = Compared::of(alloc, first)?;
    put_second(alloc, n, &a, m, second, lines)
}

/// The same of the first set as it was read.
fn put_second(
    alloc: Global,
    n: u32,
    a: &Compared,
    m: u32,
    second: &Key,
    lines: &mut DiffLines,
) -> Result<(), AllocError>
    requires { HoldsKeys second.now }
    ensures { OnOk result (lines.new ≡ lines.old ++ DiffLine.Sets n m ∷ compared_lines a.now (compared_of second.now)) }
{
    let b = Compared::of(alloc, second)?;
    put_numbered(alloc, n, a, m, &b, lines)
}

/// The same of both sets as they were read.
fn put_numbered(
    alloc: Global,
    n: u32,
    a: &Compared,
    m: u32,
    b: &Compared,
    lines: &mut DiffLines,
) -> Result<(), AllocError>
    ensures { OnOk result (lines.new ≡ lines.old ++ DiffLine.Sets n m ∷ compared_lines a.now b.now) }
{
    lines.push(DiffLine::Sets {
        first: n,
        second: m,
    })?;
    put_compared(alloc, a, b, lines)
}

fn put_absent(
    side: Side,
    number: u32,
    set: Option<&Key>,
    lines: &mut DiffLines,
) -> Result<(), AllocError>
    ensures { OnOk result (lines.new ≡ lines.old ++ absent_lines side number (option_copied set.entry)) }
{
    match set {
        Some(_) => Ok(()),
        None => lines.push(DiffLine::NoSet { side, number }),
    }
}

/// Appends what differs between the sets of two numbers, by folded names and texts: services, orders, and the boots in which each
/// attempt goes well; or which set isn't there. Each key of the sets must be one that a hive can hold. Takes n log n time in the services
/// and groups.
pub fn put_sets(
    alloc: Global,
    n: u32,
    first: Option<&Key>,
    m: u32,
    second: Option<&Key>,
    lines: &mut DiffLines,
) -> Result<(), AllocError>
    requires first { IfSome first (λ set. HoldsKeys set.now) }
    requires second { IfSome second (λ set. HoldsKeys set.now) }
    ensures { OnOk result (lines.new ≡ lines.old ++ sets_lines n (option_copied first.entry) m (option_copied second.entry)) }
{
    if let Some(a) = first
        && let Some(b) = second
    {
        return put_both(alloc, n, a, m, b, lines);
    }
    put_absent(Side::First, n, first, lines)?;
    put_absent(Side::Second, m, second, lines)
}
