//! Services, and what differs between those of two sets.

ghost use Rattle.std.specs.Prelude.{◌≡◌, ◌++◌, [], map, filter, zip, IfOk, OnOk};
ghost use Rattle.std.specs.List.{flat_map};
ghost use Rattle.std.specs.Option.{option_copied, option_map_or};
ghost use Rattle.hive_model.specs.Valid.{HoldsKeys};
ghost use Rattle.start_model.specs.Entries.{services_of};
ghost use Rattle.set_diff.specs.Texts.{texts_of, is_entry, with_texts};
ghost use Rattle.set_diff.specs.Services.{services_in, service_names, service_named, only_line, is_only, only_lines, field_shown, field_lines, pair_lines, differs_lines};

use crate::names::lacks;
use crate::shown::{number_shown, shown_same, text_shown};
use answer_lines::diff_lines::{DiffField, DiffLine, DiffLines, Shown, Side};
use boot_phases::service_entries::{Entry, entries};
use nt_bytes::{Names, Units};
use nt_names::name_places::NamePlaces;
use nt_names::startup_names::{IMAGE_PATH, OBJECT_NAME, SERVICES, START, TYPE};
use reg_tree::Key;
use std::alloc::{AllocError, Global};

/// An entry with the texts of its key.
#[derive(Drop)]
pub struct Service {
    pub entry: Entry,
    /// `ImagePath`, where it is a text.
    pub image: Option<Units>,
    /// `ObjectName`, where it is a text.
    pub account: Option<Units>,
}

/// The texts of a service's key.
#[derive(Drop)]
struct Texts {
    image: Option<Units>,
    account: Option<Units>,
}

/// The services of a set, in the order of the registry.
#[tactic(auto, using(crate::proofs::ServiceLemmas::joined_services))]
pub(crate) fn services_in(alloc: Global, set: &Key) -> Result<Vec<Service>, AllocError>
    requires { HoldsKeys set.now }
    ensures { IfOk result (λ s. s.items ≡ services_in set.now) }
{
    let texts = all_texts(alloc, keys(set))?;
    let entries = entries(alloc, set)?.into_entries(alloc)?;
    joined(alloc, entries.into_vec(), texts)
}

/// The keys of the services.
fn keys(set: &Key) -> &[Key]
    ensures { result.now ≡ services_of set.now }
{
    set.child(&SERVICES)
        .map_or(&[], |services| services.subkeys())
}

/// The texts of each key that is an entry.
fn all_texts(alloc: Global, keys: &[Key]) -> Result<Vec<Texts>, AllocError>
    ensures { IfOk result (λ t. t.items ≡ map texts_of (filter is_entry keys.now)) }
{
    let mut texts = Vec::new(alloc);
    for key in keys {
        if is_entry(key) {
            texts.push(texts_of(alloc, key)?)?;
        }
    }
    Ok(texts)
}

fn is_entry(key: &Key) -> bool
    ensures { result ≡ is_entry key.now }
{
    key.dword(&START).is_some() && key.dword(&TYPE).is_some()
}

fn texts_of(alloc: Global, key: &Key) -> Result<Texts, AllocError>
    ensures { IfOk result (λ t. t ≡ texts_of key.now) }
{
    let image = key.text(alloc, &IMAGE_PATH)?;
    let account = key.text(alloc, &OBJECT_NAME)?;
    Ok(Texts { image, account })
}

/// The entries with their texts, one by one.
fn joined(alloc: Global, entries: Vec<Entry>, texts: Vec<Texts>) -> Result<Vec<Service>, AllocError>
    ensures { IfOk result (λ s. s.items ≡ map with_texts (zip entries.items texts.items)) }
{
    entries
        .into_iter()
        .zip(texts.into_iter())
        .map(|both| with_texts(both))
        .collect(alloc)
}

fn with_texts(both: (Entry, Texts)) -> Service
    ensures { result ≡ with_texts both }
{
    let (entry, texts) = both;
    Service {
        entry,
        image: texts.image,
        account: texts.account,
    }
}

/// The names of the services.
pub(crate) fn service_names(alloc: Global, services: &[Service]) -> Result<Names, AllocError>
    ensures { IfOk result (λ n. n ≡ service_names services.now) }
{
    let mut names = Names::new(alloc);
    for service in services {
        names.push(service.entry.name.copy(alloc)?)?;
    }
    Ok(names)
}

// ---- services that one set alone has

/// Appends a line for each service whose name the other set lacks.
pub(crate) fn put_only(
    alloc: Global,
    side: Side,
    services: &[Service],
    others: &NamePlaces,
    lines: &mut DiffLines,
) -> Result<(), AllocError>
    ensures { OnOk result (lines.new ≡ lines.old ++ only_lines side services.now others.now) }
{
    for service in services {
        if is_only(others, service) {
            lines.push(only_line(alloc, side, service)?)?;
        }
    }
    Ok(())
}

fn is_only(others: &NamePlaces, service: &Service) -> bool
    ensures { result ≡ is_only others.now service.now }
{
    lacks(others, &service.entry.name)
}

fn only_line(alloc: Global, side: Side, service: &Service) -> Result<DiffLine, AllocError>
    ensures { IfOk result (λ l. l ≡ only_line side service.now) }
{
    Ok(DiffLine::Only {
        side,
        start: service.entry.start,
        kind: service.entry.kind,
        control: service.entry.control,
        image: text_shown(alloc, service.image.as_ref())?,
        name: service.entry.name.copy(alloc)?,
    })
}

// ---- services that both have

/// Appends the fields that differ of each service that both sets have. `places` are those of the names of the other set's services.
pub(crate) fn put_pairs(
    alloc: Global,
    services: &[Service],
    others: &[Service],
    places: &NamePlaces,
    lines: &mut DiffLines,
) -> Result<(), AllocError>
    requires { places.now ≡ service_names others.now }
    ensures { OnOk result (lines.new ≡ lines.old ++ differs_lines services.now others.now) }
{
    for service in services {
        put_paired(
            alloc,
            service,
            service_named(others, places, service),
            lines,
        )?;
    }
    Ok(())
}

/// The other set's service of this one's name.
fn service_named<'a>(
    others: &'a [Service],
    places: &NamePlaces,
    service: &Service,
) -> Option<&'a Service>
    requires { places.now ≡ service_names others.now }
    ensures { option_copied result ≡ service_named others.now service.now.entry.name }
{
    let place = places.place_of(service.entry.name.as_slice())?;
    others.get(place)
}

fn put_paired(
    alloc: Global,
    service: &Service,
    other: Option<&Service>,
    lines: &mut DiffLines,
) -> Result<(), AllocError>
    ensures { OnOk result (lines.new ≡ lines.old ++ option_map_or (pair_lines service.now) (option_copied other.entry) []) }
{
    match other {
        Some(other) => put_pair(alloc, service, other, lines),
        None => Ok(()),
    }
}

/// Appends the fields that differ of two services.
fn put_pair(
    alloc: Global,
    a: &Service,
    b: &Service,
    lines: &mut DiffLines,
) -> Result<(), AllocError>
    ensures { OnOk result (lines.new ≡ lines.old ++ pair_lines a.now b.now) }
{
    put_fields(
        alloc,
        a,
        b,
        &[
            DiffField::Start,
            DiffField::Type,
            DiffField::ErrorControl,
            DiffField::Group,
            DiffField::Tag,
            DiffField::DependOnService,
            DiffField::DependOnGroup,
            DiffField::ImagePath,
            DiffField::ObjectName,
        ],
        lines,
    )
}

fn put_fields(
    alloc: Global,
    a: &Service,
    b: &Service,
    fields: &[DiffField],
    lines: &mut DiffLines,
) -> Result<(), AllocError>
    ensures { OnOk result (lines.new ≡ lines.old ++ flat_map (field_lines a.now b.now) fields.now) }
{
    for field in fields {
        put_field(alloc, a, b, *field, lines)?;
    }
    Ok(())
}

fn put_field(
    alloc: Global,
    a: &Service,
    b: &Service,
    field: DiffField,
    lines: &mut DiffLines,
) -> Result<(), AllocError>
    ensures { OnOk result (lines.new ≡ lines.old ++ field_lines a.now b.now field) }
{
    let first = field_shown(alloc, field, a)?;
    let second = field_shown(alloc, field, b)?;
    if shown_same(&first, &second) {
        return Ok(());
    }
    lines.push(DiffLine::Differs {
        field,
        first,
        second,
        name: a.entry.name.copy(alloc)?,
    })
}

/// What a service has in a field.
fn field_shown(alloc: Global, field: DiffField, service: &Service) -> Result<Shown, AllocError>
    ensures { IfOk result (λ s. s ≡ field_shown field service.now) }
{
    let entry = &service.entry;
    match field {
        DiffField::Start => Ok(Shown::Number(entry.start)),
        DiffField::Type => Ok(Shown::Number(entry.kind)),
        DiffField::ErrorControl => Ok(Shown::Number(entry.control)),
        DiffField::Group => text_shown(alloc, entry.group.as_ref()),
        DiffField::Tag => Ok(number_shown(entry.tag)),
        DiffField::DependOnService => texts_shown(alloc, &entry.services),
        DiffField::DependOnGroup => texts_shown(alloc, &entry.groups),
        DiffField::ImagePath => text_shown(alloc, service.image.as_ref()),
        DiffField::ObjectName => text_shown(alloc, service.account.as_ref()),
    }
}

fn texts_shown(alloc: Global, texts: &Names) -> Result<Shown, AllocError>
    ensures { IfOk result (λ s. s ≡ Shown.Texts texts.now) }
{
    Ok(Shown::Texts(texts.copy(alloc)?))
}
