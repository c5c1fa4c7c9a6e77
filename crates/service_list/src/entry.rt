//! What a line says of a driver or service.

ghost use Rattle.std.specs.Prelude.{◌≡◌, IfOk};
ghost use Rattle.service_list.specs.Entries.{number_fields, text_fields, entry_of};

use crate::field::{Field, dll_field, number_field, text_field};
use crate::kinds::kind_of;
use crate::marks::{Mark, marks_of};
use crate::names::SERVICE_DLL;
use crate::overrides::{Override, overrides_of};
use crate::turns::{Place, Turns};
use answer_lines::why_lines::EntryKind;
use nt_bytes::{Row, Units};
use nt_names::startup_names::{ERROR_CONTROL, GROUP, IMAGE_PATH, OBJECT_NAME, START, TAG, TYPE};
use reg_tree::Key;
use std::alloc::{AllocError, Global};

/// The values of a service that are numbers.
#[derive(Drop)]
pub struct NumberFields {
    pub start: Field,
    pub service_type: Field,
    pub control: Field,
    pub tag: Field,
}

/// Those that are texts.
#[derive(Drop)]
pub struct TextFields {
    pub group: Field,
    pub account: Field,
    pub image: Field,
    /// `ServiceDll` of the subkey `Parameters`.
    pub dll: Field,
    /// `ServiceDll` of the key itself.
    pub own: Field,
}

/// A driver or service.
#[derive(Drop)]
pub struct ServiceEntry {
    pub kind: EntryKind,
    pub name: Units,
    pub numbers: NumberFields,
    pub texts: TextFields,
    /// Its place among all of which the quiet start tells, or their number where it isn't one of them.
    pub turn: usize,
    pub place: Place,
    /// When its key was last written, in units of 100 ns since 1601.
    pub written: u64,
    pub overrides: Row<Override>,
    pub marks: Row<Mark>,
}

fn number_fields(alloc: Global, key: &Key) -> Result<NumberFields, AllocError>
    ensures { IfOk result (λ f. f ≡ number_fields key.now) }
{
    let start = number_field(alloc, key, &START)?;
    let service_type = number_field(alloc, key, &TYPE)?;
    let control = number_field(alloc, key, &ERROR_CONTROL)?;
    let tag = number_field(alloc, key, &TAG)?;
    Ok(NumberFields {
        start,
        service_type,
        control,
        tag,
    })
}

fn text_fields(alloc: Global, key: &Key) -> Result<TextFields, AllocError>
    ensures { IfOk result (λ f. f ≡ text_fields key.now) }
{
    let group = text_field(alloc, key, &GROUP)?;
    let account = text_field(alloc, key, &OBJECT_NAME)?;
    let image = text_field(alloc, key, &IMAGE_PATH)?;
    let dll = dll_field(alloc, key)?;
    let own = text_field(alloc, key, &SERVICE_DLL)?;
    Ok(TextFields {
        group,
        account,
        image,
        dll,
        own,
    })
}

/// What is said of a key of a set with these turns.
pub(crate) fn entry_of(alloc: Global, turns: &Turns, key: &Key) -> Result<ServiceEntry, AllocError>
    ensures { IfOk result (λ e. e ≡ entry_of turns.now key.now) }
{
    let kind = kind_of(key);
    let turn = turns.turn_at(key.name());
    let name = Units::from_slice(alloc, key.name())?;
    let numbers = number_fields(alloc, key)?;
    let texts = text_fields(alloc, key)?;
    let overrides = overrides_of(alloc, key)?;
    let marks = marks_of(alloc, kind, key)?;
    Ok(ServiceEntry {
        kind,
        name,
        numbers,
        texts,
        turn,
        place: turns.place_at(turn),
        written: key.stamp,
        overrides,
        marks,
    })
}
