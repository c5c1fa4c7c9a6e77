//! What stands out in a service.

ghost use Rattle.std.specs.Prelude.{◌≡◌, ◌++◌, ◌&&◌, IfOk, OnOk};
ghost use Rattle.service_list.specs.Marks.{dll_text, is_some_text, is_there_outside, is_there_svchost, mark_when, texts_of, marks_by, marks_of};

use crate::folders::{is_outside, names_svchost};
use crate::kinds::is_service_kind;
use crate::names::{PARAMETERS, SERVICE_DLL};
use answer_lines::why_lines::EntryKind;
use nt_bytes::{Row, Units};
use nt_names::startup_names::IMAGE_PATH;
use reg_tree::Key;
use std::alloc::{AllocError, Global};

/// A mark at the end of a line.
#[derive(Clone, Copy)]
pub enum Mark {
    /// A service without an image.
    NoImage,
    /// The image lies outside of the Windows folder.
    ImageOutside,
    /// A service of svchost without a library.
    NoDll,
    /// A library lies outside of the Windows folder.
    DllOutside,
}

/// What marks depend on besides the kind: the texts of ImagePath and of both ServiceDll.
#[derive(Drop)]
pub(crate) struct MarkTexts {
    image: Option<Units>,
    dll: Option<Units>,
    own: Option<Units>,
}

fn dll_text(alloc: Global, key: &Key) -> Result<Option<Units>, AllocError>
    ensures { IfOk result (λ t. t ≡ dll_text key.now) }
{
    match key.child(&PARAMETERS) {
        Some(parameters) => parameters.text(alloc, &SERVICE_DLL),
        None => Ok(None),
    }
}

fn texts_of(alloc: Global, key: &Key) -> Result<MarkTexts, AllocError>
    ensures { IfOk result (λ t. t ≡ texts_of key.now) }
{
    let image = key.text(alloc, &IMAGE_PATH)?;
    let dll = dll_text(alloc, key)?;
    let own = key.text(alloc, &SERVICE_DLL)?;
    Ok(MarkTexts { image, dll, own })
}

/// Whether the text is there and isn't empty.
fn is_some_text(text: &Option<Units>) -> bool
    ensures { result ≡ is_some_text text.now }
{
    match text {
        Some(text) => !text.is_empty(),
        None => false,
    }
}

fn is_there_outside(alloc: Global, text: &Option<Units>) -> Result<bool, AllocError>
    ensures { IfOk result (λ b. b ≡ is_there_outside text.now) }
{
    match text {
        Some(text) => is_outside(alloc, text.as_slice()),
        None => Ok(false),
    }
}

fn is_there_svchost(alloc: Global, text: &Option<Units>) -> Result<bool, AllocError>
    ensures { IfOk result (λ b. b ≡ is_there_svchost text.now) }
{
    match text {
        Some(text) => names_svchost(alloc, text.as_slice()),
        None => Ok(false),
    }
}

/// Appends a mark where it holds.
fn put_when(marks: &mut Row<Mark>, holds: bool, mark: Mark) -> Result<(), AllocError>
    ensures { OnOk result (marks.new ≡ marks.old ++ mark_when holds mark) }
{
    if holds {
        marks.push(mark)?;
    }
    Ok(())
}

fn marks_by(alloc: Global, kind: EntryKind, texts: &MarkTexts) -> Result<Row<Mark>, AllocError>
    ensures { IfOk result (λ m. m ≡ marks_by kind texts.now) }
{
    let is_service = is_service_kind(kind);
    let image_outside = is_there_outside(alloc, &texts.image)?;
    let of_svchost = is_there_svchost(alloc, &texts.image)?;
    let dll_outside = is_there_outside(alloc, &texts.dll)?;
    let own_outside = is_there_outside(alloc, &texts.own)?;
    let has_image = is_some_text(&texts.image);
    let has_dll = is_some_text(&texts.dll) || is_some_text(&texts.own);
    let mut marks = Row::new(alloc);
    put_when(&mut marks, is_service && !has_image, Mark::NoImage)?;
    put_when(&mut marks, image_outside, Mark::ImageOutside)?;
    put_when(
        &mut marks,
        is_service && of_svchost && !has_dll,
        Mark::NoDll,
    )?;
    put_when(&mut marks, dll_outside || own_outside, Mark::DllOutside)?;
    Ok(marks)
}

/// The marks of a key of this kind.
pub(crate) fn marks_of(alloc: Global, kind: EntryKind, key: &Key) -> Result<Row<Mark>, AllocError>
    ensures { IfOk result (λ m. m ≡ marks_of kind key.now) }
{
    let texts = texts_of(alloc, key)?;
    marks_by(alloc, kind, &texts)
}
