//! The image of a driver.

ghost use Rattle.std.specs.Prelude.{◌≡◌, ◌++◌, codes, false, IfOk, OnOk};
ghost use Rattle.std.specs.Option.{option_map_or};
ghost use Rattle.hive_model.specs.Tree.{find_dword};
ghost use Rattle.start_model.specs.Entries.{is_driver};
ghost use Rattle.safe_boot.specs.Images.{file_of, image_of};

use nt_bytes::Units;
use nt_names::startup_names::{IMAGE_PATH, TYPE};
use reg_tree::Key;
use std::alloc::{AllocError, Global};

/// Whether this Type is that of a driver.
fn is_driver(kind: u32) -> bool
    ensures { result ≡ is_driver kind }
{
    kind & 0x0b != 0
}

/// Whether the key has the Type of a driver.
pub(crate) fn is_driver_key(key: &Key) -> bool
    ensures { result ≡ option_map_or is_driver (find_dword (codes "Type") key.now) false }
{
    match key.dword(&TYPE) {
        Some(kind) => is_driver(kind),
        None => false,
    }
}

/// The part of a path after its last backslash, or all of it where there is none.
fn file_of(path: &[u16]) -> &[u16]
    ensures { result.now ≡ file_of path.now }
{
    let mut last = path;
    let mut rest = path;
    'units: loop {
        let [unit, more @ ..] = rest else {
            return last;
        };
        if *unit == 0x5c {
            last = more;
        }
        rest = more;
    }
}

fn append_end(image: &mut Units) -> Result<(), AllocError>
    ensures { OnOk result (image.new ≡ image.old ++ codes ".sys") }
{
    image.push(0x2e)?;
    image.push(0x73)?;
    image.push(0x79)?;
    image.push(0x73)
}

/// The name with `.sys` after it.
fn usual_image(alloc: Global, name: &[u16]) -> Result<Units, AllocError>
    ensures { IfOk result (λ image. image ≡ name.now ++ codes ".sys") }
{
    let mut image = Units::from_slice(alloc, name)?;
    append_end(&mut image)?;
    Ok(image)
}

/// The image of a driver's key: the file of its ImagePath, where that is a text; else the key's name with `.sys` after it.
pub(crate) fn image_of(alloc: Global, key: &Key) -> Result<Units, AllocError>
    ensures { IfOk result (λ image. image ≡ image_of key.now) }
{
    match key.text(alloc, &IMAGE_PATH)? {
        Some(path) => Units::from_slice(alloc, file_of(path.as_slice())),
        None => usual_image(alloc, key.name()),
    }
}
