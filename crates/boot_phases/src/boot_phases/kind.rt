//! What an entry is, by its Type.

ghost use Rattle.std.specs.Prelude.{◌≡◌};
ghost use Rattle.start_model.specs.Entries.{is_driver, is_service};

/// Whether this Type is that of a driver.
pub(crate) fn is_driver(kind: u32) -> bool
    ensures { result ≡ is_driver kind }
{
    kind & 0x0b != 0
}

/// Whether this Type is that of a service.
pub(crate) fn is_service(kind: u32) -> bool
    ensures { result ≡ is_service kind }
{
    kind & 0x30 != 0 && kind & 0x0b == 0
}
