//! The words of a line.

ghost use Rattle.std.specs.Prelude.{◌≡◌};
ghost use Rattle.device_rule.specs.Devices.{field_name};
ghost use Rattle.device_command.specs.Lines.{device_word, role_word, state_word};

use device_rule::{DeviceState, DriverState, Field, Role};

pub(crate) fn device_word(state: DeviceState) -> &'static [u8]
    ensures { result.now ≡ device_word state }
{
    match state {
        DeviceState::Enabled => b"enabled",
        DeviceState::Disabled => b"disabled",
        DeviceState::Legacy => b"legacy",
    }
}

pub(crate) fn role_word(role: Role) -> &'static [u8]
    ensures { result.now ≡ role_word role }
{
    match role {
        Role::Lower => b"lower",
        Role::ClassLower => b"class-lower",
        Role::Function => b"function",
        Role::Upper => b"upper",
        Role::ClassUpper => b"class-upper",
    }
}

pub(crate) fn field_word(field: Field) -> &'static [u8]
    ensures { result.now ≡ field_name field }
{
    match field {
        Field::Service => b"Service",
        Field::ClassGuid => b"ClassGUID",
        Field::ConfigFlags => b"ConfigFlags",
        Field::LowerFilters => b"LowerFilters",
        Field::UpperFilters => b"UpperFilters",
    }
}

pub(crate) fn state_word(state: DriverState) -> &'static [u8]
    ensures { result.now ≡ state_word state }
{
    match state {
        DriverState::BuiltIn => b"built-in",
        DriverState::NoKey => b"no-key",
        DriverState::NoStart => b"no-start",
        DriverState::Disabled => b"disabled",
        DriverState::Beyond(_) => b"beyond",
        DriverState::NoType => b"no-type",
        DriverState::Kind(_) => b"kind",
        DriverState::Ready(_) => b"ok",
    }
}
