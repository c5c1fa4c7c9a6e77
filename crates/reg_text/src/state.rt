//! What is kept from line to line.

ghost use Rattle.std.specs.Prelude.{◌≡◌};
ghost use Rattle.reg_text.specs.Reading.{number_of, first_state, unended};

use crate::item::Begun;
use crate::units::ends_line;
use nt_bytes::Names;

/// The lines are counted from 1; one past 4,294,967,295 is given as that number.
#[derive(Drop)]
pub struct State {
    /// The number of the next line.
    pub line: u32,
    /// The number of the line before it, or of the first line of a value that ends in that.
    pub last: u32,
    /// The key in which values stand, if one was named.
    pub key: Option<Names>,
    /// The value whose bytes go on in the next line.
    pub begun: Option<Begun>,
}

/// After the header.
pub fn first_state() -> State
    ensures { result ≡ first_state }
{
    State {
        line: 2,
        last: 1,
        key: None,
        begun: None,
    }
}

/// The number of the line that is read, or of the first line of the value that goes on in it.
pub fn number_of(state: &State) -> u32
    ensures { result ≡ number_of state.now }
{
    if state.begun.is_some() {
        state.last
    } else {
        state.line
    }
}

/// The line that lacks its end.
#[tactic(auto, unfolding(crate::specs::Reading::unended))]
pub fn unended(state: &State, units: &[u16], odd: bool) -> Option<u32>
    ensures { result ≡ unended state.now units.now odd }
{
    if state.begun.is_some() {
        return Some(state.last);
    }
    if !odd {
        return None;
    }
    if ends_line(units) {
        Some(state.line)
    } else {
        Some(state.last)
    }
}
