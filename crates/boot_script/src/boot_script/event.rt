//! What a script asks for.

use nt_bytes::{Bytes, Names, Row, Units};
use nt_edge::{DiskCall, Keep};

/// What one line of the script asks for. Names are UTF-16 units, one for each byte of the word.
#[derive(Debug, Drop)]
pub enum Event {
    /// `boot [K] [lkg]`: starts by the entry K of boot.ini, from 1, or by its default, perhaps on LastKnownGood.
    Boot {
        entry: Option<u32>,
        last_known_good: bool,
    },
    /// `go [N]`: N steps of the starter, from 1, or all.
    Go {
        steps: Option<u32>,
    },
    /// `fail NAME N`: the next N attempts of this driver or service fail.
    Fail {
        name: Units,
        count: u32,
    },
    /// `vital NAME`: from now on a start that has passed its boot phase without this driver stops.
    Vital {
        name: Units,
    },
    /// `set PATH VALUE ..`: writes a value of this registry type.
    Set {
        path: Names,
        name: Units,
        kind: u32,
        bytes: Bytes,
    },
    /// `delete PATH VALUE`: deletes a value.
    Delete {
        path: Names,
        name: Units,
    },
    /// `make PATH`: makes the last key of the path.
    Make {
        path: Names,
    },
    /// `remove PATH`: deletes a key and all below it.
    Remove {
        path: Names,
    },
    /// `flush`: commits the edits so far.
    Flush,
    /// `logon`: a user logs on.
    Logon,
    /// `off`: commits the edits so far and ends the start.
    Off,
    /// `cut now KEEP`: the power is cut at once.
    CutNow {
        keep: Keep,
    },
    /// `cut CALL N KEEP`: the power is cut in the N-th such call from now on, from 1.
    ArmCut {
        call: DiskCall,
        n: u32,
        keep: Keep,
    },
    /// `fault CALL N`: the N-th such call from now on fails, from 1.
    ArmFault {
        call: DiskCall,
        n: u32,
    },
}

/// The events of a script, in order.
pub type Script = Row<Event>;
