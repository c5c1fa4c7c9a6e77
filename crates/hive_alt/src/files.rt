//! What two files stand for.

ghost use Rattle.std.specs.Prelude.{◌≡◌, true, IfOk, length};
ghost use Rattle.hive_model.specs.Base.{is_bins_size};
ghost use Rattle.hive_model.specs.Image as image;
ghost use Rattle.hive_log.specs.Stops.{ReadsFiles};
ghost use Rattle.hive_alt.specs.Twin.{twin_of};

use crate::pair::{Seen, read_pair};
use hive_log::{LoadStop, Recovered, TwoFiles};
use nt_bytes::ReadStop;
use std::alloc::Global;

/// What two files stand for, the second as a copy of the first; an empty file is an absent one.
pub(crate) fn kept_pair(alloc: Global, primary: &[u8], second: &[u8]) -> Result<Recovered, ReadStop>
    ensures exact { ReadsFiles result (twin_of (image.image_of primary.now second.now)) }
    ensures sized { IfOk result (λ r. is_bins_size (length r.bins) ≡ true) }
{
    let mut files = TwoFiles {
        primary,
        log: second,
    };
    match read_pair(alloc, &mut files) {
        Ok(Seen { found, second: _ }) => Ok(found),
        Err(LoadStop::Fault(fault)) => Err(ReadStop::Fault(fault)),
        Err(LoadStop::Memory) => Err(ReadStop::Memory),
        Err(LoadStop::PowerLost | LoadStop::Device) => unreachable!(),
    }
}
