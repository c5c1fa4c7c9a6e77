//! Searches in numbers, from a place up to another, each in a time of what is between.

ghost use Rattle.std.specs.Prelude.{◌≡◌, ◌<◌, ◌≤◌, ℕ, List, length, slice_index};
ghost use Rattle.cell_tables.specs.free_index.Sizes.{FindsLast, FindsLowest, IsTop};

/// Numbers by place, as a search reads them.
pub trait Numbers {
    /// The numbers.
    ghost numbers: { Self → List ℕ };

    /// The number at this place.
    fn number_at(&self, place: usize) -> u32
        requires { place < length (numbers self.now) }
        ensures { result ≡ slice_index (numbers self.now) place };
}

/// The greatest number, or 0 where there is none.
pub(crate) fn top_of<N: Numbers>(list: &N, from: usize, to: usize) -> u32
    requires ordered { from ≤ to }
    requires within { to ≤ length (N.numbers list.now) }
    ensures { IsTop (N.numbers list.now) from to result }
{
    let mut top = 0;
    for place in from..to {
        top = top.max(list.number_at(place));
    }
    top
}

/// The first place whose number is at least this size.
pub(crate) fn first_fit<N: Numbers>(list: &N, from: usize, to: usize, size: u32) -> Option<usize>
    requires ordered { from ≤ to }
    requires within { to ≤ length (N.numbers list.now) }
    ensures { FindsLowest size (N.numbers list.now) from to result }
{
    for place in from..to {
        if size <= list.number_at(place) {
            return Some(place);
        }
    }
    None
}

/// The last place whose number is not 0.
pub(crate) fn last_some<N: Numbers>(list: &N, from: usize, to: usize) -> Option<usize>
    requires ordered { from ≤ to }
    requires within { to ≤ length (N.numbers list.now) }
    ensures { FindsLast (N.numbers list.now) from to result }
{
    let mut end = to;
    while end > from {
        end -= 1;
        if list.number_at(end) != 0 {
            return Some(end);
        }
    }
    None
}
