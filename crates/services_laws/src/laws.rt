//! The laws. Each has its statement in a file of `specs/`.

ghost use Rattle.services_laws.specs.Whole.{NoFilterShowsAll, FiltersTakeAway, StartPasses, KindPasses, LinesAreShown, SortMoves, SortOrders, NewerIsBefore, EarlierIsBefore, SortKeeps, KindsAddUp, StartsAddUp};
ghost use Rattle.services_laws.specs.Said.{LinesSayThese};
ghost use Rattle.services_laws.specs.Stands.{NumberIsDword, TextIsString, OtherIsWhole};
ghost use Rattle.services_laws.specs.Started.{AttemptsAreTries, TriesAreAttempts, UnmetIsUnmet, LeftAreUnmet, NumbersCount};
ghost use Rattle.services_laws.specs.Marked.{MarksStand, MarksDepend, SinceIsNotBefore};
ghost use Rattle.services_laws.specs.Timed.{TextsAreTimes};
ghost use Rattle.services_laws.specs.Agrees.{UnlistedAgrees, NoStartAgrees, NoTypeAgrees, MalformedAgrees, NoImageAgrees, NoImageWithoutAny};

/// Without a filter and without a sort each listed key has its one line, in the order of the registry. A filter takes away those alone that it says,
/// and what is said of a key depends on no filter and no sort. The counts are those of the lines.
pub fn each_listed_key_has_its_line()
    ensures all { NoFilterShowsAll }
    ensures fewer { FiltersTakeAway }
    ensures start { StartPasses }
    ensures kind { KindPasses }
    ensures lines { LinesAreShown }
{}

/// What is said of a key are the fields, the place, the stamp and the marks of which the other laws speak.
pub fn each_line_says_these_of_its_key()
    ensures { LinesSayThese }
{}

/// A sort only changes the places of lines: they are in its order, and those of which none comes before the other stay as they were.
pub fn a_sort_moves_lines_alone()
    ensures moves { SortMoves }
    ensures orders { SortOrders }
    ensures newer { NewerIsBefore }
    ensures earlier { EarlierIsBefore }
    ensures keeps { SortKeeps }
{}

/// The lines of the three kinds are all lines, and so are those of each Start, of a greater one and of none.
pub fn the_counts_are_those_of_the_lines()
    ensures kinds { KindsAddUp }
    ensures starts { StartsAddUp }
{}

/// A field that is a number is the DWORD that a start reads, and one that is a text the string; all else has the type and the data whole.
pub fn a_field_is_what_a_start_reads()
    ensures number { NumberIsDword }
    ensures text { TextIsString }
    ensures other { OtherIsWhole }
{}

/// A place is that of an attempt, with its phase and its number among all attempts, or of a name that its phase leaves unmet; the numbers count from 1.
/// Each attempt and each name that is left has its place, where no name has two.
pub fn a_turn_is_an_attempt_or_unmet()
    ensures attempts { AttemptsAreTries }
    ensures tries { TriesAreAttempts }
    ensures unmet { UnmetIsUnmet }
    ensures left { LeftAreUnmet }
    ensures numbers { NumbersCount }
{}

/// A time takes exactly the keys that weren't written before it.
pub fn a_time_takes_what_is_not_before_it()
    ensures { SinceIsNotBefore }
{}

/// The time that is printed of a key is one that `--since` takes, and stands for the key's own stamp.
pub fn each_printed_time_is_read_as_its_stamp()
    ensures { TextsAreTimes }
{}

/// Each mark is there exactly where its condition holds, and marks depend on the kind, ImagePath and the two ServiceDll alone.
pub fn each_mark_has_its_condition()
    ensures stand { MarksStand }
    ensures depend { MarksDepend }
{}

/// `check` says nothing of a key that isn't listed. It has `no-start` and `no-type` exactly of the listed keys without these fields, and `malformed`
/// exactly where a number field is neither there as a number nor absent. In a set that has an image its `no-image` is exactly that mark, of entries of
/// Start 2 and 3; in any other there is none.
pub fn check_is_of_one_mind()
    ensures unlisted { UnlistedAgrees }
    ensures start { NoStartAgrees }
    ensures kind { NoTypeAgrees }
    ensures malformed { MalformedAgrees }
    ensures image { NoImageAgrees }
    ensures none { NoImageWithoutAny }
{}
