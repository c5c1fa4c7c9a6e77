//! The edits of a text in a loaded hive, made as one change.

ghost use Rattle.std.specs.Prelude.{◌≡◌, ◌≤◌, true, false, [], map, IfOk, IfSome};
ghost use Rattle.std.specs.List.{All};
ghost use Rattle.hive_model.specs.Carries.{Carries};
ghost use Rattle.hive_model.specs.Load.{Loads};
ghost use Rattle.hive_model.specs.Valid.{HoldsKeys};
ghost use Rattle.hive_store.specs.Loading.{loaded_state};
ghost use Rattle.reg_tree.specs.Fitting.{Fits};
ghost use Rattle.reg_tree.specs.Makes.{step_of};
ghost use Rattle.import_steps.specs.Made.{made_steps};
ghost use Rattle.text_commands.specs.Changed.{number_in, said_of};
ghost use Rattle.text_commands.specs.Imports.{usable_in, SaysOf, Settles, IsRefusedAs, EndsProtected, MakesTree, MakesSteps, MakesFor, Changes, Unmoved};

use crate::said::{Done, How, ImportStop, Said};
use command_words::AskedSet;
use hive_store::Hive;
use import_steps::{SetSteps, left_steps, set_steps};
use nt_bytes::Names;
use nt_edge::Disk;
use nt_names::startup_names::DEFAULT;
use reg_tree::{EditStop, Key, Steps};
use select_keys::{select_path, set_path};
use std::alloc::{AllocError, Global};

/// Commits the hive, where an edit gave another tree.
fn settle<D: Disk>(hive: Hive, disk: &mut D) -> Result<Done, AllocError>
    requires on { (D.state disk.old).on ≡ true }
    requires still { D.tells ≡ true → (D.state disk.old).flight ≡ [] }
    requires carries { D.tells ≡ true → Carries (D.state disk.old).held hive.base hive.bins }
    ensures settled { D.tells ≡ true → IfOk result (Settles hive (D.state disk.old) (D.state disk.new)) }
    ensures unmoved { Unmoved result (D.state disk.old) (D.state disk.new) }
{
    if !hive.changed() {
        return Ok(Done::Nothing);
    }
    // The tree that is committed is in these cells.
    let _ = hive.cells();
    match hive.commit(disk) {
        Ok((_, number)) => Ok(Done::Commit(number)),
        Err(_) => Err(AllocError),
    }
}

/// What is answered where the edits were refused.
fn refused(stop: EditStop) -> Result<Done, AllocError>
    ensures { IsRefusedAs stop result }
{
    match stop {
        EditStop::Memory => Err(AllocError),
        EditStop::NoKey
        | EditStop::NoValue
        | EditStop::BadName
        | EditStop::Exists
        | EditStop::NameTooLong
        | EditStop::TooDeep
        | EditStop::DataTooLong
        | EditStop::Full => Ok(Done::Refused(ImportStop::Edit(stop))),
    }
}

/// What is answered where a step after these is refused. Nothing is committed.
fn end_protected(alloc: Global, mut hive: Hive, steps: Steps) -> Result<Done, AllocError>
    requires fits { All Fits (map step_of steps) }
    ensures { IfOk result (EndsProtected (loaded_state hive) (map step_of steps)) }
{
    match hive.apply(alloc, steps) {
        Ok(()) => Ok(Done::Refused(ImportStop::Protected)),
        Err(EditStop::Full) => Ok(Done::Refused(ImportStop::Protected)),
        Err(stop) => refused(stop),
    }
}

/// Makes the edits in a loaded hive, all or none, and commits it.
fn edit<D: Disk>(
    alloc: Global,
    mut hive: Hive,
    steps: Steps,
    disk: &mut D,
) -> Result<Done, AllocError>
    requires on { (D.state disk.old).on ≡ true }
    requires still { D.tells ≡ true → (D.state disk.old).flight ≡ [] }
    requires carries { D.tells ≡ true → Carries (D.state disk.old).held hive.base hive.bins }
    requires loads { D.tells ≡ true → Loads (D.state disk.old).held (loaded_state hive) false }
    requires unchanged { hive.changed ≡ false }
    requires fits { All Fits (map step_of steps) }
    ensures changed { D.tells ≡ true → IfOk result (MakesTree false hive (map step_of steps) (D.state disk.new)) }
    ensures unmoved { Unmoved result (D.state disk.old) (D.state disk.new) }
{
    // The tree that was loaded is in these cells.
    let _ = hive.cells();
    match hive.apply(alloc, steps) {
        Ok(()) => settle(hive, disk),
        Err(stop) => refused(stop),
    }
}

/// The same, where a step after them may be refused.
fn edit_all<D: Disk>(
    alloc: Global,
    hive: Hive,
    steps: Steps,
    protected: bool,
    disk: &mut D,
) -> Result<Done, AllocError>
    requires on { (D.state disk.old).on ≡ true }
    requires still { D.tells ≡ true → (D.state disk.old).flight ≡ [] }
    requires carries { D.tells ≡ true → Carries (D.state disk.old).held hive.base hive.bins }
    requires loads { D.tells ≡ true → Loads (D.state disk.old).held (loaded_state hive) false }
    requires unchanged { hive.changed ≡ false }
    requires fits { All Fits (map step_of steps) }
    ensures changed { D.tells ≡ true → IfOk result (MakesTree protected hive (map step_of steps) (D.state disk.new)) }
    ensures unmoved { Unmoved result (D.state disk.old) (D.state disk.new) }
{
    if protected {
        end_protected(alloc, hive, steps)
    } else {
        edit(alloc, hive, steps, disk)
    }
}

/// What is printed: how many steps were passed over only where nothing is refused.
fn said_of(current: Option<u32>, passed: Option<usize>, done: Done) -> Said
    ensures { result ≡ said_of current passed done }
{
    match done {
        Done::Refused(_) => Said {
            current,
            passed: None,
            done,
        },
        Done::Nothing | Done::Commit(_) => Said {
            current,
            passed,
            done,
        },
    }
}

/// The same with what was done.
fn say(
    current: Option<u32>,
    passed: Option<usize>,
    done: Result<Done, AllocError>,
) -> Result<Said, AllocError>
    ensures { SaysOf current passed done result }
{
    match done {
        Ok(done) => Ok(said_of(current, passed, done)),
        Err(stop) => Err(stop),
    }
}

/// The tree of the hive.
fn tree_of(alloc: Global, hive: &Hive) -> Result<Key, AllocError>
    ensures tree { IfOk result (λ t. t ≡ hive.now.tree) }
    ensures held { IfOk result HoldsKeys }
{
    let path = Names::new(alloc);
    match hive.subtree(alloc, &path)? {
        Some(tree) => Ok(tree),
        None => unreachable!(),
    }
}

/// Makes the steps but for those that delete what isn't there.
fn make_left<D: Disk>(
    alloc: Global,
    hive: Hive,
    current: Option<u32>,
    made: SetSteps,
    disk: &mut D,
) -> Result<Said, AllocError>
    requires on { (D.state disk.old).on ≡ true }
    requires still { D.tells ≡ true → (D.state disk.old).flight ≡ [] }
    requires carries { D.tells ≡ true → Carries (D.state disk.old).held hive.base hive.bins }
    requires loads { D.tells ≡ true → Loads (D.state disk.old).held (loaded_state hive) false }
    requires unchanged { hive.changed ≡ false }
    requires fits { All Fits (map step_of made.steps) }
    ensures changed { D.tells ≡ true → IfOk result (MakesSteps current true hive (made_steps made) (D.state disk.new)) }
    ensures unmoved { Unmoved result (D.state disk.old) (D.state disk.new) }
{
    let SetSteps { steps, protected } = made;
    let tree = tree_of(alloc, &hive)?;
    let left = left_steps(alloc, &tree, steps)?;
    let done = edit_all(alloc, hive, left.steps, protected, disk);
    say(current, Some(left.passed), done)
}

/// Makes the steps, those that delete what isn't there passed over or not.
fn make<D: Disk>(
    alloc: Global,
    hive: Hive,
    current: Option<u32>,
    lenient: bool,
    made: SetSteps,
    disk: &mut D,
) -> Result<Said, AllocError>
    requires on { (D.state disk.old).on ≡ true }
    requires still { D.tells ≡ true → (D.state disk.old).flight ≡ [] }
    requires carries { D.tells ≡ true → Carries (D.state disk.old).held hive.base hive.bins }
    requires loads { D.tells ≡ true → Loads (D.state disk.old).held (loaded_state hive) false }
    requires unchanged { hive.changed ≡ false }
    requires fits { All Fits (map step_of made.steps) }
    ensures changed { D.tells ≡ true → IfOk result (MakesSteps current lenient hive (made_steps made) (D.state disk.new)) }
    ensures unmoved { Unmoved result (D.state disk.old) (D.state disk.new) }
{
    if lenient {
        make_left(alloc, hive, current, made, disk)
    } else {
        let SetSteps { steps, protected } = made;
        let done = edit_all(alloc, hive, steps, protected, disk);
        say(current, None, done)
    }
}

/// The number of the set that is asked for.
fn number_in(alloc: Global, hive: &Hive, set: AskedSet) -> Result<u32, AllocError>
    ensures { IfOk result (λ n. n ≡ number_in set hive.now.tree) }
{
    match set {
        AskedSet::Number(number) => Ok(number),
        AskedSet::Default => {
            let path = select_path(alloc)?;
            Ok(hive.dword(&path, &DEFAULT).unwrap_or(0))
        }
    }
}

/// The same where it is from 1 to 999 and the hive has the set.
fn usable_in(alloc: Global, hive: &Hive, set: AskedSet) -> Result<Option<u32>, AllocError>
    ensures exact { IfOk result (λ n. n ≡ usable_in (number_in set hive.now.tree) hive.now.tree) }
    ensures within { IfOk result (λ n. IfSome n (λ k. k ≤ 999)) }
{
    let number = number_in(alloc, hive, set)?;
    if number < 1 || 999 < number {
        return Ok(None);
    }
    let path = set_path(alloc, number)?;
    if hive.has(&path) {
        Ok(Some(number))
    } else {
        Ok(None)
    }
}

/// Makes the steps with the set of this number for `CurrentControlSet`; without a number that is refused.
fn make_in<D: Disk>(
    alloc: Global,
    hive: Hive,
    number: Option<u32>,
    lenient: bool,
    steps: Steps,
    disk: &mut D,
) -> Result<Said, AllocError>
    requires on { (D.state disk.old).on ≡ true }
    requires still { D.tells ≡ true → (D.state disk.old).flight ≡ [] }
    requires carries { D.tells ≡ true → Carries (D.state disk.old).held hive.base hive.bins }
    requires loads { D.tells ≡ true → Loads (D.state disk.old).held (loaded_state hive) false }
    requires unchanged { hive.changed ≡ false }
    requires fits { All Fits (map step_of steps) }
    requires within { IfSome number (λ n. n ≤ 999) }
    ensures changed { D.tells ≡ true → IfOk result (MakesFor number lenient hive (map step_of steps) (D.state disk.new)) }
    ensures unmoved { Unmoved result (D.state disk.old) (D.state disk.new) }
{
    match number {
        Some(n) => make(
            alloc,
            hive,
            number,
            lenient,
            set_steps(alloc, n, steps)?,
            disk,
        ),
        None => Ok(said_of(None, None, Done::Refused(ImportStop::NoControlSet))),
    }
}

/// Makes the edits of a text in a loaded hive.
pub(crate) fn change_loaded<D: Disk>(
    alloc: Global,
    hive: Hive,
    how: How,
    steps: Steps,
    disk: &mut D,
) -> Result<Said, AllocError>
    requires on { (D.state disk.old).on ≡ true }
    requires still { D.tells ≡ true → (D.state disk.old).flight ≡ [] }
    requires carries { D.tells ≡ true → Carries (D.state disk.old).held hive.base hive.bins }
    requires loads { D.tells ≡ true → Loads (D.state disk.old).held (loaded_state hive) false }
    requires unchanged { hive.changed ≡ false }
    requires fits { All Fits (map step_of steps) }
    ensures changed { D.tells ≡ true → IfOk result (Changes how hive (map step_of steps) (D.state disk.new)) }
    ensures unmoved { Unmoved result (D.state disk.old) (D.state disk.new) }
{
    match how.current {
        Some(set) => {
            let number = usable_in(alloc, &hive, set)?;
            make_in(alloc, hive, number, how.lenient, steps, disk)
        }
        None => make(
            alloc,
            hive,
            None,
            how.lenient,
            SetSteps {
                steps,
                protected: false,
            },
            disk,
        ),
    }
}
