//! The laws.

ghost use Rattle.device_laws.specs.Blocks.{OneBlockEach, WholeBlocksStay, DatabaseOnlyAdds};
ghost use Rattle.device_laws.specs.Stacks.{StacksAreNamed};
ghost use Rattle.device_laws.specs.Bare.{NothingElseIsRead, TreesAreToldAlike};
ghost use Rattle.device_laws.specs.Lost.{LinesAreLost, LosersAreTold, LossesAreFindings, FiltersAreLost, OtherFiltersStay};
ghost use Rattle.device_laws.specs.Repaired.{RepairedIsSound, GoodStackStays};
ghost use Rattle.device_laws.specs.Started.{AreTaken, AreTakenThere, ThreeIsDemanded, OthersAreNot};
ghost use Rattle.device_laws.specs.Findings.{FindingsAreTold, FindingsStay, NothingFoundIsSound};

/// There is one block for each device, in order (`each`). A name and the wish for findings leave out whole blocks, and change no line of the
/// others (`whole`); the entry of each device, and the entries of the database, only add lines (`adds`).
pub fn each_device_has_its_block()
    ensures each { OneBlockEach }
    ensures whole { WholeBlocksStay }
    ensures adds { DatabaseOnlyAdds }
{}

/// The drivers that a block tells are exactly the names of the five values, in load order, each as often as it is there, with the state of the
/// driver of that name; there is exactly one function driver or the line that there is none, between the lower and the upper filters.
pub fn stacks_are_what_the_values_name()
    ensures named { StacksAreNamed }
{}

/// The number of findings is that of the findings that are told (`told`), and is the same whatever is shown of them (`stay`). Of all devices it
/// is 0 exactly where the set and its Enum are there, each name in the stack of an enabled device and in the filters of a class is `ok` or
/// `built-in`, and no value of an enabled device or of a class key is malformed (`sound`).
pub fn findings_are_those_of_the_set()
    ensures told { FindingsAreTold }
    ensures stay { FindingsStay }
    ensures sound { NothingFoundIsSound }
{}

/// A report is that of the four keys with the names of their keys and the values alone that Plug and Play reads, of the database only where
/// something of it is asked for (`bare`). So two trees that have the same number of a set and, in that set, the same of these have the same
/// report (`alike`): no other set, key, value or stamp changes it.
pub fn nothing_else_is_read()
    ensures bare { NothingElseIsRead }
    ensures alike { TreesAreToldAlike }
{}

/// Where a key of `Services` gets a Start of 4, each line that loads its driver says `disabled` then, and no other line of a block changes
/// (`lines`). The devices with such a line are exactly those that are told for its name before (`losers`). In the block of an enabled device
/// these lines are findings, and else the same lines as before (`found`). The filters of classes of that name are all told (`filters`), and the
/// others as before (`others`).
pub fn what_is_lost_with_a_driver()
    ensures lines { LinesAreLost }
    ensures losers { LosersAreTold }
    ensures found { LossesAreFindings }
    ensures filters { FiltersAreLost }
    ensures others { OtherFiltersStay }
{}

/// Where of enabled devices and of class keys each malformed value and each prevented name in a list of filters is taken away, and of enabled
/// devices each Service that is prevented, nothing is found then but that there is no Enum (`sound`), and the stack of each enabled device is
/// what was `ok` or `built-in` in it, in the same order (`stack`).
pub fn what_is_repaired_is_sound()
    ensures sound { RepairedIsSound }
    ensures stack { GoodStackStays }
{}

/// In a start of the set in which each attempt goes well, a driver that is `ok N`, N up to 2, is taken in the phase of N (`taken`), and in no
/// other; one that is `ok 3` is taken in none but the automatic one (`there`), and there only where an entry that is taken too names it among
/// its services, by demand start (`demanded`): else it is Plug and Play alone that loads it. One that is `no-key`, `no-start`, `disabled`,
/// `beyond` or `no-type` is taken in none (`others`).
pub fn a_start_takes_drivers_by_their_states()
    ensures taken { AreTaken }
    ensures there { AreTakenThere }
    ensures demanded { ThreeIsDemanded }
    ensures others { OthersAreNot }
{}
