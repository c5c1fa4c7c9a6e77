//! What a check finds, line by line.

use nt_bytes::{Row, Units};

/// A number of `Select`.
#[derive(Clone, Copy)]
pub enum SelectWord {
    Current,
    Default,
    Failed,
    LastKnownGood,
}

/// A value of a service's key that a start reads.
#[derive(Clone, Copy)]
pub enum Field {
    Start,
    Type,
    ErrorControl,
    Group,
    Tag,
    DependOnService,
    DependOnGroup,
}

/// What is wrong with a child of `Services`.
#[derive(Drop)]
pub enum Fault {
    /// It has a value `Type` and no value `Start`.
    NoStart,
    /// It has a value `Start` and no value `Type`.
    NoType,
    /// A value isn't of the form that is read.
    Malformed(Field),
    /// A Start above 4.
    Beyond(u32),
    /// A Start of 0 to 2 with a Type that is neither a driver's nor a service's.
    Kind(u32),
    /// A service of Start 0 or 1.
    TooEarly(u32),
    /// It is taken, and has no value `ErrorControl`.
    NoControl,
    /// An ErrorControl above 3.
    ControlBeyond(u32),
    /// A service without an image, in a set in which another entry has one.
    NoImage,
    /// It needs a service that isn't there.
    NoService { need: Units },
    /// It needs an entry, of this Start, that is never started for it.
    Never { start: u32, need: Units },
    /// It needs an entry, of this Start, that a later phase takes.
    Later { start: u32, need: Units },
    /// It needs a group without members by then.
    NoMember { group: Units },
    /// Its tag isn't among those of its group.
    TagUnlisted { tag: u32, group: Units },
}

/// What is wrong with a child, in the order of the lines.
pub type Faults = Row<Fault>;

/// A line.
#[derive(Drop)]
pub enum CheckLine {
    /// A number of `Select` that names no set.
    Select { word: SelectWord, number: u32 },
    /// The root has a key `CurrentControlSet`.
    CurrentSetKey,
    /// The set of this number is judged.
    Set { number: u32 },
    /// There is no set of this number.
    NoSet { number: u32 },
    /// The set has no key `Services`.
    NoServices,
    /// A taken entry has a group, and no group is listed.
    NoList,
    /// Something is wrong with the child of this name.
    About { fault: Fault, name: Units },
    /// That many taken entries are of a group that isn't listed.
    GroupUnlisted { count: u64, group: Units },
    /// The entry of this name is in the cycle of this number, from 1: its entries wait for one another.
    Cycle { number: u64, name: Units },
    /// How many lines there were before, but for `Set`.
    Found { count: u64 },
    End,
}

/// Lines, the first one first.
pub type CheckLines = Row<CheckLine>;
