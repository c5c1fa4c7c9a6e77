//! What differs between two control sets, line by line.

use boot_phases::boot_phases::Phase;
use nt_bytes::{Bytes, Names, Row, Units};

/// One of the two sets.
#[derive(Clone, Copy)]
pub enum Side {
    First,
    Second,
}

/// A field of a service.
#[derive(Clone, Copy)]
pub enum DiffField {
    Start,
    Type,
    ErrorControl,
    Group,
    Tag,
    DependOnService,
    DependOnGroup,
    ImagePath,
    ObjectName,
}

/// What a set has: a value of a field, a list, or nothing.
#[derive(Drop)]
pub enum Shown {
    Nothing,
    Number(u32),
    Text(Units),
    Texts(Names),
    Numbers(Row<u32>),
}

/// A list whose order is compared.
#[derive(Clone, Copy)]
pub enum Sequence {
    /// The services, in the order of the registry.
    Registry,
    /// The names of the groups, as they are listed.
    Groups,
    /// What the boot starts.
    Starts,
}

/// What one set alone may have.
#[derive(Clone, Copy)]
pub enum Part {
    /// A listed group.
    Group,
    /// A name that its boot starts.
    Start,
    /// A name that its boot leaves unmet.
    Unmet,
}

/// What of two keys differs.
#[derive(Clone, Copy)]
pub enum KeyField {
    Name,
    Class,
    Security,
    /// The order of the values that both have.
    Values,
    /// The order of the children that both have.
    Keys,
}

/// A line. A path leads from the key of a set down.
#[derive(Drop)]
pub enum DiffLine {
    /// There is no set of this number.
    NoSet {
        side: Side,
        number: u32,
    },
    /// The sets of these numbers are compared.
    Sets {
        first: u32,
        second: u32,
    },
    /// A service of one set alone.
    Only {
        side: Side,
        start: u32,
        kind: u32,
        control: u32,
        image: Shown,
        name: Units,
    },
    /// A field of a service of both sets.
    Differs {
        field: DiffField,
        first: Shown,
        second: Shown,
        name: Units,
    },
    /// The first place, counted from 1, at which two lists differ, and what each has there.
    Parts {
        sequence: Sequence,
        place: u64,
        first: Shown,
        second: Shown,
    },
    /// A name that one set alone has.
    Lone {
        part: Part,
        side: Side,
        name: Units,
    },
    /// The tags of a group that both sets list.
    Tags {
        first: Shown,
        second: Shown,
        group: Units,
    },
    /// A name that both boots start, in two phases.
    StartPhase {
        first: Phase,
        second: Phase,
        name: Units,
    },
    /// The two boots are the same.
    StartsSame,
    /// Something of two keys.
    KeyDiffers {
        field: KeyField,
        path: Names,
    },
    /// A value that both keys have. The two lines after it have what each has.
    ValueDiffers {
        name: Units,
        path: Names,
    },
    /// A value of one key alone. The line after it has what it is.
    ValueOnly {
        side: Side,
        name: Units,
        path: Names,
    },
    /// The type and the data of a value.
    Data {
        side: Side,
        kind: u32,
        bytes: Bytes,
    },
    /// A child of one key alone, and how many keys it is with all below it.
    KeyOnly {
        side: Side,
        keys: u64,
        path: Names,
    },
    /// How many pairs of keys differ in when they were written.
    Stamps {
        count: u64,
    },
    /// How many pairs of keys differ in their flags.
    Flags {
        count: u64,
    },
    /// Nothing differs.
    Same,
    /// How many lines before it tell of a difference.
    Differ {
        count: u64,
    },
    End,
}

/// Lines, the first one first.
pub type DiffLines = Row<DiffLine>;
