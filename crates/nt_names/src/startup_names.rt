//! The names of the keys and values that startup reads in a SYSTEM hive, as UTF-16 units: Microsoft's documentation
//! of `Select`, of the control sets and of the services' keys.

ghost use Rattle.std.specs.Prelude.{◌≡◌, map};
ghost use Rattle.nt_names.specs.startup_names.Names.{texts};

/// `Select`. Which control set is which: the key of the four numbers.
pub const SELECT: [u16; 6] = [0x53, 0x65, 0x6c, 0x65, 0x63, 0x74];

/// `Current`. The number of the set that runs.
pub const CURRENT: [u16; 7] = [0x43, 0x75, 0x72, 0x72, 0x65, 0x6e, 0x74];

/// `Default`. The number of the set that the next start takes.
pub const DEFAULT: [u16; 7] = [0x44, 0x65, 0x66, 0x61, 0x75, 0x6c, 0x74];

/// `Failed`. The number of the set that was given up for the last known good one.
pub const FAILED: [u16; 6] = [0x46, 0x61, 0x69, 0x6c, 0x65, 0x64];

/// `LastKnownGood`. The number of the set of the last good start.
pub const LAST_KNOWN_GOOD: [u16; 13] = [
    0x4c, 0x61, 0x73, 0x74, 0x4b, 0x6e, 0x6f, 0x77, 0x6e, 0x47, 0x6f, 0x6f, 0x64,
];

/// `ControlSet`. What the name of a numbered control set begins with.
pub const CONTROL_SET: [u16; 10] = [0x43, 0x6f, 0x6e, 0x74, 0x72, 0x6f, 0x6c, 0x53, 0x65, 0x74];

/// `CurrentControlSet`. The set that runs, as a path names it.
pub const CURRENT_CONTROL_SET: [u16; 17] = [
    0x43, 0x75, 0x72, 0x72, 0x65, 0x6e, 0x74, 0x43, 0x6f, 0x6e, 0x74, 0x72, 0x6f, 0x6c, 0x53, 0x65,
    0x74,
];

/// `Control`. The key of a set that holds the orders and safe mode's lists.
pub const CONTROL: [u16; 7] = [0x43, 0x6f, 0x6e, 0x74, 0x72, 0x6f, 0x6c];

/// `ServiceGroupOrder`. The key that orders the service groups.
pub const SERVICE_GROUP_ORDER: [u16; 17] = [
    0x53, 0x65, 0x72, 0x76, 0x69, 0x63, 0x65, 0x47, 0x72, 0x6f, 0x75, 0x70, 0x4f, 0x72, 0x64, 0x65,
    0x72,
];

/// `List`. The value with the groups in their order.
pub const LIST: [u16; 4] = [0x4c, 0x69, 0x73, 0x74];

/// `GroupOrderList`. The key that orders the tags of each group.
pub const GROUP_ORDER_LIST: [u16; 14] = [
    0x47, 0x72, 0x6f, 0x75, 0x70, 0x4f, 0x72, 0x64, 0x65, 0x72, 0x4c, 0x69, 0x73, 0x74,
];

/// `SafeBoot`. The key of the lists of safe mode.
pub const SAFE_BOOT: [u16; 8] = [0x53, 0x61, 0x66, 0x65, 0x42, 0x6f, 0x6f, 0x74];

/// `Minimal`. The list of plain safe mode.
pub const MINIMAL: [u16; 7] = [0x4d, 0x69, 0x6e, 0x69, 0x6d, 0x61, 0x6c];

/// `Network`. The list of safe mode with the network.
pub const NETWORK: [u16; 7] = [0x4e, 0x65, 0x74, 0x77, 0x6f, 0x72, 0x6b];

/// `Services`. The key of the services and drivers of a set.
pub const SERVICES: [u16; 8] = [0x53, 0x65, 0x72, 0x76, 0x69, 0x63, 0x65, 0x73];

/// `Start`. When a service starts.
pub const START: [u16; 5] = [0x53, 0x74, 0x61, 0x72, 0x74];

/// `Type`. What kind of service it is.
pub const TYPE: [u16; 4] = [0x54, 0x79, 0x70, 0x65];

/// `ErrorControl`. What its failure does to the start.
pub const ERROR_CONTROL: [u16; 12] = [
    0x45, 0x72, 0x72, 0x6f, 0x72, 0x43, 0x6f, 0x6e, 0x74, 0x72, 0x6f, 0x6c,
];

/// `Group`. The service group that it is in.
pub const GROUP: [u16; 5] = [0x47, 0x72, 0x6f, 0x75, 0x70];

/// `Tag`. Its number within the group.
pub const TAG: [u16; 3] = [0x54, 0x61, 0x67];

/// `DependOnService`. The services that it needs.
pub const DEPEND_ON_SERVICE: [u16; 15] = [
    0x44, 0x65, 0x70, 0x65, 0x6e, 0x64, 0x4f, 0x6e, 0x53, 0x65, 0x72, 0x76, 0x69, 0x63, 0x65,
];

/// `DependOnGroup`. The groups of which it needs a member.
pub const DEPEND_ON_GROUP: [u16; 13] = [
    0x44, 0x65, 0x70, 0x65, 0x6e, 0x64, 0x4f, 0x6e, 0x47, 0x72, 0x6f, 0x75, 0x70,
];

/// `ImagePath`. The file that it runs.
pub const IMAGE_PATH: [u16; 9] = [0x49, 0x6d, 0x61, 0x67, 0x65, 0x50, 0x61, 0x74, 0x68];

/// `ObjectName`. The account, or for a driver the object, that it runs as.
pub const OBJECT_NAME: [u16; 10] = [0x4f, 0x62, 0x6a, 0x65, 0x63, 0x74, 0x4e, 0x61, 0x6d, 0x65];

/// Each name, in the order of this file, is its text.
pub fn names() -> [&'static [u16]; 24]
    ensures { map (λ n. n.now) result ≡ texts }
{
    [
        &SELECT,
        &CURRENT,
        &DEFAULT,
        &FAILED,
        &LAST_KNOWN_GOOD,
        &CONTROL_SET,
        &CURRENT_CONTROL_SET,
        &CONTROL,
        &SERVICE_GROUP_ORDER,
        &LIST,
        &GROUP_ORDER_LIST,
        &SAFE_BOOT,
        &MINIMAL,
        &NETWORK,
        &SERVICES,
        &START,
        &TYPE,
        &ERROR_CONTROL,
        &GROUP,
        &TAG,
        &DEPEND_ON_SERVICE,
        &DEPEND_ON_GROUP,
        &IMAGE_PATH,
        &OBJECT_NAME,
    ]
}
