//! Why words cannot be parsed.

/// Why words cannot be parsed. An option is named with its hyphens, the word of `make` by `N`.
#[derive(Clone, Copy, Debug, PartialEq, Eq)]
pub enum Reason<'a> {
    /// The first word is no command.
    UnknownCommand(&'a str),
    /// The word begins with no hyphen, and nothing takes it.
    LeftOver(&'a str),
    /// What the name takes isn't this value.
    BadValue(&'a str, &'a str),
    /// The word begins with a hyphen, and is no option of the command.
    UnknownOption(&'a str),
    /// The option was given before.
    Twice(&'a str),
    /// The option has no value, or an empty one.
    NoValue(&'a str),
    /// It is needed, and no word gives it.
    Missing(&'a str),
}
