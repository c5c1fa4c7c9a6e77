//! What is asked of an import, and what is printed for it.

use command_words::{AskedEncoding, AskedSet};
use reg_tree::EditStop;
use report_text::line_text::ReportForm;

/// How a text is imported: in which form the lines are printed, how the text is encoded, the set that `CurrentControlSet` stands for
/// where one is named, and whether steps that delete what isn't there are passed over.
#[derive(Clone, Copy, Debug, PartialEq, Eq)]
pub struct How {
    pub form: ReportForm,
    pub encoding: AskedEncoding,
    pub current: Option<AskedSet>,
    pub lenient: bool,
}

/// Why an import is refused.
#[derive(Clone, Copy, Debug, PartialEq, Eq)]
pub enum ImportStop {
    /// The set that is asked for isn't there.
    NoControlSet,
    /// The text deletes the set as a whole, under the name `CurrentControlSet`.
    Protected,
    /// An edit is refused.
    Edit(EditStop),
}

/// What was done to the hive.
#[derive(Clone, Copy, Debug, PartialEq, Eq)]
pub enum Done {
    /// The edits were refused, and nothing was done.
    Refused(ImportStop),
    /// The edits gave the same tree, and nothing was done.
    Nothing,
    /// The edited tree was committed, under this sequence number.
    Commit(u32),
}

/// What is printed for an import.
#[derive(Clone, Copy, Debug, PartialEq, Eq)]
pub struct Said {
    /// The set that `CurrentControlSet` stands for.
    pub current: Option<u32>,
    /// How many steps were passed over.
    pub passed: Option<usize>,
    pub done: Done,
}
