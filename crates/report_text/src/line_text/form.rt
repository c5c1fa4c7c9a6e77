//! The two forms of a report.

/// How the lines of a report are printed.
#[derive(Clone, Copy, Debug, PartialEq, Eq)]
pub enum ReportForm {
    /// Each line as a text.
    Text,
    /// Each line as one object of JSON.
    Json,
}
