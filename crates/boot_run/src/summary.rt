//! What the lines of a report amount to.

ghost use Rattle.std.specs.Prelude.{◌≡◌};
ghost use Rattle.start_model.specs.Summary as book;
ghost use Rattle.boot_run.specs.Views.{summary_in};

use report_text::boot_report::{Line, TryWord, Verdict};
use report_text::line_text::ReportForm;

/// The lines of a report, counted: each count ends at 4,294,967,295 and stays there.
#[derive(Clone, Copy, Debug, PartialEq, Eq)]
pub struct Summary {
    /// How the lines are printed.
    pub form: ReportForm,
    /// Attempts that went well.
    pub started: u32,
    /// Attempts that failed.
    pub failed: u32,
    /// Entries that were unmet at the end of a phase.
    pub unmet: u32,
    /// The last start's verdict; none before the first.
    pub verdict: Option<Verdict>,
    /// The sequence number of the last load or commit, 0 before the first.
    pub sequence: u32,
}

impl Summary {
    /// That of a report without a line.
    pub fn new(form: ReportForm) -> Summary
        ensures empty { summary_in result ≡ book.no_summary }
        ensures form { result.form ≡ form }
    {
        Summary {
            form,
            started: 0,
            failed: 0,
            unmet: 0,
            verdict: None,
            sequence: 0,
        }
    }

    /// Counts one more line.
    pub(crate) fn count(&mut self, line: &Line)
        ensures counted { summary_in self.new ≡ book.with_line (summary_in self.old) line.now }
        ensures form { self.new.form ≡ self.old.form }
    {
        match line {
            Line::Load { sequence, .. } | Line::Commit { sequence, .. } => self.sequence =
                *sequence,
            Line::Try { outcome, .. } => self.count_try(*outcome),
            Line::Unmet { .. } => self.unmet = self.unmet.saturating_add(1),
            Line::Verdict { word } => self.verdict = Some(*word),
            _ => {}
        }
    }

    fn count_try(&mut self, outcome: TryWord)
        ensures counted { summary_in self.new ≡ book.with_try outcome (summary_in self.old) }
        ensures form { self.new.form ≡ self.old.form }
    {
        match outcome {
            TryWord::Ok => self.started = self.started.saturating_add(1),
            _ => self.failed = self.failed.saturating_add(1),
        }
    }
}
