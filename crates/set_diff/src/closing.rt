//! The last two lines.

ghost use Rattle.std.specs.Prelude.{◌≡◌, IfOk};
ghost use Rattle.set_diff.specs.Sets.{is_difference, difference_count, verdict, closed};

use answer_lines::diff_lines::{DiffLine, DiffLines};
use std::alloc::AllocError;

/// All lines, and how many of them tell of a difference.
#[derive(Drop)]
pub struct Closed {
    pub lines: DiffLines,
    pub differences: u64,
}

/// Appends whether something differs, and the end.
pub fn close(lines: DiffLines) -> Result<Closed, AllocError>
    ensures lines { IfOk result (λ c. c.lines ≡ closed lines) }
    ensures differences { IfOk result (λ c. c.differences ≡ difference_count lines) }
{
    let mut lines = lines;
    let differences = difference_count(lines.as_slice());
    lines.push(verdict(differences))?;
    lines.push(DiffLine::End)?;
    Ok(Closed { lines, differences })
}

fn verdict(count: u64) -> DiffLine
    ensures { result ≡ verdict count }
{
    if count == 0 {
        DiffLine::Same
    } else {
        DiffLine::Differ { count }
    }
}

/// How many of the lines tell of a difference.
fn difference_count(lines: &[DiffLine]) -> u64
    ensures { result ≡ difference_count lines.now }
{
    let mut count: u64 = 0;
    for line in lines {
        if is_difference(line) {
            count += 1;
        }
    }
    count
}

#[tactic(auto, unfolding(crate::specs::Sets::is_difference))]
fn is_difference(line: &DiffLine) -> bool
    ensures { result ≡ is_difference line.now }
{
    match line {
        DiffLine::Sets { .. }
        | DiffLine::StartsSame
        | DiffLine::Data { .. }
        | DiffLine::Same
        | DiffLine::Differ { .. }
        | DiffLine::End => false,
        _ => true,
    }
}
