//! The text of a statement.
ghost use Rattle.std.specs.Prelude.{◌≡◌, IfOk, string_bytes};
ghost use Rattle.report.specs.Text.{class_lines, statement_text};

use std::alloc::{AllocError, Global};
use survey::statement::{Line, Statement};

// No `Display` of a statement: these lines are the program's format, and not how a statement prints.

/// A line for each class, with its number, its tetrahedra and their units, and behind them the margin.
pub fn statement_text(heap: Global, statement: &Statement) -> Result<String, AllocError>
    ensures { IfOk result (λ s. string_bytes s ≡ statement_text statement.now) }
{
    let mut text = class_lines(heap, &statement.lines)?;
    writeln!(text, "margin {}", statement.margin)?;
    Ok(text)
}

fn class_lines(heap: Global, lines: &[Line]) -> Result<String, AllocError>
    ensures { IfOk result (λ s. string_bytes s ≡ class_lines 0 lines.now) }
{
    let mut text = String::new(heap);
    for (class, line) in lines.iter().enumerate() {
        writeln!(text, "{class} {} {}", line.tetrahedra, line.units)?;
    }
    Ok(text)
}
