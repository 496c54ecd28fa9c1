//! The least of some lines.

ghost use Rattle.std.specs.Prelude.{◌≡◌};
ghost use Rattle.fm_call_graph.specs.Least.{lower, lower_if};

use fm_base::Line;

fn lower(best: Option<Line>, line: Line) -> Option<Line>
    ensures { result ≡ lower best line }
{
    match best {
        None => Some(line),
        Some(best) => Some(if line.0 < best.0 { line } else { best }),
    }
}

/// The least line so far and another one, if it counts.
pub fn lower_if(test: bool, best: Option<Line>, line: Line) -> Option<Line>
    ensures { result ≡ lower_if test best line }
{
    if test { lower(best, line) } else { best }
}
