//! The lines of a text, their columns, and their kinds.

ghost use Rattle.std.specs.Prelude.{◌≡◌, ◌<◌, [], ◌∷◌, length, IfOk, MatchOption};
ghost use Rattle.std.specs.List.{list_all};
ghost use Rattle.fm_cards.specs.Lines.{lines, without_return, columns_of, is_blank, is_comment_mark, is_comment, is_continuation};

use fm_base::NoMemory;
use std::alloc::Global;

// The columns that are read.
const WIDTH: usize = 72;

// The first line without its line feed, and what stands behind it.
pub(crate) fn first_line(source: &[u8]) -> Option<(&[u8], &[u8])>
    ensures { MatchOption result (source.now ≡ [])
        (λ r. (lines source.now ≡ r.0.now ∷ lines r.1.now) × (length r.1.now < length source.now)) }
{
    let n = source.len();
    if n == 0 {
        return None;
    }
    'bytes: for i in 0..n {
        if source[i] == b'\n' {
            let (line, _) = source.split_at(i);
            let (_, behind) = source.split_at(i + 1);
            return Some((line, behind));
        }
    }
    let (_, behind) = source.split_at(n);
    Some((source, behind))
}

fn strip_return(line: &[u8]) -> &[u8]
    ensures { result.now ≡ without_return line.now }
{
    let n = line.len();
    if n > 0 && line[n - 1] == b'\r' {
        &line[..n - 1]
    } else {
        line
    }
}

// Columns 1 to 72.
pub(crate) fn columns_of(alloc: Global, line: &[u8]) -> Result<Vec<u8>, NoMemory>
    ensures columns { IfOk result (λ r. r.items ≡ columns_of line.now) }
    ensures length { IfOk result (λ r. length r.items ≡ 72) }
{
    let mut columns = Vec::from_slice(alloc, strip_return(line))?;
    columns.resize(WIDTH, b' ')?;
    Ok(columns)
}

fn is_comment_mark(byte: u8) -> bool
    ensures { result ≡ is_comment_mark byte }
{
    byte == b'C' || byte == b'c' || byte == b'*' || byte == b'!'
}

pub(crate) fn is_all_blank(columns: &[u8]) -> bool
    ensures { result ≡ list_all is_blank columns.now }
{
    columns.iter().all(|b| *b == b' ')
}

pub(crate) fn is_comment(row: &[u8]) -> bool
    requires { length row.now ≡ 72 }
    ensures { result ≡ is_comment row.now }
{
    is_comment_mark(row[0]) || is_all_blank(row)
}

pub(crate) fn is_continuation(row: &[u8]) -> bool
    requires { length row.now ≡ 72 }
    ensures { result ≡ is_continuation row.now }
{
    !(row[5] == b' ' || row[5] == b'0')
}
