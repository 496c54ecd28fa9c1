//! Numbers that have been met: a flag for each.

ghost use Rattle.std.specs.Prelude.{◌≡◌, false, true, slice_set};
ghost use Rattle.fm_flow.specs.Marks.{all_flags, any_flag, comes_again, marked};

use fm_call_graph::flag_at;

fn mark(flags: &mut Vec<bool>, number: usize)
    ensures { flags.new.items ≡ slice_set flags.old.items number true }
{
    if number < flags.len() {
        flags[number] = true;
    }
}

/// Sets the flags of these.
pub(crate) fn mark_all(flags: &mut Vec<bool>, numbers: &[usize])
    ensures { flags.new.items ≡ marked flags.old.items numbers.now }
{
    'numbers: for number in numbers {
        mark(flags, *number);
    }
}

/// Whether one of these has a flag.
pub(crate) fn any_flag(flags: &[bool], numbers: &[usize]) -> bool
    ensures { result ≡ any_flag flags.now numbers.now }
{
    'numbers: for number in numbers {
        if flag_at(flags, *number) {
            return true;
        }
    }
    false
}

/// Whether all of these have flags.
pub(crate) fn all_flags(flags: &[bool], numbers: &[usize]) -> bool
    ensures { result ≡ all_flags flags.now numbers.now }
{
    'numbers: for number in numbers {
        if !flag_at(flags, *number) {
            return false;
        }
    }
    true
}

/// Whether one of these has a flag or comes twice. Then they have flags.
pub(crate) fn comes_again(flags: &mut Vec<bool>, numbers: &[usize]) -> bool
    ensures found { result ≡ comes_again false flags.old.items numbers.now }
    ensures flags { flags.new.items ≡ marked flags.old.items numbers.now }
{
    let mut found = false;
    'numbers: for number in numbers {
        found = flag_at(flags, *number) || found;
        mark(flags, *number);
    }
    found
}
