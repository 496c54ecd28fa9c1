//! What is found of each unit of a graph: its flag, and the name of its component.

ghost use Rattle.std.specs.Prelude.{◌≡◌, false, slice_index_or};
ghost use Rattle.fm_call_graph.specs.Components.{same_name};

/// The flag of a unit; false where there is none.
pub fn flag_at(flags: &[bool], unit: usize) -> bool
    ensures { result ≡ slice_index_or flags.now unit false }
{
    match flags.get(unit) {
        Some(flag) => *flag,
        None => false,
    }
}

/// Whether both are there and the same.
pub fn same_name(first: Option<usize>, second: Option<usize>) -> bool
    ensures { result ≡ same_name first second }
{
    match first {
        None => false,
        Some(first) => match second {
            None => false,
            Some(second) => first == second,
        },
    }
}
