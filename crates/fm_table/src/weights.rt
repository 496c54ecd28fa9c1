//! Which processes are worth giving out.

/// Whether the last piece of a process used up its slice. Who hasn't made one yet is light.
pub(crate) fn is_heavy(heavy: &[bool], number: u32) -> bool {
    match heavy.get(number as usize) {
        Some(heavy) => *heavy,
        None => false,
    }
}

/// Whether a piece of a process is worth being made outside: its last one used up its slice, and of so many workers
/// another one could play another of so many that can step meanwhile.
pub(crate) fn is_worth(workers: u32, ready: usize, heavy: &[bool], number: u32) -> bool {
    1 < workers && 1 < ready && is_heavy(heavy, number)
}

/// Marks whether a piece used up its slice. A mark for which there is no memory isn't kept: then the process is taken
/// for a light one.
pub(crate) fn weigh(heavy: &mut Vec<bool>, number: u32, used_up: bool) {
    let place = number as usize;
    if place < heavy.len() {
        heavy[place] = used_up;
    } else if used_up {
        match heavy.resize(place + 1, false) {
            Ok(()) => heavy[place] = true,
            Err(_) => {}
        }
    }
}
