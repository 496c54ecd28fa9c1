//! Calls and returns of stack code: what frames pass to each other and give back, where a process is put,
//! and what the end of a unit lets go, told without doing it.
#![tactic(auto)]

mod giving;
mod looking;
mod passing;
mod seats;

pub use giving::{give_all, give_plain};
pub use looking::{
    Look, fail, leaves_no_port, line_of, look_back, look_close, look_move, look_plainly,
    look_value, push_frame_ports, push_start_ports, unit_at,
};
pub use passing::{all_fit, enter, nulls};
pub use seats::seat_for;
