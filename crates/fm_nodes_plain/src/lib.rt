//! Which programs can run on hosts. What keeps a program from being plain is told by the least line, in a unit that
//! main reaches, of a PROBE, of a MERGER with several writers, or of a declaration of ports over which ports go.
//!
//! A plain program runs on hosts as it does alone (`specs/Plain`): no order of its steps tells, and no message holds a
//! port.
#![tactic(auto)]

ghost use Rattle.std.specs.Prelude.{List};
ghost use Rattle.fm_sched.specs.Schedule.{Leads};
ghost use Rattle.fm_rules.specs.declared.program.Program.{Program};
ghost use Rattle.fm_mean.specs.Steps.{first, language, step};
ghost use Rattle.fm_link_law.specs.Hosts.{IsSound, state_of};
ghost use Rattle.fm_link_law.specs.Play.{HostEvent, cost_of, hosts_after, steps_of};
ghost use Rattle.fm_nodes_plain.specs.Plain.{IsPlainProgram, first_hosts};

mod carriers;
mod law;
mod plain;

pub use law::{one_line, plain_by_lines};
pub use plain::first_unplain;

/// Whatever happens on the hosts, the steps that were made are a legal schedule of the program; it leads to the
/// state for which the hosts stand, at the cost of the steps; and what holds between two events holds then.
pub fn hosts_play_the_program()
    ensures { (p : Program) → IsPlainProgram p → (events : List HostEvent) →
        Leads (step p) (first p) (steps_of (language p) (first_hosts p) events)
        (state_of (hosts_after (language p) (first_hosts p) events)) (cost_of (language p) (first_hosts p) events)
        × IsSound (hosts_after (language p) (first_hosts p) events) }
{}
