//! Nodes and workers.

use fm_map::{Machine, Plan, part, place, worker_of};
use std::test::Fail;

#[test]
fn nodes_and_workers(rt: HostRuntime) -> Result<(), Fail> {
    let machine = Machine {
        first: 10,
        count: 6,
    };
    assert_eq!(rt; place(machine, &[2, 3], &[2, 2]), Some(13));
    assert_eq!(rt; place(machine, &[2, 3], &[3, 1]), None);
    assert_eq!(rt;
        part(machine, 3, 5),
        Some(Machine {
            first: 12,
            count: 3
        })
    );
    assert_eq!(rt; part(machine, 3, 7), None);
    assert_eq!(rt; worker_of(5, 8, 3, Plan::Cyclic), 2);
    assert_eq!(rt; worker_of(5, 8, 3, Plan::Block), 1);
    Ok(())
}
