//! Rings of no slot, of one and of three.
use super::shared::holds;
use ring::Ring;

#[test]
fn no_slot_holds_nothing(rt: HostRuntime) {
    let mut slots = [];
    let mut ring = Ring::new(&mut slots);
    holds(&rt, &ring, &[]);
    ring.push(7);
    holds(&rt, &ring, &[]);
    ring.clear();
    holds(&rt, &ring, &[]);
}

#[test]
fn one_slot_holds_the_newest(rt: HostRuntime) {
    let mut slots = [0];
    let mut ring = Ring::new(&mut slots);
    holds(&rt, &ring, &[]);
    ring.push(7);
    holds(&rt, &ring, &[7]);
    ring.push(8);
    holds(&rt, &ring, &[8]);
    ring.clear();
    holds(&rt, &ring, &[]);
}

#[test]
fn three_slots_go_round(rt: HostRuntime) {
    let mut slots = [0; 3];
    let mut ring = Ring::new(&mut slots);
    ring.push(1);
    ring.push(2);
    holds(&rt, &ring, &[2, 1]);
    for record in 3..9 {
        ring.push(record);
    }
    holds(&rt, &ring, &[8, 7, 6]);
    ring.clear();
    ring.push(9);
    holds(&rt, &ring, &[9]);
}
