//! A ring keeps the newest records in memory that its user lends it.
#![tactic(auto)]

mod records;

use std::marker::Model;

// Slots, place and count and no `Vec`: a ring stands on memory that is lent.

/// The newest records of one kind, as many as the lent slots hold, none where there is no slot. The next record goes
/// to slot `next`; the `count` newest stand before it, round the end of the slots.
#[derive(Drop)]
pub struct Ring<'a, T> {
    slots: &'a mut [T],
    next: usize,
    count: usize,
}

impl<'a, T> Model for Ring<'a, T> {
    ghost use Rattle.std.specs.Prelude.{◌<◌, ◌≤◌, length};
    ghost use Rattle.ring.specs.Rolls.{Roll, roll};

    ghost Value = { Roll T };

    ghost view = { λ r. roll r.slots.now r.next r.count };

    ghost invariant = { λ r. (r.count ≤ length r.slots.now) × (0 < length r.slots.now → r.next < length r.slots.now) };
}
