//! Tried values: single cases that the rules must answer so.
ghost use Rattle.interlock.specs.Tried.{Tried};

/// Says nothing at run time; its contract is the list of tried values.
pub fn tried_values_hold()
    ensures { Tried }
{}
