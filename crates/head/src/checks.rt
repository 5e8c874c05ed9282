//! The checks on what a sample brings, and the checks by their numbers. Nothing else opens this arithmetic.
ghost use Rattle.std.specs.Prelude.{◌≡◌, ◌+◌, ◌<◌, max};
ghost use Rattle.head.specs.Checks.{bit, number_of, expected, plate_out, strip_out, anode_out, counted as counted_by, masked, reached, rate_at, rate as rate_of, rate_trips, warm, sensors_trip, lowest as lowest_of};

use super::parameters::{
    CHECK_MASK, COUNT_RATE, FAILURE_LIMITS, LARGEST_ANODE, LARGEST_SET_POINT, LARGEST_STRIP,
    LEAST_ANODE, NOMINAL_LEVEL, PLATE_TOLERANCE, READ_BACK_FACTOR, SENSOR_LIMITS, SENSOR_MASK,
};

/// The five checks, in the order of their numbers.
#[derive(Clone, Copy)]
pub enum Check {
    Plate,
    Strip,
    Anode,
    Rate,
    Temperature,
}

impl Check {
    pub fn number(self) -> u8
        ensures value { result ≡ number_of self }
        ensures bound { result < 5 }
    {
        self as u8
    }
}

/// What a high-voltage sample brings: two plate voltages, two strip currents, two anode voltages.
#[derive(Clone, Copy)]
pub struct Sample {
    pub plate: [u8; 2],
    pub strip: [u8; 2],
    pub anode: [u8; 2],
}

/// What a second mark brings: the raw count, and the temperatures of the eight sensors.
#[derive(Clone, Copy)]
pub struct Mark {
    pub raw: u32,
    pub temperatures: [u8; 8],
}

// Bit `i` of `mask`. The port board has one like it: shared, it would have to be public, for any number.
pub(super) fn bit_of(mask: u8, i: usize) -> bool
    requires { i < 8 }
    ensures { result ≡ bit mask i }
{
    (mask >> i) & 1 == 1
}

// The parameters are lent to each check as the 25 bytes that they are: a struct of them would only be opened again.

// The plate voltage to expect at a set point.
fn expected_plate(set_point: u8, factor: u8) -> u16
    ensures { result ≡ expected set_point factor }
{
    u16::from(set_point) * u16::from(factor) / 16
}

// Whether check 0 is out at the larger set point and the larger plate voltage.
pub(super) fn plate_out(parameters: &[u8; 25], set_point: u8, plate: u8) -> bool
    ensures { result ≡ plate_out parameters.now set_point plate }
{
    let wanted = expected_plate(set_point, parameters[READ_BACK_FACTOR]);
    let apart = u16::from(plate).abs_diff(wanted);
    set_point > parameters[LARGEST_SET_POINT]
        || (set_point > parameters[NOMINAL_LEVEL] && apart > u16::from(parameters[PLATE_TOLERANCE]))
}

// Whether check 1 is out at the sum of the strip currents.
pub(super) fn strip_out(parameters: &[u8; 25], sum: u16) -> bool
    ensures { result ≡ strip_out parameters.now sum }
{
    sum > u16::from(parameters[LARGEST_STRIP])
}

// Whether check 2 is out at the larger set point and the larger anode voltage.
pub(super) fn anode_out(parameters: &[u8; 25], set_point: u8, anode: u8) -> bool
    ensures { result ≡ anode_out parameters.now set_point anode }
{
    anode > parameters[LARGEST_ANODE]
        || (set_point > parameters[NOMINAL_LEVEL] && anode < parameters[LEAST_ANODE])
}

// A count of failures in a row, after one sample more.
pub(super) fn counted(out: bool, count: u8) -> u8
    ensures { result ≡ counted_by out count }
{
    if out { count.saturating_add(1) } else { 0 }
}

// Whether a check is masked, by its bit of the check mask.
#[tactic(auto, unfolding(crate::specs::Checks::masked))]
fn is_masked(parameters: &[u8; 25], check: Check) -> bool
    ensures { result ≡ masked parameters.now (number_of check) }
{
    bit_of(parameters[CHECK_MASK], usize::from(check.number()))
}

// Whether a check, one of the first three, trips at a count.
pub(super) fn trips(parameters: &[u8; 25], check: Check, count: u8) -> bool
    ensures { result ≡ reached parameters.now (number_of check) count }
{
    !is_masked(parameters, check)
        && count >= parameters[FAILURE_LIMITS + usize::from(check.number())]
}

// The count rate, from the raw count before, if any, and this one.
pub(super) fn rate(before: Option<u32>, raw: u32) -> u16
    ensures { result ≡ rate_at before raw }
{
    before.map_or(0, |count| rate_between(count, raw))
}

// What the raw count rose by, modulo 16,777,216, at most 65,535.
#[tactic(auto, unfolding(crate::specs::Checks::rate))]
fn rate_between(before: u32, raw: u32) -> u16
    ensures { result ≡ rate_of before raw }
{
    let rise = (u64::from(raw) + 16_777_216).saturating_sub(u64::from(before)) % 16_777_216;
    rise.min(65_535) as u16
}

// Whether check 3 trips at a rate.
pub(super) fn rate_trips(parameters: &[u8; 25], rate: u16) -> bool
    ensures { result ≡ rate_trips parameters.now rate }
{
    !is_masked(parameters, Check::Rate) && rate > 256 * u16::from(parameters[COUNT_RATE])
}

// Whether any sensor that is not masked is above its limit. A loop with the index, which finds limit and bit, is a form
// of the project (docs/DECISIONS.md).
fn any_warm(parameters: &[u8; 25], temperatures: [u8; 8]) -> bool
    ensures { result ≡ warm parameters.now temperatures }
{
    for (i, temperature) in temperatures.iter().enumerate() {
        if *temperature > parameters[SENSOR_LIMITS + i] && !bit_of(parameters[SENSOR_MASK], i) {
            return true;
        }
    }
    false
}

// Whether check 4 trips at these temperatures.
pub(super) fn sensors_trip(parameters: &[u8; 25], temperatures: [u8; 8]) -> bool
    ensures { result ≡ sensors_trip parameters.now temperatures }
{
    !is_masked(parameters, Check::Temperature) && any_warm(parameters, temperatures)
}

// The lowest of the five checks that trips, where `tripped` says it of each. Five flags: an option
// of each check would name every check twice.
pub(super) fn lowest(tripped: [bool; 5]) -> Option<Check>
    ensures { result ≡ lowest_of tripped }
{
    match tripped {
        [true, ..] => Some(Check::Plate),
        [_, true, ..] => Some(Check::Strip),
        [_, _, true, ..] => Some(Check::Anode),
        [_, _, _, true, _] => Some(Check::Rate),
        [_, _, _, _, true] => Some(Check::Temperature),
        _ => None,
    }
}
