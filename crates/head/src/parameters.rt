//! The 25 parameters: what each may be, and what it is where nothing better is stored.
ghost use Rattle.std.specs.Prelude.{◌≡◌, ◌<◌};
ghost use Rattle.head.specs.Parameters.{range_at, within, allowed, usuals};

use std::array;

// Indices and no enum: each use is an index into the 25 bytes, and would only be cast to one.

pub(super) const NOMINAL_LEVEL: usize = 0;

pub(super) const LARGEST_SET_POINT: usize = 1;

pub(super) const PLATE_TOLERANCE: usize = 2;

pub(super) const LARGEST_STRIP: usize = 3;

pub(super) const LEAST_ANODE: usize = 4;

pub(super) const LARGEST_ANODE: usize = 5;

pub(super) const READ_BACK_FACTOR: usize = 6;

/// The failures in a row at which checks 0, 1 and 2 trip stand from here on.
pub(super) const FAILURE_LIMITS: usize = 7;

pub(super) const COUNT_RATE: usize = 10;

pub(super) const SENSOR_LIMITS: usize = 11;

pub(super) const SENSOR_MASK: usize = 19;

pub(super) const CHECK_MASK: usize = 20;

pub(super) const OVERRIDE: usize = 21;

pub(super) const SAFETY_SECONDS: usize = 22;

pub(super) const DOOR_PERIOD: usize = 23;

/// Whether SAFE closes the door: 0 or 1.
pub const CLOSE_ON_SAFE: usize = 24;

/// What a parameter may be, and its default.
#[derive(Clone, Copy)]
pub(super) struct Range {
    lowest: u8,
    highest: u8,
    pub(super) default: u8,
}

// A `static`: a `const` would be built anew where it is used.
static PARAMETERS: [Range; 25] = [
    Range {
        lowest: 0,
        highest: 255,
        default: 40,
    },
    Range {
        lowest: 1,
        highest: 255,
        default: 200,
    },
    Range {
        lowest: 0,
        highest: 255,
        default: 10,
    },
    Range {
        lowest: 0,
        highest: 255,
        default: 150,
    },
    Range {
        lowest: 0,
        highest: 255,
        default: 50,
    },
    Range {
        lowest: 0,
        highest: 255,
        default: 180,
    },
    Range {
        lowest: 0,
        highest: 255,
        default: 16,
    },
    Range {
        lowest: 1,
        highest: 255,
        default: 5,
    },
    Range {
        lowest: 1,
        highest: 255,
        default: 5,
    },
    Range {
        lowest: 1,
        highest: 255,
        default: 5,
    },
    Range {
        lowest: 0,
        highest: 255,
        default: 100,
    },
    Range {
        lowest: 0,
        highest: 255,
        default: 200,
    },
    Range {
        lowest: 0,
        highest: 255,
        default: 200,
    },
    Range {
        lowest: 0,
        highest: 255,
        default: 200,
    },
    Range {
        lowest: 0,
        highest: 255,
        default: 200,
    },
    Range {
        lowest: 0,
        highest: 255,
        default: 200,
    },
    Range {
        lowest: 0,
        highest: 255,
        default: 200,
    },
    Range {
        lowest: 0,
        highest: 255,
        default: 200,
    },
    Range {
        lowest: 0,
        highest: 255,
        default: 200,
    },
    Range {
        lowest: 0,
        highest: 255,
        default: 0,
    },
    Range {
        lowest: 0,
        highest: 31,
        default: 0,
    },
    Range {
        lowest: 0,
        highest: 1,
        default: 0,
    },
    Range {
        lowest: 0,
        highest: 255,
        default: 60,
    },
    Range {
        lowest: 1,
        highest: 255,
        default: 90,
    },
    Range {
        lowest: 0,
        highest: 1,
        default: 1,
    },
];

// The range of the parameter `i`.
pub(super) fn range_of(i: usize) -> Range
    requires { i < 25 }
    ensures { result ≡ range_at i }
{
    PARAMETERS[i]
}

impl Range {
    /// Whether the value lies within the range.
    pub(super) fn allows(&self, value: u8) -> bool
        ensures { result ≡ within self.now value }
    {
        (self.lowest..=self.highest).contains(&value)
    }
}

/// Every parameter at its default.
pub fn defaults() -> [u8; 25]
    ensures { result ≡ usuals }
{
    array::from_fn(
        |i| -> u8
            requires { i < 25 }
            ensures { result ≡ (range_at i).default }
        { range_of(i).default },
    )
}
