//! The table of the eleven commands.
ghost use Rattle.std.specs.Prelude.{◌≡◌};
ghost use Rattle.telecommand.specs.Commands.{kind_in, commands};

/// What holds of every command of an op-code.
#[derive(Clone, Copy)]
pub struct Kind {
    pub opcode: u16,
    /// How many words of two octets follow the op-code.
    pub words: u8,
    /// It waits for a confirm before it acts.
    pub critical: bool,
    /// It is refused in SAFE.
    pub not_in_safe: bool,
}

const COMMANDS: [Kind; 11] = [
    Kind {
        opcode: 0x6601,
        words: 0,
        critical: false,
        not_in_safe: false,
    },
    Kind {
        opcode: 0x6602,
        words: 0,
        critical: false,
        not_in_safe: false,
    },
    Kind {
        opcode: 0x6603,
        words: 0,
        critical: false,
        not_in_safe: false,
    },
    Kind {
        opcode: 0x6604,
        words: 2,
        critical: false,
        not_in_safe: false,
    },
    Kind {
        opcode: 0x6607,
        words: 1,
        critical: true,
        not_in_safe: false,
    },
    Kind {
        opcode: 0x660d,
        words: 0,
        critical: false,
        not_in_safe: false,
    },
    Kind {
        opcode: 0x660e,
        words: 0,
        critical: false,
        not_in_safe: false,
    },
    Kind {
        opcode: 0x660f,
        words: 0,
        critical: true,
        not_in_safe: true,
    },
    Kind {
        opcode: 0x6610,
        words: 1,
        critical: true,
        not_in_safe: true,
    },
    Kind {
        opcode: 0x6611,
        words: 1,
        critical: false,
        not_in_safe: true,
    },
    Kind {
        opcode: 0x6612,
        words: 1,
        critical: true,
        not_in_safe: true,
    },
];

/// The kind of an op-code, or none where no command has it.
pub fn kind_of(opcode: u16) -> Option<Kind>
    ensures { result ≡ kind_in commands opcode }
{
    COMMANDS.iter().find(|kind| kind.opcode == opcode).copied()
}
