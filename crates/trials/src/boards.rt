//! The port board, the chain board and the crossing adapter.
use board::{Board, ChainBoard, Crossed, Fault, LineState, PortBoard};
use codes::Report;
use std::process::Abort;
use std::test::Fail;

// What is set on a board: a value and no closure. Tried: a constant may hold no closures, and a local array of
// functions over `&mut dyn Board` gets no proof.
#[derive(Clone, Copy)]
enum Setting {
    Supply(u8, u8),
    Heater(u8, bool),
    Line(u8, LineState),
}

const SETTINGS: [Setting; 10] = [
    Setting::Supply(0, 0x5A),
    Setting::Supply(1, 200),
    Setting::Heater(0, true),
    Setting::Heater(1, true),
    Setting::Heater(0, false),
    Setting::Line(0, LineState::On),
    Setting::Line(3, LineState::On),
    Setting::Line(5, LineState::On),
    Setting::Line(4, LineState::On),
    Setting::Line(5, LineState::Off),
];

// Numbers that name nothing.
const NOTHINGS: [Setting; 4] = [
    Setting::Supply(2, 1),
    Setting::Heater(2, true),
    Setting::Line(6, LineState::On),
    Setting::Line(255, LineState::On),
];

fn refused() -> Report {
    Report::new(6, 0x70, 0, 0)
}

fn apply<B: Board>(board: &mut B, setting: Setting) -> Result<(), Fault> {
    match setting {
        Setting::Supply(which, set_point) => board.set_supply(which, set_point),
        Setting::Heater(which, on) => board.set_heater(which, on),
        Setting::Line(which, state) => board.set_line(which, state),
    }
}

// The two boards answer every question alike.
fn agree<A: Board, B: Board>(rt: &impl Abort, one: &A, other: &B) -> Result<(), Fail> {
    for i in 0..2 {
        assert_eq!(rt; one.supply(i)?, other.supply(i)?);
        assert_eq!(rt; one.heater(i)?, other.heater(i)?);
    }
    for k in 0..6 {
        assert_eq!(rt; one.line(k)?, other.line(k)?);
    }
    Ok(())
}

#[test]
fn port_and_chain_agree(rt: HostRuntime) -> Result<(), Fail> {
    let mut port = PortBoard::new([0; 4]);
    let mut chain = ChainBoard::new();
    for setting in SETTINGS {
        apply(&mut port, setting)?;
        apply(&mut chain, setting)?;
        agree(&rt, &port, &chain)?;
    }
    assert_eq!(rt; port.bytes(), [0x5A, 200, 0b10, 0b01_1001]);
    assert_eq!(rt; chain.word(), 0x00C8_5A99);
    Ok(())
}

// The board refuses to set what its number does not name.
fn refuses<B: Board>(rt: &impl Abort, board: &mut B, setting: Setting) {
    let refusal = apply(board, setting).err();
    assert_eq!(rt; refusal.map(Report::from), Some(refused()));
}

#[test]
fn what_names_nothing_is_refused(rt: HostRuntime) {
    let mut port = PortBoard::new([1, 2, 3, 4]);
    let mut chain = ChainBoard::new();
    for setting in NOTHINGS {
        refuses(&rt, &mut port, setting);
        refuses(&rt, &mut chain, setting);
    }
    assert!(rt; port.supply(2).is_err() && port.heater(2).is_err() && port.line(6).is_err());
    assert_eq!(rt; port.bytes(), [1, 2, 3, 4]);
    assert_eq!(rt; chain.word(), 0);
}

#[test]
fn the_adapter_exchanges_in_pairs(rt: HostRuntime) -> Result<(), Fail> {
    let mut board = Crossed::new(PortBoard::new([0; 4]));
    for setting in SETTINGS {
        apply(&mut board, setting)?;
    }
    assert_eq!(rt; board.supply(1)?, 200);
    assert!(rt; board.line(3)?.is_on() && board.line(4)?.is_on() && !board.line(5)?.is_on());
    assert_eq!(rt; board.board().bytes(), [200, 0x5A, 0b01, 0b01_0110]);
    let twice = Crossed::new(board);
    agree(&rt, &twice, twice.board().board())?;
    assert_eq!(rt;
        twice.into_board().into_board().bytes(),
        [200, 0x5A, 0b01, 0b01_0110]
    );
    Ok(())
}
