//! One event of a run, and what came of it.
ghost use Rattle.std.specs.Prelude.{◌≡◌, ◌<◌, None, slice_index_or};
ghost use Rattle.board.specs.Lines.{is_on};
ghost use Rattle.board.specs.declared.line_state.LineState.TheVariants.{Off};
ghost use Rattle.head.specs.State.{state_of};
ghost use Rattle.interlock.specs.Events.{event_of, unseen, not_due, lines_read, reading};
ghost use Rattle.interlock.specs.Runs.{fault_of, next, shown_of, records_after};

use board::{Board, LineState};
use codes::Report;
use head::{Due, Fault, Head, Mark, Mode, Records, Sample};

// A value and no closure: the promises speak of it. A frame has two buffers and no struct of links, as the head has it.

/// What may reach a head: a frame is what the primary and the redundant link hold.
#[derive(Clone, Copy)]
pub enum Event<'a> {
    Tick,
    Frame(&'a [u8], &'a [u8]),
    Sample(Sample),
    Second(Mark),
}

/// What an event was answered, and how head and board read after it. What a tick says is due stands in `due`.
#[derive(Clone, Copy)]
pub struct Shown {
    pub fault: Option<Report>,
    pub due: Due,
    pub mode: Mode,
    pub parameters: [u8; 25],
    pub supplies: [u8; 2],
    pub heaters: [bool; 2],
    pub lines: [bool; 6],
}

/// An event, and room for what comes of it.
#[derive(Clone, Copy)]
pub struct Step<'a> {
    pub event: Event<'a>,
    pub shown: Shown,
}

impl<'a> Step<'a> {
    /// An event that has not been brought yet.
    pub fn new(event: Event<'a>) -> Step<'a>
        ensures { result ≡ record { event = event.entry; shown = unseen } }
    {
        // field by field: what a derived default says of its arrays does not close the proof
        let shown = Shown {
            fault: None,
            due: Due::default(),
            mode: Mode::Safe,
            parameters: [0; 25],
            supplies: [0; 2],
            heaters: [false; 2],
            lines: [false; 6],
        };
        Step { event, shown }
    }
}

// The report of a refusal, or none where the event was accepted.
fn fault_of(answer: Result<(), Fault>) -> Option<Report>
    ensures { result ≡ fault_of answer }
{
    answer.err().map(Report::from)
}

// Whether a line is on, by the board's own answer.
fn line_on<B: Board>(board: &B, which: u8) -> bool
    ensures { result ≡ is_on (slice_index_or (B.means board.now).lines which Off) }
{
    board.line(which).unwrap_or(LineState::Off).is_on()
}

fn lines<B: Board>(board: &B) -> [bool; 6]
    ensures { result ≡ lines_read (B.means board.now) }
{
    [0, 1, 2, 3, 4, 5].map(|which| line_on(board, which))
}

// How head and board read, beside an answer.
fn read<B: Board>(head: &Head<B>, fault: Option<Report>, due: Due) -> Shown
    ensures { result ≡ reading fault due (state_of B.means head.now) }
{
    let board = head.board();
    Shown {
        fault,
        due,
        mode: head.mode(),
        parameters: head.parameters(),
        supplies: [0, 1].map(|which| board.supply(which).unwrap_or(0)),
        heaters: [0, 1].map(|which| board.heater(which).unwrap_or(false)),
        lines: lines(board),
    }
}

/// How head and board read now, with no answer and nothing due.
pub fn readings<B: Board>(head: &Head<B>) -> Shown
    ensures { result ≡ reading None not_due (state_of B.means head.now) }
{
    read(head, None, Due::default())
}

// Brings one event to a head.
pub(super) fn bring_one<B: Board>(head: &mut Head<B>, event: Event, records: &mut Records) -> Shown
    ensures shown { result ≡ shown_of (state_of B.means head.old) (event_of event.entry) }
    ensures became { state_of B.means head.new ≡ next (state_of B.means head.old) (event_of event.entry) }
    ensures written { records.new ≡ records_after (state_of B.means head.old) (event_of event.entry) records.old }
{
    match event {
        Event::Tick => {
            let due = head.tick(&mut records.log);
            read(head, None, due)
        }
        Event::Frame(primary, redundant) => {
            let fault = fault_of(head.frame(primary, redundant, &mut records.log));
            read(head, fault, Due::default())
        }
        Event::Sample(sample) => {
            head.sample(sample, &mut records.log);
            read(head, None, Due::default())
        }
        Event::Second(mark) => {
            let fault = fault_of(head.second(mark, records));
            read(head, fault, Due::default())
        }
    }
}
