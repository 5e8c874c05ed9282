//! What the reader takes and refuses.
use codes::Report;
use std::test::Fail;
use telecommand::{Command, ReadFault, choose, read, set_aside};

const GOOD: [u8; 8] = [0x11, 0x01, 0xC0, 0x00, 0x00, 0x01, 0x66, 0x01];

const SHORT: [u8; 7] = [0x11, 0x01, 0xC0, 0x00, 0x00, 0x01, 0x66];

const STRANGE: [u8; 8] = [0x01, 0x01, 0xC0, 0x00, 0x00, 0x01, 0x66, 0x01];

// What stands on the primary link, the redundant being empty, and the report of its fault.
fn refusals() -> [(&'static [u8], Report); 12] {
    let length = Report::new(1, 0x20, 4, 0);
    let header = |octet| Report::new(1, 0x10, octet, 0);
    let unknown = Report::new(2, 0x21, 6, 0x6605);
    let words = |opcode| Report::new(2, 0x22, 8, opcode);
    [
        (&[], length),
        (&SHORT, length),
        // the number in octets 4 and 5 is another, in its low octet or in its high one
        (&[0x11, 0x01, 0xC0, 0, 0, 2, 0x66, 0x01], length),
        (&[0x11, 0x01, 0xC0, 0, 1, 1, 0x66, 0x01], length),
        (&STRANGE, header(0)),
        (&[0x11, 0x02, 0x80, 0, 0, 1, 0x66, 0x01], header(1)),
        (&[0x11, 0x01, 0x80, 0, 0, 1, 0x66, 0x01], header(2)),
        (&[0x11, 0x01, 0x7F, 0, 0, 1, 0x66, 0x01], header(2)),
        (&[0x11, 0x01, 0xC0, 0, 0, 1, 0x66, 0x05], unknown),
        (&[0x11, 0x01, 0xC0, 0, 0, 1, 0x66, 0x04], words(0x6604)),
        (&[0x11, 0x01, 0xC0, 0, 0, 2, 0x66, 0x12, 2], words(0x6612)),
        (
            &[0x11, 0x01, 0xC0, 0, 0, 3, 0x66, 0x01, 0, 0],
            words(0x6601),
        ),
    ]
}

#[test]
fn a_good_frame_is_taken(rt: HostRuntime) -> Result<(), Fail> {
    let command = read(&GOOD, &[])?;
    assert!(rt; matches!(command, Command::NoOperation));
    assert_eq!(rt; command.opcode(), 0x6601);
    // the sequence count is free
    let counted = [0x11, 0x01, 0xFF, 0xFF, 0x00, 0x03, 0x66, 0x12, 0x02, 0x28];
    let Command::FireRelease(words) = read(&[], &counted)? else {
        return Err(Fail::new("another command was read"));
    };
    assert_eq!(rt; words, [0x02, 0x28].as_slice());
    Ok(())
}

#[test]
fn others_are_refused(rt: HostRuntime) {
    for (link, report) in refusals() {
        let refusal = read(link, &[]).err();
        assert_eq!(rt; refusal.map(Report::from), Some(report));
    }
}

fn code_and_place(fault: ReadFault) -> (u8, u16) {
    let report = Report::from(fault);
    (report.code, report.place)
}

// The code and the place of the choice's fault, or none.
fn fault_of(primary: &[u8], redundant: &[u8]) -> Option<(u8, u16)> {
    choose(primary, redundant).err().map(code_and_place)
}

// The code and the place of a primary that was set aside, or none.
fn aside_of(primary: &[u8], redundant: &[u8]) -> Option<(u8, u16)> {
    set_aside(primary, redundant).map(code_and_place)
}

#[test]
fn the_primary_comes_first(rt: HostRuntime) -> Result<(), Fail> {
    assert_eq!(rt; choose(&GOOD, &SHORT)?, [0x66, 0x01].as_slice());
    assert_eq!(rt; choose(&STRANGE, &GOOD)?, [0x66, 0x01].as_slice());
    assert_eq!(rt; fault_of(&STRANGE, &SHORT), Some((0x10, 0)));
    assert_eq!(rt; fault_of(&STRANGE, &[]), Some((0x10, 0)));
    assert_eq!(rt; fault_of(&[], &STRANGE), Some((0x10, 0)));
    Ok(())
}

#[test]
fn a_faulty_primary_is_set_aside(rt: HostRuntime) {
    assert_eq!(rt; aside_of(&STRANGE, &GOOD), Some((0x10, 0)));
    assert_eq!(rt; aside_of(&SHORT, &GOOD), Some((0x20, 4)));
    assert_eq!(rt; aside_of(&[], &GOOD), None);
    assert_eq!(rt; aside_of(&GOOD, &GOOD), None);
    assert_eq!(rt; aside_of(&SHORT, &STRANGE), None);
    assert_eq!(rt; aside_of(&SHORT, &[]), None);
}
