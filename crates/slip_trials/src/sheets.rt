//! Run sheets of 0, 1 and 4 places, filled and overfilled with the slips of a unit.

use ata::Drive;
use plain::PlainDisk;
use sense::Refusal;
use slips::{HandedBack, Line, RunSheet, Slip, Unit};
use std::process::Abort;
use std::test::Fail;
use unit::Reply;

/// How many slips were handed out, how many were entered, and whether each refusal was for a full sheet, with its own slip.
#[derive(Clone, Copy, PartialEq, Eq, Debug)]
struct Filled {
    handed_out: u64,
    entered: u64,
    handed_back_whole: bool,
}

fn enter_or_give_up(slip: Slip, sheet: &mut RunSheet<'_>, filled: &mut Filled) {
    filled.handed_out = filled.handed_out.saturating_add(1);
    let number = slip.number();
    match sheet.enter(slip) {
        Ok(()) => filled.entered = filled.entered.saturating_add(1),
        Err(HandedBack { refusal, slip }) => {
            let whole = refusal == Refusal::SheetFull && slip.number() == number;
            filled.handed_back_whole = filled.handed_back_whole && whole;
            sheet.give_up(slip);
        }
    }
}

// Enters the slips of so many failed commands; those that are handed back are given up.
fn fill<D: Drive>(unit: &mut Unit<D>, sheet: &mut RunSheet<'_>, commands: u64) -> Filled {
    let mut filled = Filled {
        handed_out: 0,
        entered: 0,
        handed_back_whole: true,
    };
    for _ in 0..commands {
        // No command has this code.
        match unit.command(&[0xFF], &[], &mut []) {
            Ok(Reply::Check(slip, _)) => enter_or_give_up(slip, sheet, &mut filled),
            Ok(Reply::Good(_)) | Err(_) => {}
        }
    }
    filled
}

// A sheet of so many places, of which two slips too many are entered.
fn overfill(rt: &(impl Abort + AllocGlobal), places: usize) -> Result<(), Fail> {
    let mut lines = vec![in rt.alloc(); Line::BLANK; places]?;
    let mut sheet = RunSheet::new(lines.as_mut_slice());
    let mut unit = Unit::attach(PlainDisk::new(vec![in rt.alloc(); 0u8; 513]?));
    let first = fill(&mut unit, &mut sheet, places as u64);
    let full = sheet.is_full();
    let more = fill(&mut unit, &mut sheet, 2);
    let _ = unit.detach();
    assert_eq!(rt; first.entered, places as u64);
    assert!(rt; full);
    assert_eq!(rt; more.handed_out, 2);
    assert_eq!(rt; more.entered, 0);
    assert!(rt; more.handed_back_whole);
    assert!(rt; sheet.len() == places);
    assert_eq!(rt; sheet.given_up(), 2);
    for at in 0..places {
        let line = sheet.line(at).ok_or("no line")?;
        assert_eq!(rt; line.number, at as u64 + 1);
    }
    assert!(rt; sheet.line(places).is_none());
    Ok(())
}

#[test]
fn no_places(rt: HostRuntime) -> Result<(), Fail> {
    overfill(&rt, 0)
}

#[test]
fn one_place(rt: HostRuntime) -> Result<(), Fail> {
    overfill(&rt, 1)
}

#[test]
fn four_places(rt: HostRuntime) -> Result<(), Fail> {
    overfill(&rt, 4)
}
