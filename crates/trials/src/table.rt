//! The result table, on a row or more of each kind.

use sense::{Sense, SenseValues, result};

const ROWS: [(u8, u8, Sense); 14] = [
    (0x00, 0x00, Sense::NoAnswer),
    (0x00, 0x40, Sense::NoAnswer),
    (0x61, 0x40, Sense::DeviceFault),
    (0x20, 0x00, Sense::DeviceFault),
    (0x40, 0x00, Sense::NoSense),
    (0x50, 0xFF, Sense::NoSense),
    (0x41, 0x84, Sense::InterfaceCrc),
    (0x41, 0xC0, Sense::InterfaceCrc),
    (0x41, 0x40, Sense::Unreadable),
    (0x51, 0x50, Sense::Unreadable),
    (0x41, 0x10, Sense::NotFound),
    (0x41, 0x14, Sense::NotFound),
    (0x41, 0x04, Sense::Aborted),
    (0x01, 0x00, Sense::Aborted),
];

#[test]
fn rows(rt: HostRuntime) {
    for (status, error, sense) in ROWS {
        assert_eq!(rt; result(status, error), sense);
    }
}

#[test]
fn device_fault_is_4_44_00(rt: HostRuntime) {
    let values = SenseValues::from(result(0x61, 0x40));
    assert_eq!(rt; values.key, 4);
    assert_eq!(rt; values.code, 0x44);
    assert_eq!(rt; values.qualifier, 0x00);
}
