//! The check against published values.
use crate::check;
use crate::laws::{
    bursts_are_found, checked_bytes_have_one_check, checks_go_on, checks_hang_on_those_before,
};
use std::rt::HostRuntime;
use std::test::Fail;

#[test]
fn published_values(rt: HostRuntime) -> Result<(), Fail> {
    // The check value of the catalogue of CRCs, and RFC 3720's 32 bytes 0, 32 bytes FF and 0 to 31.
    assert_eq!(rt; check(0, b"123456789"), 0xE306_9283);
    assert_eq!(rt; check(0, &[0; 32]), 0x8A91_36AA);
    assert_eq!(rt; check(0, &[0xFF; 32]), 0x62A8_AB43);
    let rising: [u8; 32] = [
        0, 1, 2, 3, 4, 5, 6, 7, 8, 9, 10, 11, 12, 13, 14, 15, 16, 17, 18, 19, 20, 21, 22, 23, 24,
        25, 26, 27, 28, 29, 30, 31,
    ];
    assert_eq!(rt; check(0, &rising), 0x46DD_794E);
    Ok(())
}

#[test]
fn pieces_go_on(rt: HostRuntime) -> Result<(), Fail> {
    assert_eq!(rt; check(check(0, b"1234"), b"56789"), 0xE306_9283);
    assert_eq!(rt; check(0, b""), 0);
    checks_go_on();
    bursts_are_found();
    checks_hang_on_those_before();
    checked_bytes_have_one_check();
    Ok(())
}
