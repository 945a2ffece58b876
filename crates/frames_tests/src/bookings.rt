// Bookings and their lines.
use crate::faults::refused;
use frames::{Booking, Refusal};
use std::test::Fail;

#[test]
fn labels_and_numbers(rt: HostRuntime) {
    assert!(rt; Booking::new(7, 7, 3, 0).is_ok());
    assert_eq!(rt; Booking::new(8, 0, 0, 0), refused(Refusal::Label(8)));
    assert_eq!(rt; Booking::new(0, 255, 0, 0), refused(Refusal::Label(255)));
    assert_eq!(rt; Booking::new(9, 8, 4, 0), refused(Refusal::Label(9)));
    assert_eq!(rt; Booking::new(0, 0, 4, 0), refused(Refusal::Number(4)));
}

#[test]
fn lines_in_their_place(rt: HostRuntime) -> Result<(), Fail> {
    let booking = Booking::new(1, 7, 3, 0x01012C000E100C01)?;
    let mut buf = [b'.'; 32];
    assert_eq!(rt; booking.write_at(&mut buf, 2), Ok(()));
    assert_eq!(rt; buf, *b"..book 1 7 3 01012c000e100c01\n..");
    Ok(())
}

#[test]
fn lines_that_do_not_fit(rt: HostRuntime) -> Result<(), Fail> {
    let booking = Booking::new(0, 0, 0, u64::MAX)?;
    let mut buf = [b'.'; 28];
    assert_eq!(rt; booking.write_at(&mut buf, 1), refused(Refusal::Short(29)));
    assert_eq!(rt;
        booking.write_at(&mut buf[0..27], 0),
        refused(Refusal::Short(28))
    );
    assert_eq!(rt; booking.write_at(&mut [], 0), refused(Refusal::Short(28)));
    assert_eq!(rt; buf, [b'.'; 28]);
    Ok(())
}

#[test]
fn places_near_the_greatest_number(rt: HostRuntime) -> Result<(), Fail> {
    let booking = Booking::new(0, 0, 0, u64::MAX)?;
    let mut buf = [b'.'; 28];
    assert_eq!(rt;
        booking.write_at(&mut buf, usize::MAX - 28),
        refused(Refusal::Short(usize::MAX))
    );
    assert_eq!(rt;
        booking.write_at(&mut buf, usize::MAX),
        refused(Refusal::Short(usize::MAX))
    );
    assert_eq!(rt; buf, [b'.'; 28]);
    Ok(())
}

#[test]
fn a_line_that_fits_exactly(rt: HostRuntime) -> Result<(), Fail> {
    let booking = Booking::new(0, 0, 0, u64::MAX)?;
    let mut buf = [b'.'; 28];
    assert_eq!(rt; booking.write_at(&mut buf, 0), Ok(()));
    assert_eq!(rt; buf, *b"book 0 0 0 ffffffffffffffff\n");
    Ok(())
}
