// A room is made, filled and emptied.
use crate::Room;
use std::alloc::AllocError;

#[test]
fn reserved_and_filled(rt: HostRuntime) -> Result<(), AllocError> {
    let mut room = Room::<u8, 3>::reserve(rt.alloc())?;
    assert!(rt; room.extend_from_slice(b"ab").is_ok());
    assert!(rt; room.extend_from_slice(b"cd").is_err());
    assert_eq!(rt; room.free(), 1);
    assert!(rt; room.push(b'c').is_ok());
    assert!(rt; room.is_full());
    assert!(rt; room.push(b'd').is_err());
    assert_eq!(rt; room.as_slice(), b"abc".as_slice());
    room.set(1, b'd');
    room.set(3, b'e');
    assert_eq!(rt; room.as_slice(), b"adc".as_slice());
    room.truncate(2);
    assert_eq!(rt; room.len(), 2);
    assert!(rt; room.insert(1, b'e').is_ok());
    assert!(rt; room.insert(1, b'f').is_err());
    assert_eq!(rt; room.as_slice(), b"aed".as_slice());
    room.clear();
    assert_eq!(rt; room.len(), 0);
    Ok(())
}
