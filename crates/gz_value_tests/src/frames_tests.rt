// Frames byte for byte, and at their limits.

use gz_frame::{FrameError, Unframed, frame_fixed, unframe};
use std::test::Fail;

// The frame of `abc` was written out by hand.
#[test]
fn frame_of_three_bytes(rt: HostRuntime) -> Result<(), Fail> {
    let alloc = rt.alloc();
    let mut frame = frame_fixed(alloc, b"abc").ok().ok_or("no frame")?;
    let want = [0x66, 0x33, 0x93, 0x36, 3, 0, 0, 0, 97, 98, 99];
    assert_eq!(rt; frame.as_slice(), want.as_slice());
    let place = Unframed {
        begin: 8,
        end: 11,
        used: 11,
    };
    assert_eq!(rt; unframe(frame.as_slice()), Ok(place));
    frame.append(b"xyz")?;
    assert_eq!(rt; unframe(frame.as_slice()), Ok(place));
    frame.truncate(10);
    assert_eq!(rt; unframe(frame.as_slice()), Err(FrameError::NeedMore));
    Ok(())
}

// Each row is the prefix of 66 33 93 36 of so many bytes, then the others, and what comes of them.
#[test]
fn bytes_that_are_no_frame(rt: HostRuntime) -> Result<(), Fail> {
    let alloc = rt.alloc();
    for (bytes, error) in [
        (b"".as_slice(), FrameError::NeedMore),
        (b"abc".as_slice(), FrameError::BadMagic { at: 0 }),
        (b"f3f".as_slice(), FrameError::BadMagic { at: 2 }),
        ([0x66, 0x33, 0x93].as_slice(), FrameError::NeedMore),
        (
            [0x66, 0x33, 0x93, 0x37].as_slice(),
            FrameError::BadMagic { at: 3 },
        ),
        (
            [0x66, 0x33, 0x93, 0x36, 1, 0, 0x10].as_slice(),
            FrameError::TooLong,
        ),
        (
            [0x66, 0x33, 0x93, 0x36, 0, 0, 0x10].as_slice(),
            FrameError::NeedMore,
        ),
        (
            [0x66, 0x33, 0x93, 0x36, 1, 0, 0x10, 0].as_slice(),
            FrameError::TooLong,
        ),
        (
            [0x66, 0x33, 0x93, 0x36, 0, 0, 0, 1].as_slice(),
            FrameError::TooLong,
        ),
        (
            [0x66, 0x33, 0x93, 0x36, 1, 0, 0, 0].as_slice(),
            FrameError::NeedMore,
        ),
    ] {
        assert_eq!(rt; unframe(bytes), Err(error), "of {bytes:?}");
    }
    let _ = alloc;
    Ok(())
}

#[test]
fn contents_at_the_limit(rt: HostRuntime) -> Result<(), Fail> {
    let alloc = rt.alloc();
    for (len, lawful) in [(0, true), (1_048_576, true), (1_048_577, false)] {
        let content = vec![in alloc; 7u8; len]?;
        match frame_fixed(alloc, content.as_slice()) {
            Ok(frame) => {
                assert!(rt; lawful);
                assert_eq!(rt;
                    unframe(frame.as_slice()).map(|place| place.end),
                    Ok(len + 8)
                );
            }
            Err(e) => assert!(rt; !lawful && e == FrameError::TooLong),
        }
    }
    Ok(())
}
