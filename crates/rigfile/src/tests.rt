use crate::read::read;
use crate::unread::ReadFault;
use crate::write::write;
use lists::places::set_in;
use moves::fault::RigFault;
use std::alloc::Global;
use std::test::Fail;

/// The file of the worked evening.
const EVENING: [u8; 89] = [
    0x01, 0x02, 0x04, 0x00, 0x0c, 0x00, 0x1e, 0x00, 0x22, 0x00, 0x59, 0x00, 0x02, 0x4c, 0x41, 0x4d,
    0x50, 0x20, 0x20, 0x20, 0x20, 0x03, 0x53, 0x4b, 0x59, 0x20, 0x20, 0x20, 0x20, 0x20, 0x01, 0x00,
    0x03, 0x04, 0x00, 0x01, 0x01, 0x00, 0x0f, 0x00, 0x00, 0x01, 0x00, 0x00, 0x01, 0x01, 0x01, 0x01,
    0x14, 0x00, 0x01, 0x00, 0x01, 0x01, 0x01, 0x1e, 0x00, 0x00, 0x01, 0x02, 0x01, 0x01, 0x01, 0x14,
    0x00, 0x01, 0x01, 0x01, 0x02, 0x01, 0x28, 0x00, 0x00, 0x01, 0x03, 0x01, 0x01, 0x01, 0x28, 0x00,
    0x01, 0x00, 0x01, 0x02, 0x01, 0x32, 0x00, 0x00, 0x01,
];

/// The number and the byte of a refused read into a table of so many slots; 0 and 0 where it is read.
fn answer(heap: Global, bytes: &[u8], slots: usize) -> Result<(u8, usize), Fail> {
    let table = vec![in heap; None; slots]?;
    Ok(match read(bytes, table) {
        Ok(_) => (0, 0),
        Err(unread) => (unread.fault.number(), unread.fault.byte()),
    })
}

/// The same of the evening's file with some of its bytes changed.
fn changed(heap: Global, changes: &[(usize, u8)]) -> Result<(u8, usize), Fail> {
    let mut bytes = EVENING;
    for (at, byte) in changes {
        set_in(&mut bytes, *at, *byte);
    }
    answer(heap, &bytes, 4)
}

#[test]
fn the_evening_is_read_and_written_back(rt: HostRuntime) -> Result<(), Fail> {
    let table = vec![in rt.alloc(); None; 4]?;
    let Ok(rig) = read(&EVENING, table) else {
        assert!(rt; false);
        return Ok(());
    };
    let mut buffer = [0xaa; 90];
    assert!(rt; write(&rig, &mut buffer) == Ok(89));
    assert!(rt; buffer.starts_with(&EVENING));
    assert!(rt; buffer[89] == 0xaa);
    // A refused read hands the table back vacant.
    let Err(unread) = read(&EVENING[..88], rig.into_slots()) else {
        assert!(rt; false);
        return Ok(());
    };
    assert!(rt; unread.fault == ReadFault::BadFrame);
    assert!(rt; unread.slots.len() == 4);
    assert!(rt; unread.slots.iter().all(|slot| slot.is_none()));
    Ok(())
}

#[test]
fn a_frame_that_is_damaged(rt: HostRuntime) -> Result<(), Fail> {
    // Version, zero byte, the three offsets, length; counts of devices, moves, conditions and tests; numbers that do not rise.
    let damages = [
        (0, 2),
        (3, 1),
        (4, 13),
        (6, 31),
        (8, 35),
        (9, 1),
        (10, 90),
        (11, 1),
        (1, 3),
        (2, 3),
        (2, 5),
        (35, 255),
        (37, 1),
        (84, 2),
        (44, 0),
        (74, 2),
    ];
    for damage in damages {
        assert_eq!(rt; changed(rt.alloc(), &[damage])?, (20, 0), "at {}", damage.0);
    }
    for length in [0, 11, 12, 88] {
        assert_eq!(rt;
            answer(rt.alloc(), &EVENING[..length], 4)?,
            (20, 0),
            "of {length}"
        );
    }
    let mut longer = [0; 90];
    longer[..89].copy_from_slice(&EVENING);
    assert_eq!(rt; answer(rt.alloc(), &longer, 4)?, (20, 0));
    Ok(())
}

#[test]
fn contents_that_a_rig_does_not_take(rt: HostRuntime) -> Result<(), Fail> {
    // Open: settings count, name byte, slots, setting, name that stands twice.
    assert_eq!(rt; changed(rt.alloc(), &[(12, 9)])?, (1, 0));
    assert_eq!(rt; changed(rt.alloc(), &[(13, 31)])?, (2, 0));
    assert_eq!(rt; answer(rt.alloc(), &EVENING, 0)?, (3, 0));
    assert_eq!(rt; answer(rt.alloc(), &EVENING, 256)?, (3, 0));
    assert_eq!(rt; changed(rt.alloc(), &[(30, 2)])?, (8, 0));
    assert_eq!(rt;
        changed(
            rt.alloc(),
            &[(22, 0x4c), (23, 0x41), (24, 0x4d), (25, 0x50)]
        )?,
        (9, 0)
    );
    // Want, and open before it.
    assert_eq!(rt; changed(rt.alloc(), &[(33, 8)])?, (13, 0));
    assert_eq!(rt; changed(rt.alloc(), &[(33, 0), (41, 2)])?, (13, 0));
    // Add: a table that is too short, device, setting, device that stands twice, no effect, base and extra.
    assert_eq!(rt; answer(rt.alloc(), &EVENING, 3)?, (4, 74));
    assert_eq!(rt; changed(rt.alloc(), &[(40, 2)])?, (7, 34));
    assert_eq!(rt; changed(rt.alloc(), &[(68, 3)])?, (8, 59));
    assert_eq!(rt; changed(rt.alloc(), &[(35, 2), (36, 0)])?, (9, 34));
    assert_eq!(rt;
        changed(rt.alloc(), &[(35, 2), (36, 0), (42, 1)])?,
        (10, 34)
    );
    assert_eq!(rt;
        changed(rt.alloc(), &[(38, 0), (40, 1), (41, 1)])?,
        (11, 34)
    );
    assert_eq!(rt; changed(rt.alloc(), &[(55, 0), (85, 0)])?, (11, 44));
    Ok(())
}

#[test]
fn words_of_a_refused_read(rt: HostRuntime) -> Result<(), Fail> {
    let fault = ReadFault::NotAdded {
        fault: RigFault::TimesOff,
        byte: 44,
    };
    assert_eq!(rt;
        fault.to_string(rt.alloc())?.as_str(),
        "refused 11: base and extras are at least 1, and together at most 65535\nwhere: in the move that begins at byte 44\nwhat would help: another move there, or a longer table of slots if it is the number that is too high"
    );
    Ok(())
}
