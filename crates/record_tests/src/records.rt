// The worked example of 64 bytes, whole, cut, lengthened and damaged.
use example::record_bytes;
use faults::RecordFault;
use netlist::design::draft::Draft;
use netlist::refusal::Refusal;
use record::read::read;
use record::reader::{Block, Kind, Reader};
use std::test::Fail;
use writer::write::write;

// A block, and the first byte of a map or field in it, or of what follows the end.
#[derive(Clone, Copy, PartialEq, Eq, Debug)]
struct Place {
    block: usize,
    at: usize,
}

// What a refused record is told.
#[derive(Clone, Copy, PartialEq, Eq, Debug)]
struct Told {
    number: u32,
    place: Place,
}

impl From<RecordFault> for Told {
    fn from(fault: RecordFault) -> Told {
        Told {
            number: fault.refusal().number(),
            place: Place {
                block: fault.block(),
                at: fault.at(),
            },
        }
    }
}

// Each map and field of the example, in their order.
const PLACES: [Place; 25] = [
    Place { block: 0, at: 0 },
    Place { block: 0, at: 1 },
    Place { block: 0, at: 5 },
    Place { block: 0, at: 7 },
    Place { block: 0, at: 9 },
    Place { block: 0, at: 10 },
    Place { block: 1, at: 12 },
    Place { block: 1, at: 13 },
    Place { block: 1, at: 15 },
    Place { block: 2, at: 17 },
    Place { block: 2, at: 18 },
    Place { block: 2, at: 24 },
    Place { block: 3, at: 30 },
    Place { block: 3, at: 31 },
    Place { block: 3, at: 37 },
    Place { block: 4, at: 43 },
    Place { block: 4, at: 44 },
    Place { block: 4, at: 50 },
    Place { block: 5, at: 56 },
    Place { block: 5, at: 57 },
    Place { block: 5, at: 58 },
    Place { block: 5, at: 59 },
    Place { block: 6, at: 61 },
    Place { block: 6, at: 62 },
    Place { block: 6, at: 63 },
];

// The example with one byte changed: the byte and its new value, and the number and place of the refusal.
const DAMAGED: [(usize, u8, u32, Place); 30] = [
    (0, 0x3f, 3, Place { block: 0, at: 0 }),
    (0, 0x1e, 3, Place { block: 0, at: 0 }),
    (4, 0, 5, Place { block: 0, at: 1 }),
    (1, 1, 5, Place { block: 0, at: 1 }),
    (6, 0, 4, Place { block: 0, at: 5 }),
    (5, 40, 5, Place { block: 0, at: 5 }),
    (8, 0, 4, Place { block: 0, at: 7 }),
    (7, 40, 5, Place { block: 0, at: 7 }),
    (9, 0, 4, Place { block: 0, at: 9 }),
    (9, 65, 5, Place { block: 0, at: 9 }),
    (11, 0, 4, Place { block: 0, at: 10 }),
    (10, 2, 5, Place { block: 0, at: 10 }),
    (13, 0, 5, Place { block: 1, at: 13 }),
    (13, 20, 5, Place { block: 1, at: 13 }),
    (15, 5, 6, Place { block: 1, at: 15 }),
    (17, 0, 7, Place { block: 2, at: 17 }),
    (17, 5, 7, Place { block: 2, at: 17 }),
    (19, 0, 5, Place { block: 2, at: 18 }),
    (20, 1, 5, Place { block: 2, at: 18 }),
    (23, 0, 5, Place { block: 2, at: 18 }),
    (25, 4, 6, Place { block: 2, at: 24 }),
    (29, 30, 6, Place { block: 2, at: 24 }),
    (43, 0x83, 7, Place { block: 4, at: 43 }),
    (56, 0x0f, 3, Place { block: 5, at: 56 }),
    (56, 0x05, 3, Place { block: 5, at: 56 }),
    (57, 1, 8, Place { block: 5, at: 58 }),
    (58, 3, 8, Place { block: 5, at: 58 }),
    (60, 0, 4, Place { block: 5, at: 59 }),
    (59, 40, 5, Place { block: 5, at: 59 }),
    (61, 0x07, 1, Place { block: 6, at: 64 }),
];

fn reading(bytes: &[u8], draft: &mut Draft) -> Result<(), Told> {
    read(bytes, draft).map_err(Told::from)
}

#[test]
fn example_is_written_back(rt: HostRuntime) -> Result<(), Fail> {
    let record = record_bytes();
    let mut draft = Draft::new(rt.alloc())?;
    read(&record, &mut draft)?;
    assert_eq!(rt; draft.design().menus().len(), 3);
    assert_eq!(rt; draft.design().terms().cycle, 16);
    let mut out = [7u8; 70];
    assert_eq!(rt; write(draft.design(), &mut out), Ok(64));
    assert_eq!(rt; &out[..64], record.as_slice());
    assert_eq!(rt; &out[64..], [7u8; 6].as_slice(), "other bytes keep");
    Ok(())
}

#[test]
fn short_buffers_are_kept(rt: HostRuntime) -> Result<(), Fail> {
    let mut draft = Draft::new(rt.alloc())?;
    read(&record_bytes(), &mut draft)?;
    let mut out = [7u8; 63];
    let answer = write(draft.design(), &mut out).map_err(Refusal::number);
    assert_eq!(rt; answer, Err(24), "63 bytes are too few");
    assert_eq!(rt; out, [7u8; 63]);
    Ok(())
}

#[test]
fn every_cut_is_refused_in_its_field(rt: HostRuntime) -> Result<(), Fail> {
    let record = record_bytes();
    let mut draft = Draft::new(rt.alloc())?;
    for length in 0..64usize {
        let Some(place) = PLACES.iter().rfind(|place| place.at <= length) else {
            return Err(Fail::new("no field begins before the cut"));
        };
        let told = Told {
            number: 1,
            place: *place,
        };
        assert_eq!(rt;
            reading(&record[..length], &mut draft),
            Err(told),
            "cut at {length}"
        );
    }
    assert_eq!(rt;
        draft.design().menus().len(),
        0,
        "a refused record leaves the draft"
    );
    Ok(())
}

#[test]
fn bytes_that_follow_are_refused(rt: HostRuntime) -> Result<(), Fail> {
    let mut draft = Draft::new(rt.alloc())?;
    let mut longer = [0u8; 65];
    longer[..64].copy_from_slice(&record_bytes());
    let told = Told {
        number: 2,
        place: Place { block: 7, at: 64 },
    };
    assert_eq!(rt; reading(&longer, &mut draft), Err(told));
    Ok(())
}

#[test]
fn each_damage_has_its_number_and_place(rt: HostRuntime) -> Result<(), Fail> {
    let record = record_bytes();
    let mut draft = Draft::new(rt.alloc())?;
    read(&record, &mut draft)?;
    for (byte, value, number, place) in DAMAGED {
        let mut bytes = record;
        assert!(rt; byte < 64);
        bytes[byte] = value;
        let told = Told { number, place };
        assert_eq!(rt;
            reading(&bytes, &mut draft),
            Err(told),
            "byte {byte} is {value}"
        );
    }
    assert_eq!(rt;
        draft.design().nets().len(),
        2,
        "a refused record leaves the draft"
    );
    Ok(())
}

#[test]
fn reader_hands_out_block_by_block(rt: HostRuntime) -> Result<(), Fail> {
    let record = record_bytes();
    let mut reader = Reader::new(&record);
    let mut block = Block::BLANK;
    for kind in [
        Kind::Head,
        Kind::Supplies,
        Kind::Module,
        Kind::Module,
        Kind::Module,
        Kind::Net,
        Kind::Net,
        Kind::End,
        Kind::End,
    ] {
        assert_eq!(rt; reader.next(&mut block), Ok(kind));
    }
    assert_eq!(rt; block.head.terms.cycle, 16);
    assert_eq!(rt; block.menu.values[1].power, 22);
    assert_eq!(rt; block.net.receiver, 2);
    Ok(())
}

#[test]
fn reader_repeats_a_fault(rt: HostRuntime) -> Result<(), Fail> {
    let record = record_bytes();
    let mut reader = Reader::new(&record[..40]);
    let mut block = Block::BLANK;
    for _ in 0..3 {
        reader.next(&mut block)?;
    }
    let told = Told {
        number: 1,
        place: Place { block: 3, at: 37 },
    };
    for _ in 0..3 {
        assert_eq!(rt; reader.next(&mut block).map_err(Told::from), Err(told));
    }
    assert_eq!(rt;
        block.menu.values[1].power,
        18,
        "a fault leaves the lent block"
    );
    Ok(())
}

#[test]
fn a_fault_tells_its_number_place_and_reason(rt: HostRuntime) -> Result<(), Fail> {
    let mut draft = Draft::new(rt.alloc())?;
    let Err(fault) = read(&record_bytes()[..40], &mut draft) else {
        return Err(Fail::new("the record ends early"));
    };
    let told = format!(in rt.alloc(); "{fault}")?;
    assert_eq!(rt;
        told.as_str(),
        "1 in block 3 at byte 37: the record ends early"
    );
    Ok(())
}
