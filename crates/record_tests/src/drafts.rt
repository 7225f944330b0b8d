// Each refusal of a draft's calls at least once, and that a refused call changes nothing.
use netlist::design::draft::Draft;
use netlist::parts::{Choice, Menu, Supplies};
use netlist::refusal::Refusal;
use netlist::slots::Slot;
use std::test::Fail;

// A choice that may come first in a menu, and one that may follow it.
const QUICK: Choice = Choice {
    delay: 4,
    power: 30,
};

const THRIFTY: Choice = Choice {
    delay: 6,
    power: 18,
};

fn numbered(answer: Result<(), Refusal>) -> Result<(), u32> {
    answer.map_err(Refusal::number)
}

fn choices(first: Choice, second: Choice) -> [Choice; 8] {
    let mut all = [Choice { delay: 9, power: 9 }; 8];
    all[0] = first;
    all[1] = second;
    all
}

fn module(draft: &mut Draft, map: u8, first: Choice, second: Choice) -> Result<(), u32> {
    numbered(draft.module(map, &choices(first, second)))
}

#[test]
fn terms_at_their_limits(rt: HostRuntime) -> Result<(), Fail> {
    let mut draft = Draft::new(rt.alloc())?;
    assert_eq!(rt; draft.design().terms().cycle, 2_000_000);
    assert_eq!(rt; numbered(draft.terms(1, 0, 0)), Ok(()));
    assert_eq!(rt; numbered(draft.terms(2_000_000, 10_000, 10_000)), Ok(()));
    assert_eq!(rt; numbered(draft.terms(0, 0, 0)), Err(5));
    assert_eq!(rt; numbered(draft.terms(2_000_001, 0, 0)), Err(5));
    assert_eq!(rt; numbered(draft.terms(16, 10_001, 0)), Err(5));
    assert_eq!(rt; numbered(draft.terms(16, 0, 10_001)), Err(5));
    assert_eq!(rt; draft.design().terms().cycle, 2_000_000);
    assert_eq!(rt; draft.design().terms().shifter.delay, 10_000);
    Ok(())
}

#[test]
fn supplies_fall(rt: HostRuntime) -> Result<(), Fail> {
    let mut draft = Draft::new(rt.alloc())?;
    assert_eq!(rt; numbered(draft.supply(8, 1_000)), Err(5));
    assert_eq!(rt; numbered(draft.supply(0, 299)), Err(5));
    assert_eq!(rt; numbered(draft.supply(0, 5_001)), Err(5));
    assert_eq!(rt; numbered(draft.supply(2, 1_200)), Ok(()));
    assert_eq!(rt; numbered(draft.supply(2, 1_100)), Err(6));
    assert_eq!(rt; numbered(draft.supply(1, 1_100)), Err(6));
    assert_eq!(rt; numbered(draft.supply(3, 1_200)), Err(6));
    assert_eq!(rt; numbered(draft.supply(7, 300)), Ok(()));
    assert_eq!(rt; draft.design().supplies().map, 132);
    Ok(())
}

#[test]
fn menus_name_supplies(rt: HostRuntime) -> Result<(), Fail> {
    let mut draft = Draft::new(rt.alloc())?;
    assert_eq!(rt; numbered(draft.supply(0, 1_200)), Ok(()));
    assert_eq!(rt; numbered(draft.supply(1, 1_000)), Ok(()));
    let too_quick = Choice { delay: 0, ..QUICK };
    let too_slow = Choice {
        delay: 10_001,
        ..THRIFTY
    };
    let too_hungry = Choice {
        power: 1_000_001,
        ..QUICK
    };
    let no_slower = Choice {
        delay: 4,
        ..THRIFTY
    };
    let no_thriftier = Choice {
        power: 30,
        ..THRIFTY
    };
    assert_eq!(rt; module(&mut draft, 3, too_quick, THRIFTY), Err(5));
    assert_eq!(rt; module(&mut draft, 3, QUICK, too_slow), Err(5));
    assert_eq!(rt; module(&mut draft, 3, too_hungry, THRIFTY), Err(5));
    assert_eq!(rt; module(&mut draft, 3, QUICK, no_slower), Err(6));
    assert_eq!(rt; module(&mut draft, 3, QUICK, no_thriftier), Err(6));
    assert_eq!(rt; module(&mut draft, 0, QUICK, THRIFTY), Err(7));
    assert_eq!(rt; module(&mut draft, 4, QUICK, THRIFTY), Err(7));
    assert_eq!(rt; module(&mut draft, 3, QUICK, THRIFTY), Ok(()));
    assert_eq!(rt;
        module(&mut draft, 2, Choice::NONE, THRIFTY),
        Ok(()),
        "read only at its bits"
    );
    assert_eq!(rt; numbered(draft.supply(2, 900)), Err(25));
    assert_eq!(rt; draft.design().menus().len(), 2);
    Ok(())
}

#[test]
fn nets_join_modules(rt: HostRuntime) -> Result<(), Fail> {
    let mut draft = Draft::new(rt.alloc())?;
    assert_eq!(rt; numbered(draft.supply(0, 1_200)), Ok(()));
    assert_eq!(rt; numbered(draft.module(1, &choices(QUICK, THRIFTY))), Ok(()));
    assert_eq!(rt; numbered(draft.module(1, &choices(QUICK, THRIFTY))), Ok(()));
    assert_eq!(rt; numbered(draft.net(0, 1, 10_001)), Err(5));
    assert_eq!(rt; numbered(draft.net(0, 0, 0)), Err(8));
    assert_eq!(rt; numbered(draft.net(1, 0, 0)), Err(8));
    assert_eq!(rt; numbered(draft.net(0, 2, 0)), Err(8));
    assert_eq!(rt;
        numbered(draft.net(4_294_967_294, 4_294_967_295, 0)),
        Err(8)
    );
    assert_eq!(rt; numbered(draft.net(0, 1, 10_000)), Ok(()));
    assert_eq!(rt;
        numbered(draft.net(0, 1, 0)),
        Ok(()),
        "parallel nets are two"
    );
    assert_eq!(rt; draft.design().nets().len(), 2);
    Ok(())
}

#[test]
fn tables_fill(rt: HostRuntime) -> Result<(), Fail> {
    let mut draft = Draft::new(rt.alloc())?;
    assert_eq!(rt; numbered(draft.supply(0, 1_200)), Ok(()));
    for _ in 0..64 {
        assert_eq!(rt; numbered(draft.module(1, &choices(QUICK, THRIFTY))), Ok(()));
    }
    assert_eq!(rt;
        numbered(draft.module(1, &choices(QUICK, THRIFTY))),
        Err(21)
    );
    for _ in 0..256 {
        assert_eq!(rt; numbered(draft.net(0, 63, 0)), Ok(()));
    }
    assert_eq!(rt; numbered(draft.net(0, 63, 0)), Err(21));
    assert_eq!(rt; numbered(draft.net(0, 64, 0)), Err(8), "the lowest number");
    draft.clear();
    assert_eq!(rt; draft.design().menus().len(), 0);
    Ok(())
}

#[test]
fn tables_hand_out_their_used_places(rt: HostRuntime) {
    let supplies = Supplies {
        map: 0b1000_0101,
        values: [1_200, 7, 1_000, 7, 7, 7, 7, 300],
    };
    let mut places = supplies.standing();
    assert_eq!(rt; places.next(), Some((0, 1_200)));
    assert_eq!(rt; places.next(), Some((2, 1_000)));
    assert_eq!(rt; places.next(), Some((7, 300)));
    assert_eq!(rt; places.next(), None);
    let menu = Menu {
        map: 2,
        values: choices(QUICK, THRIFTY),
    };
    let mut offered = menu.standing();
    assert_eq!(rt; offered.next(), Some((1, THRIFTY)));
    assert_eq!(rt; offered.next(), None);
    assert!(rt; Slot::follows(&THRIFTY, Some(QUICK)));
    assert!(rt; !Slot::follows(&1_200u32, Some(1_200)));
    assert!(rt; !Slot::in_limits(&299u32));
    assert!(rt; Slot::in_limits(&THRIFTY));
}
