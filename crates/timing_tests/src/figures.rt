// The same figures from the code, and a critical path.
use critical::path::trace::critical_path;
use example::record_bytes;
use netlist::design::draft::Draft;
use record::read::read;
use std::alloc::Global;
use std::test::Fail;
use timing::assess::{Figures, assess};
use timing::assignment::Assignment;
use timing::listing::listed_before;

const CYCLE: u32 = 16;

// Each assignment of the example, in listing order, with its power and its longest delay.
const EACH: [([u8; 3], u32, u32); 8] = [
    ([0, 0, 0], 90, 13),
    ([0, 0, 1], 72, 16),
    ([0, 1, 0], 83, 16),
    ([0, 1, 1], 63, 18),
    ([1, 0, 0], 80, 16),
    ([1, 0, 1], 62, 19),
    ([1, 1, 0], 71, 18),
    ([1, 1, 1], 51, 20),
];

fn example(heap: Global) -> Result<Draft, Fail> {
    let mut draft = Draft::new(heap)?;
    read(&record_bytes(), &mut draft)?;
    Ok(draft)
}

#[test]
fn each_assignment_has_its_figures(rt: HostRuntime) -> Result<(), Fail> {
    let draft = example(rt.alloc())?;
    for (supplies, power, delay) in EACH {
        let figures = Figures {
            power,
            delay,
            meets: delay <= CYCLE,
        };
        assert_eq!(rt; assess(draft.design(), &supplies), Some(figures));
    }
    Ok(())
}

#[test]
fn other_bytes_are_no_assignment(rt: HostRuntime) -> Result<(), Fail> {
    let draft = example(rt.alloc())?;
    let design = draft.design();
    assert_eq!(rt; assess(design, &[]), None);
    assert_eq!(rt; assess(design, &[0, 0]), None);
    assert_eq!(rt; assess(design, &[0, 0, 0, 0]), None);
    assert_eq!(rt; assess(design, &[0, 2, 0]), None);
    assert_eq!(rt; assess(design, &[0, 0, 255]), None);
    Ok(())
}

#[test]
fn parallel_nets_each_count(rt: HostRuntime) -> Result<(), Fail> {
    let mut draft = example(rt.alloc())?;
    draft.net(0, 1, 0)?;
    let figures = Figures {
        power: 82,
        delay: 16,
        meets: true,
    };
    assert_eq!(rt; assess(draft.design(), &[1, 0, 0]), Some(figures));
    Ok(())
}

#[test]
fn no_modules_cost_nothing(rt: HostRuntime) -> Result<(), Fail> {
    let draft = Draft::new(rt.alloc())?;
    let figures = Figures {
        power: 0,
        delay: 0,
        meets: true,
    };
    assert_eq!(rt; assess(draft.design(), &[]), Some(figures));
    assert_eq!(rt; assess(draft.design(), &[0]), None);
    Ok(())
}

#[test]
fn arrivals_and_the_critical_path(rt: HostRuntime) -> Result<(), Fail> {
    let draft = example(rt.alloc())?;
    let Some(assignment) = Assignment::of(draft.design(), &[1, 0, 1]) else {
        return Err(Fail::new("the example has this assignment"));
    };
    let arrivals = assignment.arrivals();
    assert_eq!(rt; &arrivals[..4], [6, 11, 19, 0].as_slice());
    let Some(path) = critical_path(&assignment) else {
        return Err(Fail::new("there are modules"));
    };
    assert_eq!(rt; path.end(), 2);
    assert_eq!(rt; path.nets(), [1, 0].as_slice());
    Ok(())
}

#[test]
fn listing_order(rt: HostRuntime) {
    for (i, (earlier, ..)) in EACH.iter().enumerate() {
        for (k, (later, ..)) in EACH.iter().enumerate() {
            assert_eq!(rt; listed_before(earlier, later), i < k);
        }
    }
}
