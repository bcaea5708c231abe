// Answers on the example network.
use crate::example::{code, example, opened, refusal};
use definitions::Failure;
use measures::{Delay, Width};
use networks::draft::Book;
use planner::planner::Planner;
use std::process::Abort;
use std::test::Fail;

fn delays(rt: &impl Abort, planner: &mut Planner<Book, Delay>) -> Result<(), Fail> {
    assert_eq!(rt; planner.plan(3)?, 4);
    for (node, value) in [(0, 10), (1, 13), (2, 5), (3, 0)] {
        assert_eq!(rt; planner.guarantee(node)?, value);
    }
    for (node, link) in [(0, 4), (1, 1), (2, 3)] {
        assert_eq!(rt; planner.next(node)?, link);
    }
    let mut places = [9; 4];
    assert_eq!(rt; planner.trace(0, Failure::OneLink(3), &mut places)?.0, 10);
    assert!(rt; places == [4, 5, 1, 9]);
    assert_eq!(rt; planner.trace(0, Failure::Nothing, &mut places)?.0, 9);
    assert!(rt; places == [4, 3, 1, 9]);
    Ok(())
}

// Guarantees, next links and traces by delay.
#[test]
fn example_by_delay(rt: HostRuntime) -> Result<(), Fail> {
    let mut planner = opened(rt.alloc(), example(rt.alloc(), 0)?)?;
    let passed = delays(&rt, &mut planner);
    drop(planner.close());
    passed
}

fn widths(rt: &impl Abort, planner: &mut Planner<Book, Width>) -> Result<(), Fail> {
    assert_eq!(rt; planner.plan(3)?, 4);
    for (node, value) in [(0, 2), (1, 3), (2, 2), (3, 4_294_967_295)] {
        assert_eq!(rt; planner.guarantee(node)?, value);
    }
    assert_eq!(rt; planner.next(0)?, 0);
    Ok(())
}

// Guarantees by width; of two next links the lower number is held.
#[test]
fn example_by_width(rt: HostRuntime) -> Result<(), Fail> {
    let mut planner = opened(rt.alloc(), example(rt.alloc(), 0)?)?;
    let passed = widths(&rt, &mut planner);
    drop(planner.close());
    passed
}

fn duct(rt: &impl Abort, planner: &mut Planner<Book, Delay>) -> Result<(), Fail> {
    assert_eq!(rt; planner.plan(3)?, 1);
    for node in 0..3 {
        assert_eq!(rt; code(planner.guarantee(node)), refusal(14, node));
    }
    Ok(())
}

// With both links into the destination in one duct, only the destination has a guarantee.
#[test]
fn links_in_one_duct(rt: HostRuntime) -> Result<(), Fail> {
    let mut planner = opened(rt.alloc(), example(rt.alloc(), 1)?)?;
    let passed = duct(&rt, &mut planner);
    drop(planner.close());
    passed
}

fn marks(rt: &impl Abort, planner: &mut Planner<Book, Delay>) -> Result<(), Fail> {
    assert_eq!(rt; planner.plan(3)?, 4);
    assert_eq!(rt; code(planner.withdraw(6)), refusal(8, 6));
    assert_eq!(rt; code(planner.restore(4)), refusal(10, 4));
    assert_eq!(rt; planner.guarantee(0)?, 10);
    planner.withdraw(4)?;
    assert_eq!(rt; code(planner.guarantee(0)), refusal(12, 0));
    assert_eq!(rt; planner.plan(3)?, 3);
    assert_eq!(rt; code(planner.withdraw(4)), refusal(9, 4));
    assert_eq!(rt; code(planner.guarantee(0)), refusal(14, 0));
    planner.restore(4)?;
    assert_eq!(rt; planner.plan(3)?, 4);
    assert_eq!(rt; planner.guarantee(0)?, 10);
    Ok(())
}

// Withdrawn, withdrawn again, put back and planned again, the first plan stands again.
#[test]
fn withdraw_and_restore(rt: HostRuntime) -> Result<(), Fail> {
    let mut planner = opened(rt.alloc(), example(rt.alloc(), 0)?)?;
    let passed = marks(&rt, &mut planner);
    drop(planner.close());
    passed
}
