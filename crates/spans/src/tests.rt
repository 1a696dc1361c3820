use crate::*;
use std::test::Fail;

fn spans(first: u32, period: u32, wire: u32) -> Result<Spans, u32> {
    Spans::new(first, period, wire).ok_or(period)
}

#[test]
fn divisors(rt: HostRuntime) {
    assert_eq!(rt; gcd(0, 0), 0);
    assert_eq!(rt; gcd(0, 7), 7);
    assert_eq!(rt; gcd(7, 0), 7);
    assert_eq!(rt; gcd(18, 12), 6);
    assert_eq!(rt; gcd(400_000, 300_000), 100_000);
}

#[test]
fn overlaps(rt: HostRuntime) -> Result<(), Fail> {
    let held = spans(0, 400_000, 864)?;
    let meets = spans(200_000, 300_000, 864)?;
    assert!(rt; meets.share(&held));
    assert_eq!(rt; meets.clearance(&held), Clearance::After(864));
    let clear = spans(200_864, 300_000, 864)?;
    assert!(rt; !clear.share(&held));
    assert_eq!(rt; clear.clearance(&held), Clearance::Clear);
    let before = spans(199_137, 300_000, 864)?;
    assert_eq!(rt; before.clearance(&held), Clearance::After(1_727));
    Ok(())
}

#[test]
fn tight_circles(rt: HostRuntime) -> Result<(), Fail> {
    let held = spans(0, 10, 4)?;
    assert_eq!(rt; spans(0, 15, 1)?.clearance(&held), Clearance::After(4));
    assert_eq!(rt; spans(4, 15, 1)?.clearance(&held), Clearance::Clear);
    assert_eq!(rt; spans(3, 15, 1)?.clearance(&held), Clearance::After(1));
    assert_eq!(rt; spans(4, 15, 2)?.clearance(&held), Clearance::Never);
    assert_eq!(rt; spans(0, 15, 0)?.clearance(&held), Clearance::Clear);
    Ok(())
}

#[test]
fn places(rt: HostRuntime) -> Result<(), Fail> {
    let late = spans(900, 1_000, 200)?;
    assert!(rt; late.covers(50));
    assert!(rt; !late.covers(100));
    assert_eq!(rt; late.since(50), 150);
    assert_eq!(rt; late.until(50), 850);
    assert_eq!(rt; late.since(900), 0);
    assert_eq!(rt; late.until(900), 0);
    Ok(())
}

#[test]
fn no_period(rt: HostRuntime) {
    assert!(rt; Spans::new(1, 0, 1).is_none());
}
