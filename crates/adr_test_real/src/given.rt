//! The system's clock and its random numbers.

use adr_outside::{Clock, Fresh, RandomFresh, SystemClock};
use std::test::Fail;

/// When 2020 began, in seconds since 1970 began.
const BEGIN_OF_2020: u64 = 1_577_836_800;

#[test]
fn the_clock_goes_on(rt: HostRuntime) -> Result<(), Fail> {
    let mut clock = SystemClock::new(&rt);
    let (first, second) = (clock.now()?, clock.now()?);
    assert!(rt; BEGIN_OF_2020 < first && first <= second, "it goes on");
    Ok(())
}

#[test]
fn identifiers_differ_and_have_version_4(rt: HostRuntime) -> Result<(), Fail> {
    let mut fresh = RandomFresh::new(&rt);
    let (first, second) = (fresh.identifier()?, fresh.identifier()?);
    assert!(rt; first != second, "they differ");
    for id in [first, second] {
        assert_eq!(rt; (id.as_bytes()[6] >> 4, id.as_bytes()[8] >> 6), (4, 2));
    }
    Ok(())
}
