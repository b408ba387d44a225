use outside::{Clock, SystemClock};
use std::io;
use std::rt::Clock as Times;
use std::sync::Wait;
use std::sync::atomic::AtomicU64;
use std::sync::atomic::Ordering::SeqCst;
use std::test::Fail;
use std::time::Duration;

#[test]
fn all_clocks_of_a_process_leap(rt: HostRuntime) -> Result<(), Fail> {
    let mut first = SystemClock::new(rt.alloc(), &rt)?;
    let mut second = first.copy(&rt)?;
    let before = second.now();
    first.leap();
    assert!(rt; second.now() >= before.saturating_add(1 << 40));
    assert!(rt; first.now() >= before.saturating_add(1 << 40));
    Ok(())
}

// A system whose clocks read what they are set to, in milliseconds, and refuse where that is 0. A sleep of it sets
// the first one.
#[derive(Drop)]
struct Set<R> {
    rt: R,
    monotonic: AtomicU64,
    wall: AtomicU64,
}

impl<R: Wait> Wait for Set<R> {}

impl<R> Times for Set<R> {
    fn monotonic(&self) -> io::Result<Duration> {
        told(self.monotonic.load(SeqCst))
    }

    fn since_1970(&self) -> io::Result<Duration> {
        told(self.wall.load(SeqCst))
    }

    fn sleep(&self, _duration: Duration) {
        self.monotonic.store(1090, SeqCst);
    }
}

fn told(millis: u64) -> io::Result<Duration> {
    if millis == 0 {
        return Err(io::Error::from_raw_os_error(5));
    }
    Ok(Duration::from_millis(millis))
}

#[test]
fn the_clock_of_the_system_goes_on(rt: HostRuntime) -> Result<(), Fail> {
    let mut clock = SystemClock::new(rt.alloc(), &rt)?;
    let before = clock.now();
    clock.pause(20);
    let after = clock.now();
    assert!(rt; after >= before.saturating_add(20) && clock.faults() == 0);
    Ok(())
}

#[test]
fn the_clocks_of_a_process_read_one_that_never_falls(rt: HostRuntime) -> Result<(), Fail> {
    let system = Set {
        rt: &rt,
        monotonic: AtomicU64::new(1000),
        wall: AtomicU64::new(5000),
    };
    let mut first = SystemClock::new(rt.alloc(), &system)?;
    let mut second = first.copy(&system)?;
    // what the two clocks of the system are set to, and what is read then
    let rows = [
        (1010, 5010, 10),
        // the wall clock gained a second, and then more than one: the machine slept
        (1011, 6011, 11),
        (1012, 7013, 1013),
        // the wall clock was set back, and then the machine slept
        (1020, 1020, 1021),
        (1030, 3030, 3031),
        // the wall clock is refused, and then the machine slept
        (1040, 0, 3041),
        (1050, 4550, 4551),
        // the other one is refused, and then both
        (0, 5900, 4551),
        (0, 9900, 4900),
        (0, 0, 4900),
    ];
    for (monotonic, wall, time) in rows {
        system.monotonic.store(monotonic, SeqCst);
        system.wall.store(wall, SeqCst);
        assert_eq!(rt; first.now(), time, "{monotonic} and {wall}");
        assert_eq!(rt; second.now(), time, "{monotonic} and {wall}");
    }
    Ok(())
}
