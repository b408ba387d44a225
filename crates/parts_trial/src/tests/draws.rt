use outside::{Draw, Failed, SeededDraw, SystemDraw};
use std::io;
use std::random::RandomSource;
use std::sync::atomic::AtomicU8;
use std::sync::atomic::Ordering::SeqCst;
use std::test::Fail;

// A system that fills rooms with this number, counting down, and fails from 0 on.
#[derive(Drop)]
struct Countdown {
    left: AtomicU8,
}

impl RandomSource for Countdown {
    fn fill_bytes(&self, buf: &mut [u8]) -> io::Result<()> {
        let number = self.left.load(SeqCst);
        buf.fill(number);
        self.left.store(number.saturating_sub(1), SeqCst);
        if number == 0 {
            return Err(io::Error::from_raw_os_error(5));
        }
        Ok(())
    }
}

fn counting_from(number: u8) -> Countdown {
    Countdown {
        left: AtomicU8::new(number),
    }
}

#[test]
fn seeded_draws_have_seeds_of_their_own(rt: HostRuntime) -> Result<(), Fail> {
    let system = counting_from(2);
    let mut one = SeededDraw::new(&system)?;
    let mut other = SeededDraw::new(&system)?;
    assert!(rt; one.word() != other.word() && one.word() != one.word());
    assert!(rt; matches!(SeededDraw::new(&system), Err(Failed)));
    Ok(())
}

#[test]
fn the_draw_of_the_system_asks_for_each_word(rt: HostRuntime) -> Result<(), Fail> {
    let mut draw = SystemDraw::new(&rt)?;
    assert!(rt; draw.word() != draw.word() && draw.faults() == 0);
    let mut refused = SystemDraw::new(counting_from(2))?;
    let mut spare = SeededDraw::new(&counting_from(2))?;
    assert!(rt; refused.word() == 0x0101_0101_0101_0101 && refused.faults() == 0);
    assert!(rt; refused.word() == spare.word() && refused.word() == spare.word());
    assert!(rt; refused.faults() == 2 && matches!(SystemDraw::new(counting_from(0)), Err(Failed)));
    Ok(())
}
