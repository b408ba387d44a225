ghost use Rattle.std.specs.Prelude.{◌≡◌};
ghost use Rattle.std.specs.Arc.{arc_value};

use outside::{Clock, Machine, MemClock, Roused};
use std::alloc::Global;
use std::rt::Clock as Times;
use std::sync::atomic::AtomicBool;
use std::sync::atomic::Ordering::SeqCst;
use std::sync::{Arc, Wait};
use std::test::Fail;
use std::thread;
use std::time::{Duration, Instant};
use turn_hub::{Hub, HubFault, LONGEST_REST_SECONDS, Pass};

// Answers how many steps it has made, and refuses each event that is true, which counts as a step too.
#[derive(Drop)]
struct Counter {
    made: u64,
}

impl Machine for Counter {
    type Event = bool;

    type Outcome = u64;

    type Fault = ();

    ghost may = { λ e. Unit {0} };

    ghost steps = { λ before event now answer after. Unit {0} };

    fn step(&mut self, event: bool, now: u64) -> Result<u64, ()> {
        let _ = now;
        let number = self.made;
        self.made = number.wrapping_add(1);
        if event { Err(()) } else { Ok(number) }
    }

    fn rouses(&self) -> Roused {
        Roused::Nobody
    }
}

fn fresh() -> Counter {
    Counter { made: 0 }
}

#[test]
fn each_call_does_its_work(rt: HostRuntime) -> Result<(), Fail> {
    let (hub, mut one) = Hub::new(rt.alloc(), fresh())?;
    let mut clock = MemClock::new(7);
    assert!(rt; hub.step(&rt, &mut one, false, &mut clock) == Ok(0));
    let mut two = hub.split(&mut one);
    one.rest_in_lot(965);
    two.rest_in_crew(70);
    assert!(rt; one.lot() == 5 && two.lot() == 966);
    assert!(rt; hub.step(&rt, &mut two, true, &mut clock) == Err(HubFault::Machine(())));
    hub.meet(&mut one, &mut two);
    assert!(rt; hub.step(&rt, &mut one, false, &mut clock) == Ok(2));
    hub.join(&mut one, two);
    assert!(rt; hub.step(&rt, &mut one, false, &mut clock) == Ok(3));
    assert!(rt; clock.readings == 4 && hub.close(&rt, one).made == 4);
    Ok(())
}

#[test]
fn closing_gives_what_other_passes_made(rt: HostRuntime) -> Result<(), Fail> {
    let (hub, mut one) = Hub::new(rt.alloc(), fresh())?;
    let mut two = hub.split(&mut one);
    assert!(rt; hub.step(&rt, &mut two, false, &mut MemClock::new(0)) == Ok(0));
    assert!(rt; hub.close(&rt, one).made == 1);
    Ok(())
}

#[test]
fn a_look_makes_no_step(rt: HostRuntime) -> Result<(), Fail> {
    let mut clock = MemClock::new(0);
    let (hub, mut one) = Hub::new_at(rt.alloc(), fresh(), (1 << 62) - 2)?;
    let mut two = hub.split(&mut one);
    assert!(rt; hub.look(&rt, &mut one, |machine| machine.made) == 0);
    assert!(rt; hub.step(&rt, &mut two, false, &mut clock) == Ok(0));
    assert!(rt; hub.look(&rt, &mut one, |machine| machine.made) == 1);
    assert!(rt; hub.look(&rt, &mut two, |machine| machine.made) == 1);
    assert!(rt; hub.step(&rt, &mut one, false, &mut clock) == Ok(1));
    assert!(rt; hub.step(&rt, &mut two, false, &mut clock) == Err(HubFault::Worn));
    assert!(rt; hub.look(&rt, &mut two, |machine| machine.made) == 2);
    hub.join(&mut one, two);
    assert!(rt; clock.readings == 2 && hub.close_at(&rt, one).1 == 1 << 62);
    Ok(())
}

#[test]
fn a_worn_hub_makes_no_step(rt: HostRuntime) -> Result<(), Fail> {
    let mut clock = MemClock::new(0);
    let (hub, mut pass) = Hub::new_at(rt.alloc(), fresh(), 1 << 62)?;
    assert!(rt; hub.step(&rt, &mut pass, false, &mut clock) == Err(HubFault::Worn));
    assert!(rt; clock.readings == 0 && hub.close(&rt, pass).made == 0);
    let (hub, mut pass) = Hub::new_at(rt.alloc(), fresh(), (1 << 62) - 1)?;
    assert!(rt; hub.step(&rt, &mut pass, false, &mut clock) == Ok(0));
    assert!(rt; hub.step(&rt, &mut pass, false, &mut clock) == Err(HubFault::Worn));
    let (machine, count) = hub.close_at(&rt, pass);
    assert!(rt; clock.readings == 1 && machine.made == 1 && count == 1 << 62);
    Ok(())
}

// The numbers that one thread draws.
fn numbers<R: Wait>(
    rt: &R,
    alloc: Global,
    hub: &Hub<Counter>,
    mut pass: Pass<Counter>,
    count: usize,
) -> Vec<u64>
    requires { pass.hub ≡ hub.now }
{
    let mut drawn = Vec::new(alloc);
    let mut clock = MemClock::new(0);
    for _ in 0..count {
        if let Ok(number) = hub.step(rt, &mut pass, false, &mut clock) {
            let _ = drawn.push(number);
        }
    }
    drawn
}

#[test]
fn eight_threads_draw_each_number_once(rt: HostRuntime) -> Result<(), Fail> {
    let alloc: Global = rt.alloc();
    let (hub, mut first) = Hub::new(alloc, fresh())?;
    let hub = Arc::new(alloc, hub)?;
    let mut handles = Vec::new(alloc);
    for _ in 0..8 {
        let shared = Arc::try_clone(&hub)?;
        let pass = hub.split(&mut first);
        let handle = thread::spawn(
            &rt,
            move || -> Vec<u64>
                requires { pass.hub ≡ arc_value shared }
            { numbers(&rt, alloc, &shared, pass, 10_000) },
        )?;
        handles.push(handle)?;
    }
    let mut drawn = Vec::from_elem(alloc, false, 80_000)?;
    for handle in handles {
        for number in handle.join(&rt) {
            match drawn.get_mut(number as usize) {
                Some(mark) if !*mark => *mark = true,
                _ => panic!(rt; "{number} was drawn twice, or is too large"),
            }
        }
    }
    assert!(rt; drawn.iter().all(|mark| *mark));
    Ok(())
}

// A step holds the turn until the other thread is about to step, and for a while more, and then says that it ends.
#[derive(Drop)]
struct Gate {
    held: AtomicBool,
    arrived: AtomicBool,
    ending: AtomicBool,
}

#[derive(Drop)]
struct Holder<R> {
    rt: R,
    gate: Arc<Gate, Global>,
}

impl<R: Times + Drop> Machine for Holder<R> {
    type Event = bool;

    type Outcome = ();

    type Fault = ();

    ghost may = { λ e. Unit {0} };

    ghost steps = { λ before event now answer after. Unit {0} };

    fn step(&mut self, event: bool, now: u64) -> Result<(), ()> {
        let _ = now;
        if event {
            self.gate.held.store(true, SeqCst);
            for _ in 0..2000 {
                if self.gate.arrived.load(SeqCst) {
                    break;
                }
                thread::sleep(&self.rt, Duration::from_millis(1));
            }
            thread::sleep(&self.rt, Duration::from_millis(50));
            self.gate.ending.store(true, SeqCst);
        }
        Ok(())
    }
}

// Notes at each reading whether the holder's step was at its end.
#[derive(Drop)]
struct Noting {
    gate: Arc<Gate, Global>,
    early: bool,
}

impl Clock for Noting {
    ghost last = { λ c. 0 };

    fn now(&mut self) -> u64 {
        if !self.gate.ending.load(SeqCst) {
            self.early = true;
        }
        0
    }

    fn pause(&mut self, millis: u64) {
        let _ = millis;
    }
}

fn hold<R: Wait>(
    rt: &R,
    hub: &Hub<Holder<HostRuntime>>,
    mut pass: Pass<Holder<HostRuntime>>,
) -> bool
    requires { pass.hub ≡ hub.now }
{
    hub.step(rt, &mut pass, true, &mut MemClock::new(0)).is_ok()
}

#[test]
fn the_clock_is_read_while_the_turn_is_held(rt: HostRuntime) -> Result<(), Fail> {
    let alloc: Global = rt.alloc();
    let gate = Arc::new(
        alloc,
        Gate {
            held: AtomicBool::new(false),
            arrived: AtomicBool::new(false),
            ending: AtomicBool::new(false),
        },
    )?;
    let machine = Holder {
        rt,
        gate: Arc::try_clone(&gate)?,
    };
    let (hub, mut first) = Hub::new(alloc, machine)?;
    let hub = Arc::new(alloc, hub)?;
    let shared = Arc::try_clone(&hub)?;
    let pass = hub.split(&mut first);
    let holder = thread::spawn(
        &rt,
        move || -> bool
            requires { pass.hub ≡ arc_value shared }
        { hold(&rt, &shared, pass) },
    )?;
    for _ in 0..5000 {
        if gate.held.load(SeqCst) {
            break;
        }
        thread::sleep(&rt, Duration::from_millis(1));
    }
    let mut clock = Noting { gate, early: false };
    clock.gate.arrived.store(true, SeqCst);
    assert!(rt; hub.step(&rt, &mut first, false, &mut clock).is_ok());
    assert!(rt; holder.join(&rt) && !clock.early);
    Ok(())
}

#[derive(Clone, Copy)]
enum Knock {
    Look,
    Count,
    Open,
}

// Answers 0 to a look once it is open, and else how many looked while it was shut. The step that opens it rouses
// everybody, and no other one rouses any.
#[derive(Drop)]
struct Door {
    looks: u64,
    open: bool,
    opened: bool,
}

impl Machine for Door {
    type Event = Knock;

    type Outcome = u64;

    type Fault = ();

    ghost may = { λ e. Unit {0} };

    ghost steps = { λ before event now answer after. Unit {0} };

    fn step(&mut self, event: Knock, now: u64) -> Result<u64, ()> {
        let _ = now;
        self.opened = false;
        match event {
            Knock::Look if self.open => return Ok(0),
            Knock::Look => self.looks = self.looks.saturating_add(1),
            Knock::Count => {}
            Knock::Open => {
                self.open = true;
                self.opened = true;
            }
        }
        Ok(self.looks)
    }

    fn rouses(&self) -> Roused {
        if self.opened {
            Roused::Everybody
        } else {
            Roused::Nobody
        }
    }
}

// Rests until the door is open, and answers how often it looked.
fn await_door<R: Wait>(rt: &R, hub: &Hub<Door>, mut pass: Pass<Door>) -> u64
    requires { pass.hub ≡ hub.now }
{
    let mut looks = 0u64;
    for _ in rt.forever() {
        looks = looks.saturating_add(1);
        let clock = &mut MemClock::new(0);
        if hub.step(rt, &mut pass, Knock::Look, clock) == Ok(0) {
            return looks;
        }
        hub.wait(rt, &mut pass);
    }
    unreachable!()
}

#[test]
fn everybody_is_all_of_a_crew(rt: HostRuntime) -> Result<(), Fail> {
    let alloc: Global = rt.alloc();
    let shut = Door {
        looks: 0,
        open: false,
        opened: false,
    };
    let (hub, mut first) = Hub::new(alloc, shut)?;
    first.rest_in_crew(2);
    let hub = Arc::new(alloc, hub)?;
    let mut handles = Vec::new(alloc);
    for _ in 0..3 {
        let shared = Arc::try_clone(&hub)?;
        let pass = hub.split(&mut first);
        let handle = thread::spawn(
            &rt,
            move || -> u64
                requires { pass.hub ≡ arc_value shared }
            { await_door(&rt, &shared, pass) },
        )?;
        handles.push(handle)?;
    }
    let clock = &mut MemClock::new(0);
    for _ in 0..5000 {
        if hub.step(&rt, &mut first, Knock::Count, clock) == Ok(3) {
            break;
        }
        thread::sleep(&rt, Duration::from_millis(1));
    }
    thread::sleep(&rt, Duration::from_millis(200));
    let start = Instant::now(&rt)?;
    assert!(rt; hub.step(&rt, &mut first, Knock::Open, clock).is_ok());
    for handle in handles {
        assert!(rt; handle.join(&rt) < 1000, "a pass that waits does not rest");
    }
    assert!(rt;
        start.elapsed(&rt)? < Duration::from_secs(LONGEST_REST_SECONDS / 2),
        "one of the crew rests on"
    );
    Ok(())
}
