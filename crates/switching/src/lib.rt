// Switching: the conditions, pulses and locks of the four preselections, and the levels of the outputs.
// May use integers only; knows plain settings, no slots and no events.
#![tactic(auto)]

mod condition;
pub mod output;

ghost use Rattle.std.specs.Prelude.{◌≡◌, ◌-◌, ◌<◌};
ghost use Rattle.switching.specs.Switching.{fresh_switch, suppresses, released_of, held_of, pulse_of, signal_of, active_of, conditioned_of, locked_of, switched_of, ticked_of, unlocked_of, partner_of, switched_at, all_switched, all_ticked, all_unlocked};

// The settings of one preselection, with P in force.
// Kept: mode, target, polarity, lock and startup are numbers as a table has them, since `switch_all` and `output::outputs` take any number there; an enum would ask more.
#[derive(Clone, Copy)]
pub struct Preselection {
    // P, the number that the result is compared with.
    pub value: i32,
    // How it is compared, 0 to 6.
    pub mode: u32,
    // h, the way back before the condition goes off; in modes 2 and 5 the width of the window.
    pub hysteresis: u32,
    // The pulse's length in ms, 0 for none.
    pub pulse: u32,
    // The output it is aimed at, 1 to 4, or 0 for none.
    pub target: u32,
    // 1 where the output is active low.
    pub polarity: u32,
    // 1 where an active signal locks.
    pub lock: u32,
    // 1 where start-up suppression is set up.
    pub startup: u32,
}

// The state of one preselection.
#[derive(Clone, Copy)]
pub struct Switch {
    // What is left of the pulse, in ms.
    pub pulse: u32,
    // The condition.
    pub on: bool,
    // Start-up suppression has ended, or there is none.
    pub released: bool,
    // An active signal is held.
    pub locked: bool,
}

// A switch before the first event.
pub fn fresh() -> Switch
    ensures { result ≡ fresh_switch }
{
    Switch {
        pulse: 0,
        on: false,
        released: false,
        locked: false,
    }
}

// Whether start-up suppression is set up, and the mode is one that has it.
fn has_suppression(p: Preselection) -> bool
    ensures { result ≡ suppresses p }
{
    p.startup == 1 && (p.mode == 1 || p.mode == 4)
}

// Whether suppression has ended, after an event with the result r.
fn released_by(p: Preselection, r: i32, released: bool) -> bool
    ensures { result ≡ released_of p r released }
{
    released || (!has_suppression(p) || condition::exceeding(p.mode, r, p.value))
}

// The condition after an event, held off while suppressed.
fn held(p: Preselection, partner: i32, r: i32, released: bool, was: bool) -> bool
    ensures { result ≡ held_of p partner r released was }
{
    released && condition::condition(p.mode, r, p.value, partner, p.hysteresis, was)
}

// What is left of the pulse after the condition went from was to on.
fn pulse_after(full: u32, was: bool, on: bool, left: u32) -> u32
    ensures { result ≡ pulse_of full was on left }
{
    if !was && on { full } else { left }
}

// The signal of a preselection.
fn signal(p: Preselection, s: Switch) -> bool
    ensures { result ≡ signal_of p s }
{
    if p.pulse == 0 {
        return s.on;
    }
    0 < s.pulse
}

// Whether a preselection is active: its signal, or the lock that holds it.
fn active(p: Preselection, s: Switch) -> bool
    ensures { result ≡ active_of p s }
{
    s.locked || signal(p, s)
}

// The switch with its condition and its pulse after an event.
fn conditioned(p: Preselection, partner: i32, r: i32, released: bool, s: Switch) -> Switch
    ensures { result ≡ conditioned_of p partner r released s }
{
    let on = held(p, partner, r, released, s.on);
    Switch {
        pulse: pulse_after(p.pulse, s.on, on, s.pulse),
        on,
        released,
        locked: s.locked,
    }
}

// The switch with an active signal locked, where a lock is set up.
fn locked(p: Preselection, s: Switch) -> Switch
    ensures { result ≡ locked_of p s }
{
    if p.lock == 1 {
        let mut n = s;
        n.locked = active(p, s);
        return n;
    }
    s
}

// One switch after a telegram or levels event, with its partner's preselection and the result.
fn switched(p: Preselection, partner: i32, r: i32, s: Switch) -> Switch
    ensures { result ≡ switched_of p partner r s }
{
    let released = released_by(p, r, s.released);
    locked(p, conditioned(p, partner, r, released, s))
}

// One switch after a tick.
fn ticked(ms: u16, s: Switch) -> Switch
    ensures { result ≡ ticked_of ms s }
{
    let mut n = s;
    n.pulse = s.pulse.saturating_sub(u32::from(ms));
    n
}

// One switch with its lock cleared.
fn unlocked(s: Switch) -> Switch
    ensures { result ≡ unlocked_of s }
{
    let mut n = s;
    n.locked = false;
    n
}

// The partner of a preselection, counted from 0.
fn partner_of(k: usize) -> usize
    ensures { result ≡ partner_of k }
{
    match k {
        0 => 1,
        1 => 0,
        2 => 3,
        _ => 2,
    }
}

// Switch k after a telegram or levels event.
fn switched_at(ps: [Preselection; 4], r: i32, k: usize, s: Switch) -> Switch
    requires { k < 4 }
    ensures { result ≡ switched_at ps r k s }
{
    let other = ps[partner_of(k)];
    switched(ps[k], other.value, r, s)
}

// The four switches after a telegram or levels event.
pub fn switch_all(ps: [Preselection; 4], r: i32, ss: [Switch; 4]) -> [Switch; 4]
    ensures { result ≡ all_switched ps r ss }
{
    let mut next = ss;
    for k in 0..4 {
        let q = switched_at(ps, r, k, next[k]);
        next[k] = q;
    }
    next
}

// The four switches after a tick.
pub fn tick_all(ms: u16, ss: [Switch; 4]) -> [Switch; 4]
    ensures { result ≡ all_ticked ms ss }
{
    [
        ticked(ms, ss[0]),
        ticked(ms, ss[1]),
        ticked(ms, ss[2]),
        ticked(ms, ss[3]),
    ]
}

// The four switches with their locks cleared.
pub fn unlock_all(ss: [Switch; 4]) -> [Switch; 4]
    ensures { result ≡ all_unlocked ss }
{
    [
        unlocked(ss[0]),
        unlocked(ss[1]),
        unlocked(ss[2]),
        unlocked(ss[3]),
    ]
}
