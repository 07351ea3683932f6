// A table as the settings that the parts of the engine take: the telegram's layout, the scaling with the points, the analog span, the preselections and the inputs.
// Above it nothing knows a slot. Uses `parameters` for the slots, and the settings' structs of `ssi`, `measurement` and `switching`.
#![tactic(auto)]

ghost use Rattle.std.specs.Prelude.{◌≡◌, ◌<◌, length};
ghost use Rattle.settings.specs.Settings.{layout_of, scaling_of, points_of, span_of, preselection_of, preselections_of, settings_of, is_freeze, action_of, config_of, input_at};
ghost use Rattle.parameters.specs.Slots.{bits_per_turn};

use measurement::Scaling;
use parameters::{natural, slots, word};
use ssi::Layout;
use switching::Preselection;

// The ends and the format of the analog value.
#[derive(Clone, Copy)]
pub struct Span {
    // 0 is ±10 V, 1 is 0..20 mA, 2 is 4..20 mA.
    // Kept: `analog::code` takes the number, and its parameter may not narrow.
    pub format: u32,
    // The results at which the code is 0 and at its full scale.
    pub start: i32,
    pub end: i32,
}

// What an input does.
#[derive(Clone, Copy)]
pub enum Action {
    // Nothing.
    None,
    // The offset becomes the position after direction, with a round loop the count.
    Reset,
    // The shown value is held.
    Freeze,
    // The locks are cleared.
    ClearLocks,
    // Least and greatest start anew.
    ClearExtremes,
    // Preselection k + 1 takes the result.
    Teach(usize),
}

// When an input acts, and while which level it freezes.
#[derive(Clone, Copy)]
pub enum Config {
    // On a fall; freezes while low.
    Low,
    // On a rise; freezes while high.
    High,
    // On a rise.
    Rising,
    // On a fall.
    Falling,
}

// The settings of one input.
#[derive(Clone, Copy)]
pub struct Input {
    pub action: Action,
    pub config: Config,
}

// How a telegram is laid out.
pub fn layout(t: &[i32; 104]) -> Layout
    ensures { result ≡ layout_of t.now }
{
    Layout {
        resolution: natural(t, slots::RESOLUTION),
        format: natural(t, slots::FORMAT),
        high: natural(t, slots::HIGH_BIT),
        low: natural(t, slots::LOW_BIT),
        error_bit: natural(t, slots::ERROR_BIT),
        error_level: natural(t, slots::ERROR_LEVEL),
    }
}

// How many bits of the position are within a turn.
pub fn bits_per_turn(t: &[i32; 104]) -> u32
    ensures { result ≡ bits_per_turn t.now }
{
    natural(t, slots::BITS_PER_TURN)
}

// How a position becomes a result.
pub fn scaling(t: &[i32; 104]) -> Scaling
    ensures { result ≡ scaling_of t.now }
{
    Scaling {
        direction: natural(t, slots::DIRECTION),
        offset: word(t, slots::OFFSET),
        round_loop: natural(t, slots::ROUND_LOOP),
        factor: natural(t, slots::FACTOR),
        divider: natural(t, slots::DIVIDER),
        additive: word(t, slots::ADDITIVE),
        linearization: natural(t, slots::LINEARIZATION),
        used: natural(t, slots::POINTS_IN_USE) as usize,
    }
}

// The direction alone: 1 where the encoder counts the other way.
pub fn direction(t: &[i32; 104]) -> u32
    ensures { result ≡ (scaling_of t.now).direction }
{
    natural(t, slots::DIRECTION)
}

// The round loop alone, 0 off.
pub fn round_loop(t: &[i32; 104]) -> u32
    ensures { result ≡ (scaling_of t.now).round_loop }
{
    natural(t, slots::ROUND_LOOP)
}

// The words of the control points.
pub fn points(words: &[i32]) -> &[i32]
    requires { length words.now ≡ 104 }
    ensures { result.now ≡ points_of words.now }
{
    &words[slots::POINT_X..]
}

// The analog value's ends and format.
pub fn analog_span(t: &[i32; 104]) -> Span
    ensures { result ≡ span_of t.now }
{
    Span {
        format: natural(t, slots::ANALOG_FORMAT),
        start: word(t, slots::ANALOG_START),
        end: word(t, slots::ANALOG_END),
    }
}

// Preselection k + 1 with its settings.
fn preselection(t: &[i32; 104], k: usize) -> Preselection
    requires { k < 4 }
    ensures { result ≡ preselection_of t.now k }
{
    let at = slots::PRESELECTION_STRIDE * k;
    Preselection {
        value: word(t, slots::PRESELECTION + at),
        mode: natural(t, slots::MODE + at),
        hysteresis: natural(t, slots::HYSTERESIS + at),
        pulse: natural(t, slots::PULSE + at),
        target: natural(t, slots::TARGET + at),
        polarity: natural(t, slots::POLARITY + at),
        lock: natural(t, slots::LOCK + at),
        startup: natural(t, slots::STARTUP + at),
    }
}

// The four preselections.
pub fn preselections(t: &[i32; 104]) -> [Preselection; 4]
    ensures { result ≡ preselections_of t.now }
{
    [
        preselection(t, 0),
        preselection(t, 1),
        preselection(t, 2),
        preselection(t, 3),
    ]
}

// What the way of a telegram takes from a table, beside the control points.
#[derive(Clone, Copy)]
pub struct Settings {
    pub layout: Layout,
    pub scaling: Scaling,
    pub span: Span,
    pub preselections: [Preselection; 4],
}

// All of it, to be gathered once for many telegrams.
pub fn gathered(t: &[i32; 104]) -> Settings
    ensures { result ≡ settings_of t.now }
{
    Settings {
        layout: layout(t),
        scaling: scaling(t),
        span: analog_span(t),
        preselections: preselections(t),
    }
}

// The action of a number; what is no action does nothing.
// Kept: `From<u32>` is no plainer, since a number that is no action has one here too, which only a name and its comment tell.
fn action_of(n: u32) -> Action
    ensures { result ≡ action_of n }
{
    match n {
        1 => Action::Reset,
        2 => Action::Freeze,
        3 => Action::ClearLocks,
        4 => Action::ClearExtremes,
        5 => Action::Teach(0),
        6 => Action::Teach(1),
        7 => Action::Teach(2),
        8 => Action::Teach(3),
        _ => Action::None,
    }
}

// The config of a number; what is none stands for the last.
// Kept: as at `action_of`.
fn config_of(n: u32) -> Config
    ensures { result ≡ config_of n }
{
    match n {
        0 => Config::Low,
        1 => Config::High,
        2 => Config::Rising,
        _ => Config::Falling,
    }
}

// The action of input i + 1.
pub fn action_at(t: &[i32; 104], i: usize) -> Action
    requires { i < 3 }
    ensures { result ≡ (input_at t.now i).action }
{
    action_of(natural(t, slots::ACTION + slots::INPUT_STRIDE * i))
}

// The config of input i + 1.
pub fn config_at(t: &[i32; 104], i: usize) -> Config
    requires { i < 3 }
    ensures { result ≡ (input_at t.now i).config }
{
    config_of(natural(t, slots::CONFIG + slots::INPUT_STRIDE * i))
}

// Whether input i + 1 is set to the freeze, for every event to ask.
pub fn freezes_at(t: &[i32; 104], i: usize) -> bool
    requires { i < 3 }
    ensures { result ≡ is_freeze (input_at t.now i).action }
{
    matches!(action_at(t, i), Action::Freeze)
}
