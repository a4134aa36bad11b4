use ql_history::{Effect, Run};

/// Whether an effect of a run sees another, both counted from 1.
pub(crate) fn sees(run: &Run, effect: u32, other: u32) -> bool {
    match numbered(run, effect) {
        Some(effect) => effect.seen.has(other),
        None => false,
    }
}

/// Whether an effect sees some effect that sees another.
pub(crate) fn is_implied(run: &Run, effect: u32, other: u32) -> bool {
    match numbered(run, effect) {
        Some(effect) => one_sees(run, effect.seen.items(), other),
        None => false,
    }
}

// Whether one of these effects sees another.
fn one_sees(run: &Run, effects: &[u32], other: u32) -> bool {
    for effect in effects {
        if *effect > other && sees(run, *effect, other) {
            return true;
        }
    }
    false
}

fn numbered(run: &Run, effect: u32) -> Option<&Effect> {
    if effect == 0 {
        return None;
    }
    run.effects.get(effect as usize - 1)
}
