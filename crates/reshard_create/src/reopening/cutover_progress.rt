//! How far a cutover is, by the modes of its shards.
ghost use Rattle.std.specs.Prelude.{◌≡◌, ◌⊎◌, ◌≤◌, ℕ, true, false, length, drop, MatchOption};
ghost use Rattle.reshard_create.specs.reopening.Rebuilt.{IsCutoverProgress};
ghost use Rattle.reshard_create.specs.reopening.inner.Leading.{IsLed};

use shard_run::Mode;

/// So many of the first sources are frozen or retired, so many retired, and so many of the first targets serve.
#[derive(Clone, Copy)]
pub struct CutoverProgress {
    pub frozen: usize,
    pub retired: usize,
    pub served: usize,
}

// How many of the first have this mode.
fn leading(modes: &[Mode], mode: Mode) -> usize
    ensures led { IsLed modes.now mode result (drop result modes.now) }
    ensures few { result ≤ length modes.now }
{
    for place in 0..modes.len() {
        if modes[place] != mode {
            return place;
        }
    }
    modes.len()
}

// Those after the first `n`.
fn modes_after(modes: &[Mode], n: usize) -> &[Mode]
    requires { n ≤ length modes.now }
    ensures { result.now ≡ drop n modes.now }
{
    &modes[n..]
}

fn is_one_none(a: usize, b: usize) -> bool
    ensures yes { result ≡ true → (a ≡ 0) ⊎ (b ≡ 0) }
    ensures no { result ≡ false → (a ≡ 0 → ⊥) × (b ≡ 0 → ⊥) }
{
    a == 0 || b == 0
}

/// How far a cutover is whose sources and targets have these modes, if they are those of one.
pub(crate) fn progress_of(sources: &[Mode], targets: &[Mode]) -> Option<CutoverProgress>
    ensures { MatchOption result ((frozen retired served : ℕ) → IsCutoverProgress sources.now targets.now frozen retired served → ⊥)
        (λ c. IsCutoverProgress sources.now targets.now c.frozen c.retired c.served) }
{
    let retired = leading(sources, Mode::Retired);
    let unretired = modes_after(sources, retired);
    let held = leading(unretired, Mode::Frozen);
    let unfrozen = modes_after(unretired, held);
    let serving = leading(unfrozen, Mode::Serving);
    let served = leading(targets, Mode::Serving);
    let unserved = modes_after(targets, served);
    let following = leading(unserved, Mode::Following);
    if serving != unfrozen.len() {
        return None;
    }
    if following != unserved.len() {
        return None;
    }
    if !is_one_none(retired, serving) {
        return None;
    }
    if !is_one_none(served, unretired.len()) {
        return None;
    }
    let frozen = sources.len() - serving;
    Some(CutoverProgress {
        frozen,
        retired,
        served,
    })
}
