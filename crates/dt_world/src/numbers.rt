ghost use Rattle.std.specs.Prelude.{◌≡◌};
ghost use Rattle.dt_world.specs.Causes.{counted};
ghost use Rattle.dt_world.specs.Memory.{fails};

/// Whether the call after the first `calls` calls is one of those that fail. Calls are numbered
/// from 1, and one past the number 2^64 - 1 does not fail.
pub fn is_failing(failing: &[u64], calls: u64) -> bool
    ensures { result ≡ fails failing.now calls }
{
    calls < u64::MAX && failing.contains(&(calls + 1))
}

/// The count after one more event.
pub fn raised(count: u64) -> u64
    ensures { result ≡ counted count }
{
    count.saturating_add(1)
}
