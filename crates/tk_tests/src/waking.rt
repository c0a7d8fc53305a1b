//! The queue of cities that are awake.
ghost use Rattle.std.specs.Prelude.{◌≡◌};

use crate::given::expect;
use tk_descent::Waking;

/// Takes four cities, as far as there are any.
fn take_four(waking: &mut Waking) -> [Option<u32>; 4]
    ensures { waking.new.size ≡ waking.old.size }
{
    [waking.take(), waking.take(), waking.take(), waking.take()]
}

#[test]
fn wakes_in_order(rt: HostRuntime) {
    let mut waking = Waking::new(rt.alloc(), 3).expect(&rt, "memory for the cities awake");
    waking.wake_all();
    waking.wake(2);
    expect(
        &rt,
        take_four(&mut waking) == [Some(1), Some(2), Some(3), None],
    );
    waking.wake_each(&[3, 1, 3]);
    expect(
        &rt,
        take_four(&mut waking) == [Some(3), Some(1), None, None],
    );
}
