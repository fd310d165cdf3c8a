use banks::bank::Bank;
use banks::pair::Pair;
use banks::silent::Silent;
use example_bank::Totals;
use line::parts::{Actor, Kind};
use std::process::Abort;
use supplied::bank::Supplied;

fn actor(kind: Kind, parameter: i32) -> Actor {
    Actor {
        kind,
        parameter,
        delay: 0,
    }
}

// Lets actors fire in turn, each with the value 1 at inlet 0, and looks at their outlets 0 and 1.
fn fires<B: Bank>(rt: &impl Abort, bank: &mut B, steps: &[(u64, Option<i32>, Option<i32>)]) {
    for (actor, first, second) in steps {
        let outlets = bank.react(*actor, 5, [Some(1), None, None, None]);
        assert_eq!(rt; [outlets[0], outlets[1]], [*first, *second]);
    }
}

#[test]
fn each_actor_has_its_kind(rt: HostRuntime) {
    let mut bank = Supplied::new(&[
        actor(Kind::Pass, 0),
        actor(Kind::Count, 0),
        actor(Kind::Gate, 0),
        actor(Kind::Toggle, 0),
        actor(Kind::Scale, -3000),
        actor(Kind::Sort, 1),
        actor(Kind::Sort, 2),
        actor(Kind::Other, 1),
    ]);
    let steps = [
        (0, Some(1), Some(1)),
        (1, Some(1), Some(1)),
        (2, None, None),
        (3, Some(1), Some(1)),
        (4, Some(-3), Some(-3)),
        (5, None, Some(1)),
        (6, Some(1), None),
        (7, None, None),
        (1, Some(2), Some(2)),
        (3, Some(0), Some(0)),
    ];
    fires(&rt, &mut bank, &steps);
}

#[test]
fn numbers_beyond_the_project_are_silent(rt: HostRuntime) {
    let mut bank = Supplied::new(&[actor(Kind::Count, 0)]);
    for number in [1, 31, 32, 255, u64::MAX] {
        fires(&rt, &mut bank, &[(number, None, None)]);
    }
    fires(&rt, &mut bank, &[(0, Some(1), Some(1))]);
}

#[test]
fn the_first_32_actors_count(rt: HostRuntime) {
    let mut bank = Supplied::new(&[actor(Kind::Pass, 0); 33]);
    fires(&rt, &mut bank, &[(31, Some(1), Some(1)), (32, None, None)]);
}

#[test]
fn silent_actors_say_nothing(rt: HostRuntime) {
    fires(&rt, &mut Silent, &[(0, None, None), (u64::MAX, None, None)]);
}

#[test]
fn totals_stay_within_32_bits(rt: HostRuntime) {
    let mut bank = Totals::new();
    fires(
        &rt,
        &mut bank,
        &[
            (7, Some(1), None),
            (7, Some(2), None),
            (0, Some(1), None),
            (8, None, None),
        ],
    );
    assert_eq!(rt; bank.react(7, 0, [Some(i32::MAX); 4])[0], Some(i32::MAX));
    assert_eq!(rt; bank.react(7, 0, [None, Some(1), None, None]), [None; 4]);
}

#[test]
fn halves_of_a_pair_do_not_touch_each_other(rt: HostRuntime) {
    let counters = [actor(Kind::Count, 0); 2];
    let mut pair = Pair::new(2, Supplied::new(&counters), Supplied::new(&counters));
    let steps = [
        (0, Some(1), Some(1)),
        (2, Some(1), Some(1)),
        (0, Some(2), Some(2)),
        (1, Some(1), Some(1)),
        (3, Some(1), Some(1)),
        (2, Some(2), Some(2)),
        (4, None, None),
    ];
    fires(&rt, &mut pair, &steps);
    let (mut first, mut second) = pair.into_parts();
    fires(
        &rt,
        &mut first,
        &[(0, Some(3), Some(3)), (1, Some(2), Some(2))],
    );
    fires(
        &rt,
        &mut second,
        &[(0, Some(3), Some(3)), (1, Some(2), Some(2))],
    );
}

#[test]
fn the_split_may_be_at_either_end(rt: HostRuntime) {
    let actors = [actor(Kind::Pass, 0)];
    let mut all_second = Pair::new(0, Silent, Supplied::new(&actors));
    fires(
        &rt,
        &mut all_second,
        &[(0, Some(1), Some(1)), (1, None, None)],
    );
    let mut all_first = Pair::new(u64::MAX, Silent, Supplied::new(&actors));
    fires(
        &rt,
        &mut all_first,
        &[(0, None, None), (u64::MAX, Some(1), Some(1))],
    );
}

#[test]
fn pairs_nest(rt: HostRuntime) {
    let low = Pair::new(1, Totals::new(), Supplied::new(&[actor(Kind::Toggle, 0)]));
    let high = Pair::new(1, Supplied::new(&[actor(Kind::Count, 0)]), Silent);
    let mut both = Pair::new(3, low, high);
    let steps = [
        (0, Some(1), None),
        (1, Some(1), Some(1)),
        (2, None, None),
        (3, Some(1), Some(1)),
        (4, None, None),
        (0, Some(2), None),
        (1, Some(0), Some(0)),
        (3, Some(2), Some(2)),
    ];
    fires(&rt, &mut both, &steps);
}
