use supplied::kinds::count::Counter;
use supplied::kinds::gate::Gate;
use supplied::kinds::scale::Scale;
use supplied::kinds::sort::Sort;
use supplied::kinds::toggle::Toggle;

// Inlets 0 and 1, and what all four outlets give then.
type Step = (Option<i32>, Option<i32>, Option<i32>);

// Inlets 2 and 3 are there, and no kind looks at them.
fn inlets(first: Option<i32>, second: Option<i32>) -> [Option<i32>; 4] {
    [first, second, Some(7), Some(7)]
}

const COUNTED: [Step; 7] = [
    (Some(-5), None, Some(1)),
    (Some(0), None, Some(2)),
    (None, None, None),
    (Some(9), None, Some(3)),
    (None, Some(9), Some(0)),
    (Some(9), None, Some(1)),
    (Some(9), Some(0), Some(0)),
];

#[test]
fn counts_up_and_resets(rt: HostRuntime) {
    let mut counter = Counter::new(0);
    for (first, second, given) in COUNTED {
        assert_eq!(rt; counter.react(inlets(first, second)), [given; 4]);
    }
}

#[test]
fn counts_no_further_than_the_greatest_number(rt: HostRuntime) {
    let mut counter = Counter::new(i32::MAX - 1);
    assert_eq!(rt; counter.react(inlets(Some(1), None)), [Some(i32::MAX); 4]);
    assert_eq!(rt; counter.react(inlets(Some(1), None)), [Some(i32::MAX); 4]);
    assert_eq!(rt; counter.react(inlets(Some(1), Some(1))), [Some(0); 4]);
}

const GATED: [Step; 11] = [
    (Some(4), None, None),
    // opened and passed in one instant
    (Some(4), Some(-1), Some(4)),
    (Some(0), None, Some(0)),
    (None, Some(1), None),
    (None, None, None),
    (Some(6), None, Some(6)),
    // shut in one instant
    (Some(6), Some(0), None),
    (Some(6), None, None),
    (None, Some(0), None),
    (None, Some(i32::MIN), None),
    (Some(i32::MIN), None, Some(i32::MIN)),
];

#[test]
fn gate_moves_before_it_passes(rt: HostRuntime) {
    let mut gate = Gate::Shut;
    for (first, second, given) in GATED {
        assert_eq!(rt; gate.react(inlets(first, second)), [given; 4]);
    }
}

const TOGGLED: [Step; 5] = [
    (Some(0), None, Some(1)),
    (None, Some(1), None),
    (Some(8), Some(8), Some(0)),
    (None, None, None),
    (Some(0), None, Some(1)),
];

#[test]
fn toggle_flips_at_any_value(rt: HostRuntime) {
    let mut toggle = Toggle::Off;
    for (first, second, given) in TOGGLED {
        assert_eq!(rt; toggle.react(inlets(first, second)), [given; 4]);
    }
}

// A parameter, a value, and the value scaled.
const SCALED: [(i32, i32, i32); 20] = [
    (1000, i32::MAX, i32::MAX),
    (1000, i32::MIN, i32::MIN),
    (999, i32::MAX, 2_145_336_163),
    (999, i32::MIN, -2_145_336_164),
    (-1, i32::MAX, -2_147_483),
    (-1, i32::MIN, 2_147_483),
    (-1000, i32::MAX, -i32::MAX),
    (-1000, i32::MIN, i32::MAX),
    (1001, i32::MAX, i32::MAX),
    (1001, i32::MIN, i32::MIN),
    (i32::MAX, i32::MAX, i32::MAX),
    (i32::MAX, i32::MIN, i32::MIN),
    (i32::MIN, i32::MAX, i32::MIN),
    (i32::MIN, i32::MIN, i32::MAX),
    (i32::MIN, 0, 0),
    (0, i32::MIN, 0),
    (1, 999, 0),
    (1, -999, 0),
    (1, 1999, 1),
    (1, -1999, -1),
];

#[test]
fn scale_rounds_towards_zero_and_holds(rt: HostRuntime) {
    for (parameter, value, scaled) in SCALED {
        assert_eq!(rt;
            Scale::new(parameter).react(inlets(Some(value), None)),
            [Some(scaled); 4]
        );
    }
    assert_eq!(rt; Scale::new(1000).react(inlets(None, Some(1))), [None; 4]);
}

// A parameter, a value, and what goes to outlets 0 and 1.
const SORTED: [(i32, i32, Option<i32>, Option<i32>); 7] = [
    (5, 4, Some(4), None),
    (5, 5, None, Some(5)),
    (5, 6, None, Some(6)),
    (-5, -6, Some(-6), None),
    (-5, -5, None, Some(-5)),
    (i32::MIN, i32::MIN, None, Some(i32::MIN)),
    (i32::MAX, i32::MIN, Some(i32::MIN), None),
];

#[test]
fn sort_goes_by_the_parameter(rt: HostRuntime) {
    for (parameter, value, low, high) in SORTED {
        assert_eq!(rt;
            Sort::new(parameter).react(inlets(Some(value), None)),
            [low, high, None, None]
        );
    }
    assert_eq!(rt; Sort::new(5).react(inlets(None, Some(1))), [None; 4]);
}
