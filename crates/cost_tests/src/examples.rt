//! Examples of costs.
use costs::{Cost, Length, Lengths, PolesFirst};

#[test]
fn poles_decide_first(rt: HostRuntime) {
    let buried = PolesFirst::of_link(Lengths {
        metres: 900,
        poles: 10,
    });
    let carried = PolesFirst::of_link(Lengths {
        metres: 300,
        poles: 11,
    });
    let shorter = PolesFirst::of_link(Lengths {
        metres: 899,
        poles: 10,
    });
    assert!(rt; buried.less(carried));
    assert!(rt; !carried.less(buried));
    assert!(rt; shorter.less(buried));
    assert_eq!(rt; carried.poles(), 11);
    assert_eq!(rt; carried.metres(), 300);
}

#[test]
fn sums_stop_at_the_limit(rt: HostRuntime) {
    let link = Length::of_link(Lengths {
        metres: 1 << 31,
        poles: 0,
    });
    let mut half = link;
    for _ in 0..8 {
        half = half.sum(half);
    }
    assert_eq!(rt; half.metres(), 1 << 39);
    assert_eq!(rt; half.sum(half).metres(), 1 << 40);
    let one = Length::of_link(Lengths {
        metres: 1,
        poles: 0,
    });
    assert_eq!(rt; half.sum(half).sum(one).metres(), 0);
}

#[test]
fn a_sum_is_negated_by_parts(rt: HostRuntime) {
    let link = PolesFirst::of_link(Lengths {
        metres: 40,
        poles: 7,
    });
    let back = link.sum(link).negation();
    assert_eq!(rt; back.poles(), -14);
    assert_eq!(rt; back.metres(), -80);
    assert!(rt; back.less(PolesFirst::zero()));
    assert_eq!(rt; back.sum(link).sum(link).metres(), 0);
}
