// Splits into lent places.
use split::{Reason, Refusal, Stake, explain, split};

const HEAVY: Stake = Stake {
    code: 12,
    weight: 6,
};

const LIGHT: Stake = Stake {
    code: 11,
    weight: 2,
};

// Both leave the same remainder, so the odd dollar goes to the lower code, though it stands second.
#[test]
fn spare_places_stay(rt: HostRuntime) {
    let mut shares = [7; 4];
    assert_eq!(rt; split(10, &[HEAVY, LIGHT], &mut shares), Ok(()));
    assert_eq!(rt; shares, [7, 3, 7, 7]);
}

#[test]
fn too_few_places_are_refused_and_left(rt: HostRuntime) {
    let mut shares = [7; 1];
    assert_eq!(rt;
        split(10, &[HEAVY, LIGHT], &mut shares),
        Err(Refusal::Limit)
    );
    assert_eq!(rt; shares, [7]);
}

// The console prints shares out of reasons, so this is where both are seen beside each other.
#[test]
fn shares_are_those_that_the_reasons_end_in(rt: HostRuntime) {
    let mut shares = [0; 2];
    let mut reasons = [Reason::BLANK; 2];
    assert_eq!(rt; split(10, &[HEAVY, LIGHT], &mut shares), Ok(()));
    assert_eq!(rt; explain(10, &[HEAVY, LIGHT], &mut reasons), Ok(()));
    assert_eq!(rt; shares, reasons.map(|reason| reason.share));
}
