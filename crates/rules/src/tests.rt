//! Composing and judging at their edges.
use crate::*;
use measure::{Cents, Price};

const PAIRS: [Literal; 5] = [
    Literal {
        decision: 0,
        value: 1,
    },
    Literal {
        decision: 1,
        value: 2,
    },
    Literal {
        decision: 2,
        value: 3,
    },
    Literal {
        decision: 3,
        value: 4,
    },
    Literal {
        decision: 4,
        value: 5,
    },
];

/// What composing a new rule of these parts answers.
fn composing(kind: Kind, pairs: &[Literal], price: Price) -> Result<(), Refusal> {
    Rule::new().compose(kind, pairs, 0, price)
}

#[test]
fn refusals_have_their_numbers(rt: HostRuntime) {
    assert_eq!(rt; Refusal::PairCount.number(), 3);
    assert_eq!(rt; Refusal::NotAscending.number(), 6);
    assert_eq!(rt; Refusal::CentsTooLarge.number(), 7);
}

#[test]
fn one_to_four_pairs_make_a_rule(rt: HostRuntime) {
    assert_eq!(rt;
        composing(Kind::Forbid, &PAIRS[0..0], Price::default()),
        Err(Refusal::PairCount)
    );
    assert_eq!(rt;
        composing(Kind::Forbid, &PAIRS[0..1], Price::default()),
        Ok(())
    );
    assert_eq!(rt;
        composing(Kind::Forbid, &PAIRS[0..4], Price::default()),
        Ok(())
    );
    assert_eq!(rt;
        composing(Kind::Forbid, &PAIRS[0..5], Price::default()),
        Err(Refusal::PairCount)
    );
}

#[test]
fn decisions_must_strictly_ascend(rt: HostRuntime) {
    let equal = [PAIRS[1], PAIRS[1]];
    let falling = [PAIRS[1], PAIRS[0]];
    assert_eq!(rt;
        composing(Kind::Forbid, &equal, Price::default()),
        Err(Refusal::NotAscending)
    );
    assert_eq!(rt;
        composing(Kind::Forbid, &falling, Price::default()),
        Err(Refusal::NotAscending)
    );
}

#[test]
fn a_price_rule_states_at_most_a_thousand_million_cents(rt: HostRuntime) {
    let most = Price {
        tier: 0,
        cents: 1_000_000_000,
    };
    let more = Price {
        tier: 0,
        cents: 1_000_000_001,
    };
    assert_eq!(rt; composing(Kind::Price, &PAIRS[0..1], most), Ok(()));
    assert_eq!(rt;
        composing(Kind::Price, &PAIRS[0..1], more),
        Err(Refusal::CentsTooLarge)
    );
    assert_eq!(rt; composing(Kind::Forbid, &PAIRS[0..1], more), Ok(()));
}

#[test]
fn a_refusal_leaves_the_old_rule(rt: HostRuntime) {
    let mut rule = Rule::new();
    assert!(rt;
        rule.compose(Kind::Activate, &PAIRS[1..3], 7, Price::default())
            .is_ok()
    );
    assert!(rt;
        rule.compose(Kind::Forbid, &PAIRS[0..0], 0, Price::default())
            .is_err()
    );
    let row = rule.row();
    assert_eq!(rt; row.kind, Kind::Activate);
    assert_eq!(rt; row.count, 2);
    assert_eq!(rt; row.target, 7);
    assert_eq!(rt; row.condition()[0].decision, 1);
}

#[test]
fn what_the_kind_lacks_is_zero(rt: HostRuntime) {
    let price = Price { tier: 2, cents: 5 };
    let mut rule = Rule::new();
    assert!(rt; rule.compose(Kind::Activate, &PAIRS[0..1], 7, price).is_ok());
    assert_eq!(rt; rule.row().target, 7);
    assert_eq!(rt; rule.row().price, Price { tier: 0, cents: 0 });
    assert!(rt; rule.compose(Kind::Price, &PAIRS[0..1], 7, price).is_ok());
    assert_eq!(rt; rule.row().target, 0);
    assert_eq!(rt; rule.row().price.tier, 2);
    let behind = Literal {
        decision: 0,
        value: 0,
    };
    assert_eq!(rt; rule.row().pairs, [PAIRS[0], behind, behind, behind]);
}

#[test]
fn defaults_are_blank(rt: HostRuntime) {
    let blank = Row {
        kind: Kind::Forbid,
        count: 0,
        pairs: [Literal {
            decision: 0,
            value: 0,
        }; 4],
        target: 0,
        price: Price { tier: 0, cents: 0 },
    };
    assert_eq!(rt; Row::default(), blank);
    assert_eq!(rt; Decision::default(), Decision { size: 0, on: false });
}

#[test]
fn a_pair_of_value_zero_holds_of_no_plan(rt: HostRuntime) {
    let idle = Literal {
        decision: 0,
        value: 0,
    };
    assert!(rt; !idle.held_by(&[0]));
    assert!(rt; !idle.held_by(&[]));
}

/// A row of one pair.
fn row(kind: Kind, decision: u8, value: u8, target: u8) -> Row {
    let mut row = Rule::new().row();
    row.kind = kind;
    row.pairs[0] = Literal { decision, value };
    row.target = target;
    row
}

/// What judging a plan over two decisions, the second off, answers: its cents, or the first law that it breaks.
fn judged(on: bool, rows: &[Row], plan: &[u8]) -> Result<Result<u64, Breach>, Refusal> {
    let decisions = [Decision { size: 2, on }, Decision { size: 2, on: false }];
    let verdict = judge::<Cents>(&decisions, rows, plan)?;
    Ok(verdict.map(|cost| cost.sum))
}

#[test]
fn choices_do_not_hold_each_other_up(rt: HostRuntime) {
    let rows = [row(Kind::Activate, 0, 1, 1), row(Kind::Activate, 1, 1, 0)];
    assert_eq!(rt;
        judged(false, &rows, &[1, 1]),
        Ok(Err(Breach::NotActive(0)))
    );
    assert_eq!(rt; judged(true, &rows, &[1, 1]), Ok(Ok(0)));
}

#[test]
fn the_first_fault_is_reported(rt: HostRuntime) {
    let rows = [
        row(Kind::Forbid, 0, 2, 0),
        row(Kind::Forbid, 0, 1, 0),
        row(Kind::Forbid, 0, 1, 0),
    ];
    assert_eq!(rt; judged(true, &rows, &[1, 0]), Ok(Err(Breach::Forbidden(1))));
    // what is not active is that, whatever its value is
    assert_eq!(rt; judged(true, &rows, &[1, 3]), Ok(Err(Breach::NotActive(1))));
    assert_eq!(rt;
        judged(true, &rows, &[3, 3]),
        Ok(Err(Breach::OutOfRange(0)))
    );
}
