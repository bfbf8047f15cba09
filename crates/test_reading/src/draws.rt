//! The words of lots, and by how much a proposal may raise the cost.
ghost use Rattle.std.specs.Prelude.{◌≡◌};
ghost use Rattle.ra_draws.specs.Lots.{IsFitting};

use super::found::same;
use ra_base::{Drawing, NoMemory};
use ra_draws::{Draws, Lot, Lots, Source, allow};
use std::alloc::Global;
use std::process::Abort;
use test_samples::written;

/// A lot of a seed.
fn seeded(seed: u64, budget: u64) -> Lot
    ensures fitting { IsFitting result }
    ensures budget { result.budget ≡ budget }
{
    Lot {
        source: Source::Seed(seed),
        budget,
    }
}

/// Demands these words for the two proposals of a lot.
fn demand_words(rt: &impl Abort, lot: &Lot, first: &[u64; 8], second: &[u64; 8])
    requires fitting { IsFitting lot.now }
    requires budget { lot.now.budget ≡ 2 }
{
    let mut draws = Draws::make(lot);
    same(rt, draws.words_for_next(), *first);
    same(rt, draws.words_for_next(), *second);
}

/// Seeds with the words of the first two proposals. The values come from xoshiro256++ with its state filled by
/// splitmix64, rewritten in Python from the reference code in C.
const SEEDED: &[(u64, [u64; 8], [u64; 8])] = &[
    (
        0,
        [
            0x53175d61490b23df,
            0x61da6f3dc380d507,
            0x5c0fdf91ec9a7bfc,
            0x02eebf8c3bbe5e1a,
            0x7eca04ebaf4a5eea,
            0x0543c37757f08d9a,
            0xdb7490c75ab5026e,
            0xd87343e6464bc959,
        ],
        [
            0x4b7da0a02389f0ff,
            0x1300fc58c0424c16,
            0x5084843206c19968,
            0x10ea073de9aa4dfc,
            0x1aae554343960cc1,
            0x1804139f10fae720,
            0x10d790e7b8ac10fa,
            0x667d2bffdd1496f7,
        ],
    ),
    (
        1,
        [
            0xcfc5d07f6f03c29b,
            0xbf424132963fe08d,
            0x19a37d5757aaf520,
            0xbf08119f05cd56d6,
            0x2f47184b86186fa4,
            0x97299fcae7202345,
            0xfca3c79508f41507,
            0x85fea5c90363f221,
        ],
        [
            0x18bae5b30d334bd0,
            0x226113c9f026ec16,
            0xeb9e0ef9dccfe649,
            0x57efaedd9f6cffb3,
            0x128ae2d5697640d6,
            0x65033a4eee505049,
            0x16e9453ed54a88ba,
            0x28065aa8f428a8bb,
        ],
    ),
    (
        7,
        [
            0x0e2c1a002aae913d,
            0x2c0fc8ddfa4e9e14,
            0xb7b311b3b0d45872,
            0x6d5d9f6a6318013c,
            0xf6b263f2f5790376,
            0x77385b627c22c489,
            0xb951f9b3621ea380,
            0x54705b5adc01e528,
        ],
        [
            0xfb797f4d139c03dd,
            0x12c2b9fdd9c111ed,
            0x1d3ee9ebb9571239,
            0x2c061aa41969ae7e,
            0xbbdbdf062e10c409,
            0x1cf3305d746a1ca7,
            0x7ea068f1c1c8824f,
            0x18e718927f54e75b,
        ],
    ),
    (
        u64::MAX,
        [
            0x56ccf8ce948e27b2,
            0xe68588432e5a5b90,
            0xe3e9b5a48119ca8b,
            0x460f19495532ae73,
            0xa7d62040ea9263e1,
            0x66f1fb2ac9402c14,
            0xe243b47de8a73f68,
            0x7c93fdab4c7b3dff,
        ],
        [
            0xa285b65e80080825,
            0xdaa2984842f0ced7,
            0x578ae4525854cedf,
            0xa4c8e50e9dcc99d4,
            0xec90040814db4071,
            0x0f07e2e73e5b4591,
            0x445d4b54e963d2dd,
            0x53b23301313ec105,
        ],
    ),
];

#[test]
fn a_seed_gives_the_words_of_xoshiro256_plus_plus(rt: HostRuntime) {
    for row in SEEDED {
        let lot = seeded(row.0, 2);
        demand_words(&rt, &lot, &row.1, &row.2);
        drop(lot);
    }
}

#[test]
fn a_written_lot_gives_its_words_eight_at_a_time(rt: HostRuntime) {
    let words = [9, 8, 7, 6, 5, 4, 3, 2, 10, 11, 12, 13, 14, 15, 16, 17];
    let lot = written(rt.alloc(), &words, 2).expect(&rt, "no memory");
    demand_words(
        &rt,
        &lot,
        &[9, 8, 7, 6, 5, 4, 3, 2],
        &[10, 11, 12, 13, 14, 15, 16, 17],
    );
    drop(lot);
}

/// Slack, budget and number of a proposal, with the rise of cost that it may bring.
const ALLOWED: &[(u64, u64, u64, u64)] = &[
    (2070, 3, 0, 1380),
    (2070, 3, 1, 690),
    (2070, 3, 2, 0),
    (2069, 3, 0, 1379),
    (2069, 3, 1, 689),
    (u64::MAX, 1_000_000, 0, 18_446_725_626_965_477_905),
    (u64::MAX, 1_000_000, 999_998, 18_446_744_073_709),
    (5, 1, 0, 0),
];

#[test]
fn the_allowance_falls_to_nothing_and_is_rounded_down(rt: HostRuntime) {
    for (slack, budget, k, want) in ALLOWED {
        assert!(rt; *k < *budget);
        let allowed = allow(*slack, *budget, *k);
        same(&rt, allowed, *want);
    }
}

/// Lots of two seeds, with three proposals and with none.
fn two_lots(alloc: Global) -> Result<Lots, NoMemory> {
    let mut list = Vec::new(alloc);
    list.push(seeded(7, 3))?;
    list.push(seeded(1, 0))?;
    Ok(Lots::of(2070, Drawing::Two, list))
}

/// Demands those lots in their order.
fn demand_order(rt: &impl Abort, lots: &Lots) {
    same(rt, lots.slack(), 2070);
    same(rt, lots.drawing(), Drawing::Two);
    assert!(rt; lots.len() == 2);
    same(rt, lots.lot(0).budget, 3);
    same(rt, lots.lot(1).budget, 0);
}

#[test]
fn lots_keep_slack_drawing_and_order(rt: HostRuntime) {
    let lots = two_lots(rt.alloc()).expect(&rt, "no memory");
    demand_order(&rt, &lots);
    drop(lots);
}
