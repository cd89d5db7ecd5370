//! Worked values, from the tables of roots.
use crystal_cartan::{Cartan, Kind, Weight};

/// The two coordinates of a weight.
fn pair(weight: &Weight) -> Option<(i32, i32)> {
    if weight.coordinates() == 2 {
        Some((weight.doubled_at(1), weight.doubled_at(2)))
    } else {
        None
    }
}

#[test]
fn ranks(rt: HostRuntime) {
    for (kind, least) in [(Kind::A, 1), (Kind::B, 2), (Kind::C, 2), (Kind::D, 3)] {
        for rank in 0..=u8::MAX {
            let taken = least <= rank && rank <= 8;
            assert_eq!(rt; Cartan::new(kind, rank).is_ok(), taken, "rank {rank}");
        }
    }
}

#[test]
fn weights_of_rank_two(rt: HostRuntime) {
    let c2 = Cartan::new(Kind::C, 2).expect(&rt, "C_2 is a type");
    assert_eq!(rt; (c2.kind(), c2.rank(), c2.size()), (Kind::C, 2, 2));
    assert!(rt; c2.has_index(2) && !c2.has_index(3));
    let short = c2.root(1);
    let long = c2.root(2);
    let pairs = [
        pair(&short),
        pair(&c2.reflect(&short, 1)),
        pair(&c2.reflect(&short, 2)),
        pair(&short.plus(&long)),
        pair(&short.minus(&long)),
        pair(&Weight::zero(c2).put(2, 5)),
    ];
    assert_eq!(rt;
        pairs,
        [
            Some((2, -2)),
            Some((-2, 2)),
            Some((2, 2)),
            Some((2, 2)),
            Some((2, -6)),
            Some((0, 5))
        ]
    );
    assert!(rt; !c2.is_dominant(&long) && c2.is_dominant(&Weight::zero(c2)));
}

#[test]
fn pairing_of_a_root(rt: HostRuntime) {
    let a1 = Cartan::new(Kind::A, 1).expect(&rt, "A_1 is a type");
    let root = a1.root(1);
    assert!(rt; a1.is_dominant(&root));
    assert_eq!(rt; a1.pairing(&root, 1), 2);
}
