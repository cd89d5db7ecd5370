//! Counts by Weyl's dimension formula, and a list of arrows by hand. More of them stand as rows under tests/.
use crystal_cartan::{Arrow, Cartan, Kind};
use crystal_match::{MatchFault, Relabel, Verdict, compare};
use std::alloc::Global;
use tensor_words::{Factor, Space};

const V: Factor = Factor::Vector;

/// What a comparison answers, in short: how many pairs, or the last arrow of a walk and how many there are.
#[derive(Clone, Copy, Debug, PartialEq, Eq)]
enum Short {
    Same(usize),
    Differs(usize, Arrow),
    Fault(MatchFault),
}

fn made(kind: Kind, rank: u8, factors: &[Factor]) -> Option<Space> {
    Space::new(Cartan::new(kind, rank).ok()?, factors).ok()
}

fn shortened(verdict: &Verdict) -> Option<Short> {
    match verdict {
        Verdict::Same { pairs } => Some(Short::Same(pairs.len())),
        Verdict::Differs { walk } => {
            let count = walk.len();
            if count == 0 {
                return None;
            }
            Some(Short::Differs(count, *walk.at(count - 1)))
        }
    }
}

fn answer(
    alloc: Global,
    space: &Space,
    marks: (u64, u64),
    star: bool,
    limit: u32,
) -> Option<Short> {
    if marks.0 >= space.size() || marks.1 >= space.size() {
        return None;
    }
    let relabel = if star {
        Relabel::star(space.cartan())
    } else {
        Relabel::same(space.cartan())
    };
    match compare(alloc, space, marks.0, marks.1, &relabel, limit) {
        Ok(verdict) => shortened(&verdict),
        Err(fault) => Some(Short::Fault(fault)),
    }
}

fn lowering(index: u8) -> Arrow {
    Arrow { down: true, index }
}

#[test]
fn words_of_two_types(rt: HostRuntime) {
    let a2 = made(Kind::A, 2, &[V, V, V]).expect(&rt, "A_2 has vectors");
    let same = answer(rt.alloc(), &a2, (9, 3), false, 8);
    let star = answer(rt.alloc(), &a2, (9, 23), true, 8);
    let seven = answer(rt.alloc(), &a2, (9, 23), true, 7);
    let none = answer(rt.alloc(), &a2, (9, 3), false, 0);
    let all = Some(Short::Same(8));
    let many = Some(Short::Fault(MatchFault::TooMany));
    assert_eq!(rt; [same, star, seven, none], [all, all, many, many]);
    let a1 = made(Kind::A, 1, &[V, V]).expect(&rt, "A_1 has vectors");
    let differs = answer(rt.alloc(), &a1, (0, 2), false, 1);
    assert_eq!(rt; differs, Some(Short::Differs(1, lowering(1))));
}
