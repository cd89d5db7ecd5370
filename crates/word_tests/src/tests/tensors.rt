//! Codes, weights, faults and roots of small spaces.
use super::spaces::made;
use crystal_cartan::{Arrow, Cartan, Kind};
use std::alloc::{AllocError, Global};
use tensor_words::{Codes, Factor, Space, SpaceFault, World, WorldFault, next_code};

const V: Factor = Factor::Vector;

fn refused(kind: Kind, rank: u8, factors: &[Factor]) -> Option<SpaceFault> {
    Space::new(Cartan::new(kind, rank).ok()?, factors).err()
}

/// Whether the word with this code has these digits, and the reverse.
fn has_digits(space: &Space, code: u64, digits: &[u16]) -> Option<bool> {
    let word = space.word_of(code)?;
    let mut same = word.count() as usize == digits.len();
    for place in 0..word.count() {
        same = same && digits.get(place as usize).copied() == Some(word.digit(place));
    }
    Some(same && space.code_of(&word) == code)
}

#[test]
fn codes(rt: HostRuntime) {
    let table: [(Kind, u8, &[Factor], u64, &[u16], Option<bool>); 10] = [
        (Kind::A, 2, &[V, V, V], 9, &[1, 0, 0], Some(true)),
        (Kind::A, 2, &[V, V, V], 23, &[2, 1, 2], Some(true)),
        (Kind::A, 2, &[V, V, V], 26, &[2, 2, 2], Some(true)),
        (Kind::A, 2, &[V, V, V], 27, &[], None),
        (Kind::C, 2, &[V, V], 9, &[2, 1], Some(true)),
        (Kind::C, 2, &[V, V], 14, &[3, 2], Some(true)),
        (Kind::B, 2, &[Factor::Spin, V], 7, &[1, 2], Some(true)),
        (Kind::D, 3, &[Factor::SpinPlus], 1, &[1], Some(true)),
        (Kind::A, 1, &[V, V], 3, &[1, 1], Some(true)),
        (Kind::A, 1, &[V, V], 4, &[], None),
    ];
    for (kind, rank, factors, code, digits, answer) in table {
        let space = made(kind, rank, factors).expect(&rt, "the type has these factors");
        assert_eq!(rt; has_digits(&space, code, digits), answer, "{code}");
    }
}

/// The codes of f_i and e_i of the word with this code, and its phi_i and eps_i.
pub(super) fn strings(
    space: &Space,
    code: u64,
    i: u8,
) -> Option<(Option<u64>, Option<u64>, u32, u32)> {
    if !space.cartan().has_index(i) {
        return None;
    }
    let word = space.word_of(code)?;
    let down = next_code(
        space,
        code,
        Arrow {
            down: true,
            index: i,
        },
    );
    let up = next_code(
        space,
        code,
        Arrow {
            down: false,
            index: i,
        },
    );
    Some((
        down,
        up,
        space.by_rule_phi(&word, i),
        space.by_rule_eps(&word, i),
    ))
}

/// The first two coordinates of the weight of the word with this code.
fn weight_of(space: &Space, code: u64) -> Option<(i32, i32)> {
    let word = space.word_of(code)?;
    let weight = space.weight(&word);
    if weight.coordinates() < 2 {
        return None;
    }
    Some((weight.doubled_at(1), weight.doubled_at(2)))
}

#[test]
fn weights(rt: HostRuntime) {
    let c2 = made(Kind::C, 2, &[V, V, V]).expect(&rt, "C_2 has vectors");
    assert_eq!(rt; weight_of(&c2, 33), Some((2, 0)));
    let b2 = made(Kind::B, 2, &[Factor::Spin, V]).expect(&rt, "B_2 has spin elements");
    assert_eq!(rt; weight_of(&b2, 7), Some((1, -1)));
}

#[test]
fn faults_of_spaces(rt: HostRuntime) {
    assert_eq!(rt; refused(Kind::A, 1, &[]), Some(SpaceFault::NoFactor));
    assert_eq!(rt;
        refused(Kind::A, 1, &[V; 41]),
        Some(SpaceFault::TooManyFactors)
    );
    assert_eq!(rt;
        refused(Kind::C, 2, &[V, Factor::Spin]),
        Some(SpaceFault::WrongFactor { place: 2 })
    );
    assert_eq!(rt; refused(Kind::C, 4, &[V; 22]), Some(SpaceFault::TooWide));
    assert_eq!(rt;
        made(Kind::C, 4, &[V; 21]).map(|space| space.size()),
        Some(1 << 63)
    );
}

/// The fault of a world in A_1 with two vectors.
fn world_fault(
    alloc: Global,
    cells: u32,
    roots: [u64; 2],
) -> Result<Option<WorldFault>, AllocError> {
    let roots = Codes::of(Vec::from_array(alloc, roots)?);
    Ok(match made(Kind::A, 1, &[V, V]) {
        Some(space) => World::new(space, cells, roots).err(),
        None => None,
    })
}

#[test]
fn faults_of_worlds(rt: HostRuntime) -> Result<(), AllocError> {
    for (cells, roots, fault) in [
        (0, [4, 4], Some(WorldFault::CellsRange)),
        (1_048_577, [0, 1], Some(WorldFault::CellsRange)),
        (1, [3, 4], Some(WorldFault::NotAWord { place: 2 })),
        (1, [4, 3], Some(WorldFault::NotAWord { place: 1 })),
        (1, [3, 3], Some(WorldFault::NotAscending { place: 2 })),
        (1_048_576, [0, 3], None),
    ] {
        assert_eq!(rt; world_fault(rt.alloc(), cells, roots)?, fault);
    }
    Ok(())
}

#[test]
fn roots_of_a_world(rt: HostRuntime) -> Result<(), AllocError> {
    let space = made(Kind::A, 1, &[V, V]).expect(&rt, "A_1 has vectors");
    let none = World::new(space, 1, Codes::of(Vec::new(rt.alloc())));
    assert_eq!(rt; none.err(), Some(WorldFault::NoRoot));
    let nothing = World::new(space, 0, Codes::of(Vec::new(rt.alloc())));
    assert_eq!(rt; nothing.err(), Some(WorldFault::CellsRange));
    let roots = Codes::of(vec![in rt.alloc(); 1, 3]?);
    let world = World::new(space, 7, roots).expect(&rt, "the roots are words");
    assert!(rt; world.has_root(1) && world.has_root(3) && !world.has_root(2));
    assert_eq!(rt;
        (world.cells(), world.space().size(), world.roots().len()),
        (7, 4, 2)
    );
    Ok(())
}
