//! Characters, reflections and reports of small components, counted by hand from the weights of the representations and
//! their restrictions to the sl_2 of each simple root. More of them stand as rows under tests/.
ghost use Rattle.std.specs.Prelude.{◌<◌, length};
ghost use Rattle.crystal_cartan.specs.Types.{HasIndex};

use crate::tests::components::{V, component};
use canonical_graph::Finished;
use crystal_cartan::Kind;
use crystal_characters::*;
use std::alloc::{AllocError, Global};
use std::test::Fail;

/// The component of the shape 2 1 in type A_2: the word 2 1 1.
fn adjoint_of_a2(alloc: Global) -> Option<Finished> {
    component(alloc, Kind::A, 2, &[V, V, V], 9)
}

/// The three coordinates of the k-th weight, doubled, and its multiplicity.
fn entry(character: &Character, k: usize) -> Option<(i32, i32, i32, u64)> {
    if k >= character.len() {
        return None;
    }
    let weight = character.weight_at(k);
    if weight.coordinates() != 3 {
        return None;
    }
    Some((
        weight.doubled_at(1),
        weight.doubled_at(2),
        weight.doubled_at(3),
        character.times_at(k),
    ))
}

#[test]
fn character_of_a2(rt: HostRuntime) -> Result<(), Fail> {
    let graph = adjoint_of_a2(rt.alloc()).ok_or("the word is reached")?;
    let whole = character(rt.alloc(), &graph).ok().ok_or("there is memory")?;
    let expected = [
        (4, 2, 0, 1),
        (4, 0, 2, 1),
        (2, 4, 0, 1),
        (2, 2, 2, 2),
        (2, 0, 4, 1),
        (0, 4, 2, 1),
        (0, 2, 4, 1),
    ];
    assert_eq!(rt; whole.len(), 7);
    for k in 0..7 {
        assert_eq!(rt; entry(&whole, k), Some(expected[k]), "place {k}");
    }
    characters_are_unique();
    reflections_keep_multiplicities();
    tallies_are_exact();
    Ok(())
}

/// Whether these are the reflections at i of all vertices, in ascending rank.
fn has_images(graph: &Finished, i: u8, images: &[u32]) -> bool {
    if !graph.space().cartan().has_index(i) || graph.len() as usize != images.len() {
        return false;
    }
    for rank in 0..graph.len() {
        if reflect(graph, rank, i) != images[rank as usize] {
            return false;
        }
    }
    true
}

/// In the vector crystal of type C_2 the letters 1, 2, -2, -1 have the ranks 0 to 3: the reflection at 1 exchanges the
/// letters 1 and 2, and -2 and -1, that at 2 the letters 2 and -2.
#[test]
fn reflections_in_c2(rt: HostRuntime) -> Result<(), Fail> {
    let vector = component(rt.alloc(), Kind::C, 2, &[V], 0).ok_or("the word is reached")?;
    assert!(rt; has_images(&vector, 1, &[1, 0, 3, 2]));
    assert!(rt; has_images(&vector, 2, &[0, 2, 1, 3]));
    Ok(())
}

/// The three statistics, fed with nothing.
fn statistics(alloc: Global) -> Result<Vec<Box<dyn Statistic>>, AllocError> {
    let mut all: Vec<Box<dyn Statistic>> = Vec::new(alloc);
    all.push(Box::new(alloc, CharacterTally::new(alloc))?)?;
    all.push(Box::new(alloc, StringTally::new(alloc))?)?;
    all.push(Box::new(alloc, EndTally::new(alloc))?)?;
    Ok(all)
}

/// The report of a statistic.
fn report_of(alloc: Global, statistic: &Box<dyn Statistic>) -> Option<Vec<u8>> {
    let mut out = Vec::new(alloc);
    statistic.report(&mut out).ok()?;
    Some(out)
}

/// Whether the three statistics have these reports.
fn have_reports(alloc: Global, all: &[Box<dyn Statistic>], reports: [&str; 3]) -> bool {
    if all.len() != 3 {
        return false;
    }
    for k in 0..3 {
        match report_of(alloc, &all[k]) {
            Some(report) if report.as_slice() == reports[k].as_bytes() => {}
            _ => return false,
        }
    }
    true
}

#[test]
fn names_and_empty_lists(rt: HostRuntime) -> Result<(), Fail> {
    let all = statistics(rt.alloc())?;
    assert!(rt; have_reports(rt.alloc(), all.as_slice(), ["", "", "0\n"]));
    let names = ["character", "strings", "ends"];
    assert_eq!(rt; all.len(), 3);
    for k in 0..3 {
        assert_eq!(rt; all[k].name(), names[k]);
    }
    Ok(())
}

/// Whether the statistics took the vertices of both graphs, one after the other.
fn are_fed(all: &mut Vec<Box<dyn Statistic>>, first: &Finished, second: &Finished) -> bool {
    feed(all, first).is_ok() && feed(all, second).is_ok()
}

/// What is told of the adjoint of A_2 and a column of two boxes in C_2 together.
const BOTH: [&str; 3] = [
    "2 1 0 | 1\n2 0 1 | 1\n1 2 0 | 1\n1 1 1 | 2\n1 1 | 1\n1 0 2 | 1\n1 -1 | 1\n0 2 1 | 1\n0 1 2 | 1\n0 0 | 1\n-1 1 | 1\n-1 -1 | 1\n",
    "1 | 7 | 2\n2 | 7 | 2\n",
    "10\n",
];

#[test]
fn items_of_two_types(rt: HostRuntime) -> Result<(), Fail> {
    let first = adjoint_of_a2(rt.alloc()).ok_or("the word is reached")?;
    let second = component(rt.alloc(), Kind::C, 2, &[V, V], 4).ok_or("the word is reached")?;
    let mut all = statistics(rt.alloc())?;
    assert!(rt; are_fed(&mut all, &first, &second));
    assert!(rt; have_reports(rt.alloc(), all.as_slice(), BOTH));
    Ok(())
}
