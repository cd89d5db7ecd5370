//! Growth of wide words, by calls.
ghost use Rattle.std.specs.Prelude.{◌≤◌};

use super::barriers::Barrier;
use crystal_cartan::{Cartan, Kind};
use crystal_streams::NoMemory;
use std::alloc::Global;
use std::thread::Threads;
use tensor_words::{Factor, Space};
use wide_growth::{WideGrown, wide_grow};
use wide_words::{WideCode, WideSpace};
use worker_gate::{Gate, OpenGate};

/// The words of two letters of A_1, one in each half.
fn two_letters() -> Option<WideSpace> {
    let Ok(cartan) = Cartan::new(Kind::A, 1) else {
        return None;
    };
    let Ok(half) = Space::new(cartan, &[Factor::Vector]) else {
        return None;
    };
    WideSpace::new(half, half).ok()
}

/// Growth in these words from `1 1`. Three words are reached, in one row.
fn grow_letters<R: Threads + Sync, G: Gate>(
    rt: &R,
    alloc: Global,
    capacity: u32,
    growers: u32,
    gate: &G,
) -> Result<Option<WideGrown>, NoMemory>
    requires some { 1 ≤ capacity }
    requires few { capacity ≤ 64 }
    requires growers { (1 ≤ growers) × (growers ≤ 16) }
{
    let Some(space) = two_letters() else {
        return Ok(None);
    };
    let root = WideCode { high: 0, low: 0 };
    if !space.has(root) {
        return Ok(None);
    }
    match wide_grow(rt, alloc, &space, capacity, &[root], growers, gate) {
        Ok(grown) => Ok(Some(grown)),
        Err(fault) => Err(fault),
    }
}

#[test]
fn three_wide_words(rt: HostRuntime) -> Result<(), NoMemory> {
    let all = Some(WideGrown::Closed {
        vertices: 3,
        arrows: 2,
    });
    let gate = &OpenGate;
    for few in 0..2 {
        let capacity = 64 - 61 * few;
        assert_eq!(rt; grow_letters(&rt, rt.alloc(), capacity, 1, gate)?, all);
        assert_eq!(rt; grow_letters(&rt, rt.alloc(), capacity, 2, gate)?, all);
        assert_eq!(rt; grow_letters(&rt, rt.alloc(), capacity, 4, gate)?, all);
        assert_eq!(rt; grow_letters(&rt, rt.alloc(), capacity, 16, gate)?, all);
    }
    Ok(())
}

#[test]
fn no_room_for_three(rt: HostRuntime) -> Result<(), NoMemory> {
    let full = Some(WideGrown::Full);
    assert_eq!(rt; grow_letters(&rt, rt.alloc(), 2, 1, &OpenGate)?, full);
    assert_eq!(rt; grow_letters(&rt, rt.alloc(), 2, 16, &OpenGate)?, full);
    Ok(())
}

#[test]
fn wide_growers_run_side_by_side(rt: HostRuntime) -> Result<(), NoMemory> {
    let both = (1 << 0) | (1 << 1);
    let gate = Barrier::of(both);
    let ended = grow_letters(&rt, rt.alloc(), 3, 2, &gate)?;
    let all = WideGrown::Closed {
        vertices: 3,
        arrows: 2,
    };
    assert_eq!(rt; ended, Some(all));
    assert_eq!(rt; gate.counts(), (0, both));
    Ok(())
}
