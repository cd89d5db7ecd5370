//! Worked values of the passes over all indices, in both tensor orders.
use crystal_cartan::{Cartan, Kind};
use signature_rule::{lowered_code, places_of, raised_code, strings_of};
use std::test::Fail;
use tensor_words::{Factor, Order, Space, Steps};

/// The codes of f_i and e_i of the word with this code, and its phi_i and eps_i.
fn by_tables(steps: &Steps, code: u64, i: u8) -> Option<(Option<u64>, Option<u64>, u8, u8)> {
    if code >= steps.space().size() || !steps.cartan().has_index(i) {
        return None;
    }
    let word = steps.word(code);
    let places = places_of(steps, &word);
    let strings = strings_of(steps, &word);
    let entry = (i - 1) as usize;
    Some((
        lowered_code(steps, code, &word, &places, i),
        raised_code(steps, code, &word, &places, i),
        strings.phi[entry],
        strings.eps[entry],
    ))
}

#[test]
fn worked_words_by_tables(rt: HostRuntime) -> Result<(), Fail> {
    let c2 = Cartan::new(Kind::C, 2).expect(&rt, "C_2 is a type");
    let space = Space::new(c2, &[Factor::Vector; 3]).expect(&rt, "C_2 has vectors");
    let steps = Steps::new(rt.alloc(), space)?;
    assert_eq!(rt; by_tables(&steps, 33, 1), Some((Some(37), Some(32), 2, 1)));
    let turned = Steps::new(rt.alloc(), space.ordered(Order::Kashiwara))?;
    assert_eq!(rt; by_tables(&turned, 33, 1), Some((Some(49), None, 1, 0)));
    Ok(())
}
