//! Worked words in both tensor orders by the recursion and by the pass, and the pass beside the recursion.
ghost use Rattle.crystal_cartan.specs.Types.{HasIndex};
ghost use Rattle.tensor_words.specs.Codes.{IsWord};

use super::spaces::made;
use super::tensors;
use crystal_cartan::{Arrow, Kind};
use signature_rule::{act, eps, lift, lower, phi, raise, word_laws};
use tensor_words::{Factor, Order, Space, Word};

const V: Factor = Factor::Vector;

/// The codes of f_i and e_i of the word with this code, and its phi_i and eps_i.
fn strings(space: &Space, code: u64, i: u8) -> Option<(Option<u64>, Option<u64>, u32, u32)> {
    if !space.cartan().has_index(i) {
        return None;
    }
    let word = space.word_of(code)?;
    word_laws(space, &word, i);
    let arrow = Arrow {
        down: true,
        index: i,
    };
    let lowered = act(space, &word, arrow).map(|lower| space.code_of(&lower));
    let raised = raise(space, &word, i).map(|higher| space.code_of(&higher));
    Some((lowered, raised, phi(space, &word, i), eps(space, &word, i)))
}

/// The code of the top over the word with this code, and the number of raises.
fn lifted(space: &Space, code: u64) -> Option<(u64, u32)> {
    let word = space.word_of(code)?;
    let (top, raises) = lift(space, &word);
    Some((space.code_of(&top), raises))
}

/// In Kashiwara's order the words of C_2 and A_1 are those before them, read from right to left.
#[test]
fn worked_words(rt: HostRuntime) {
    let table = [
        (
            Kind::C,
            2,
            &[V, V, V] as &[Factor],
            Order::Standard,
            33,
            (Some(37), Some(32), 2, 1),
        ),
        (
            Kind::A,
            1,
            &[V, V],
            Order::Standard,
            0,
            (Some(1), None, 2, 0),
        ),
        (
            Kind::A,
            1,
            &[V, V],
            Order::Standard,
            1,
            (Some(3), Some(0), 1, 1),
        ),
        (
            Kind::A,
            1,
            &[V, V],
            Order::Standard,
            3,
            (None, Some(1), 0, 2),
        ),
        (
            Kind::C,
            2,
            &[V, V, V],
            Order::Kashiwara,
            18,
            (Some(22), Some(2), 2, 1),
        ),
        (Kind::A, 1, &[V, V], Order::Kashiwara, 1, (None, None, 0, 0)),
        (
            Kind::A,
            1,
            &[V, V],
            Order::Kashiwara,
            2,
            (Some(3), Some(0), 1, 1),
        ),
    ];
    for (kind, rank, factors, order, code, wanted) in table {
        let space = made(kind, rank, factors).expect(&rt, "the type has vectors");
        assert_eq!(rt; space.order(), Order::Standard);
        let space = space.ordered(order);
        assert_eq!(rt; space.order(), order);
        assert_eq!(rt;
            tensors::strings(&space, code, 1),
            Some(wanted),
            "{code} by the recursion"
        );
        assert_eq!(rt;
            strings(&space, code, 1),
            Some(wanted),
            "{code} by the pass"
        );
    }
}

#[test]
fn a_word_lifted(rt: HostRuntime) {
    let a1 = made(Kind::A, 1, &[V, V]).expect(&rt, "A_1 has vectors");
    for order in [Order::Standard, Order::Kashiwara] {
        assert_eq!(rt; lifted(&a1.ordered(order), 3), Some((0, 2)));
    }
}

/// Whether the pass and the recursion agree on this word.
fn agree_at(space: &Space, word: &Word, i: u8) -> bool
    requires word { IsWord space.now word.now }
    requires index { HasIndex space.now.cartan i }
{
    lower(space, word, i) == space.by_rule_lower(word, i)
        && raise(space, word, i) == space.by_rule_raise(word, i)
        && eps(space, word, i) == space.by_rule_eps(word, i)
        && phi(space, word, i) == space.by_rule_phi(word, i)
}

/// The first code and index at which the pass and the recursion differ.
fn first_difference(space: &Space) -> Option<(u64, u8)> {
    for code in 0..space.size() {
        for i in 1..9 {
            if let Some(word) = space.word_of(code) {
                if space.cartan().has_index(i) && !agree_at(space, &word, i) {
                    return Some((code, i));
                }
            }
        }
    }
    None
}

#[test]
fn pass_beside_recursion(rt: HostRuntime) {
    for (kind, rank, first, second) in [
        (Kind::B, 2, Factor::Spin, V),
        (Kind::D, 3, Factor::SpinPlus, V),
        (Kind::C, 2, V, V),
    ] {
        let space = made(kind, rank, &[first, second]).expect(&rt, "the type has these factors");
        assert_eq!(rt; first_difference(&space), None);
        assert_eq!(rt; first_difference(&space.ordered(Order::Kashiwara)), None);
    }
    let a2 = made(Kind::A, 2, &[V, V, V]).expect(&rt, "A_2 has vectors");
    assert_eq!(rt; first_difference(&a2), None);
}
