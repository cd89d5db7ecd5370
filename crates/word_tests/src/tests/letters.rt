//! Worked arrows, digits and weights of vector crystals.
use crystal_cartan::{Cartan, Kind, Weight};
use vector_crystals::{
    Letter, base_size, digit, eps, is_letter, letter_laws, lower, of_digit, phi, raise, weight,
};

/// Where f_i and e_i lead from the letter, with eps_i and phi_i.
fn steps_at(
    cartan: Cartan,
    value: i8,
    i: u8,
) -> Option<(Option<Letter>, Option<Letter>, u32, u32)> {
    if !is_letter(cartan, value) || !cartan.has_index(i) {
        return None;
    }
    let x = Letter(value);
    letter_laws(cartan, x, i);
    Some((
        lower(cartan, x, i),
        raise(cartan, x, i),
        eps(cartan, x, i),
        phi(cartan, x, i),
    ))
}

/// The j-th coordinate of a weight, doubled.
fn coordinate(weight: &Weight, j: u8) -> Option<i32> {
    if 1 <= j && j <= weight.coordinates() {
        Some(weight.doubled_at(j))
    } else {
        None
    }
}

#[test]
fn last_arrows(rt: HostRuntime) {
    for (kind, rank, value, below, above, up, down) in [
        (Kind::A, 2, 2, Some(Letter(3)), None, 0, 1),
        (Kind::B, 2, 2, Some(Letter(0)), None, 0, 2),
        (Kind::B, 2, 0, Some(Letter(-2)), Some(Letter(2)), 1, 1),
        (Kind::C, 2, 2, Some(Letter(-2)), None, 0, 1),
        (Kind::D, 4, 3, Some(Letter(-4)), None, 0, 1),
        (Kind::D, 4, 4, Some(Letter(-3)), None, 0, 1),
    ] {
        let cartan = Cartan::new(kind, rank).expect(&rt, "the rank is that of a type");
        assert_eq!(rt;
            steps_at(cartan, value, rank),
            Some((below, above, up, down)),
            "{value}"
        );
    }
}

#[test]
fn digits(rt: HostRuntime) {
    for (kind, rank, value, place, j, doubled) in [
        (Kind::A, 2, 3, 2, 3, 2),
        (Kind::B, 2, 0, 2, 1, 0),
        (Kind::C, 2, -2, 2, 2, -2),
        (Kind::D, 4, -4, 4, 4, -2),
    ] {
        let cartan = Cartan::new(kind, rank).expect(&rt, "the rank is that of a type");
        assert!(rt; is_letter(cartan, value));
        assert_eq!(rt; digit(cartan, Letter(value)), place);
        assert_eq!(rt; of_digit(cartan, place), Some(Letter(value)));
        assert_eq!(rt; of_digit(cartan, base_size(cartan)), None);
        assert_eq!(rt;
            coordinate(&weight(cartan, Letter(value)), j),
            Some(doubled)
        );
    }
}
