//! Worked arrows, digits and weights of spin crystals.
ghost use Rattle.std.specs.Prelude.{◌≡◌};
ghost use Rattle.spin_crystals.specs.Signs.{has_spin, has_half as is_half_of};

use crystal_cartan::{Cartan, Kind};
use spin_crystals::{
    Half, Signs, base_size, digit, eps, lower, of_digit, phi, raise, spin_laws, weight,
};

/// Whether the type has spin elements.
fn is_spin(cartan: Cartan) -> bool
    ensures { result ≡ has_spin cartan.kind }
{
    match cartan.kind() {
        Kind::B | Kind::D => true,
        Kind::A | Kind::C => false,
    }
}

/// Whether the type has this half.
fn has_half(cartan: Cartan, half: Half) -> bool
    ensures { result ≡ is_half_of cartan.kind half }
{
    match (cartan.kind(), half) {
        (Kind::B, Half::Whole) | (Kind::D, Half::Plus) | (Kind::D, Half::Minus) => true,
        _ => false,
    }
}

/// Where f_i and e_i lead from the vector with these bits, with eps_i and phi_i.
fn steps_at(cartan: Cartan, bits: u8, i: u8) -> Option<(Option<Signs>, Option<Signs>, u32, u32)> {
    let size = cartan.rank();
    if !is_spin(cartan) || bits as u32 >= 1 << size || !cartan.has_index(i) {
        return None;
    }
    let x = Signs { bits, size };
    spin_laws(cartan, x, i);
    Some((
        lower(cartan, x, i),
        raise(cartan, x, i),
        eps(cartan, x, i),
        phi(cartan, x, i),
    ))
}

/// The first and the last coordinate, doubled, of the weight of the vector with these bits.
fn weight_at(cartan: Cartan, bits: u8) -> Option<(i32, i32)> {
    let size = cartan.rank();
    if !is_spin(cartan) || bits as u32 >= 1 << size {
        return None;
    }
    let weight = weight(cartan, Signs { bits, size });
    Some((weight.doubled_at(1), weight.doubled_at(size)))
}

#[test]
fn arrows(rt: HostRuntime) {
    for (kind, rank, bits, i, below, above, up, down) in [
        (Kind::B, 2, 0b00, 1, None, None, 0, 0),
        (Kind::B, 2, 0b00, 2, Some(0b01), None, 0, 1),
        (Kind::B, 2, 0b01, 1, Some(0b10), None, 0, 1),
        (Kind::B, 2, 0b01, 2, None, Some(0b00), 1, 0),
        (Kind::B, 2, 0b10, 1, None, Some(0b01), 1, 0),
        (Kind::B, 2, 0b10, 2, Some(0b11), None, 0, 1),
        (Kind::B, 2, 0b11, 1, None, None, 0, 0),
        (Kind::B, 2, 0b11, 2, None, Some(0b10), 1, 0),
        (Kind::D, 4, 0b0000, 4, Some(0b0011), None, 0, 1),
        (Kind::D, 4, 0b0010, 4, None, None, 0, 0),
    ] {
        let cartan = Cartan::new(kind, rank).expect(&rt, "the rank is that of a type");
        let signs = |bits: u8| Signs { bits, size: rank };
        let wanted = (below.map(signs), above.map(signs), up, down);
        assert_eq!(rt; steps_at(cartan, bits, i), Some(wanted), "{bits} at {i}");
    }
}

#[test]
fn digits(rt: HostRuntime) {
    for (kind, rank, half, size, place, bits, odd) in [
        (Kind::B, 2, Half::Whole, 4, 1, 0b01, true),
        (Kind::D, 3, Half::Plus, 4, 1, 0b011, false),
        (Kind::D, 4, Half::Minus, 8, 0, 0b0001, true),
    ] {
        let cartan = Cartan::new(kind, rank).expect(&rt, "the rank is that of a type");
        assert!(rt; has_half(cartan, half));
        assert_eq!(rt; base_size(cartan, half), size);
        assert_eq!(rt; of_digit(cartan, size, half), None);
        let x = of_digit(cartan, place, half).expect(&rt, "the digit is below the size");
        assert_eq!(rt; (x.bits, x.size, x.odd_minuses()), (bits, rank, odd));
        assert_eq!(rt; digit(cartan, x, half), place);
    }
}

#[test]
fn weights(rt: HostRuntime) {
    let b2 = Cartan::new(Kind::B, 2).expect(&rt, "B_2 is a type");
    assert_eq!(rt; weight_at(b2, 0b01), Some((1, -1)));
}
