//! Words, letters, shapes, their tops and fillings, read and printed.
ghost use Rattle.tensor_words.specs.Codes.{IsWord};

use super::spaces::made;
use crystal_cartan::{Cartan, Kind};
use crystal_streams::Line;
use tableau_reading::{Filling, Shape, ShapeFault, WordFault, print_weight, print_word, read_word};
use tensor_words::{Factor, Order, Space, Word};
use vector_crystals::{Letter, is_letter};

const V: Factor = Factor::Vector;

const S: Factor = Factor::Spin;

const P: Factor = Factor::SpinPlus;

const M: Factor = Factor::SpinMinus;

fn shape_of(kind: Kind, rank: u8, rows: &[u32]) -> Option<Result<Shape, ShapeFault>> {
    Some(Shape::new(rows, Cartan::new(kind, rank).ok()?))
}

/// Whether the word is printed so.
fn is_printed(space: &Space, word: &Word, text: &str) -> bool
    requires { IsWord space.now word.now }
{
    let mut line = Line::new();
    print_word(space, word, &mut line);
    line.bytes() == text.as_bytes()
}

/// Whether the text is read as a word that is printed so.
fn is_read(space: &Space, text: &str, printed: &str) -> bool {
    match read_word(space, text.as_bytes()) {
        Ok(word) => is_printed(space, &word, printed),
        Err(_) => false,
    }
}

/// The code of the word that a text is read as.
fn code_read(space: &Space, text: &str) -> Option<u64> {
    match read_word(space, text.as_bytes()) {
        Ok(word) => Some(space.code_of(&word)),
        Err(_) => None,
    }
}

/// Whether the weight of the word that is read is printed so.
fn has_weight(space: &Space, text: &str, printed: &str) -> bool {
    let Ok(word) = read_word(space, text.as_bytes()) else {
        return false;
    };
    let mut line = Line::new();
    print_weight(&space.weight(&word), &mut line);
    line.bytes() == printed.as_bytes()
}

/// Puts a letter where the filling has the box and the type has the letter.
fn put_letter(filling: &mut Filling, row: u8, column: u8, value: i8) -> Option<Letter> {
    let shape = filling.shape();
    if row < 1 || row > shape.rows() || column < 1 || column > shape.row(row) {
        return None;
    }
    if !is_letter(shape.cartan(), value) {
        return None;
    }
    let before = filling.at(row, column);
    filling.put(row, column, Letter(value));
    Some(before)
}

#[test]
fn words(rt: HostRuntime) {
    let b2 = made(Kind::B, 2, &[S, V]).expect(&rt, "B_2 has spin elements");
    assert!(rt; is_read(&b2, "+- 0", "+- 0") && is_read(&b2, "  --  -02 ", "-- -2"));
    assert_eq!(rt; code_read(&b2, "+- 0"), Some(7));
    assert!(rt; has_weight(&b2, "+- 0", "1/2 -1/2"));
    let faults = [
        ("++ 3", WordFault::NoLetter { place: 2 }),
        ("+ 0", WordFault::BadSigns { place: 1 }),
        ("+0 9", WordFault::BadSigns { place: 1 }),
        ("++", WordFault::WrongLength),
    ];
    for (text, fault) in faults {
        assert_eq!(rt;
            read_word(&b2, text.as_bytes()).err(),
            Some(fault),
            "{text}"
        );
    }
    let d3 = made(Kind::D, 3, &[P]).expect(&rt, "D_3 has spin elements");
    assert!(rt; is_read(&d3, "+--", "+--"));
    assert_eq!(rt;
        read_word(&d3, b"+-+").err(),
        Some(WordFault::BadSigns { place: 1 })
    );
    let odd = made(Kind::D, 3, &[V, M]).expect(&rt, "D_3 has spin elements");
    assert!(rt; is_read(&odd, "-3 +-+", "-3 +-+"));
    assert_eq!(rt;
        read_word(&odd, b"-3 +--").err(),
        Some(WordFault::BadSigns { place: 2 })
    );
}

#[test]
fn letters(rt: HostRuntime) {
    let b2 = made(Kind::B, 2, &[V]).expect(&rt, "B_2 has vectors");
    for (text, printed) in [("01", "1"), ("-01", "-1"), ("00", "0"), ("2", "2")] {
        assert!(rt; is_read(&b2, text, printed), "{text}");
    }
    for text in ["-0", "-00", "001", "+1", "-", "3", "-3", "1x"] {
        assert_eq!(rt;
            read_word(&b2, text.as_bytes()).err(),
            Some(WordFault::NoLetter { place: 1 }),
            "{text}"
        );
    }
}

#[test]
fn shapes(rt: HostRuntime) {
    let c3_rows = [1, 1, 1, 1];
    let refused: [(Kind, u8, &[u32], ShapeFault); 6] = [
        (Kind::A, 2, &[], ShapeFault::Empty),
        (Kind::A, 2, &[2, 0], ShapeFault::Empty),
        (Kind::A, 2, &[1, 2], ShapeFault::NotFalling),
        (Kind::C, 3, &c3_rows, ShapeFault::TooTall),
        (Kind::A, 1, &[41], ShapeFault::TooManyBoxes),
        (Kind::C, 4, &[22], ShapeFault::TooManyBoxes),
    ];
    for (kind, rank, rows, fault) in refused {
        let shape = shape_of(kind, rank, rows).expect(&rt, "the rank is one of the kind");
        assert_eq!(rt; shape.err(), Some(fault));
    }
    let wide = shape_of(Kind::C, 4, &[21]).expect(&rt, "C_4 is a type");
    assert_eq!(rt; wide.ok().map(|shape| shape.boxes()), Some(21));
}

#[test]
fn tops(rt: HostRuntime) {
    let made = shape_of(Kind::A, 3, &[3, 2, 1]).expect(&rt, "A_3 is a type");
    let shape = made.ok().expect(&rt, "the rows fall");
    assert!(rt; is_printed(&shape.space(), &shape.top(), "3 2 1 2 1 1"));
    let mut line = Line::new();
    print_weight(&shape.weight(), &mut line);
    assert_eq!(rt; line.bytes(), b"3 2 1 0".as_slice());
    assert_eq!(rt; (shape.rows(), shape.boxes()), (3, 6));
    let other = shape.ordered(Order::Kashiwara);
    assert!(rt; is_printed(&other.space(), &other.top(), "1 1 2 1 2 3"));
    assert_eq!(rt;
        (shape.order(), other.order()),
        (Order::Standard, Order::Kashiwara)
    );
}

#[test]
fn fillings(rt: HostRuntime) {
    let made = shape_of(Kind::A, 2, &[2, 1]).expect(&rt, "A_2 is a type");
    let mut filling = Filling::new(&made.ok().expect(&rt, "the rows fall"));
    let one = put_letter(&mut filling, 1, 2, 2);
    let two = put_letter(&mut filling, 2, 1, 3);
    let shape = filling.shape();
    let word = shape.word_of_rows(&filling);
    assert!(rt; is_printed(&shape.space(), &word, "3 1 2"));
    let mut other = Filling::new(&shape.ordered(Order::Kashiwara));
    let three = put_letter(&mut other, 1, 2, 2);
    let four = put_letter(&mut other, 2, 1, 3);
    let turned = other.shape();
    let reversed = turned.word_of_rows(&other);
    assert!(rt; is_printed(&turned.space(), &reversed, "2 1 3"));
    assert_eq!(rt; [one, two, three, four], [Some(Letter(1)); 4]);
    let mut again = shape.rows_of_word(&word);
    let five = put_letter(&mut again, 1, 2, 1);
    let six = put_letter(&mut again, 2, 1, 1);
    assert_eq!(rt; [five, six], [Some(Letter(2)), Some(Letter(3))]);
}
