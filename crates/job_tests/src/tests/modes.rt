//! Command words from a table, with what the program's description says of each.

use command_words::{Relabelling, Settings, WordsFault, read_words};
use crystal_cartan::{Cartan, Kind};
use std::alloc::Global;
use std::test::Fail;
use tableau_reading::Shape;

const NAMES: [&str; 3] = ["strings", "ends", "ends"];

/// What the words between the blanks of a line ask for.
fn settings_of(alloc: Global, line: &str) -> Result<Settings, WordsFault> {
    let mut words = Vec::new(alloc);
    for word in line.split(' ') {
        let Ok(word) = String::from_str(alloc, word) else {
            return Err(WordsFault::NoMemory);
        };
        if words.push(word).is_err() {
            return Err(WordsFault::NoMemory);
        }
    }
    read_words(alloc, words.as_slice(), NAMES.as_slice())
}

/// The number of the fault, 0 where the words are accepted.
fn fault_number(settings: Result<Settings, WordsFault>) -> Option<u8> {
    match settings {
        Ok(_) => Some(0),
        Err(fault) => fault.number(),
    }
}

#[test]
fn refused_words(rt: HostRuntime) {
    let lines = [
        ("-h", 1),
        ("grow 2 -", 1),
        ("census -1 1", 1),
        ("match", 2),
        ("", 2),
        ("paint 2", 3),
        ("help 2", 3),
        (" 2", 3),
        ("grow 0", 4),
        ("grow 17", 4),
        ("grow 00000000002", 4),
        ("grow +2", 4),
        ("wide 0", 4),
        ("wide 17 x", 4),
        ("grow 2 lengths", 5),
        ("grow 2 lengths ends ends", 5),
        ("grow 2 ends ends", 6),
        ("grow 2 ends ends lengths", 6),
        ("sample 2", 7),
        ("sample 2 1 1", 7),
        ("sample 16 4294967296", 7),
        ("census 2", 9),
        ("census 0 1", 9),
        ("census 9 1", 9),
        ("census 2 1 2", 9),
        ("census 2 1 0", 9),
        ("census 1 1 1 1", 9),
        ("census 2 x", 9),
        ("census 2 0000000001", 9),
        ("match other", 10),
        ("match same star", 10),
        ("wide 1 x", 11),
        ("wide 16 ", 11),
        ("grow 2", 0),
        ("grow 16 ends strings", 0),
    ];
    for (line, number) in lines {
        let number_read = fault_number(settings_of(rt.alloc(), line));
        assert_eq!(rt; number_read, Some(number), "{line}");
    }
    let number_read = fault_number(read_words(rt.alloc(), &[], &[]));
    assert_eq!(rt; number_read, Some(2));
}

#[test]
fn accepted_words(rt: HostRuntime) -> Result<(), Fail> {
    let grow = settings_of(rt.alloc(), "grow 0000000002 ends strings")?;
    let Settings::Grow { growers, chosen } = grow else {
        panic!(rt; "another mode");
    };
    assert_eq!(rt; growers, 2);
    assert_eq!(rt; chosen.len(), 2);
    assert_eq!(rt; (*chosen.at(0), *chosen.at(1)), (1, 0));
    let sample = settings_of(rt.alloc(), "sample 16 4294967295")?;
    let Settings::Sample { growers, number } = sample else {
        panic!(rt; "another mode");
    };
    assert_eq!(rt; (growers, number), (16, u32::MAX));
    Ok(())
}

#[test]
fn accepted_later_modes(rt: HostRuntime) -> Result<(), Fail> {
    let census = settings_of(rt.alloc(), "census 2 000000002 1")?;
    let Settings::Census { shape } = census else {
        panic!(rt; "another mode");
    };
    assert_eq!(rt; shape, Shape::new(&[2, 1], Cartan::new(Kind::A, 2)?)?);
    for (line, wanted) in [
        ("match same", Relabelling::Same),
        ("match star", Relabelling::Star),
    ] {
        let Settings::Match { relabelling } = settings_of(rt.alloc(), line)? else {
            panic!(rt; "another mode");
        };
        assert_eq!(rt; relabelling, wanted);
    }
    let Settings::Wide { growers } = settings_of(rt.alloc(), "wide 0000000016")? else {
        panic!(rt; "another mode");
    };
    assert_eq!(rt; growers, 16);
    Ok(())
}
