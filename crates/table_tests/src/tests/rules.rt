//! The calls that no caller on words makes, once each.
use super::worlds::world;
use crystal_streams::NoMemory;
use graph_rule::{Graph, owe, release, tally};
use tensor_words::Factor;

#[test]
fn debts_and_seats(rt: HostRuntime) -> Result<(), NoMemory> {
    let roots = Vec::from_array(rt.alloc(), [0])?;
    let world = world(&[Factor::Vector], 2, roots).expect(&rt, "a world of two cells");
    let (graph, mut seat) = Graph::new(rt.alloc(), world)?;
    let own = (seat.number(), seat.numbers_left(), seat.stake());
    owe(&graph, &mut seat);
    release(&graph, &mut seat);
    let before = tally(&graph, &mut seat);
    let mut child = seat.hand(&graph, 5, &[]);
    let handed = (child.number(), child.numbers_left(), child.stake());
    let left = (seat.numbers_left(), seat.stake());
    let after = tally(&graph, &mut child);
    let _front = child.front();
    seat.join(&graph, child);
    assert_eq!(rt; (own, handed), ((0, (1 << 32) - 1, 65_536), (1, 0, 5)));
    assert_eq!(rt; (before, after), (0, 0));
    assert_eq!(rt; (left, seat.stake()), (((1 << 32) - 2, 65_531), 65_536));
    assert_eq!(rt; seat.number(), 0);
    Ok(())
}
