//! Ranks: the places of codes in an ascending list.
ghost use Rattle.std.specs.Prelude.{◌≡◌, ◌^◌, ◌<◌, length, IfSome};
ghost use Rattle.std.specs.List.Sorted.{IsStrictlyIncreasing};
ghost use Rattle.canonical_graph.specs.Graphs.{rank_in};

/// The place of a code in an ascending list, `None` where it is not there.
pub(crate) fn rank_among(codes: &[u64], code: u64) -> Option<u32>
    requires ascending { IsStrictlyIncreasing codes.now }
    requires few { length codes.now < 2 ^ 32 }
    ensures rank { result ≡ rank_in codes.now code }
    ensures below { IfSome result (λ rank. rank < length codes.now) }
{
    match codes.binary_search(&code) {
        Ok(rank) => Some(rank as u32),
        Err(_) => None,
    }
}
