//! The pairs of engines that meet.

ghost use Rattle.std.specs.Prelude.{◌≡◌, ◌<◌, ◌≤◌, length, slice_get, Some};
ghost use Rattle.tournament_core.specs.Schedules.{all_pairs};

/// Two engines, by their numbers, counted from 1.
#[derive(Clone, Copy)]
pub(crate) struct Pair {
    pub first: u32,
    pub second: u32,
}

/// The pair at a place in the list of all pairs, counted from 0.
pub(crate) fn pair_at(engines: u32, place: u32) -> Pair
    requires few { engines ≤ 64 }
    requires within { place < length (all_pairs engines) }
    ensures there { slice_get (all_pairs engines) place ≡ Some result }
    ensures low { 1 ≤ result.first }
    ensures other { result.first < result.second }
    ensures high { result.second ≤ engines }
{
    let mut left = place;
    for first in 1..engines {
        let others = engines - first;
        if left < others {
            return Pair {
                first,
                second: first + 1 + left,
            };
        }
        left -= others;
    }
    unreachable!()
}
