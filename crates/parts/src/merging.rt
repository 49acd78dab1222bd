// Merging byte lanes.
ghost use Rattle.std.specs.Prelude.{◌≡◌, ◌<◌, if◌then◌else◌};
ghost use Rattle.parts.specs.Merges.{bit, joined, merged_list};

use word::{join_lanes, lanes_of};

// One lane of a merge: the old byte where its enable is set, else the new one.
fn keep(enables: u8, lane: u8, old: u8, new: u8) -> u8
    requires { lane < 8 }
    ensures { result ≡ (if bit lane enables then old else new) }
{
    if (enables >> lane) % 2 == 1 { old } else { new }
}

// The eight lanes of a merge.
fn merge_lanes(enables: u8, old: [u8; 8], new: [u8; 8]) -> [u8; 8]
    ensures { result ≡ merged_list enables old new }
{
    [
        keep(enables, 0, old[0], new[0]),
        keep(enables, 1, old[1], new[1]),
        keep(enables, 2, old[2], new[2]),
        keep(enables, 3, old[3], new[3]),
        keep(enables, 4, old[4], new[4]),
        keep(enables, 5, old[5], new[5]),
        keep(enables, 6, old[6], new[6]),
        keep(enables, 7, old[7], new[7]),
    ]
}

// Two words of eight lanes merged.
pub fn merge_words(enables: u8, old: u64, new: u64) -> u64
    ensures { result ≡ joined 8 enables old new }
{
    join_lanes(merge_lanes(enables, lanes_of(old), lanes_of(new)))
}
