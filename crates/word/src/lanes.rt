// The eight byte lanes of a 64-bit word, by value. Lane j is cells 8j to 8j + 7.
ghost use Rattle.std.specs.Prelude.{◌≡◌};
ghost use Rattle.word.specs.Lanes.{lane_list, from_lanes};

// The lanes, lane 0 first.
pub fn lanes_of(low: u64) -> [u8; 8]
    ensures { result ≡ lane_list low }
{
    low.to_le_bytes()
}

// The 64-bit word of eight lanes.
pub fn join_lanes(lanes: [u8; 8]) -> u64
    ensures { result ≡ from_lanes lanes }
{
    u64::from_le_bytes(lanes)
}
