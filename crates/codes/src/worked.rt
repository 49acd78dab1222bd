// Worked values.
ghost use Rattle.std.specs.Prelude.{◌≡◌, length};
ghost use Rattle.codes.specs.Worked.{worked, WorkedHold};

// How many worked values the codes are held to.
pub fn worked_values() -> u8
    ensures count { result ≡ length worked }
    ensures hold { WorkedHold }
{
    13
}
