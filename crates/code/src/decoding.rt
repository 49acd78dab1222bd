// Raw words decoded.
ghost use Rattle.std.specs.Prelude.{◌≡◌, ℕ, ◌<◌};
ghost use Rattle.code.specs.Decoding.{corrected};

use crate::syndromes::Located;
use word::Refusal;

// The data with the located cell complemented, or a refusal.
pub(crate) fn put_right(data: u64, located: Located) -> Result<u64, Refusal>
    requires { (i : ℕ) → located ≡ Located.Data i → i < 64 }
    ensures { result ≡ corrected «data» located }
{
    match located {
        Located::Clean | Located::Check(_) => Ok(data),
        Located::Data(cell) => Ok(data ^ (1u64 << cell)),
        Located::Two => Err(Refusal::Two),
        Located::Many => Err(Refusal::Many),
    }
}
