// What the laws promise of every code.
ghost use Rattle.std.specs.Prelude.{◌≡◌};
ghost use Rattle.code.specs.Distance.{FlipAddsColumn, CodewordsClean, SingleCorrected, DoubleRefused, NearOne, DecodesNear, RefusedFar};

use crate::codes::Code;

// The syndrome of every codeword; a complemented cell adds its column to it, or its power of two.
pub fn clean_syndrome<C: Code>(_code: &C) -> u8
    ensures zero { result ≡ 0 }
    ensures clean { CodewordsClean C.Code.code }
    ensures adds { FlipAddsColumn C.Code.code }
{
    0
}

// How many wrong cells are put right: any codeword comes back, and no raw word is as near to another.
pub fn correctable<C: Code>(_code: &C) -> u8
    ensures count { result ≡ 1 }
    ensures single { SingleCorrected C.Code.code }
    ensures near { DecodesNear C.Code.code }
    ensures one { NearOne C.Code.code }
{
    1
}

// How many wrong cells are told from fewer: two are refused, as is every raw word near no codeword.
pub fn detectable<C: Code>(_code: &C) -> u8
    ensures count { result ≡ 2 }
    ensures double { DoubleRefused C.Code.code }
    ensures far { RefusedFar C.Code.code }
{
    2
}
