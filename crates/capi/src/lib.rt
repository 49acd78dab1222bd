// The 64-bit code for callers in C.
#![tactic(auto)]

mod boards;
mod sessions;

ghost use Rattle.std.specs.Prelude.{◌≡◌};
ghost use Rattle.code.specs.Codes.{generated};
ghost use Rattle.code.specs.Decoding.{decoded_parts};
ghost use Rattle.codes.specs.Tables.{code64};
ghost use Rattle.capi.specs.Handing.{status, handed};

use code::Code;
use codes::Code64;

// The check bits of a data word.
#[unsafe(no_mangle)]
pub extern "C" fn edc_generate64(data: u64) -> u8
    ensures { result ≡ generated code64 «data» }
{
    Code64.generate(data)
}

// Puts a single wrong cell right in place and answers 0, or leaves the data as they are and answers the refusal's number.
#[unsafe(no_mangle)]
pub extern "C" fn edc_decode64(data: &mut u64, check: u8) -> u8
    ensures answer { result ≡ status (decoded_parts code64 «data».old check) }
    ensures after { «data».new ≡ handed «data».old (decoded_parts code64 «data».old check) }
{
    match Code64.decode(*data, check) {
        Ok(word) => {
            *data = word;
            0
        }
        Err(refusal) => u8::from(refusal),
    }
}
