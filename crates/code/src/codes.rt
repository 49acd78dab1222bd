// The interface of a code.
ghost use Rattle.std.specs.Prelude.{◌≡◌, ℕ, ◌+◌, List, bit_xor};
ghost use Rattle.code.specs.Codes.{CodeModel, CodeLaws, generated, located};
ghost use Rattle.code.specs.Decoding.{corrected, decoded_parts};

use crate::decoding::put_right;
use crate::syndromes::Located;
use word::Refusal;

// A code of n data cells and k check cells. Its check bits are z xor the columns of the set data cells.
pub trait Code {
    // n and k
    const DATA: u8;

    const CHECK: u8;

    ghost DATA: { ℕ };

    ghost CHECK: { ℕ };

    ghost code: { CodeModel };

    // the bytes of the name
    ghost title: { List ℕ };

    // What people call the code.
    fn name(&self) -> &str
        ensures { result.now ≡ title };

    fn data_width(&self) -> u8
        ensures { result ≡ code.n }
    {
        Self::DATA
    }

    fn check_width(&self) -> u8
        ensures { result ≡ code.k }
    {
        Self::CHECK
    }

    // The cells of a raw word: data below, check bits above.
    fn raw_width(&self) -> u8
        ensures { result ≡ code.n + code.k }
    {
        self.data_width() + self.check_width()
    }

    // The check bits of the data, taken modulo 2^n.
    fn generate(&self, data: u64) -> u8
        ensures { result ≡ generated code «data» };

    // What a syndrome, taken modulo 2^k, says.
    fn locate(&self, syndrome: u8) -> Located
        ensures { result ≡ located code syndrome };

    // The partial check bits that a cascaded code shows in the log; 0 in every other.
    fn partial(&self, data: u64) -> u8
        ensures { result ≡ code.partial «data» };

    // What the check bits differ in from those that the data generate.
    fn syndrome_of(&self, data: u64, check: u8) -> u8
        ensures { result ≡ bit_xor (generated code «data») check }
    {
        self.generate(data) ^ check
    }

    // The data of a raw word that has this syndrome, with a single wrong cell put right, or a refusal.
    fn correct(&self, data: u64, syndrome: u8) -> Result<u64, Refusal>
        ensures { result ≡ corrected «data» (located code syndrome) }
    {
        put_right(data, self.locate(syndrome))
    }

    // The data with a single wrong cell put right, or a refusal.
    fn decode(&self, data: u64, check: u8) -> Result<u64, Refusal>
        ensures { result ≡ decoded_parts code «data» check }
    {
        self.correct(data, self.syndrome_of(data, check))
    }

    ghost widths: { (DATA ≡ code.n) × (CHECK ≡ code.k) };

    ghost lawful: { CodeLaws code };
}
