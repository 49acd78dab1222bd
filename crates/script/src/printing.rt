// Answers as lines of text.
ghost use Rattle.std.specs.Prelude.{◌≡◌, ℕ, ◌+◌, ◌-◌, ◌^◌, ◌<◌, ◌≤◌, [], ◌∷◌, ◌++◌, length};
ghost use Rattle.lines.specs.Hex.{hex_digit, hex};
ghost use Rattle.lines.specs.Texts.{field, fault_text, first_line, answer_text};

use error_log::FirstError;
use unit::{Answer, Reply};
use word::Fault;

// The character of a number below 16.
fn digit_of(number: u64) -> u8
    requires { number < 16 }
    ensures { result ≡ hex_digit number }
{
    b"0123456789abcdef"[number as usize]
}

// The lowest digits of a number, the highest of them first.
fn hex_of<const DIGITS: usize>(number: u64) -> [u8; DIGITS]
    requires { DIGITS ≤ 16 }
    ensures { result ≡ hex DIGITS number }
{
    let mut digits = [b'0'; DIGITS];
    for (place, digit) in digits.iter_mut().enumerate() {
        *digit = digit_of((number >> (4 * (DIGITS - 1 - place))) % 16);
    }
    digits
}

// A lent output, and how many bytes of it are written.
#[derive(Drop)]
pub(crate) struct Page<'a> {
    out: &'a mut [u8],
    written: usize,
    ghost within: { written ≤ length out.now },
}

impl<'a> Page<'a> {
    ghost use Rattle.script.specs.Written.{HasRoom, Wrote};

    // An output with nothing written yet.
    pub(crate) fn new(out: &'a mut [u8]) -> Page<'a>
        ensures same { result.out.ghost_name ≡ out.entry.ghost_name }
        ensures lent { result.out.now ≡ out.old }
        ensures empty { result.written ≡ 0 }
    {
        Page { out, written: 0 }
    }

    // How many bytes are written.
    pub(crate) fn written(&self) -> usize
        ensures { result ≡ self.now.written }
    {
        self.written
    }

    // How many bytes may still be written.
    pub(crate) fn room(&self) -> usize
        ensures { result ≡ length self.now.out.now - self.now.written }
    {
        self.out.len() - self.written
    }

    // Writes a text behind the others.
    fn put(&mut self, text: &[u8])
        requires { HasRoom self.old (length text.now) }
        ensures { Wrote self.old text.now self.new }
    {
        let end = self.written + text.len();
        self.out[self.written..end].copy_from_slice(text);
        self.written = end;
    }

    // Writes a blank and the digits of a field.
    fn put_field<const DIGITS: usize>(&mut self, number: u64)
        requires digits { DIGITS ≤ 16 }
        requires room { HasRoom self.old (DIGITS + 1) }
        ensures { Wrote self.old (field DIGITS number) self.new }
    {
        self.put(b" ");
        self.put(&hex_of::<DIGITS>(number));
    }

    // "=" and a number.
    fn put_number<const DIGITS: usize>(&mut self, number: u64)
        requires digits { DIGITS ≤ 16 }
        requires room { HasRoom self.old 32 }
        ensures { Wrote self.old (61 ∷ field DIGITS number ++ (10 ∷ [])) self.new }
    {
        self.put(b"=");
        self.put_field::<DIGITS>(number);
        self.put(b"\n");
    }

    // "=", then place, check bits and data.
    fn put_first(&mut self, error: FirstError)
        requires { HasRoom self.old 32 }
        ensures { Wrote self.old (first_line error) self.new }
    {
        self.put(b"=");
        self.put_field::<4>(u64::from(error.place));
        self.put_field::<2>(u64::from(error.raw.check));
        self.put_field::<16>(error.raw.data);
        self.put(b"\n");
    }

    // "!", then number, place, depth and way.
    fn put_fault(&mut self, fault: Fault)
        requires { HasRoom self.old 32 }
        ensures { Wrote self.old (fault_text fault) self.new }
    {
        self.put(b"!");
        self.put_field::<1>(u64::from(u8::from(fault.refusal)));
        self.put_field::<4>(u64::from(fault.place));
        self.put_field::<2>(u64::from(fault.depth));
        self.put_field::<4>(u64::from(fault.way));
        self.put(b"\n");
    }

    // Writes the line of an answer, at most 32 bytes, and answers how many lines are run with it.
    #[tactic(auto, using(crate::proofs::WriteFacts::text_short))]
    pub(crate) fn tell(&mut self, lines: usize, answer: Answer) -> usize
        requires room { HasRoom self.old 32 }
        requires few { lines + 1 < 2 ^ 64 }
        ensures wrote { Wrote self.old (answer_text answer) self.new }
        ensures counted { result ≡ lines + 1 }
        ensures short { length (answer_text answer) ≤ 32 }
    {
        self.print(answer);
        lines + 1
    }

    // Writes the line of an answer.
    pub(crate) fn print(&mut self, answer: Answer)
        requires { HasRoom self.old 32 }
        ensures { Wrote self.old (answer_text answer) self.new }
    {
        match answer {
            Ok(Reply::Done | Reply::Merged(_)) => self.put(b"ok\n"),
            Ok(Reply::Gave(word)) => self.put_number::<16>(word.low),
            Ok(Reply::LogWord(word)) => self.put_number::<8>(u64::from(word)),
            Ok(Reply::FirstWas(None)) => self.put(b"none\n"),
            Ok(Reply::FirstWas(Some(error))) => self.put_first(error),
            Err(fault) => self.put_fault(fault),
        }
    }
}
