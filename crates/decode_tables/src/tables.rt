// A decode table, one line for each syndrome: the code's name, the syndrome in hexadecimal and what it says.
use code::Code;
use std::io;

// The decode table of a code.
pub fn print_table<C: Code>(rt: &impl Print, code: &C) -> io::Result<()> {
    let name = code.name();
    for syndrome in (0u8..=255).take(1 << code.check_width().min(8)) {
        let located = code.locate(syndrome);
        println!(rt; "{name}  {syndrome:02x}  {located}")?;
    }
    Ok(())
}
