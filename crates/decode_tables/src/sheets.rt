// Codes held to published decode tables, entry by entry.
ghost use Rattle.std.specs.Prelude.{◌≡◌, ℕ, ◌<◌, ◌≤◌};
ghost use Rattle.decode_tables.specs.Sheets.{first_syndrome, second_syndrome, located_column};

use crate::equations::check_bits;
use crate::published::BITS16;
use code::{Code, Located};
use codes::Code16;
use std::fmt::Display;
use std::io;

// How a maker counts in its tables of sixteen rows.
pub(crate) trait Maker {
    ghost syndrome_at: { ℕ → ℕ → ℕ → ℕ };

    // The syndrome of an entry, in a table of so many columns.
    fn syndrome(&self, columns: u8, row: u8, column: u8) -> u8
        requires some { 0 < columns }
        requires few { columns ≤ 16 }
        ensures { result ≡ syndrome_at columns row column };

    // The check cell of a name after C.
    fn check_cell(&self, name: &str) -> Option<u8>;
}

// The first maker counts its syndrome bits from the right, and numbers its check cells.
pub(crate) struct First;

impl Maker for First {
    ghost syndrome_at = { first_syndrome };

    fn syndrome(&self, _columns: u8, row: u8, column: u8) -> u8 {
        column % 16 * 16 + row % 16
    }

    fn check_cell(&self, name: &str) -> Option<u8> {
        name.parse::<u8>().ok()
    }
}

// The second maker counts its syndrome bits from the left. It calls check cell 0 CX, and the others by powers of two, but for C0.
pub(crate) struct Second;

impl Maker for Second {
    ghost syndrome_at = { second_syndrome };

    fn syndrome(&self, columns: u8, row: u8, column: u8) -> u8 {
        (row % 16 * columns + column % columns).reverse_bits() / (16 / columns)
    }

    fn check_cell(&self, name: &str) -> Option<u8> {
        let names = ["X", "0", "1", "2", "4", "8", "16", "32"];
        let cell = names.iter().position(|known| *known == name)?;
        u8::try_from(cell).ok()
    }
}

// A published table.
pub(crate) struct Sheet<M> {
    pub maker: M,
    pub title: &'static str,
    pub columns: u8,
    pub rows: [&'static str; 16],
    ghost some: { 0 < columns },
    ghost few: { columns ≤ 16 },
}

impl<M: Maker> Sheet<M> {
    // What an entry says.
    fn read(&self, entry: &str) -> Option<Located> {
        match entry {
            "*" => Some(Located::Clean),
            "T" => Some(Located::Two),
            "M" => Some(Located::Many),
            _ => match entry.strip_prefix('C') {
                Some(name) => Some(Located::Check(self.maker.check_cell(name)?)),
                None => Some(Located::Data(entry.parse::<u8>().ok()?)),
            },
        }
    }
}

// Whether a code says of a syndrome what is said in print; where it does not, both are shown.
fn compare_entry<C: Code>(
    rt: &impl Print,
    code: &C,
    syndrome: u8,
    said: Option<Located>,
    entry: &impl Display,
) -> io::Result<bool> {
    let located = code.locate(syndrome);
    let agrees = said == Some(located);
    if !agrees {
        println!(rt; "{syndrome:02x} is {entry} in print, and here {located}")?;
    }
    Ok(agrees)
}

// How many entries of a row agree with the code; the others are named.
fn compare_row<C: Code, M: Maker>(
    rt: &impl Print,
    code: &C,
    sheet: &Sheet<M>,
    row: u8,
    entries: &str,
) -> io::Result<u32> {
    let mut agreed = 0u32;
    for (column, entry) in (0u8..=255).zip(entries.split_whitespace()) {
        let syndrome = sheet.maker.syndrome(sheet.columns, row, column);
        let agrees = compare_entry(rt, code, syndrome, sheet.read(entry), &entry)?;
        agreed = agreed.saturating_add(u32::from(agrees));
    }
    Ok(agreed)
}

// How many entries of a table agree with the code.
pub fn compare_sheet<C: Code, M: Maker>(
    rt: &impl Print,
    code: &C,
    sheet: &Sheet<M>,
) -> io::Result<()> {
    let mut agreed = 0u32;
    for (row, entries) in (0..16u8).zip(sheet.rows) {
        agreed = agreed.saturating_add(compare_row(rt, code, sheet, row, entries)?);
    }
    tell_agreed(rt, code, agreed, 16 * sheet.columns as u32, sheet.title)
}

// What came of a comparison.
fn tell_agreed<C: Code>(
    rt: &impl Print,
    code: &C,
    agreed: u32,
    entries: u32,
    title: &str,
) -> io::Result<()> {
    let name = code.name();
    println!(rt; "{name}: {agreed} of {entries} entries agree with {title}")
}

// The syndrome of an entry of the 16-bit table, whose columns count from the left: each row has a digit of it.
fn syndrome16(column: u8) -> u8
    requires { column < 23 }
    ensures { result < 64 }
{
    check_bits(&BITS16, 1 << (22 - column))
}

// What the table's columns stand for: the data bits, the check bits, and no error.
fn located16(column: u8) -> Located
    ensures { result ≡ located_column column }
{
    if column < 16 {
        Located::Data(column)
    } else if column < 22 {
        Located::Check(column - 16)
    } else {
        Located::Clean
    }
}

// How many entries of the 16-bit table agree with its code.
pub fn compare_sheet16(rt: &impl Print) -> io::Result<()> {
    let mut agreed = 0u32;
    for column in 0..23u8 {
        let syndrome = syndrome16(column);
        let agrees = compare_entry(
            rt,
            &Code16,
            syndrome,
            Some(located16(column)),
            &format_args!("column {column}"),
        )?;
        agreed = agreed.saturating_add(u32::from(agrees));
    }
    tell_agreed(rt, &Code16, agreed, 23, "the maker's 16-bit table")
}
