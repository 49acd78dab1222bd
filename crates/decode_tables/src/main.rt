// Prints the decode table of each code, and holds the codes to the decode tables and equations that makers of such chips publish.
#![tactic(auto)]

mod equations;
mod published;
mod sheets;
mod tables;

use codes::{Cascaded64, Code16, Code32, Code64};
use equations::compare_equations;
use published::{FIRST32, FIRST64, SECOND32, SECOND64};
use sheets::{compare_sheet, compare_sheet16};
use std::io;
use tables::print_table;

fn main(rt: HostRuntime) -> io::Result<()> {
    print_table(&rt, &Code64)?;
    print_table(&rt, &Cascaded64)?;
    print_table(&rt, &Code32)?;
    print_table(&rt, &Code16)?;
    compare_sheet(&rt, &Code64, &FIRST64)?;
    compare_sheet(&rt, &Code64, &SECOND64)?;
    compare_sheet(&rt, &Cascaded64, &FIRST64)?;
    compare_sheet(&rt, &Cascaded64, &SECOND64)?;
    compare_sheet(&rt, &Code32, &FIRST32)?;
    compare_sheet(&rt, &Code32, &SECOND32)?;
    compare_sheet16(&rt)?;
    compare_equations(&rt)
}
