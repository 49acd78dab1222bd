// Scripts at their edges, run as the program runs them.
use script::{Report, run_session};
use std::io;

// Runs a script with so much room for output, and prints the report.
fn tell_edge(rt: &impl Print, what: &str, script: &[u8], out: &mut [u8]) -> io::Result<()> {
    let room = out.len();
    match run_session(script, out) {
        Ok(report) => println!(rt; "{what}, room {room}: {report:?}"),
        Err(_) => println!(rt; "{what}, room {room}: too long"),
    }
}

// A script that is refused line by line with 8 counts its lines all the same.
const REFUSED: &str =
    "\nR 000A\nR  0001\nR\t0001\nR 0001 \nR 001\nR 00001\nr 0001\nR 0001\r\nL 0\nW 0001\nI 0001 000\nR 0001";

// Too little room, lines that are refused, and the longest script.
pub fn tell_edges(rt: &impl Print) -> io::Result<()> {
    tell_edge(rt, "no line", b"", &mut [0u8; 32])?;
    tell_edge(rt, "one line, just enough room", b"C\n", &mut [0u8; 32])?;
    tell_edge(rt, "one line, a byte too little", b"C\n", &mut [0u8; 31])?;
    tell_edge(
        rt,
        "two lines, room for the second",
        b"C\nC\n",
        &mut [0u8; 35],
    )?;
    tell_edge(
        rt,
        "two lines, a byte too little for the second",
        b"C\nC\n",
        &mut [0u8; 34],
    )?;
    tell_edge(
        rt,
        "thirteen lines, all refused",
        REFUSED.as_bytes(),
        &mut [0u8; 400],
    )?;
    tell_edge(rt, "4,096 line feeds", &[b'\n'; 4096], &mut [0u8; 400])?;
    tell_edge(rt, "4,097 bytes", &[b'\n'; 4097], &mut [0u8; 400])
}
