// Channel files, whole and damaged, through the report of the program, against stored output; those of a register in registers.rt.
#![tactic(auto)]

mod registers;

use limits::FILE_LIMIT;
use std::io;
use std::io::Stdout;
use table_report::{REPORT_LENGTH, report};

// The report of a text. Its twin in registers.rt has the other report, with a length and a proof of its own.
fn show(stdout: Stdout, text: &[u8]) -> io::Result<()> {
    let mut out = [0u8; REPORT_LENGTH];
    let answer = report(text, &mut out);
    if let Ok(length) = answer {
        stdout.write_all(&out[..length])?;
    }
    Ok(())
}

// A whole file, and set-ups.
const SET_UPS: &[&str] = &[
    // whole
    "events=2\nvalues=4\ntop=3\nmeet=0 0 0 0 0 1 0 1 0 0 2 2 0 1 2 3\nrule=A O1.1 V G1 X0\n",
    // events 0, refusal 1
    "events=0\nvalues=4\ntop=3\nmeet=0 0 0 0 0 1 0 1 0 0 2 2 0 1 2 3\nrule=T\n",
    // events 258, refusal 1, no wrap to 2
    "events=258\nvalues=4\ntop=3\nmeet=0 0 0 0 0 1 0 1 0 0 2 2 0 1 2 3\nrule=T\n",
    // top not below values, refusal 2
    "events=2\nvalues=4\ntop=4\nmeet=0 0 0 0 0 1 0 1 0 0 2 2 0 1 2 3\nrule=T\n",
    // a law broken, refusal 3
    "events=2\nvalues=4\ntop=3\nmeet=0 0 0 0 0 1 0 1 0 0 2 2 0 1 2 2\nrule=T\n",
    // an entry of 256, refusal 3
    "events=2\nvalues=1\ntop=0\nmeet=256\nrule=T\n",
];

const FORMS: &[&str] = &[
    // nothing, 4 at 0
    "",
    // a carriage return, 4 at 8
    "events=2\r\n",
    // a leading zero, 4 at 8
    "events=01\n",
    // a fourth digit, 4 at 10
    "events=1234\n",
    // no last byte 10, 4 at the length
    "events=2\nvalues=4\ntop=3\nmeet=0 0 0 0 0 1 0 1 0 0 2 2 0 1 2 3\nrule=T",
    // two spaces, 4 at the second
    "events=2\nvalues=4\ntop=3\nmeet=0 0 0 0 0 1 0 1 0 0 2 2 0 1 2 3\nrule=A  T T\n",
    // no item, 4 at the byte 10
    "events=2\nvalues=4\ntop=3\nmeet=0 0 0 0 0 1 0 1 0 0 2 2 0 1 2 3\nrule=\n",
    // a byte after the fifth line
    "events=2\nvalues=4\ntop=3\nmeet=0 0 0 0 0 1 0 1 0 0 2 2 0 1 2 3\nrule=T\n.",
];

const RULES: &[&str] = &[
    // G9, 6 at 1 and not 7
    "events=2\nvalues=4\ntop=3\nmeet=0 0 0 0 0 1 0 1 0 0 2 2 0 1 2 3\nrule=T G9\n",
    // G300, 6 at 0
    "events=2\nvalues=4\ntop=3\nmeet=0 0 0 0 0 1 0 1 0 0 2 2 0 1 2 3\nrule=G300 T\n",
    // nodes run out, 7 at 2
    "events=2\nvalues=4\ntop=3\nmeet=0 0 0 0 0 1 0 1 0 0 2 2 0 1 2 3\nrule=A T\n",
    // nodes left over, 7 at 1
    "events=2\nvalues=4\ntop=3\nmeet=0 0 0 0 0 1 0 1 0 0 2 2 0 1 2 3\nrule=T T\n",
    // X0, 8 at 0
    "events=2\nvalues=4\ntop=3\nmeet=0 0 0 0 0 1 0 1 0 0 2 2 0 1 2 3\nrule=X0\n",
    // X256 is no X0, 8 at 2
    "events=2\nvalues=4\ntop=3\nmeet=0 0 0 0 0 1 0 1 0 0 2 2 0 1 2 3\nrule=V G0 X256\n",
    // 8 before 9, 8 at 4
    "events=2\nvalues=4\ntop=3\nmeet=0 0 0 0 0 1 0 1 0 0 2 2 0 1 2 3\nrule=V A X0 G0 X5\n",
    // thirteen binders in a row, and in the second part of an A, refusal 23; twelve have a table
    "events=2\nvalues=4\ntop=3\nmeet=0 0 0 0 0 1 0 1 0 0 2 2 0 1 2 3\nrule=V V V V V V V V V V V V V T\n",
    "events=2\nvalues=4\ntop=3\nmeet=0 0 0 0 0 1 0 1 0 0 2 2 0 1 2 3\nrule=A T V V V V V V V V V V V V V T\n",
    "events=2\nvalues=4\ntop=3\nmeet=0 0 0 0 0 1 0 1 0 0 2 2 0 1 2 3\nrule=V V V V V V V V V V V V T\n",
    // 23 before 9
    "events=2\nvalues=4\ntop=3\nmeet=0 0 0 0 0 1 0 1 0 0 2 2 0 1 2 3\nrule=V V V V V V V V V V V V V X0\n",
    // 9 at 1
    "events=2\nvalues=4\ntop=3\nmeet=0 0 0 0 0 1 0 1 0 0 2 2 0 1 2 3\nrule=V X0\n",
];

const AT_LIMITS: &[&str] = &[
    // 257 items, refusal 5
    "events=2\nvalues=4\ntop=3\nmeet=0 0 0 0 0 1 0 1 0 0 2 2 0 1 2 3\nrule=\
        T T T T T T T T T T T T T T T T T T T T T T T T T T T T T T T T T T T T T T T T T T T T T T T T T T \
        T T T T T T T T T T T T T T T T T T T T T T T T T T T T T T T T T T T T T T T T T T T T T T T T T T \
        T T T T T T T T T T T T T T T T T T T T T T T T T T T T T T T T T T T T T T T T T T T T T T T T T T \
        T T T T T T T T T T T T T T T T T T T T T T T T T T T T T T T T T T T T T T T T T T T T T T T T T T \
        T T T T T T T T T T T T T T T T T T T T T T T T T T T T T T T T T T T T T T T T T T T T T T T T T T \
        T T T T T T T\n",
    // G0 64 times, then T: 65 states
    "events=2\nvalues=4\ntop=3\nmeet=0 0 0 0 0 1 0 1 0 0 2 2 0 1 2 3\nrule=\
        G0 G0 G0 G0 G0 G0 G0 G0 G0 G0 G0 G0 G0 G0 G0 G0 G0 G0 G0 G0 G0 G0 G0 G0 G0 G0 G0 G0 G0 G0 G0 G0 G0 \
        G0 G0 G0 G0 G0 G0 G0 G0 G0 G0 G0 G0 G0 G0 G0 G0 G0 G0 G0 G0 G0 G0 G0 G0 G0 G0 G0 G0 G0 G0 G0 T\n",
    // G0, then loops of 15 and of 17 states joined: 1 and 255 states and the empty one, refusal 10
    "events=2\nvalues=4\ntop=3\nmeet=0 0 0 0 0 1 0 1 0 0 2 2 0 1 2 3\nrule=\
        G0 A V G0 G0 G0 G0 G0 G0 G0 G0 G0 G0 G0 G0 G0 G0 G0 X0 V G0 G0 G0 G0 G0 G0 G0 G0 G0 G0 G0 G0 G0 G0 \
        G0 G0 G0 X0\n",
    // loops of 16 and of 17 states joined: 272 states and the empty one, refusal 10
    "events=2\nvalues=4\ntop=3\nmeet=0 0 0 0 0 1 0 1 0 0 2 2 0 1 2 3\nrule=\
        A V G0 G0 G0 G0 G0 G0 G0 G0 G0 G0 G0 G0 G0 G0 G0 G0 X0 V G0 G0 G0 G0 G0 G0 G0 G0 G0 G0 G0 G0 G0 G0 \
        G0 G0 G0 X0\n",
];

fn show_all(stdout: Stdout, texts: &[&str]) -> io::Result<()> {
    for text in texts {
        show(stdout, text.as_bytes())?;
    }
    Ok(())
}

fn main(rt: HostRuntime) -> io::Result<()> {
    let stdout = rt.stdout();
    show_all(stdout, SET_UPS)?;
    show_all(stdout, FORMS)?;
    show_all(stdout, RULES)?;
    // 4,097 bytes, 4 at 4,096
    show(stdout, &[0; FILE_LIMIT + 1])?;
    show_all(stdout, AT_LIMITS)?;
    registers::show_all(stdout)
}
