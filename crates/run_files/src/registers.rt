// Channel files of a register (document 02, F-7), likewise.
use limits::FILE_LIMIT;
use std::io;
use std::io::Stdout;
use table_report::registers::{REPORT_LENGTH, report};

fn show(stdout: Stdout, text: &[u8]) -> io::Result<()> {
    let mut out = [0u8; REPORT_LENGTH];
    let answer = report(text, &mut out);
    if let Ok(length) = answer {
        stdout.write_all(&out[..length])?;
    }
    Ok(())
}

const SET_UPS: &[&str] = &[
    // whole
    "events=2\nlines=16\nrule=A O1.65535.65534 V G1 X0\n",
    // no lines, refusal 20
    "events=2\nlines=0\nrule=T\n",
    // one line
    "events=2\nlines=1\nrule=T\n",
    // 17 lines, refusal 20
    "events=2\nlines=17\nrule=T\n",
    // 272 lines, refusal 20, no wrap to 16
    "events=2\nlines=272\nrule=T\n",
    // 1 before 20
    "events=17\nlines=17\nrule=T\n",
    // 20 before 6
    "events=2\nlines=17\nrule=G2 T\n",
];

const MASKS: &[&str] = &[
    // the largest of three lines
    "events=2\nlines=3\nrule=O0.7.0\n",
    // one more, 6 at its node, low and high
    "events=2\nlines=3\nrule=O0.8.0\n",
    "events=2\nlines=3\nrule=A T O0.0.8\n",
    // 65536 is no 0, and 99999 is in the form: 6 at 0, 6 at 2
    "events=2\nlines=16\nrule=O0.65536.0\n",
    "events=2\nlines=16\nrule=A T O0.0.99999\n",
    // 100000, 4 at its sixth digit, low and high
    "events=2\nlines=16\nrule=O0.100000.0\n",
    "events=2\nlines=16\nrule=O0.0.100000\n",
    // a leading zero, 4 at the digit behind it
    "events=2\nlines=16\nrule=O0.01.0\n",
    // one mask, 4 at the byte 10
    "events=2\nlines=16\nrule=O0.1\n",
    // of two lines, the first low and the second high; joined with another, the meet of each mask
    "events=2\nlines=2\nrule=O0.1.2\n",
    "events=2\nlines=2\nrule=A O0.1.2 O0.3.1\n",
];

const FORMS: &[&str] = &[
    // nothing, 4 at 0
    "",
    // a line of document 01's file, 4 where `lines=` is left
    "events=2\nvalues=4\ntop=3\nmeet=0 0 0 0 0 1 0 1 0 0 2 2 0 1 2 3\nrule=T\n",
    // a fourth digit of lines, and of an event before masks
    "events=2\nlines=1234\nrule=T\n",
    "events=2\nlines=16\nrule=O1000.0.0\n",
    // no last byte 10, 4 at the length
    "events=2\nlines=16\nrule=T",
    // a byte after the third line
    "events=2\nlines=16\nrule=T\n.",
];

const RULES: &[&str] = &[
    // O9, 6 at 1 and not 7
    "events=2\nlines=16\nrule=T O9.0.0\n",
    // G300, 6 at 0
    "events=2\nlines=16\nrule=G300 T\n",
    // nodes run out, 7 at 2; nodes left over, 7 at 1
    "events=2\nlines=16\nrule=A T\n",
    "events=2\nlines=16\nrule=T T\n",
    // X256 is no X0, 8 at 2
    "events=2\nlines=16\nrule=V G0 X256\n",
    // thirteen binders in a row, refusal 23; 9 at 1
    "events=2\nlines=16\nrule=V V V V V V V V V V V V V T\n",
    "events=2\nlines=16\nrule=V X0\n",
];

const AT_LIMITS: &[&str] = &[
    // 257 items, refusal 5
    "events=2\nlines=16\nrule=\
        T T T T T T T T T T T T T T T T T T T T T T T T T T T T T T T T T T T T T T T T T T T T T T T T T T \
        T T T T T T T T T T T T T T T T T T T T T T T T T T T T T T T T T T T T T T T T T T T T T T T T T T \
        T T T T T T T T T T T T T T T T T T T T T T T T T T T T T T T T T T T T T T T T T T T T T T T T T T \
        T T T T T T T T T T T T T T T T T T T T T T T T T T T T T T T T T T T T T T T T T T T T T T T T T T \
        T T T T T T T T T T T T T T T T T T T T T T T T T T T T T T T T T T T T T T T T T T T T T T T T T T \
        T T T T T T T\n",
    // loops of 16 and of 17 states joined: 272 states and the empty one, refusal 10
    "events=2\nlines=16\nrule=\
        A V G0 G0 G0 G0 G0 G0 G0 G0 G0 G0 G0 G0 G0 G0 G0 G0 X0 V G0 G0 G0 G0 G0 G0 G0 G0 G0 G0 G0 G0 G0 G0 \
        G0 G0 G0 X0\n",
];

pub fn show_all(stdout: Stdout) -> io::Result<()> {
    for texts in [SET_UPS, MASKS, FORMS, RULES] {
        for text in texts {
            show(stdout, text.as_bytes())?;
        }
    }
    // 4,097 bytes, 4 at 4,096
    show(stdout, &[0; FILE_LIMIT + 1])?;
    for text in AT_LIMITS {
        show(stdout, text.as_bytes())?;
    }
    Ok(())
}
