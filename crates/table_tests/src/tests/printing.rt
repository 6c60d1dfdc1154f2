//! The lines of faults and warnings that no script comes to yet, and of a file that is too long to
//! be written down.
use dt_base::{Code, Fault, Text, Warns};
use dt_print::{fault_line, warn_lines};
use std::test::Fail;

/// A fault, the line of the script, and what is printed.
#[derive(Clone, Copy)]
struct Case {
    code: Code,
    what: &'static str,
    n: u64,
    m: u64,
    line: u32,
    wanted: &'static str,
}

const FAULTS: [Case; 7] = [
    Case {
        code: Code::E06,
        what: "sum",
        n: 1,
        m: 2,
        line: 2,
        wanted: "Error E06 at line 2: integer overflow in sum (group 1, expression 2)\n",
    },
    Case {
        code: Code::E10,
        what: "",
        n: 0,
        m: 0,
        line: 3,
        wanted: "Error E10 at line 3: no key\n",
    },
    Case {
        code: Code::E11,
        what: "",
        n: 9,
        m: 7,
        line: 4,
        wanted: "Error E11 at line 4: join of 9 rows where 7 are permitted\n",
    },
    Case {
        code: Code::E14,
        what: "x",
        n: 2,
        m: 0,
        line: 7,
        wanted: "Error E14 at line 7: bad interval in x, row 2\n",
    },
    Case {
        code: Code::E16,
        what: "s.dq",
        n: 1_048_576,
        m: 0,
        line: 0,
        wanted: "Error E16 at line 0: file 's.dq' is longer than 1048576 bytes\n",
    },
    Case {
        code: Code::E23,
        what: "",
        n: 0,
        m: 0,
        line: 1,
        wanted: "Error E23 at line 1: y has no key of two columns\n",
    },
    Case {
        code: Code::E24,
        what: "",
        n: 0,
        m: 0,
        line: 1,
        wanted: "Error E24 at line 1: columns differ\n",
    },
];

#[test]
fn faults(rt: HostRuntime) -> Result<(), Fail> {
    let alloc = rt.alloc();
    for case in &FAULTS {
        let what = Text::make(alloc, case.what)?;
        let f = Fault {
            code: case.code,
            what,
            n: case.n,
            m: case.m,
        };
        let line = fault_line(alloc, case.line, &f)?;
        assert_eq!(&rt; line.as_slice(), case.wanted.as_bytes());
    }
    Ok(())
}

const ALL_WARNS: Warns = Warns {
    w01: true,
    w02: true,
    w03: true,
    w04: true,
    w05: true,
    w06: true,
};

const ALL_LINES: &str = "Warning W01 at line 12: integer became TRUE\n\
    Warning W02 at line 12: text became NA\n\
    Warning W03 at line 12: min or max of nothing\n\
    Warning W04 at line 12: dcast counts duplicates\n\
    Warning W05 at line 12: melt joins several types\n\
    Warning W06 at line 12: column names repaired\n";

#[test]
fn warnings(rt: HostRuntime) -> Result<(), Fail> {
    let lines = warn_lines(rt.alloc(), 12, ALL_WARNS)?;
    assert_eq!(rt; lines.as_slice(), ALL_LINES.as_bytes());
    Ok(())
}
