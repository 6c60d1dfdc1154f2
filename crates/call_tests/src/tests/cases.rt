//! Files that are refused, each with its line and why, and one that is read back.
use case_files::{Case, CasesFail, read_cases};
use std::alloc::Global;
use std::process::Abort;
use std::test::Fail;

/// A file, the line that is wrong and what is wrong there.
const REFUSED: [(&[u8], usize, &str); 33] = [
    (b"", 0, "no case"),
    (b"# a remark\nbefore\n|x <- 1L\n", 0, "no case"),
    (b"case a\nscript\nout\n|\xff\n", 4, "not UTF-8"),
    (b"case a\nscrpt\nout\n", 2, "not a line of a file of cases"),
    (
        b"case a\nscript \nout\n",
        2,
        "not a line of a file of cases",
    ),
    (b"#a remark\n", 1, "not a line of a file of cases"),
    (b"case\nscript\nout\n", 1, "not a line of a file of cases"),
    (b"case \nscript\nout\n", 1, "not a line of a file of cases"),
    (
        b"case a\nscript x\nout\n",
        2,
        "not a line of a file of cases",
    ),
    (
        b"case a\r\nscript\r\nout\r\n",
        2,
        "not a line of a file of cases",
    ),
    (
        b"case a\nscript\nstatus 256\n",
        3,
        "not a line of a file of cases",
    ),
    (
        b"case a\nscript\nstatus +1\n",
        3,
        "not a line of a file of cases",
    ),
    (
        b"case a\nscript\nstatus\n",
        3,
        "not a line of a file of cases",
    ),
    (
        b"case a\nscript\nout\n=\n",
        4,
        "not pairs of hexadecimal digits",
    ),
    (
        b"case a\nscript\nout\n=0g\n",
        4,
        "not pairs of hexadecimal digits",
    ),
    (
        b"case a\nscript\nout\n=0a 1\n",
        4,
        "not pairs of hexadecimal digits",
    ),
    (
        b"case a\nscript\nout\n=+a\n",
        4,
        "not pairs of hexadecimal digits",
    ),
    (b"|x\n", 1, "text outside a part"),
    (b"case a\n|x\n", 2, "text outside a part"),
    (b"case a\nscript\nstatus 1\n>x\n", 4, "text outside a part"),
    (b"out\n|x\n", 1, "a part ahead of the first case"),
    (
        b"before\n|x\nfile f.csv\n",
        3,
        "a part ahead of the first case",
    ),
    (b"case a\nbefore\n", 2, "'before' behind a case"),
    (b"before\nbefore\n", 2, "a part twice"),
    (b"case a\nscript\nout\nerr\n\nout\n", 6, "a part twice"),
    (b"case a\nscript\nstatus 0\nstatus 0\n", 4, "a part twice"),
    (
        b"case a\nscript\nfile f\nwrote f\nfile f\n",
        5,
        "a file twice",
    ),
    (b"case a\nscript\nwrote f\nwrote f\n", 4, "a file twice"),
    (
        b"\ncase a\nfile script.dq\nout\nscript\n",
        2,
        "a file twice",
    ),
    (
        b"case a\nscript\nout\ncase b\nscript\nout\ncase a\n",
        7,
        "two cases of one name",
    ),
    (
        b"# bytes\ncase a\nwords\n=ff\nout\n",
        2,
        "words that are not UTF-8",
    ),
    (
        b"case a\nout\n|x\ncase b\n",
        1,
        "a case without a script and without words",
    ),
    (
        b"case a\nscript\n|x\nfile f\n",
        1,
        "a case that wants nothing",
    ),
];

fn is_refused(alloc: Global, bytes: &[u8], line: usize, message: &str) -> bool {
    match read_cases(alloc, bytes) {
        Err(CasesFail::Wrong(at, wrong)) => at == line && wrong.message() == message,
        _ => false,
    }
}

#[test]
fn wrong_files_are_refused(rt: HostRuntime) {
    for (bytes, line, message) in REFUSED {
        assert!(rt;
            is_refused(rt.alloc(), bytes, line, message),
            "line {line}: {message}"
        );
    }
}

const GOOD: &[u8] = b"# Two cases.\n#\nbefore\n|a <- 1L\n\ncase it is put, and written\n\
script\n|a\n>b\nfile f.csv\nfile g.csv\n>x,y\n=0d 0A\nwrote h.csv\n|x\nout\n|[1] 1\n# more\n|\n\
err\n|Warning W06\n|Error E02\n\ncase words alone\nwords\n|--check\n|\n|s t\nstatus 2";

fn expect_first<R: Abort>(rt: &R, case: &Case) {
    assert_eq!(rt; case.name.as_str(), "it is put, and written");
    assert_eq!(rt; case.line, 6);
    assert!(rt;
        matches!(&case.script, Some(script) if script.as_slice() == b"a <- 1L\na\nb".as_slice())
    );
    assert_eq!(rt; case.words.len(), 1);
    assert_eq!(rt; case.words[0].as_str(), "script.dq");
    assert_eq!(rt; case.out.as_slice(), b"[1] 1\n\n".as_slice());
    assert_eq!(rt; case.err.as_slice(), b"Warning W06\nError E02\n".as_slice());
    assert_eq!(rt; case.wanted_status(), 1);
    assert_eq!(rt; case.given.len(), 2);
    assert_eq!(rt; case.given[0].0.as_str(), "f.csv");
    assert_eq!(rt; case.given[0].1.len(), 0);
    assert_eq!(rt; case.given[1].0.as_str(), "g.csv");
    assert_eq!(rt; case.given[1].1.as_slice(), b"x,y\r\n".as_slice());
    assert_eq!(rt; case.written.len(), 1);
    assert_eq!(rt; case.written[0].0.as_str(), "h.csv");
    assert_eq!(rt; case.written[0].1.as_slice(), b"x\n".as_slice());
}

fn expect_second<R: Abort>(rt: &R, case: &Case) {
    assert_eq!(rt; case.name.as_str(), "words alone");
    assert_eq!(rt; case.line, 24);
    assert!(rt; case.script.is_none());
    assert_eq!(rt; case.words.len(), 3);
    assert_eq!(rt; case.words[0].as_str(), "--check");
    assert_eq!(rt; case.words[1].as_str(), "");
    assert_eq!(rt; case.words[2].as_str(), "s t");
    assert_eq!(rt; case.wanted_status(), 2);
    assert!(rt; case.out.is_empty() && case.err.is_empty());
    assert!(rt; case.given.is_empty() && case.written.is_empty());
}

#[test]
fn a_good_file_is_read_back(rt: HostRuntime) {
    match read_cases(rt.alloc(), GOOD) {
        Ok(cases) => {
            assert_eq!(rt; cases.len(), 2);
            expect_first(&rt, &cases[0]);
            expect_second(&rt, &cases[1]);
        }
        Err(_) => assert!(rt; false, "it is refused"),
    }
}
