ghost use Rattle.std.specs.Prelude.{◌≡◌, ◌<◌};
ghost use Rattle.expr_scope.specs.Scope.{IsScope};

use crate::tests::surroundings::{NoNames, parts, scope};
use dt_base::{ColType, Steps};
use dt_print::{fault_line, vector_text};
use dt_script::{Expr, parse};
use eval_fail::EvalFail;
use expr_eval::{Scope, check, eval};
use std::alloc::{AllocError, Global};
use std::marker::Brand;
use std::process::Abort;
use std::sync::ledger::{Blank, Ledger};
use std::test::Fail;

/// An expression, and what it prints: its value, or its fault.
type Row = (&'static [u8], &'static str);

/// The shared row's column `g`: its one cell stands beside each of `a`.
const SHARED: [Row; 4] = [
    (b"g", "[1] 4\n"),
    (b"-a + g", "[1] -1 NA 11\n"),
    (b"a - g", "[1] 1 NA -11\n"),
    (b"g * a", "[1] 20 NA -28\n"),
];

/// Special names of which a script is told first that nothing serves them.
const SPECIAL: [Row; 2] = [
    (b".GRP", "Error E03 at line 1: unknown column '.GRP'\n"),
    (b".SD", "Error E04 at line 1: wrong type in .SD\n"),
];

/// Calls of which a script is told first that nothing serves them: without a look at their
/// arguments.
const CALLS: [Row; 8] = [
    (b"key(D)", "Error E04 at line 1: wrong type in key\n"),
    (
        b"indices(D)",
        "Error E04 at line 1: wrong type in indices\n",
    ),
    (b"order(z)", "Error E04 at line 1: wrong type in order\n"),
    (b"lapply(z)", "Error E04 at line 1: wrong type in lapply\n"),
    (b"J(z)", "Error E04 at line 1: wrong type in J\n"),
    (
        b"dcast(D, v ~ w)",
        "Error E04 at line 1: wrong type in dcast\n",
    ),
    (b"setkey(D)", "Error E19 at line 1: bad argument 'setkey'\n"),
    (
        b"options()",
        "Error E19 at line 1: bad argument 'options'\n",
    ),
];

/// In the second group.
const GROUPED: [Row; 3] = [
    (b".GRP", "[1] 2\n"),
    (b"a * .GRP", "[1] 10 NA -14\n"),
    (b"g + .GRP", "[1] 6\n"),
];

fn failed(alloc: Global, fail: EvalFail) -> Result<Vec<u8>, AllocError> {
    match fail {
        EvalFail::Stop(fault) => fault_line(alloc, 1, &fault),
        EvalFail::NoMemory(e) => Err(e),
    }
}

/// What an expression whose type is checked prints.
fn value_text<L: Ledger>(
    alloc: Global,
    e: &Expr,
    kind: ColType,
    s: &Scope<'_, NoNames>,
    steps: &mut Steps<L>,
) -> Result<Vec<u8>, AllocError>
    requires { IsScope s.now }
{
    match eval(alloc, e, s, steps) {
        Ok(value) => {
            if value.column.kind() != kind {
                return Vec::from_slice(alloc, b"another type");
            }
            vector_text(alloc, &value.column, steps)
        }
        Err(fail) => failed(alloc, fail),
    }
}

/// What an expression prints.
fn outcome<L: Ledger>(
    alloc: Global,
    e: &Expr,
    s: &Scope<'_, NoNames>,
    steps: &mut Steps<L>,
) -> Result<Vec<u8>, AllocError>
    requires { IsScope s.now }
{
    match check(alloc, e, s) {
        Ok(kind) => value_text(alloc, e, kind, s, steps),
        Err(fail) => failed(alloc, fail),
    }
}

fn row<L: Ledger, R: Abort>(
    rt: &R,
    alloc: Global,
    text: &[u8],
    s: &Scope<'_, NoNames>,
    steps: &mut Steps<L>,
) -> Result<Vec<u8>, Fail>
    requires { IsScope s.now }
{
    assert!(rt; text.len() <= 1_048_576);
    let script = parse(alloc, text).ok().ok_or("no script")?;
    let stmt = script.stmts.as_slice().first().ok_or("no statement")?;
    Ok(outcome(alloc, &stmt.expr, s, steps)?)
}

fn compare<L: Ledger, R: Abort>(
    rt: &R,
    alloc: Global,
    table: &[Row],
    s: &Scope<'_, NoNames>,
    steps: &mut Steps<L>,
) -> Result<(), Fail>
    requires { IsScope s.now }
{
    for (text, wanted) in table {
        let got = row(rt, alloc, text, s, steps)?;
        assert!(rt; got.as_slice() == wanted.as_bytes(), "{wanted}");
    }
    Ok(())
}

fn all_rows<L: Ledger, R: Abort>(rt: &R, alloc: Global, blank: Blank) -> Result<(), Fail>
    requires name { blank.name ≡ L.name }
    requires parts { blank.parts ≡ L.parts }
    requires some { 0 < blank.parts }
{
    let mut steps = Steps::<L>::new(blank);
    let rows = parts(alloc)?;
    let no_group = scope(&rows, &NoNames, 0).ok_or("no bracket")?;
    compare(rt, alloc, &SHARED, &no_group, &mut steps)?;
    compare(rt, alloc, &SPECIAL, &no_group, &mut steps)?;
    compare(rt, alloc, &CALLS, &no_group, &mut steps)?;
    let grouped = scope(&rows, &NoNames, 2).ok_or("no group")?;
    compare(rt, alloc, &GROUPED, &grouped, &mut steps)
}

#[test]
fn expressions(rt: HostRuntime) -> Result<(), Fail> {
    all_rows::<Brand, HostRuntime>(&rt, rt.alloc(), Blank::new(1))
}
