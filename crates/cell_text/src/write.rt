ghost use Rattle.std.specs.Prelude.{◌≡◌, ◌++◌, OnOk, OnErr};
ghost use Rattle.std.specs.Fmt.{signed_decimal};
ghost use Rattle.dt_model.specs.Spelling as spelling;

use itoa::Buffer;
use std::alloc::AllocError;

/// Writes the decimal text of `n` after what stands in `out`. Where memory lacks, `out` stays as it
/// was.
pub fn push_integer(out: &mut Vec<u8>, n: i64) -> Result<(), AllocError>
    ensures ok { OnOk result (out.new.items ≡ out.old.items ++ signed_decimal n) }
    ensures err { OnErr result (out.new.items ≡ out.old.items) }
{
    let mut buffer = Buffer::new();
    out.extend_from_slice(buffer.format(n).as_bytes())
}

/// `TRUE` or `FALSE`.
pub fn truth_text(b: bool) -> &'static str
    ensures { result.now ≡ spelling.truth_text b }
{
    if b { "TRUE" } else { "FALSE" }
}
