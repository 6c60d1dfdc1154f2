ghost use Rattle.std.specs.Prelude.{option_map};
ghost use Rattle.stmt_change.specs.Effects.{plain_file};
ghost use Rattle.file_value.specs.Reads.{files_seen};
ghost use Rattle.dt_session.specs.Answers.{sent};
ghost use Rattle.dt_session.specs.Outside.{outside, sink_seen};
ghost use Rattle.dt_session.specs.Puts.{IsFiled, IsPut, IsSent};

use dt_world::{Files, Sink, WriteFail};
use stmt_change::{Effect, Written};

/// Puts a piece at once; an empty one is not put. After want of memory nothing was.
pub fn put_piece<S: Sink>(sink: &mut S, piece: &[u8]) -> Result<(), WriteFail>
    ensures { IsPut (sink_seen S.bytes S.faults sink.old) (sink_seen S.bytes S.faults sink.new)
        piece.now result }
{
    if piece.is_empty() {
        return Ok(());
    }
    sink.put(piece)
}

/// Writes the file, if there is one to write.
#[tactic(auto, using(session_model::proofs::Parts::none_filed))]
fn write_file<F: Files>(files: &mut F, file: &Option<Written>) -> Result<(), WriteFail>
    ensures { IsFiled
        (files_seen F.held F.read_faults F.misses F.longs F.write_faults files.old)
        (files_seen F.held F.read_faults F.misses F.longs F.write_faults files.new)
        (option_map plain_file file.now) result }
{
    match file {
        Some(file) => files.write(file.name.as_str(), &file.bytes),
        None => Ok(()),
    }
}

/// Puts an effect's text, writes its file, and puts the lines of its warnings, each at once.
pub fn put_all<F: Files, O: Sink, E: Sink>(
    effect: &Effect,
    lines: &[u8],
    files: &mut F,
    out: &mut O,
    err: &mut E,
) -> Result<(), WriteFail>
    ensures { IsSent
        (outside (files_seen F.held F.read_faults F.misses F.longs F.write_faults files.old)
        (sink_seen O.bytes O.faults out.old) (sink_seen E.bytes E.faults err.old))
        (outside (files_seen F.held F.read_faults F.misses F.longs F.write_faults files.new)
        (sink_seen O.bytes O.faults out.new) (sink_seen E.bytes E.faults err.new))
        (sent effect.now lines.now) result }
{
    put_piece(out, &effect.text)?;
    write_file(files, &effect.file)?;
    put_piece(err, lines)
}
