//! What a verdict puts out.

ghost use Rattle.std.specs.Prelude.{◌≡◌, ◌≤◌, ◌⊎◌, true, false, OnOk, OnErr};
ghost use Rattle.ssu_io.specs.Bytes.{Gains, GainsPrefix};
ghost use Rattle.ssu_io.specs.Faults.{HasCause, Rose};
ghost use Rattle.ssu_io.specs.Seen.{StopsWriting, sink_seen};
ghost use Rattle.tool_load.specs.Printed.{line_of as line_of_verdict, made_of, is_loaded};

use ssu_answer::Verdict;
use ssu_io::{Failed, Sink};
use ssu_line::{Line, loaded};

/// Puts the image of a group that is loaded.
fn put_made<W: Sink>(verdict: &Verdict, image: &[u8], made: &mut W) -> Result<(), Failed>
    ensures whole { OnOk result (Gains (W.contents made.old) (W.contents made.new) (made_of verdict.now image.now)) }
    ensures prefix { OnErr result (GainsPrefix (W.contents made.old) (W.contents made.new) (made_of verdict.now image.now)) }
    ensures cause { HasCause (W.faults made.old) (W.faults made.new) result }
    ensures only_loaded { OnErr result (is_loaded verdict.now ≡ true) }
    ensures kept { is_loaded verdict.now ≡ false → made.new ≡ made.old }
{
    match verdict {
        Verdict::Installed(_) => made.put(image),
        Verdict::Nothing(_) => Ok(()),
        Verdict::Incomplete(_, _) => Ok(()),
        Verdict::BadModule(_, _, _) => Ok(()),
        Verdict::Unsettled => Ok(()),
    }
}

/// The line of a verdict.
fn line_of(verdict: &Verdict) -> Line
    ensures { result.bytes ≡ line_of_verdict verdict.now }
{
    match verdict {
        Verdict::Installed(chosen) => loaded(chosen.group, chosen.bytes),
        other => ssu_line::verdict(*other),
    }
}

/// Puts the image, and then the line.
pub(crate) fn put_verdict<W: Sink, T: Sink>(
    verdict: &Verdict,
    image: &[u8],
    made: &mut W,
    out: &mut T,
) -> Result<(), Failed>
    ensures makes { OnOk result (Gains (W.contents made.old) (W.contents made.new) (made_of verdict.now image.now)) }
    ensures prints { OnOk result (Gains (T.contents out.old) (T.contents out.new) (line_of_verdict verdict.now)) }
    ensures failed { OnErr result (StopsWriting (sink_seen W.Sink made.old made.new) (sink_seen T.Sink out.old out.new)
        (made_of verdict.now image.now) (line_of_verdict verdict.now)) }
    ensures cause { OnErr result (Rose (W.faults made.old) (W.faults made.new) ⊎ Rose (T.faults out.old) (T.faults out.new)) }
    ensures out_cause { OnErr result (is_loaded verdict.now ≡ false → Rose (T.faults out.old) (T.faults out.new)) }
    ensures kept { is_loaded verdict.now ≡ false → made.new ≡ made.old }
    ensures made_later { W.faults made.old ≤ W.faults made.new }
    ensures out_later { T.faults out.old ≤ T.faults out.new }
{
    put_made(verdict, image, made)?;
    out.put(line_of(verdict).as_bytes())
}
