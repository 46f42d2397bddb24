ghost use Rattle.std.specs.Prelude.{◌≡◌, ◌<◌, true, false, IsTrue};
ghost use Rattle.cp_top.specs.Written.{HasPut};

use cp_io::Sink;

/// Puts a text on a sink that has not failed yet, and says whether it was put. An empty text is not put.
pub(crate) fn say<S: Sink>(out: &mut S, text: &[u8]) -> bool
    requires { S.faults out.old ≡ 0 }
    ensures written { HasPut (S.held out.old) text.now (S.faults out.new) (S.held out.new) }
    ensures whole { IsTrue result → S.faults out.new ≡ 0 }
    ensures failed { result ≡ false → 0 < S.faults out.new }
{
    if text.is_empty() {
        return true;
    }
    out.put(text).is_ok()
}
