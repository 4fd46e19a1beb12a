ghost use Rattle.std.specs.Prelude.{◌≡◌, ◌≤◌, OnOk, OnErr, IsErrOf};
ghost use Rattle.std.specs.Io.KnownBytes.{Appends};
ghost use Rattle.dss_io.specs.Faults.{Rose};
ghost use Rattle.dss_io.specs.Writing.{AppendsProperPrefix};

use crate::sink::{Sink, SinkStop};

/// Writes all of a text.
pub fn write_all<K: Sink>(sink: &mut K, text: &[u8]) -> Result<(), SinkStop>
    ensures ok { OnOk result (Appends (K.written sink.old) (K.written sink.new) text.now) }
    ensures err { OnErr result (AppendsProperPrefix (K.written sink.old) (K.written sink.new)
        text.now) }
    ensures later { K.faults sink.old ≤ K.faults sink.new }
    ensures kept { OnOk result (K.faults sink.new ≡ K.faults sink.old) }
    ensures failed { IsErrOf result SinkStop.Failed → Rose (K.faults sink.old) (K.faults sink.new) }
{
    let mut rest = text;
    while !rest.is_empty() {
        let count = sink.write(rest)?;
        rest = &rest[count..];
    }
    Ok(())
}
