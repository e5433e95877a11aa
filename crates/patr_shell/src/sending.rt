//! Texts that are written whole.
ghost use Rattle.std.specs.Prelude.{◌≡◌, length, OnOk, OnErr, is_err};
ghost use Rattle.std.specs.Io.KnownBytes.{Appends};
ghost use Rattle.patr_io.specs.Causes.{HasCause};
ghost use Rattle.patr_shell.specs.Sent.{AppendsFront, PassesOn};

use patr_io::{Failed, Sink};

/// Writes a text by as many writes as the sink needs.
fn write_whole<K: Sink>(sink: &mut K, text: &[u8]) -> Result<(), Failed>
    ensures ok { OnOk result (Appends (K.written sink.old) (K.written sink.new) text.now) }
    ensures err { OnErr result (AppendsFront (K.written sink.old) (K.written sink.new) text.now) }
    ensures cause { HasCause (K.faults sink.old) (K.faults sink.new) (is_err result) }
    ensures flushed { K.flushed sink.new ≡ K.flushed sink.old }
{
    let mut rest = text;
    while !rest.is_empty() {
        let count = sink.write(rest)?;
        rest = &rest[count..];
    }
    Ok(())
}

/// Writes a text and passes it on. Of no text nothing is written, and nothing passed on.
pub fn send<K: Sink>(sink: &mut K, text: &[u8]) -> Result<(), Failed>
    ensures ok { OnOk result (Appends (K.written sink.old) (K.written sink.new) text.now) }
    ensures err { OnErr result (AppendsFront (K.written sink.old) (K.written sink.new) text.now) }
    ensures cause { HasCause (K.faults sink.old) (K.faults sink.new) (is_err result) }
    ensures silent { length text.now ≡ 0 → sink.new ≡ sink.old }
    ensures flushed { PassesOn (is_err result) (K.written sink.old) (K.written sink.new)
        (K.flushed sink.old) (K.flushed sink.new) }
{
    if text.is_empty() {
        return Ok(());
    }
    write_whole(sink, text)?;
    sink.flush()
}
