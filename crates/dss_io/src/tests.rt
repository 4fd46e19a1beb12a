ghost use Rattle.std.specs.Prelude.{◌≡◌, ◌≢◌, Err, IfOk};

use crate::{
    MemSink, MemSource, ReadStop, Sink, SinkStop, Source, SureSink, SureSource, read_all, write_all,
};
use std::alloc::Global;
use std::test::Fail;

// 111 bytes.
fn script() -> &'static [u8] {
    b"dss 1\nlevel U 0 -\nlevel S 2 a\nhost 1 U\nhost 2 U\nhost 5 S\nhost 6 S\nbegin\n\
        send 1 2 6869\ndeliver 1>2#0.0 to 2\nend\n"
}

// 57 bytes.
fn text_of_script() -> &'static [u8] {
    b"host 1 U\nsent 2 0\nhost 2 U\nfrom 1 6869\nhost 5 S\nhost 6 S\n"
}

// Where the count of faults is constant, no fault is answered.
fn read_surely(alloc: Global, source: &mut SureSource) -> Result<Vec<u8>, ReadStop>
    ensures no_fault { result ≢ Err ReadStop.Fault }
    ensures whole { IfOk result (λ text. text.items ≡ source.old) }
{
    read_all(alloc, source, 1000)
}

fn write_surely(sink: &mut SureSink, text: &[u8]) -> Result<(), SinkStop>
    ensures { result ≢ Err SinkStop.Failed }
{
    write_all(sink, text)
}

#[test]
fn a_sure_source_is_read_and_a_sure_sink_written(rt: HostRuntime) -> Result<(), Fail> {
    let alloc = rt.alloc();
    let mut source = SureSource::new(alloc, script())?;
    let text = read_surely(alloc, &mut source)?;
    assert!(rt; text.as_slice() == script());
    assert_eq!(rt; source.read(&mut [0; 4])?, 0);

    let mut sink = SureSink::new(alloc);
    write_surely(&mut sink, &text)?;
    assert_eq!(rt; sink.write(b"end\n")?, 4);
    assert_eq!(rt; sink.contents().len(), 115);
    assert!(rt; sink.contents().starts_with(&text));
    Ok(())
}

// What a reading up to a limit answers, and how many bytes it leaves.
#[test]
fn a_text_is_read_up_to_the_limit(rt: HostRuntime) -> Result<(), Fail> {
    let alloc = rt.alloc();
    for (limit, stop, left) in [
        (0, Some(ReadStop::TooMany), 110),
        (9, Some(ReadStop::TooMany), 101),
        (110, Some(ReadStop::TooMany), 0),
        (111, None, 0),
        (usize::MAX, None, 0),
    ] {
        let mut source = SureSource::new(alloc, script())?;
        assert_eq!(rt; read_all(alloc, &mut source, limit).err(), stop);
        let rest = read_all(alloc, &mut source, 111)?;
        assert_eq!(rt; rest.len(), left);
        assert!(rt; script().ends_with(&rest));
    }
    Ok(())
}

#[test]
fn a_read_fails_at_each_call(rt: HostRuntime) -> Result<(), Fail> {
    let alloc = rt.alloc();
    for call in 1..=112u64 {
        let mut source = MemSource::new(alloc, script(), 1, &[call])?;
        let stop = read_all(alloc, &mut source, 1000).err();
        assert!(rt; stop == Some(ReadStop::Fault), "at call {call}");
        let rest = read_all(alloc, &mut source, 1000)?;
        assert_eq!(rt; rest.len() as u64, 112 - call);
        assert!(rt; script().ends_with(&rest));
    }
    let mut source = MemSource::new(alloc, script(), 1, &[113])?;
    assert!(rt; read_all(alloc, &mut source, 1000)?.as_slice() == script());
    Ok(())
}

#[test]
fn a_write_fails_at_each_call(rt: HostRuntime) -> Result<(), Fail> {
    let alloc = rt.alloc();
    for call in 1..=7 {
        let mut sink = MemSink::new(alloc, 10, &[call])?;
        let (answer, written) = match call {
            7 => (Ok(()), 57),
            _ => (Err(SinkStop::Failed), 10 * (call - 1)),
        };
        assert!(rt;
            write_all(&mut sink, text_of_script()) == answer,
            "at call {call}"
        );
        assert_eq!(rt; sink.contents().len() as u64, written);
        assert!(rt; text_of_script().starts_with(sink.contents()));
    }
    Ok(())
}
