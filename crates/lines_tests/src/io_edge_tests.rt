//! Each type in memory through its trait: the sizes of pieces, the calls that fail, the readings.
ghost use Rattle.std.specs.Prelude.{◌<◌, length};

use io_edge::{
    Clock, MemClock, MemLink, MemSink, MemSource, MemSpawner, ReadAnswer, Sink, Source, Spawner,
    StartFault, StepClock, SureSink, SureSource, WriteAnswer, write_all,
};
use std::alloc::{AllocError, Global};
use std::process::Abort;
use std::test::Fail;

/// Reads into a buffer of eight bytes, and compares each answer and all bytes that came.
fn expect_reads<R: Abort, S: Source>(
    rt: &R,
    alloc: Global,
    source: &mut S,
    answers: &[ReadAnswer],
    bytes: &[u8],
) -> Result<(), AllocError> {
    let mut seen = Vec::new(alloc);
    for answer in answers {
        let mut buffer = [0u8; 8];
        let found = source.read(&mut buffer);
        assert_eq!(rt; found, *answer);
        if let ReadAnswer::Got(count) = found {
            seen.extend_from_slice(&buffer[..count])?;
        }
    }
    assert_eq!(rt; seen.as_slice(), bytes);
    Ok(())
}

/// Reads the clock, and compares each reading.
fn expect_readings<R: Abort, C: Clock>(rt: &R, clock: &mut C, readings: &[u64]) {
    for reading in readings {
        assert_eq!(rt; clock.now(), *reading);
    }
}

/// Starts a program, reads what it says, tells it something and closes it; or sees the start fail.
fn expect_start<R: Abort, P: Spawner>(
    rt: &R,
    alloc: Global,
    spawner: &mut P,
    words: &[String],
    says: Option<&[u8]>,
) -> Result<(), AllocError>
where
    P::Engine: Drop,
    requires { 0 < length words.now }
{
    match (spawner.start(words), says) {
        (Ok(mut link), Some(text)) => {
            expect_reads(rt, alloc, &mut link, &[ReadAnswer::Got(text.len())], text)?;
            assert!(rt; write_all(&mut link, b"told".as_slice()));
            spawner.close(link);
        }
        (Ok(link), None) => {
            spawner.close(link);
            assert!(rt; false, "a start that was to fail");
        }
        (Err(fault), _) => {
            assert_eq!(rt; fault, StartFault::Failed);
            assert!(rt; says.is_none());
        }
    }
    Ok(())
}

/// A source over these bytes, read to the end of the answers.
fn expect_source<R: Abort>(
    rt: &R,
    alloc: Global,
    pieces: &[usize],
    fails: &[u64],
    answers: &[ReadAnswer],
) -> Result<(), AllocError> {
    let bytes = Vec::from_slice(alloc, b"0123456789".as_slice())?;
    let pieces = Vec::from_slice(alloc, pieces)?;
    let mut source = MemSource::new(bytes, pieces, Vec::from_slice(alloc, fails)?);
    expect_reads(rt, alloc, &mut source, answers, b"0123456789".as_slice())
}

/// Writes ten bytes to a sink, and compares what it took until it failed.
fn expect_sink<R: Abort>(
    rt: &R,
    alloc: Global,
    pieces: &[usize],
    fails: &[u64],
    taken: &[u8],
) -> Result<(), AllocError> {
    let pieces = Vec::from_slice(alloc, pieces)?;
    let mut sink = MemSink::new(alloc, pieces, Vec::from_slice(alloc, fails)?);
    let all = write_all(&mut sink, b"0123456789".as_slice());
    assert_eq!(rt; all, taken.len() == 10);
    assert_eq!(rt; sink.bytes(), taken);
    Ok(())
}

/// A link that will say this, to which something was written before it was handed out.
fn link_of(alloc: Global, text: &[u8]) -> Result<MemLink, AllocError> {
    let bytes = Vec::from_slice(alloc, text)?;
    let source = MemSource::new(bytes, Vec::new(alloc), Vec::new(alloc));
    let mut sink = MemSink::new(alloc, Vec::new(alloc), Vec::new(alloc));
    let _ = write_all(&mut sink, b"before".as_slice());
    Ok(MemLink::new(source, sink))
}

/// A starter of two links, of which the second start fails.
fn spawner_of(alloc: Global) -> Result<MemSpawner, Fail> {
    let mut links = Vec::new(alloc);
    links.push(link_of(alloc, b"first".as_slice())?)?;
    links.push(link_of(alloc, b"second".as_slice())?)?;
    Ok(MemSpawner::new(alloc, links, Vec::from_slice(alloc, &[2])?))
}

/// Starts with one word.
fn start_once<R: Abort>(
    rt: &R,
    alloc: Global,
    spawner: &mut MemSpawner,
    says: Option<&[u8]>,
) -> Result<(), Fail> {
    let mut words = Vec::new(alloc);
    words.push(String::from_str(alloc, "engine")?)?;
    expect_start(rt, alloc, spawner, words.as_slice(), says)?;
    Ok(())
}

#[test]
fn sources(rt: HostRuntime) -> Result<(), Fail> {
    let whole = [ReadAnswer::Got(8), ReadAnswer::Got(2), ReadAnswer::End];
    expect_source(&rt, rt.alloc(), &[], &[], &whole)?;
    let sevens = [ReadAnswer::Got(7), ReadAnswer::Got(3), ReadAnswer::End];
    expect_source(&rt, rt.alloc(), &[7], &[], &sevens)?;
    let broken = [
        ReadAnswer::Got(7),
        ReadAnswer::Failed,
        ReadAnswer::Got(1),
        ReadAnswer::Got(2),
        ReadAnswer::Failed,
        ReadAnswer::End,
    ];
    expect_source(&rt, rt.alloc(), &[7, 1, 0, 2], &[2, 5], &broken)?;
    Ok(())
}

#[test]
fn sure_ones(rt: HostRuntime) -> Result<(), Fail> {
    let bytes = Vec::from_slice(rt.alloc(), b"abc".as_slice())?;
    let mut source = SureSource::new(bytes, Vec::from_slice(rt.alloc(), &[1, 2])?);
    let pieces = [ReadAnswer::Got(1), ReadAnswer::Got(2), ReadAnswer::End];
    expect_reads(&rt, rt.alloc(), &mut source, &pieces, b"abc".as_slice())?;
    assert!(rt; write_all(&mut SureSink::new(), b"abc".as_slice()));
    Ok(())
}

#[test]
fn sinks(rt: HostRuntime) -> Result<(), Fail> {
    let ten = b"0123456789".as_slice();
    expect_sink(&rt, rt.alloc(), &[], &[], ten)?;
    expect_sink(&rt, rt.alloc(), &[1], &[], ten)?;
    expect_sink(&rt, rt.alloc(), &[7], &[2], b"0123456".as_slice())?;
    expect_sink(&rt, rt.alloc(), &[3, 0], &[3], b"0123".as_slice())?;
    Ok(())
}

#[test]
fn clocks(rt: HostRuntime) -> Result<(), Fail> {
    let greatest = 4611686018427387903;
    let moments = Vec::from_slice(rt.alloc(), &[5, 3, 9, u64::MAX])?;
    let read = [5, 5, 9, greatest, greatest];
    expect_readings(&rt, &mut MemClock::new(moments), &read);
    expect_readings(&rt, &mut MemClock::new(Vec::new(rt.alloc())), &[0, 0]);
    expect_readings(&rt, &mut StepClock::new(10, 250), &[10, 260, 510]);
    let held = [7, greatest, greatest];
    expect_readings(&rt, &mut StepClock::new(7, u64::MAX), &held);
    Ok(())
}

#[test]
fn starts(rt: HostRuntime) -> Result<(), Fail> {
    let mut spawner = spawner_of(rt.alloc())?;
    start_once(&rt, rt.alloc(), &mut spawner, Some(b"first".as_slice()))?;
    start_once(&rt, rt.alloc(), &mut spawner, None)?;
    start_once(&rt, rt.alloc(), &mut spawner, Some(b"second".as_slice()))?;
    start_once(&rt, rt.alloc(), &mut spawner, None)?;
    assert_eq!(rt; spawner.closed().len(), 2);
    for link in spawner.closed() {
        assert_eq!(rt; link.sent(), b"told".as_slice());
    }
    Ok(())
}
