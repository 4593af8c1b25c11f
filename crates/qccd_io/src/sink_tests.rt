//! Sinks that fail, buffers over them, and streams.

ghost use Rattle.std.specs.Prelude.{◌≡◌, ◌≤◌, ◌++◌, IfOk, OnOk, OnErr};
ghost use Rattle.qccd_io.specs.Faults.{Rose};
ghost use Rattle.qccd_io.specs.Sends.{Sends};
ghost use Rattle.qccd_io.specs.Sink.{appended, TookPrefix};

use crate::{Buffer, Buffered, Failed, MemSink, NoPost, Post, Sink, StdSink, send};
use qccd_base::NoMemory;
use std::alloc::Global;
use std::test::Fail;

// Three texts, one after another: how a function of several sends is stated.
#[tactic(auto, using(crate::proofs::Appended::sends))]
fn send_three<S: Sink>(
    sink: &mut S,
    first: &[u8],
    second: &[u8],
    third: &[u8],
) -> Result<(), Failed>
    ensures { Sends S.taken S.faults S.behind sink.old sink.new result (first.now ++ second.now ++ third.now) }
{
    send(sink, first)?;
    send(sink, second)?;
    send(sink, third)
}

// The same through a buffer: what the caller of a buffered sink knows of the sink below.
#[tactic(auto, using(crate::proofs::Appended::buffers))]
fn send_three_at_once<S: Sink>(
    alloc: Global,
    sink: &mut S,
    first: &[u8],
    second: &[u8],
    third: &[u8],
) -> Result<Result<(), Failed>, NoMemory>
    ensures ok { IfOk result (λ r. OnOk r (S.taken sink.new
        ≡ appended (S.taken sink.old) (first.now ++ second.now ++ third.now))) }
    ensures err { IfOk result (λ r. OnErr r (TookPrefix (S.taken sink.old) (S.taken sink.new)
        (first.now ++ second.now ++ third.now)
        × Rose (S.faults sink.old) (S.faults sink.new))) }
    ensures count { S.faults sink.old ≤ S.faults sink.new }
{
    let mut buffer = Buffer::of(alloc)?;
    let mut buffered = Buffered::of(&mut buffer, sink);
    match send_three(&mut buffered, first, second, third) {
        Err(Failed) => Ok(Err(Failed)),
        Ok(()) => match buffered.finish() {
            Err(Failed) => Ok(Err(Failed)),
            Ok(()) => Ok(Ok(())),
        },
    }
}

fn send_often<S: Sink>(sink: &mut S, text: &[u8], times: u32) -> Result<(), Failed> {
    for _ in 0..times {
        send(sink, text)?;
    }
    Ok(())
}

fn notify<P: Post>(post: &P) {
    post.at(1, 2);
}

#[test]
fn takes_what_came_before_the_failing_write(rt: HostRuntime) -> Result<(), Fail> {
    // The most that is taken in one write, the number of the write that fails, and what was taken.
    let table = [
        (1, 0, ""),
        (1, 1, "0"),
        (1, 9, "012345678"),
        (1, 10, "0123456789"),
        (3, 0, ""),
        (3, 1, "012"),
        (3, 2, "01234"),
        (3, 3, "01234567"),
        (3, 4, "0123456789"),
        (99, 0, ""),
        (99, 1, "01234"),
        (99, 2, "0123456789"),
    ];
    for (most, failing, taken) in table {
        let failing = vec![in rt.alloc(); failing]?;
        let mut sink = MemSink::of(rt.alloc(), 10, most, failing)?;
        let sent = send_three(&mut sink, b"01234", b"", b"56789");
        assert_eq!(rt; sink.bytes(), taken.as_bytes());
        assert_eq!(rt; sent.is_ok(), taken.len() == 10);
    }
    Ok(())
}

#[test]
fn fails_without_room(rt: HostRuntime) -> Result<(), Fail> {
    let mut sink = MemSink::of(rt.alloc(), 4, 3, Vec::new(rt.alloc()))?;
    assert_eq!(rt; send(&mut sink, b"abcdef"), Err(Failed));
    assert_eq!(rt; sink.write(b""), Ok(0));
    assert_eq!(rt; sink.bytes(), b"abcd".as_slice());
    Ok(())
}

#[test]
fn hands_on_in_large_writes(rt: HostRuntime) -> Result<(), Fail> {
    // Of 70000 bytes the buffer holds 65536. They go in writes of 30000 at most, and the rest at
    // the end.
    let table = [(0, 0), (1, 30000), (2, 60000), (3, 65536), (4, 70000)];
    let mut buffer = Buffer::of(rt.alloc())?;
    for (failing, taken) in table {
        let failing = vec![in rt.alloc(); failing]?;
        let mut sink = MemSink::of(rt.alloc(), 70000, 30000, failing)?;
        let mut buffered = Buffered::of(&mut buffer, &mut sink);
        let sent = match send_often(&mut buffered, b"abcdefg", 10000) {
            Ok(()) => buffered.finish(),
            Err(Failed) => Err(Failed),
        };
        assert_eq!(rt; sink.bytes().len(), taken);
        assert_eq!(rt; sent.is_ok(), taken == 70000);
    }
    Ok(())
}

#[test]
fn sends_at_once(rt: HostRuntime) -> Result<(), Fail> {
    let mut sink = MemSink::of(rt.alloc(), 8, 8, vec![in rt.alloc(); 0]?)?;
    let failed = send_three_at_once(rt.alloc(), &mut sink, b"ab", b"c", b"def")?;
    assert_eq!(rt; failed, Err(Failed));
    assert_eq!(rt; sink.bytes().len(), 0);
    let sent = send_three_at_once(rt.alloc(), &mut sink, b"gh", b"i", b"jkl")?;
    assert_eq!(rt; sent, Ok(()));
    assert_eq!(rt; sink.bytes(), b"ghijkl".as_slice());
    Ok(())
}

#[test]
fn passes_on_to_a_stream(rt: HostRuntime) -> Result<(), Fail> {
    let mut room = [0; 4];
    let mut sink = StdSink::of(room.as_mut_slice());
    assert_eq!(rt; send(&mut sink, b"abc"), Ok(()));
    // The stream takes one byte more, and then none.
    assert_eq!(rt; send(&mut sink, b"def"), Err(Failed));
    drop(sink);
    assert_eq!(rt; room.as_slice(), b"abcd".as_slice());
    let mut stream = StdSink::of(rt.stderr());
    assert_eq!(rt; stream.write(b""), Ok(0));
    notify(&NoPost);
    Ok(())
}

#[test]
fn passes_on_long_texts(rt: HostRuntime) -> Result<(), Fail> {
    let mut text = vec![in rt.alloc(); 0; 150_001]?;
    for (place, byte) in text.iter_mut().enumerate() {
        *byte = (place % 251) as u8;
    }
    let mut room = vec![in rt.alloc(); 0; 150_001]?;
    let mut sink = StdSink::of(room.as_mut_slice());
    assert_eq!(rt; send(&mut sink, &text), Ok(()));
    drop(sink);
    assert_eq!(rt; room, text);
    Ok(())
}

#[test]
fn hands_on_to_a_stream(rt: HostRuntime) -> Result<(), Fail> {
    // 200,004 bytes in small pieces: three full buffers, and the rest at the end.
    let mut want = Vec::new(rt.alloc());
    for _ in 0..28_572 {
        want.extend_from_slice(b"abcdefg")?;
    }
    let mut room = vec![in rt.alloc(); 0; 200_004]?;
    let mut buffer = Buffer::of(rt.alloc())?;
    let mut sink = StdSink::of(room.as_mut_slice());
    let mut buffered = Buffered::of(&mut buffer, &mut sink);
    assert_eq!(rt; send_often(&mut buffered, b"abcdefg", 28_572), Ok(()));
    assert_eq!(rt; buffered.finish(), Ok(()));
    drop(sink);
    assert_eq!(rt; room, want);
    Ok(())
}
