//! Sources and sinks in memory, cut and failing as they are told, and the adapters over readers and
//! writers that give and take little, fail in mid-stream and go on.
ghost use Rattle.std.specs.Prelude.{◌≤◌, length, IfOk};

use rdf_io::{Failed, MemSink, MemSource, ReaderSource, Sink, Source, WriterSink};
use rdf_term::{Bytes, Memory};
use std::alloc::Global;
use std::io;
use std::process::Abort;

/// What one read gives: bytes, or a fault.
type Given = Result<&'static [u8], Failed>;

/// Reads through a reference, as a caller lends its source.
fn read_lent<S: Source + Drop>(mut source: S, buf: &mut [u8]) -> Result<usize, Failed>
    ensures { IfOk result (λ n. n ≤ length buf.new) }
{
    source.read(buf)
}

/// One read into so many bytes, eight at most, after another gives what is wanted.
fn reads<S: Source>(rt: &impl Abort, source: &mut S, room: usize, wanted: &[Given], what: &str) {
    for given in wanted {
        let mut buf = [0u8; 8];
        let read = read_lent(&mut *source, &mut buf[..room.min(8)]);
        match (read, given) {
            (Ok(count), Ok(bytes)) => {
                assert!(rt;
                    &buf[..count] == *bytes,
                    "{what}: {count} of {buf:?}, not {bytes:?}"
                );
            }
            (Err(Failed), Err(Failed)) => {}
            _ => assert!(rt; false, "{what}: {read:?}, not {given:?}"),
        }
    }
}

/// A source in memory: its bytes, the most that each call gives, the calls that fail, the room of each
/// call, and what the calls give.
struct MemoryReads {
    what: &'static str,
    bytes: &'static [u8],
    cuts: &'static [usize],
    fails: &'static [u64],
    room: usize,
    given: &'static [Given],
}

static MEMORY_READS: &[MemoryReads] = &[
    MemoryReads {
        what: "no bytes",
        bytes: b"",
        cuts: &[],
        fails: &[],
        room: 4,
        given: &[Ok(b""), Ok(b"")],
    },
    MemoryReads {
        what: "no cuts",
        bytes: b"abcdefgh",
        cuts: &[],
        fails: &[],
        room: 3,
        given: &[Ok(b"abc"), Ok(b"def"), Ok(b"gh"), Ok(b""), Ok(b"")],
    },
    MemoryReads {
        what: "a cut of none gives one byte",
        bytes: b"abcdefgh",
        cuts: &[2, 0],
        fails: &[2],
        room: 4,
        given: &[
            Ok(b"ab"),
            Ok(b"c"),
            Err(Failed),
            Ok(b"defg"),
            Ok(b"h"),
            Ok(b""),
        ],
    },
    MemoryReads {
        what: "cuts above the room",
        bytes: b"abc",
        cuts: &[9, 1, 9],
        fails: &[],
        room: 1,
        given: &[Ok(b"a"), Ok(b"b"), Ok(b"c"), Ok(b"")],
    },
    MemoryReads {
        what: "no room",
        bytes: b"abc",
        cuts: &[],
        fails: &[1],
        room: 0,
        given: &[Ok(b""), Err(Failed), Ok(b"")],
    },
    MemoryReads {
        what: "faults at the first call, one after another, and behind the end",
        bytes: b"ab",
        cuts: &[1, 1, 1, 1],
        fails: &[0, 2, 3, 5],
        room: 8,
        given: &[
            Err(Failed),
            Ok(b"a"),
            Err(Failed),
            Err(Failed),
            Ok(b"b"),
            Err(Failed),
            Ok(b""),
        ],
    },
];

#[test]
fn sources_in_memory_cut_and_fail_as_told(rt: HostRuntime) -> Result<(), Memory> {
    let alloc = rt.alloc();
    for case in MEMORY_READS {
        let bytes = Bytes::from_vec(case.bytes.to_vec(alloc)?);
        let cuts = case.cuts.to_vec(alloc)?;
        let fails = case.fails.to_vec(alloc)?;
        let mut source = MemSource::new(bytes, cuts, fails);
        reads(&rt, &mut source, case.room, case.given, case.what);
    }
    Ok(())
}

/// What one call does to a sink.
#[derive(Drop)]
enum Step<'a> {
    Write(&'a [u8]),
    Flush,
}

/// A call of a sink, and how many bytes it answers; a flush answers none.
type Call<'a> = (Step<'a>, Result<usize, Failed>);

/// A step through a reference, as a caller lends its sink.
fn step_lent<K: Sink + Drop>(mut sink: K, step: &Step<'_>) -> Result<usize, Failed> {
    match step {
        Step::Write(piece) => sink.write(piece),
        Step::Flush => {
            sink.flush()?;
            Ok(0)
        }
    }
}

/// One call after another answers what is wanted.
fn steps<K: Sink>(rt: &impl Abort, sink: &mut K, calls: &[Call<'_>], what: &str) {
    for (place, (step, wanted)) in calls.iter().enumerate() {
        assert!(rt;
            step_lent(&mut *sink, step) == *wanted,
            "{what}, call {place}"
        );
    }
}

/// A sink in memory: the calls that fail, the calls with their answers, and the bytes that it took.
struct MemoryWrites {
    what: &'static str,
    fails: &'static [u64],
    calls: &'static [Call<'static>],
    taken: &'static [u8],
}

static MEMORY_WRITES: &[MemoryWrites] = &[
    MemoryWrites {
        what: "no faults",
        fails: &[],
        calls: &[
            (Step::Write(b""), Ok(0)),
            (Step::Write(b"ab"), Ok(2)),
            (Step::Flush, Ok(0)),
            (Step::Write(b"c\0\xFF"), Ok(3)),
        ],
        taken: b"abc\0\xFF",
    },
    MemoryWrites {
        what: "writes and flushes are numbered together",
        fails: &[2, 5],
        calls: &[
            (Step::Write(b"ab"), Ok(2)),
            (Step::Flush, Ok(0)),
            (Step::Write(b"cd"), Err(Failed)),
            (Step::Write(b"ef"), Ok(2)),
            (Step::Flush, Ok(0)),
            (Step::Flush, Err(Failed)),
            (Step::Write(b"g"), Ok(1)),
        ],
        taken: b"abefg",
    },
    MemoryWrites {
        what: "the first calls fail",
        fails: &[1, 0],
        calls: &[
            (Step::Flush, Err(Failed)),
            (Step::Write(b""), Err(Failed)),
            (Step::Write(b"a"), Ok(1)),
        ],
        taken: b"a",
    },
];

#[test]
fn sinks_in_memory_take_whole_pieces_and_fail_as_told(rt: HostRuntime) -> Result<(), Memory> {
    let alloc = rt.alloc();
    for case in MEMORY_WRITES {
        let mut sink = MemSink::new(alloc, case.fails.to_vec(alloc)?);
        steps(&rt, &mut sink, case.calls, case.what);
        assert!(rt;
            sink.taken() == case.taken,
            "{}: {:?}",
            case.what,
            sink.taken()
        );
    }
    Ok(())
}

/// What a reader does at a call: it gives these bytes, where they fit, or fails.
enum Turn {
    Gives(&'static [u8]),
    FailsWith(io::ErrorKind),
}

/// A reader that does so at its calls, and has ended then.
#[derive(Drop)]
struct Reader {
    turns: &'static [Turn],
}

impl io::Read for Reader {
    fn read(&mut self, buf: &mut [u8]) -> io::Result<usize> {
        let Some((turn, turns)) = self.turns.split_first() else {
            return Ok(0);
        };
        self.turns = turns;
        match turn {
            Turn::Gives(bytes) => {
                let count = bytes.len().min(buf.len());
                buf[..count].copy_from_slice(&bytes[..count]);
                Ok(count)
            }
            Turn::FailsWith(kind) => Err(io::Error::from(*kind)),
        }
    }
}

/// A reader's turns, and what the source over it gives.
struct ReaderReads {
    what: &'static str,
    turns: &'static [Turn],
    given: &'static [Given],
}

static READER_READS: &[ReaderReads] = &[
    ReaderReads {
        what: "a reader that has ended",
        turns: &[],
        given: &[Ok(b""), Ok(b"")],
    },
    ReaderReads {
        what: "pieces as they come",
        turns: &[Turn::Gives(b"abc"), Turn::Gives(b"d"), Turn::Gives(b"efgh")],
        given: &[Ok(b"abc"), Ok(b"d"), Ok(b"efgh"), Ok(b"")],
    },
    ReaderReads {
        what: "faults of each kind in mid-stream, after which it goes on",
        turns: &[
            Turn::Gives(b"ab"),
            Turn::FailsWith(io::ErrorKind::TimedOut),
            Turn::FailsWith(io::ErrorKind::Interrupted),
            Turn::Gives(b"c"),
            Turn::FailsWith(io::ErrorKind::UnexpectedEof),
        ],
        given: &[
            Ok(b"ab"),
            Err(Failed),
            Err(Failed),
            Ok(b"c"),
            Err(Failed),
            Ok(b""),
        ],
    },
];

#[test]
fn readers_as_sources(rt: HostRuntime) {
    for case in READER_READS {
        let mut source = ReaderSource::new(Reader { turns: case.turns });
        reads(&rt, &mut source, 8, case.given, case.what);
    }
    let mut source = ReaderSource::new(b"abcdefg".as_slice());
    let given: [Given; 4] = [Ok(b"abc"), Ok(b"def"), Ok(b"g"), Ok(b"")];
    reads(&rt, &mut source, 3, &given, "a slice");
}

/// What a writer does at a call: it takes so many bytes at most, or fails.
enum Taking {
    AtMost(usize),
    FailsWith(io::ErrorKind),
}

/// A writer that does so at its calls, flushes among them, and takes all then.
#[derive(Drop)]
struct Writer {
    takings: &'static [Taking],
    taken: Vec<u8>,
}

impl Writer {
    /// How many bytes the next call takes at most.
    fn most(&mut self) -> io::Result<usize> {
        let Some((taking, takings)) = self.takings.split_first() else {
            return Ok(usize::MAX);
        };
        self.takings = takings;
        match taking {
            Taking::AtMost(most) => Ok(*most),
            Taking::FailsWith(kind) => Err(io::Error::from(*kind)),
        }
    }
}

impl io::Write for Writer {
    fn write(&mut self, buf: &[u8]) -> io::Result<usize> {
        let count = self.most()?.min(buf.len());
        self.taken.extend_from_slice(&buf[..count])?;
        Ok(count)
    }

    fn flush(&mut self) -> io::Result<()> {
        let _ = self.most()?;
        Ok(())
    }
}

/// What a writer does, the calls of the sink over it with their answers, and the bytes that came.
struct WriterWrites {
    what: &'static str,
    takings: &'static [Taking],
    calls: &'static [Call<'static>],
    taken: &'static [u8],
}

static WRITER_WRITES: &[WriterWrites] = &[
    WriterWrites {
        what: "a writer that takes all",
        takings: &[],
        calls: &[
            (Step::Write(b"ab"), Ok(2)),
            (Step::Write(b""), Ok(0)),
            (Step::Flush, Ok(0)),
            (Step::Write(b"c"), Ok(1)),
        ],
        taken: b"abc",
    },
    WriterWrites {
        what: "first bytes of pieces",
        takings: &[Taking::AtMost(1), Taking::AtMost(9), Taking::AtMost(2)],
        calls: &[
            (Step::Write(b"ab"), Ok(1)),
            (Step::Write(b"b"), Ok(1)),
            (Step::Write(b"cde"), Ok(2)),
        ],
        taken: b"abcd",
    },
    WriterWrites {
        what: "a write that takes nothing is a fault, unless there is nothing",
        takings: &[Taking::AtMost(0), Taking::AtMost(0), Taking::AtMost(0)],
        calls: &[
            (Step::Write(b"a"), Err(Failed)),
            (Step::Write(b""), Ok(0)),
            (Step::Flush, Ok(0)),
            (Step::Write(b"a"), Ok(1)),
        ],
        taken: b"a",
    },
    WriterWrites {
        what: "faults in mid-stream, after which it goes on",
        takings: &[
            Taking::AtMost(2),
            Taking::FailsWith(io::ErrorKind::BrokenPipe),
            Taking::FailsWith(io::ErrorKind::Interrupted),
            Taking::AtMost(1),
            Taking::FailsWith(io::ErrorKind::TimedOut),
        ],
        calls: &[
            (Step::Write(b"ab"), Ok(2)),
            (Step::Write(b"cd"), Err(Failed)),
            (Step::Flush, Err(Failed)),
            (Step::Write(b"cd"), Ok(1)),
            (Step::Write(b""), Err(Failed)),
            (Step::Write(b"d"), Ok(1)),
        ],
        taken: b"abcd",
    },
];

#[test]
fn writers_as_sinks(rt: HostRuntime) {
    let alloc = rt.alloc();
    for case in WRITER_WRITES {
        let mut writer = Writer {
            takings: case.takings,
            taken: Vec::new(alloc),
        };
        let mut sink = WriterSink::new(&mut writer);
        steps(&rt, &mut sink, case.calls, case.what);
        assert!(rt;
            writer.taken.as_slice() == case.taken,
            "{}: {:?}",
            case.what,
            writer.taken
        );
    }
    let mut taken = Vec::new(alloc);
    let mut sink = WriterSink::new(&mut taken);
    let calls = [
        (Step::Write(b"ab"), Ok(2)),
        (Step::Flush, Ok(0)),
        (Step::Write(b"c"), Ok(1)),
    ];
    steps(&rt, &mut sink, &calls, "a vector");
    assert!(rt; taken.as_slice() == b"abc".as_slice());
}
