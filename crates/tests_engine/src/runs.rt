//! What only a call shows: `engine` where a read or a write fails, and where nothing may be read. What the program prints
//! stands in `examples/`.
use bg_cond::OpenGate;
use bg_io::{MemorySink, MemorySource};
use bg_top::{NO_MEMORY, engine};
use rand_core::SeedableRng;
use rand_core::utils::NextWord;
use rand_pcg::Pcg32;
use std::alloc::{AllocError, Global};
use std::process::Abort;
use std::sync::Wait;
use std::thread::Threads;

/// A signature with a normal and an atomic control, a bigraph with a site in its node, and one with a
/// node.
const INPUT: &str = "signature 2\nA 0 normal\nB 0 atomic\n\
bigraph 1\nsites 1\nn0\ninner 0\nouter 0\nedges 0\nnodes 1\n0 A r0\n\
bigraph 1\nsites 0\ninner 0\nouter 0\nedges 0\nnodes 1\n1 B r0\n";

/// The listing of the one bigraph after the other.
const COMPOSED: &str = "bigraph 1\nsites 0\ninner 0\nouter 0\nedges 0\nnodes 2\n0 A r0\n1 B n0\n";

/// A model with a rule.
const MODEL: &str =
    "ctrl A = 0;\nctrl B = 0;\nbig s = A.B.1;\nreact r = A.id --> id;\nbegin brs init s; rules = [ {r} ]; end\n";

/// How much there is of everything in the model.
const COUNTED: &str = "ok controls 2 rules 1 classes 1 preds 0 nodes 2 edges 0\n";

/// The listing of the model's system.
const LISTED: &str = "signature 2\nA 0 normal\nB 0 normal\n\
init\nbigraph 1\nsites 0\ninner 0\nouter 0\nedges 0\nnodes 2\n0 A r0\n1 B n0\n\
rule 0 r class 0\n\
redex\nbigraph 1\nsites 1\nn0\ninner 0\nouter 0\nedges 0\nnodes 1\n0 A r0\n\
reactum\nbigraph 1\nsites 1\nr0\ninner 0\nouter 0\nedges 0\nnodes 0\n\
map 0\nconditions 0\npreds 0\n";

/// Where the model's rule occurs, and how.
const EXPLAINED: &str = "rule 0 r class 0 count 1\n0\nimages\n\
context\nbigraph 1\nsites 1\nr0\ninner 0\nouter 0\nedges 0\nnodes 0\n\
parameter\nbigraph 1\nsites 0\ninner 0\nouter 0\nedges 0\nnodes 1\n1 B r0\n";

/// The run of the model: A goes, and B is left.
const RUN: &str = "journal 1\nstep 0 0 0\nend\nquiet\nhost 2 0\n\
bigraph 1\nsites 0\ninner 0\nouter 0\nedges 0\nnodes 1\n1 B r0\n";

/// The trial of one room and one agent; nothing is read.
const TRIAL: &str = "trial 1\nnodes 4 edges 2\nrule 0 sit count 1\nrule 1 shut count 1\n\
steps 2 quiet\nhost nodes 3 edges 2\n";

/// A building with three rooms and two agents beside them.
pub const BUILDING: &str = "ctrl Building = 0;\nctrl Room = 0;\natomic ctrl Agent = 1;\n\
big hall = Building.(Room.1 | Room.1 | Room.1 | Agent{a} | Agent{b});\n\
react enter = Agent{x} | Room.id --> Room.(Agent{x} | id);\n\
begin brs init hall; rules = [ {enter} ]; end\n";

/// Where its rule occurs: at six maps.
pub const ENTRANCES: &str = "rule 0 enter class 0 count 6\n4 1\n4 2\n4 3\n5 1\n5 2\n5 3\n";

/// The lines of these maps.
const MAPS: [&str; 6] = ["4 1\n", "4 2\n", "4 3\n", "5 1\n", "5 2\n", "5 3\n"];

/// Words, an input that is read byte by byte, the reads and the writes of a byte that fail, the status, and what is
/// written.
#[derive(Clone, Copy)]
struct Run {
    words: &'static [&'static str],
    input: &'static str,
    failing_reads: &'static [u32],
    failing_writes: &'static [u32],
    status: u8,
    written: &'static str,
}

/// How a call ended: the status, and the bytes that the sink then held.
#[derive(Drop)]
pub struct End {
    pub status: u8,
    pub written: Vec<u8>,
}

/// The words of a command line.
pub fn words_of(alloc: Global, texts: &[&str]) -> Result<Vec<String>, AllocError> {
    let mut words = Vec::new(alloc);
    for text in texts {
        words.push(String::from_str(alloc, text)?)?;
    }
    Ok(words)
}

/// How `engine` ends.
fn end_of<R: Threads + Wait + Sync>(rt: &R, alloc: Global, run: &Run) -> Result<End, AllocError> {
    let words = words_of(alloc, run.words)?;
    let bytes = run.input.as_bytes().to_vec(alloc)?;
    let mut source = MemorySource::new(bytes, 1, run.failing_reads.to_vec(alloc)?);
    let mut sink = MemorySink::new(alloc, 1, run.failing_writes.to_vec(alloc)?);
    let mut watchers = Vec::new(alloc);
    let status = engine(
        rt,
        alloc,
        words.as_slice(),
        &mut source,
        &mut sink,
        &mut watchers,
        &OpenGate,
    );
    Ok(End {
        status,
        written: sink.held().to_vec(alloc)?,
    })
}

/// The call ended as the run says. Want of memory is passed on; what was written until then is the start of the text.
fn expect(rt: &impl Abort, end: &End, run: &Run) -> Result<(), AllocError> {
    let written = end.written.as_slice();
    let text = run.written.as_bytes();
    if end.status == NO_MEMORY {
        assert!(rt; text.starts_with(written));
        return Err(AllocError);
    }
    assert!(rt; end.status == run.status);
    assert!(rt; written == text);
    Ok(())
}

/// Each run ends as it says.
fn try_all<R: Abort + Threads + Wait + Sync>(
    rt: &R,
    alloc: Global,
    runs: &[Run],
) -> Result<(), AllocError> {
    for run in runs {
        let end = end_of(rt, alloc, run)?;
        expect(rt, &end, run)?;
    }
    Ok(())
}

/// Each command, where nothing fails.
const COMMANDS: [Run; 7] = [
    Run {
        words: &["bigengine", "compose"],
        input: INPUT,
        failing_reads: &[],
        failing_writes: &[],
        status: 0,
        written: COMPOSED,
    },
    Run {
        words: &["bigengine", "check"],
        input: MODEL,
        failing_reads: &[],
        failing_writes: &[],
        status: 0,
        written: COUNTED,
    },
    Run {
        words: &["bigengine", "show"],
        input: MODEL,
        failing_reads: &[],
        failing_writes: &[],
        status: 0,
        written: LISTED,
    },
    Run {
        words: &["bigengine", "match", "--explain"],
        input: MODEL,
        failing_reads: &[],
        failing_writes: &[],
        status: 0,
        written: EXPLAINED,
    },
    Run {
        words: &["bigengine", "match"],
        input: BUILDING,
        failing_reads: &[],
        failing_writes: &[],
        status: 0,
        written: ENTRANCES,
    },
    Run {
        words: &["bigengine", "run"],
        input: MODEL,
        failing_reads: &[],
        failing_writes: &[],
        status: 0,
        written: RUN,
    },
    Run {
        words: &["bigengine", "trial", "--size", "1"],
        input: "",
        failing_reads: &[1],
        failing_writes: &[],
        status: 0,
        written: TRIAL,
    },
];

#[test]
fn each_command_answers(rt: HostRuntime) -> Result<(), AllocError> {
    try_all(&rt, rt.alloc(), &COMMANDS)
}

#[test]
fn the_first_step_is_at_the_place_of_the_generators_first_word(
    rt: HostRuntime,
) -> Result<(), AllocError> {
    let word = Pcg32::seed_from_u64(7).next_word();
    let run = Run {
        words: &["bigengine", "run", "--seed", "7", "--steps", "1"],
        input: BUILDING,
        failing_reads: &[],
        failing_writes: &[],
        status: 0,
        written: "",
    };
    let end = end_of(&rt, rt.alloc(), &run)?;
    if end.status == NO_MEMORY {
        return Err(AllocError);
    }
    let steps = end.written.as_slice().strip_prefix(b"journal 1\nstep 0 0 ");
    let map = MAPS[(word % 6) as usize].as_bytes();
    assert!(&rt; steps.is_some_and(|steps| steps.starts_with(map)));
    Ok(())
}

/// The first read, another, and the one that tells the end of the 14 bytes.
const READS: [Run; 4] = [
    Run {
        words: &["bigengine", "compose"],
        input: INPUT,
        failing_reads: &[2],
        failing_writes: &[],
        status: 3,
        written: "",
    },
    Run {
        words: &["bigengine", "check"],
        input: MODEL,
        failing_reads: &[1],
        failing_writes: &[],
        status: 3,
        written: "",
    },
    Run {
        words: &["bigengine", "check"],
        input: MODEL,
        failing_reads: &[2],
        failing_writes: &[],
        status: 3,
        written: "",
    },
    Run {
        words: &["bigengine", "check"],
        input: "big s = A ! B;",
        failing_reads: &[15],
        failing_writes: &[],
        status: 3,
        written: "",
    },
];

#[test]
fn a_read_that_fails_leaves_nothing_written(rt: HostRuntime) -> Result<(), AllocError> {
    try_all(&rt, rt.alloc(), &READS)
}

/// A write within the text, the first one, and the flush behind the 56 bytes of a text.
const WRITES: [Run; 4] = [
    Run {
        words: &["bigengine", "compose"],
        input: INPUT,
        failing_reads: &[],
        failing_writes: &[4],
        status: 4,
        written: "big",
    },
    Run {
        words: &["bigengine", "match"],
        input: MODEL,
        failing_reads: &[],
        failing_writes: &[4],
        status: 4,
        written: "rul",
    },
    Run {
        words: &["bigengine", "show"],
        input: MODEL,
        failing_reads: &[],
        failing_writes: &[1],
        status: 4,
        written: "",
    },
    Run {
        words: &["bigengine", "check"],
        input: MODEL,
        failing_reads: &[],
        failing_writes: &[57],
        status: 4,
        written: COUNTED,
    },
];

#[test]
fn a_write_that_fails_leaves_the_start_of_the_text(rt: HostRuntime) -> Result<(), AllocError> {
    try_all(&rt, rt.alloc(), &WRITES)
}

/// Words that ask for nothing, before a read that would fail.
const WORDS: [&[&str]; 8] = [
    &[],
    &["bigengine"],
    &["bigengine", "checks"],
    &["bigengine", "check", "--workers", "65"],
    &["bigengine", "show", "--help"],
    &["bigengine", "match", "--most", "x"],
    &["bigengine", "compose", "compose"],
    &["bigengine", "run", "--workers", "0"],
];

#[test]
fn other_words_are_refused_and_nothing_is_read(rt: HostRuntime) -> Result<(), AllocError> {
    for &words in WORDS.iter() {
        let run = Run {
            words,
            input: INPUT,
            failing_reads: &[1],
            failing_writes: &[],
            status: 2,
            written: "words\n",
        };
        let end = end_of(&rt, rt.alloc(), &run)?;
        expect(&rt, &end, &run)?;
    }
    Ok(())
}
