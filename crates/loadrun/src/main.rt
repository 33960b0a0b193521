// Reads a file of commands from standard input, gives them to a loader, and prints a line for each word.
// An argument chooses the queue: `heap`, which is the default, or `strip`.
#![tactic(auto)]

use loader::Loader;
use queue::Queue;
use queue::heap::Heap;
use queue::strip::Strip;
use reader::{Line, Outcome, Report, follow_word};
use refusal::{FileFault, Refusal};
use std::error::Error;
use std::io::Read;
use std::str::FromStr;
use std::{env, fmt};
use wordfile::{Kind, word_at};

// Room for the costs of a load of 32 words, and for the estimates of 255 soft values.
const COSTS: usize = 8448;

const AHEAD: usize = 256;

// The queue that an argument chooses.
#[derive(Clone, Copy, Default)]
enum QueueKind {
    #[default]
    Heap,
    Strip,
}

// The arguments choose no queue.
#[derive(Clone, Copy, Debug)]
struct Usage;

impl fmt::Display for Usage {
    fn fmt<W: fmt::Write>(&self, f: &mut fmt::Formatter<W>) -> fmt::Result {
        f.write_str("usage: loadrun [heap|strip] < FILE")
    }
}

impl Error for Usage {}

impl FromStr for QueueKind {
    type Err = Usage;

    fn from_str(text: &str) -> Result<QueueKind, Usage> {
        match text {
            "heap" => Ok(QueueKind::Heap),
            "strip" => Ok(QueueKind::Strip),
            _ => Err(Usage),
        }
    }
}

// The queue that the arguments choose. There is at most one argument.
fn parse_args(rt: &HostRuntime) -> anyhow::Result<QueueKind> {
    let mut args = env::args(rt)?.skip(1);
    let kind = match args.next() {
        Some(arg) => arg.as_str().parse()?,
        None => QueueKind::default(),
    };
    match args.next() {
        Some(_) => Err(Usage.into()),
        None => Ok(kind),
    }
}

// Whether a word ends the run: an END of good form, whatever its answer.
fn ends(kind: Kind, answer: Result<Outcome, Refusal>) -> bool {
    kind == Kind::End && !matches!(answer, Err(Refusal::File(FileFault::BadForm)))
}

// Follows each word, up to the END or to where the file stops.
fn follow_file<Q: Queue>(rt: &HostRuntime, bytes: &[u8], queue: &mut Q) -> anyhow::Result<()> {
    let mut costs = vec![in rt.alloc(); 0u32; COSTS]?;
    let mut ahead = vec![in rt.alloc(); 0u32; AHEAD]?;
    let mut loader = Loader::new();
    // A chain of `map_while` over the places leaves its loop without a proof in a generic function.
    for place in 0..=bytes.len() / 4 {
        let Some(word) = word_at(bytes, place) else {
            let report = Report::CutOff;
            println!(rt; "{}", Line { place, report })?;
            return Ok(());
        };
        let kind = Kind::from(word);
        let answer = follow_word(
            &mut loader,
            place,
            word,
            queue,
            costs.as_mut_slice(),
            ahead.as_mut_slice(),
        );
        println!(rt; "{}", Line::of_word(place, kind, answer))?;
        if ends(kind, answer.map_err(|refused| refused.refusal)) {
            return Ok(());
        }
    }
    Ok(())
}

fn main(rt: HostRuntime) -> anyhow::Result<()> {
    let kind = parse_args(&rt)?;
    let mut bytes = Vec::new(rt.alloc());
    rt.stdin().read_to_end(&mut bytes)?;
    match kind {
        QueueKind::Heap => follow_file(&rt, bytes.as_slice(), &mut Heap::new()),
        QueueKind::Strip => follow_file(&rt, bytes.as_slice(), &mut Strip::new()),
    }
}
