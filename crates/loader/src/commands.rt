// Lists of commands, each with the queue and the memory that it is lent, given to a new loader.
ghost use Rattle.std.specs.Prelude.{◌≡◌, ◌<◌, ◌≤◌, length, vec_capacity, MatchResult};
ghost use Rattle.loader.specs.Held.{sheet};
ghost use Rattle.loader.specs.Histories.{Acts, History};
ghost use Rattle.loader.specs.Sheets.{blank};

use crate::{Loaded, Loader};
use queue::Queue;
use refusal::Refusal;

// A command with its arguments. A load has a queue of its own, whatever that holds, and memory of any length.
pub enum Command<Q> {
    Word {
        len: usize,
        value: u32,
    },
    Weigh {
        number: usize,
        weight: u16,
    },
    DropWord,
    Bit(i8),
    Wipe,
    Load {
        count: usize,
        queue: Q,
        costs: Vec<u32>,
        ahead: Vec<u32>,
    },
    Undo,
}

// What a command answers. A `Result` of one outcome would not tell a refused load from another refused command, and each
// definition of an answer in specs/ would have a case more.
#[derive(Clone, Copy)]
pub enum Answer {
    Done(Result<(), Refusal>),
    Loaded(Result<Loaded, Refusal>),
}

// Gives one command to a loader.
pub fn perform<Q: Queue>(loader: &mut Loader, command: &mut Command<Q>) -> Answer
    ensures acts { Acts Q.Queue.model (sheet loader.old) command.old command.new result (sheet loader.new) }
{
    match command {
        Command::Word { len, value } => Answer::Done(loader.enter_word(*len, *value)),
        Command::Weigh { number, weight } => Answer::Done(loader.set_weight(*number, *weight)),
        Command::DropWord => Answer::Done(loader.drop_word()),
        Command::Bit(value) => Answer::Done(loader.add_value(*value)),
        Command::Wipe => {
            loader.wipe();
            Answer::Done(Ok(()))
        }
        Command::Load {
            count,
            queue,
            costs,
            ahead,
        } => Answer::Loaded(loader.load(*count, queue, costs.as_mut_slice(), ahead.as_mut_slice())),
        Command::Undo => Answer::Done(loader.undo()),
    }
}

// Gives a list of commands, in order, to a new loader.
// The answers go into `answers`, whatever that held. If it has no room for as many answers as there are commands, it is
// handed back, and nothing is done.
pub fn perform_all<Q: Queue>(
    commands: &mut [Command<Q>],
    mut answers: Vec<Answer>,
) -> Result<(Loader, Vec<Answer>), Vec<Answer>>
    ensures history { MatchResult result (λ done. (length commands.old ≤ vec_capacity answers) × History Q.Queue.model blank commands.old commands.new done.1.items (sheet done.0)) (λ back. (vec_capacity answers < length commands.old) × (back ≡ answers) × (commands.new ≡ commands.old)) }
{
    if answers.capacity() < commands.len() {
        return Err(answers);
    }
    answers.clear();
    let mut loader = Loader::new();
    for command in commands.iter_mut() {
        let answer = perform(&mut loader, command);
        answers.push_reserved(answer);
    }
    Ok((loader, answers))
}
