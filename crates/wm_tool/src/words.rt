//! The words of the tool.
ghost use Rattle.std.specs.Prelude.{◌≡◌, ◌≤◌, IfSome};
ghost use Rattle.wm_tool.specs.Words.{AreFew, command_named, count_of, order_of};

use wm_words::natural;

/// How many digits the number of steps has at most.
const MAX_DIGITS: usize = 5;

/// How many steps are taken at most.
const MAX_STEPS: u32 = 20_000;

/// What the tool does with an input.
#[derive(Clone, Copy)]
pub enum Command {
    /// Reads a script, and writes the answers of its steps and its frames.
    Replay,
    /// Reads frames of i3-ipc, and writes the replies to their messages.
    Ipc,
    /// Reads a script, and writes the picture of its last frame.
    Draw,
}

/// What the words ask for.
#[derive(Clone, Copy)]
pub enum Order {
    /// To read an input, and to run the command on it.
    Run(Command),
    /// To read nothing, and to take so many steps, made from this number.
    Generate { seed: u32, count: u32 },
}

/// What the words ask for: `replay`, `ipc` or `draw` alone, or `generate`, a number of 1 to 10 digits and at most
/// 4,294,967,295, and a number of steps of 1 to 5 digits and at most 20,000. Other words ask for nothing.
pub fn order_of(words: &[String]) -> Option<Order>
    ensures order { result ≡ order_of words.now }
    ensures few { IfSome result (λ order. AreFew order) }
{
    match words {
        [word] => Some(Order::Run(command_named(word.as_str())?)),
        [name, seed, count] if name.as_str() == "generate" => Some(Order::Generate {
            seed: natural(seed.as_bytes())?,
            count: count_of(count.as_bytes())?,
        }),
        _ => None,
    }
}

/// The command of this name.
fn command_named(word: &str) -> Option<Command>
    ensures { result ≡ command_named word.now }
{
    match word {
        "replay" => Some(Command::Replay),
        "ipc" => Some(Command::Ipc),
        "draw" => Some(Command::Draw),
        _ => None,
    }
}

/// The number of steps that 1 to 5 digits say, at most 20,000.
fn count_of(word: &[u8]) -> Option<u32>
    ensures value { result ≡ count_of word.now }
    ensures few { IfSome result (λ count. count ≤ 20000) }
{
    if word.len() > MAX_DIGITS {
        return None;
    }
    let count = natural(word)?;
    if count > MAX_STEPS {
        return None;
    }
    Some(count)
}
