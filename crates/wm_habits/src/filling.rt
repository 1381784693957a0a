//! The answers to whole lines, one line after another.
ghost use Rattle.std.specs.Prelude.{◌≡◌, ◌++◌, ◌≤◌, length, drop, OnOk, OnErr};
ghost use Rattle.wm_habits.specs.Acting.{after_line, bytes_said};
ghost use Rattle.wm_habits.specs.Speaking.{answering, IsFilled};

use crate::actor::Actor;
use crate::asking::asked_in;
use wm_base::NoMemory;
use wm_cut::Cutter;

/// Answers whole lines until there are so many bytes to say, or no whole line is left. What the client has to say in all
/// stays the same, also after want of memory.
pub fn fill(
    actor: &mut Actor,
    cutter: &mut Cutter,
    say: &mut Vec<u8>,
    room: usize,
) -> Result<(), NoMemory>
    ensures same { answering actor.new cutter.new say.new.items ≡ answering actor.old cutter.old say.old.items }
    ensures filled { OnOk result (IsFilled cutter.new say.new.items room) }
{
    while say.len() < room {
        let Some(line) = cutter.line() else {
            return Ok(());
        };
        answer_line(actor, line, say)?;
        cutter.pass();
    }
    Ok(())
}

/// Adds the answers to a line. After want of memory all is as before.
fn answer_line(actor: &mut Actor, line: &[u8], say: &mut Vec<u8>) -> Result<(), NoMemory>
    ensures said { OnOk result (say.new.items ≡ say.old.items ++ bytes_said actor.old line.now) }
    ensures acting { OnOk result (actor.new ≡ after_line actor.old line.now) }
    ensures err_said { OnErr result (say.new.items ≡ say.old.items) }
    ensures err_acting { OnErr result (actor.new ≡ actor.old) }
{
    let asked = asked_in(line);
    let said = actor.bytes_said(asked)?;
    say.reserve(said.len())?;
    actor.note(asked)?;
    match say.extend_from_slice(said.as_slice()) {
        Ok(()) => Ok(()),
        Err(_) => unreachable!(),
    }
}

/// Lets go of the first so many bytes.
pub fn pass_front(bytes: &mut Vec<u8>, count: usize)
    requires { count ≤ length bytes.old.items }
    ensures { bytes.new.items ≡ drop count bytes.old.items }
{
    let left = bytes.len() - count;
    bytes.copy_within(count.., 0);
    bytes.truncate(left);
}
