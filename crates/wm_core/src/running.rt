//! Running texts of commands.
ghost use Rattle.wm_apply.specs.Batches.{outcome};
ghost use Rattle.wm_apply.specs.Quiet.{is_quiet};
ghost use Rattle.wm_base.specs.declared.ids.Buffer.{Buffer};
ghost use Rattle.wm_base.specs.declared.ids.ConId.{ConId};
ghost use Rattle.wm_criteria.specs.declared.verdict.Verdict.TheVariants.{Ready};
ghost use Rattle.wm_history.specs.declared.step.Answer.TheVariants.{Replies};
ghost use Rattle.wm_criteria.specs.Prepared.{is_built};
ghost use Rattle.std.specs.Prelude.{◌≡◌, ◌≤◌, ◌<◌, ◌^◌, [], ◌∷◌, false, length, map, None, Option, IfOk, IsTrue};
ghost use Rattle.wm_history.specs.Act.{Run, Tick, text_of};
ghost use Rattle.wm_history.specs.Events.{later_events};
ghost use Rattle.wm_json.specs.declared.views.EventBody.{EventBody};
ghost use Rattle.wm_history.specs.Effect.{changing, idled, passing, ran, reply_to, run_effect};
ghost use Rattle.wm_history.specs.History.{Entry, done_by};
ghost use Rattle.wm_core.specs.Steps.{MayCome, Takes};

use crate::desk::Desk;
use wm_apply::{Applied, is_quiet, run, run_quiet};
use wm_base::{Buffer, ConId, List, NoMemory, Str};
use wm_criteria::{Prepared, Verdict};
use wm_history::{Answer, later_events, replies_to, set_mode};
use wm_json::{EventBody, Reply, copy_str};
use wm_language::Batch;
use wm_tree::Tree;

impl Desk {
    /// Runs a text, or answers why it is not run.
    pub(crate) fn run(&mut self, who: u32, text: &Prepared) -> Result<Answer, NoMemory>
        requires built { IsTrue (is_built text.now) }
        requires few { self.old.steps < 2 ^ 48 }
        ensures { Takes self.old self.new result (record { who = who; act = Run (text_of text.now) }) }
    {
        self.run_text(text, None)
    }

    /// Runs a text, or answers why it is not run, and tells this event, if any.
    pub(crate) fn run_text(
        &mut self,
        text: &Prepared,
        event: Option<EventBody>,
    ) -> Result<Answer, NoMemory>
        requires built { IsTrue (is_built text.now) }
        requires few { self.old.steps < 2 ^ 48 }
        ensures { (entry : Entry) → done_by self.old.plan.env self.old.mode self.old.tree entry ≡ run_effect self.old.plan.env text.now.verdict event self.old.tree → Takes self.old self.new result entry }
    {
        match &text.verdict {
            Verdict::Ready(batch) if is_quiet(batch) => self.idle(batch, event),
            Verdict::Ready(_) => self.apply(text, event),
            Verdict::Bad { at } => self.reply(Reply::Parse(*at), event),
            Verdict::PatternRefused { pattern } => self.reply(Reply::Pattern(*pattern), event),
        }
    }

    /// Runs the commands of a text that reads.
    fn apply(&mut self, text: &Prepared, event: Option<EventBody>) -> Result<Answer, NoMemory>
        requires built { IsTrue (is_built text.now) }
        requires few { self.old.steps < 2 ^ 48 }
        ensures { (entry : Entry) → done_by self.old.plan.env self.old.mode self.old.tree entry ≡ ran event self.old.tree (outcome self.old.plan.env text.now.verdict None self.old.tree) → Takes self.old self.new result entry }
    {
        match run(self.alloc, &self.tree, &self.plan.env, text, None) {
            Ok((tree, applied)) => self.applied(tree, applied, event),
            Err(error) => {
                drop(event);
                Err(error)
            }
        }
    }

    /// Takes the tree that the commands of a text left, with what they did beside, and answers with their replies.
    fn applied(
        &mut self,
        tree: Tree,
        applied: Applied,
        event: Option<EventBody>,
    ) -> Result<Answer, NoMemory>
        requires { MayCome self.old tree None }
        ensures { (entry : Entry) → done_by self.old.plan.env self.old.mode self.old.tree entry ≡ changing (Replies (map reply_to applied.replies)) self.old.tree tree None applied.mode applied.exit applied.kills event → Takes self.old self.new result entry }
    {
        let mut applied = applied;
        match replies_to(self.alloc, applied.replies.items()) {
            Ok(replies) => {
                let said = Answer::Replies(List::of(replies));
                let answer = self.take(tree, &mut applied, None, said, event);
                drop(applied);
                answer
            }
            Err(_) => {
                drop(tree);
                drop(applied);
                drop(event);
                Err(NoMemory)
            }
        }
    }

    /// Takes the tree that the commands of a text left, in which this window was opened, if any, with what they did
    /// beside, tells this event, if any, and gives the answer.
    pub(crate) fn take(
        &mut self,
        tree: Tree,
        applied: &mut Applied,
        opened: Option<(ConId, Buffer)>,
        answer: Answer,
        event: Option<EventBody>,
    ) -> Result<Answer, NoMemory>
        requires { MayCome self.old tree opened }
        ensures { (entry : Entry) → done_by self.old.plan.env self.old.mode self.old.tree entry ≡ changing answer self.old.tree tree opened applied.old.mode applied.old.exit applied.old.kills event → Takes self.old self.new result entry }
    {
        match self.later(applied, event) {
            Ok(later) => self.take_with(tree, applied, opened, answer, later),
            Err(error) => {
                drop(tree);
                drop(answer);
                Err(error)
            }
        }
    }

    /// What a text tells beside the trees, with this event, if any.
    fn later(&self, applied: &Applied, event: Option<EventBody>) -> Result<Vec<EventBody>, NoMemory>
        ensures { IfOk result (λ later. later.items ≡ later_events self.now.mode self.now.stopped applied.now.mode applied.now.exit event) }
    {
        later_events(
            self.alloc,
            &self.mode,
            self.stopped,
            &applied.mode,
            applied.exit,
            event,
        )
    }

    /// The replies to the commands of a text, and what it tells beside the trees, with this event, if any.
    fn beside(
        &self,
        applied: &Applied,
        event: Option<EventBody>,
    ) -> Result<(Vec<Reply>, Vec<EventBody>), NoMemory>
        ensures replies { IfOk result (λ r. r.0.items ≡ map reply_to applied.now.replies) }
        ensures later { IfOk result (λ r. r.1.items ≡ later_events self.now.mode self.now.stopped applied.now.mode applied.now.exit event) }
    {
        let later = self.later(applied, event)?;
        let replies = replies_to(self.alloc, applied.replies.items())?;
        Ok((replies, later))
    }

    /// Takes the tree, and then tells these events and gives the answer.
    fn take_with(
        &mut self,
        tree: Tree,
        applied: &mut Applied,
        opened: Option<(ConId, Buffer)>,
        answer: Answer,
        later: Vec<EventBody>,
    ) -> Result<Answer, NoMemory>
        requires come { MayCome self.old tree opened }
        requires short { length later.items ≤ 3 }
        ensures { (entry : Entry) (event : Option EventBody) → later.items ≡ later_events self.old.mode self.old.stopped applied.old.mode applied.old.exit event
            → done_by self.old.plan.env self.old.mode self.old.tree entry ≡ changing answer self.old.tree tree opened applied.old.mode applied.old.exit applied.old.kills event → Takes self.old self.new result entry }
    {
        match self.commit(tree, opened, applied.exit, applied.kills.items()) {
            Ok(()) => {
                set_mode(&mut self.mode, applied.mode.take());
                self.events.push_all(later);
                Ok(answer)
            }
            Err(error) => {
                drop(later);
                drop(answer);
                Err(error)
            }
        }
    }

    /// Runs the commands of a text that leaves the tree alone. Nothing is copied or arranged.
    fn idle(&mut self, batch: &Batch, event: Option<EventBody>) -> Result<Answer, NoMemory>
        requires quiet { IsTrue (is_quiet batch.now.groups) }
        requires few { self.old.steps < 2 ^ 48 }
        ensures { (entry : Entry) → done_by self.old.plan.env self.old.mode self.old.tree entry ≡ idled event (outcome self.old.plan.env (Ready batch.now) None self.old.tree) → Takes self.old self.new result entry }
    {
        match run_quiet(self.alloc, &self.plan.env, batch) {
            Ok(applied) => self.idled(applied, event),
            Err(error) => {
                drop(event);
                Err(error)
            }
        }
    }

    /// Answers a text that left the tree alone, with what its commands did beside.
    fn idled(&mut self, applied: Applied, event: Option<EventBody>) -> Result<Answer, NoMemory>
        requires few { self.old.steps < 2 ^ 48 }
        ensures { (entry : Entry) → done_by self.old.plan.env self.old.mode self.old.tree entry ≡ passing (Replies (map reply_to applied.replies)) self.old.tree applied.mode applied.exit event → Takes self.old self.new result entry }
    {
        let (replies, later) = self.beside(&applied, event)?;
        let answer = Answer::Replies(List::of(replies));
        Ok(self.pass(answer, applied.mode, applied.exit, later))
    }

    /// Tells a tick, which changes nothing else.
    pub(crate) fn tick(&mut self, who: u32, payload: &Str) -> Result<Answer, NoMemory>
        requires few { self.old.steps < 2 ^ 48 }
        ensures { Takes self.old self.new result (record { who = who; act = Tick payload.now }) }
    {
        let tick = EventBody::Tick {
            first: false,
            payload: copy_str(self.alloc, payload)?,
        };
        self.tell(Answer::Done, Some(tick))
    }

    /// Answers a text that is not run with this reply, and tells this event, if any.
    fn reply(&mut self, reply: Reply, event: Option<EventBody>) -> Result<Answer, NoMemory>
        requires few { self.old.steps < 2 ^ 48 }
        ensures { (entry : Entry) → done_by self.old.plan.env self.old.mode self.old.tree entry ≡ passing (Replies (reply ∷ [])) self.old.tree None false event → Takes self.old self.new result entry }
    {
        match vec![in self.alloc; reply] {
            Ok(replies) => self.tell(Answer::Replies(List::of(replies)), event),
            Err(_) => {
                drop(event);
                Err(NoMemory)
            }
        }
    }

    /// Tells this event, if any, and changes nothing else.
    fn tell(&mut self, answer: Answer, event: Option<EventBody>) -> Result<Answer, NoMemory>
        requires few { self.old.steps < 2 ^ 48 }
        ensures { (entry : Entry) → done_by self.old.plan.env self.old.mode self.old.tree entry ≡ passing answer self.old.tree None false event → Takes self.old self.new result entry }
    {
        match later_events(self.alloc, &self.mode, self.stopped, &None, false, event) {
            Ok(later) => Ok(self.pass(answer, None, false, later)),
            Err(error) => {
                drop(answer);
                Err(error)
            }
        }
    }
}
