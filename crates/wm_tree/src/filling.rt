//! Placeholders that become windows.
ghost use Rattle.std.specs.Prelude.{◌≡◌, false, true, Err, IfErr, OnOk, OnErr};
ghost use Rattle.wm_forest.specs.Look.{has};
ghost use Rattle.wm_tree.specs.Sound.{IsSound};
ghost use Rattle.wm_tree.specs.Words.{edited};
ghost use Rattle.wm_forest.specs.declared.kind.KindEdit.TheVariants as edits;
ghost use Rattle.wm_tree.specs.declared.refusal.TreeRefusal.TheVariants.{Missing};
ghost use Rattle.wm_tree.specs.declared.refusal.TreeRefusal.TheVariants as refusals;

use crate::refusal::TreeRefusal;
use crate::tree::Tree;
use wm_base::{ConId, Props, Size};
use wm_forest::{KindEdit, copy_props};

impl Tree {
    /// Makes the placeholder a window of the caller with the number `owner`, with these properties and this natural
    /// size. It keeps the rest: its place, share, state, marks and title format.
    pub fn fill(
        &mut self,
        con: ConId,
        props: &Props,
        owner: u32,
        natural: Size,
    ) -> Result<(), TreeRefusal>
        ensures ok { OnOk result (self.new ≡ edited con (edits.Fill props.now owner natural) self.old) }
        ensures sound { IsSound self.old → IsSound self.new }
        ensures err { OnErr result (self.new ≡ self.old) }
        ensures missing { has con self.old.nodes ≡ false → result ≡ Err (Missing con) }
        ensures cause { IfErr result (λ e. (has con self.old.nodes ≡ true) → e ≡ refusals.NoMemory) }
    {
        if !self.nodes.has(con) {
            return Err(TreeRefusal::Missing(con));
        }
        let props = copy_props(props)?;
        self.edit(con, KindEdit::Fill(props, owner, natural));
        Ok(())
    }
}
