ghost use Rattle.std.specs.Prelude.{◌≡◌, length, IfOk, OnOk, OnErr};
ghost use Rattle.ra_edit_read.specs.EditLists.{AreEditsFor};
ghost use Rattle.ra_edit.specs.Replies.{after_edits, replies_to, IsAfterSome};

use crate::draft::Draft;
use crate::replies::EditReply;
use ra_base::{Fixed, NoMemory};
use ra_edit_read::Edits;
use std::alloc::Global;

impl<'a> Draft<'a> {
    /// Does all edits in their order, each unless something bars it, and gives the reply to each.
    ///
    /// # Errors
    ///
    /// The system refused memory. Then the draft has done some of the edits.
    #[tactic(auto, using(crate::proofs::RunLaws::runs))]
    pub fn edit_all(&mut self, alloc: Global, edits: &Edits) -> Result<Fixed<EditReply>, NoMemory>
        requires { AreEditsFor self.old.origin edits.now }
        ensures replies { IfOk result (λ replies. replies.items ≡
            replies_to self.old edits.now (length edits.now.edits)) }
        ensures after { OnOk result (self.new ≡
            after_edits self.old edits.now (length edits.now.edits)) }
        ensures memory { OnErr result (IsAfterSome self.old edits.now self.new) }
        ensures origin { self.new.origin ≡ self.old.origin }
    {
        let mut replies = Fixed::make(alloc, edits.len() as usize)?;
        for i in 0..edits.len() {
            let reply = self.edit(alloc, edits, i)?;
            replies.push(reply);
        }
        Ok(replies)
    }
}
