ghost use Rattle.std.specs.Prelude.{ℕ, ◌≡◌, ◌∷◌, [], ◌++◌, ◌+◌, true, false, MatchResult, MatchOption};
ghost use Rattle.wc_model.specs.Workspace.History.{can_edit, is_live};
ghost use Rattle.wc_core.specs.Answers.{Advances, EditIs, LeavesFree, IsListed, inputs_now, edit_count};

use crate::answers::Edited;
use crate::shared::Core;
use crate::touching::{edit_inputs, missing_fact, stamp, touched_by};
use crate::work::Work;
use std::alloc::AllocError;
use wc_model::{Edit, Entry, Listing, copy_facts};

impl<W: Work> Core<W> {
    fn missing(&self, edit: &Edit) -> Option<u64>
        ensures { MatchOption result (can_edit edit.now (inputs_now self.now) ≡ true) (λ n. (edit.now ≡ Edit.Drop n) × (is_live n (inputs_now self.now) ≡ false)) }
    {
        missing_fact(&self.inputs, edit)
    }

    fn refuse(&mut self, session: u32, number: u64) -> Result<u64, AllocError>
        requires free { LeavesFree self.old.opening self.old.history session }
        requires dead { is_live number (inputs_now self.old) ≡ false }
        ensures free { LeavesFree self.new.opening self.new.history session }
        ensures goes { Advances W.chain W.is_feature self.old self.new session }
        ensures answer { MatchResult result (λ at. (at ≡ edit_count self.old) × (self.new.history ≡ self.old.history ++ Entry.NoFact session number at ∷ [])) (λ _. self.new ≡ self.old) }
    {
        self.history.reserve(self.owed + 1)?;
        self.history.push_reserved(Entry::NoFact {
            session,
            number,
            at: self.count,
        });
        Ok(self.count)
    }

    fn accept(&mut self, session: u32, edit: Edit) -> Result<u64, AllocError>
        requires free { LeavesFree self.old.opening self.old.history session }
        requires allowed { can_edit edit (inputs_now self.old) ≡ true }
        ensures free { LeavesFree self.new.opening self.new.history session }
        ensures goes { Advances W.chain W.is_feature self.old self.new session }
        ensures answer { MatchResult result (λ count. (count ≡ edit_count self.old + 1) × (self.new.history ≡ self.old.history ++ Entry.Edit session count edit ∷ [])) (λ _. self.new ≡ self.old) }
    {
        let alloc = *self.history.allocator();
        self.history.reserve(self.owed + 1)?;
        let count = self.count + 1;
        let touched = touched_by(&self.inputs, &edit);
        edit_inputs(alloc, &mut self.inputs, count, &edit)?;
        self.history.push_reserved(Entry::Edit {
            session,
            count,
            edit,
        });
        self.count = count;
        stamp(&mut self.keys, &self.registry, touched, count);
        self.store.cut(&self.registry, touched);
        Ok(count)
    }

    /// Changes the inputs. `NoFact` comes exactly for a `Drop` of a number that no live fact has.
    pub fn edit(&mut self, session: u32, edit: Edit) -> Result<Edited, AllocError>
        requires { LeavesFree self.old.opening self.old.history session }
        ensures free { LeavesFree self.new.opening self.new.history session }
        ensures goes { Advances W.chain W.is_feature self.old self.new session }
        ensures answer { MatchResult result (EditIs self.old self.new session edit) (λ _. self.new ≡ self.old) }
    {
        match self.missing(&edit) {
            Some(number) => Ok(Edited::NoFact(self.refuse(session, number)?)),
            None => Ok(Edited::Done(self.accept(session, edit)?)),
        }
    }

    /// The live facts, the hardware and the edit count.
    pub fn list(&mut self, session: u32) -> Result<Listing, AllocError>
        requires { LeavesFree self.old.opening self.old.history session }
        ensures free { LeavesFree self.new.opening self.new.history session }
        ensures goes { Advances W.chain W.is_feature self.old self.new session }
        ensures answer { MatchResult result (IsListed self.old self.new session) (λ _. self.new ≡ self.old) }
    {
        let alloc = *self.history.allocator();
        let facts = copy_facts(alloc, &self.inputs.facts)?;
        self.history.reserve(self.owed + 1)?;
        self.history.push_reserved(Entry::List {
            session,
            at: self.count,
        });
        Ok(Listing {
            at: self.count,
            facts,
            hardware: self.inputs.hardware,
        })
    }
}
