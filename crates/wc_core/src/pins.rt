ghost use Rattle.std.specs.Prelude.{ℕ, ◌≡◌, ◌∷◌, [], ◌++◌, ◌+◌, All, IfOk, OnErr, length};
ghost use Rattle.wc_model.specs.Workspace.States.{has_key};
ghost use Rattle.wc_core.specs.Answers.{Advances, IsGiven, IsPinned, LeavesFree};
ghost use Rattle.wc_core.specs.Fits.{FitsLanded};
ghost use Rattle.wc_core.specs.Inner.Ends.{end_for};

use crate::given::Given;
use crate::moves::settle;
use crate::seats::Seat;
use crate::shared::Core;
use crate::tickets::{Landed, Ticket};
use crate::work::{Job, Work};
use std::alloc::{AllocError, Global};
use std::sync::Arc;
use wc_model::{End, Entry, Kind, Text};

// How many names an ask may need after its pin: two for each of eleven kinds, and one for its answer. It adds as many
// entries.
const NAMES: usize = 23;

fn text_of(alloc: Global, name: &[u8]) -> Result<Text, AllocError>
    ensures { IfOk result (λ t. t ≡ name.now) }
{
    let mut bytes = Vec::new(alloc);
    bytes.extend_from_slice(name)?;
    Ok(Text::new(bytes))
}

fn names_of(alloc: Global, name: &[u8]) -> Result<Vec<Text>, AllocError>
    ensures names { IfOk result (λ ts. All (λ t. t ≡ name.now) ts.items) }
    ensures count { IfOk result (λ ts. length ts.items ≡ 23) }
{
    let mut names = Vec::new(alloc);
    for _made in 0..NAMES {
        names.push(text_of(alloc, name)?)?;
    }
    Ok(names)
}

fn keys_of(alloc: Global, keys: &[(Kind, u64)]) -> Result<Vec<(Kind, u64)>, AllocError>
    ensures { IfOk result (λ copy. copy.items ≡ keys.now) }
{
    let mut copy = Vec::new(alloc);
    copy.extend_from_slice(keys)?;
    Ok(copy)
}

// Whether a stamp is the current one of a kind.
fn is_current(keys: &[(Kind, u64)], kind: Kind, stamp: u64) -> bool
    ensures { result ≡ has_key kind stamp keys.now }
{
    keys.iter()
        .any(|key| key.0.number() == kind.number() && key.1 == stamp)
}

fn end_for(gave: bool, current: bool) -> End
    ensures { result ≡ end_for gave current }
{
    if !gave {
        End::Memory
    } else if current {
        End::Kept
    } else {
        End::Dropped
    }
}

impl<W: Work> Core<W> {
    /// Opens an ask for the inputs as they are now. It takes all the memory that `next` and `give` will need.
    pub fn pin(&mut self, session: u32, name: &[u8]) -> Result<Ticket<W::Value>, AllocError>
        requires { LeavesFree self.old.opening self.old.history session }
        ensures ok { IfOk result (IsPinned W.is_feature self.old self.new session name.now) }
        ensures goes { Advances W.chain W.is_feature self.old self.new session }
        ensures err { OnErr result (self.new ≡ self.old) }
    {
        let alloc = *self.history.allocator();
        let at = self.count;
        let shared = Arc::new(alloc, text_of(alloc, name)?)?;
        let entry = text_of(alloc, name)?;
        let names = names_of(alloc, name)?;
        let keys = keys_of(alloc, self.keys.as_slice())?;
        let given = Given::new(alloc)?;
        let inputs = Arc::try_clone(&self.inputs)?;
        self.store.reserve(self.owed + NAMES)?;
        self.history.reserve(self.owed + NAMES + 1)?;
        self.history.push_reserved(Entry::Pin {
            session,
            name: entry,
            at,
        });
        self.owed += NAMES;
        self.seats.fill(session as usize, Seat { keys, names });
        Ok(Ticket {
            session,
            at,
            memory: false,
            job: Job {
                inputs,
                name: shared,
            },
            given,
        })
    }

    /// Takes the work back, and keeps the value that it gave where no edit touched what it depends on since the ask was
    /// pinned. The ask has its own copy. It takes no memory.
    pub fn give(&mut self, landed: Landed<W>) -> Ticket<W::Value>
        requires { FitsLanded W.is_feature self.old.opening self.old.history landed }
        ensures answer { IsGiven W.is_feature self.old self.new landed result }
        ensures goes { Advances W.chain W.is_feature self.old self.new landed.ticket.session }
    {
        let Landed {
            work,
            mut ticket,
            stamp,
            sessions: _,
            gave,
        } = landed;
        let kind = work.kind();
        let current = is_current(self.keys.as_slice(), kind, stamp);
        let end = end_for(gave.is_some(), current);
        let name = self.works.bring(ticket.session, work);
        self.history.push_reserved(Entry::Finish {
            session: ticket.session,
            kind,
            name,
            stamp,
            end,
        });
        self.owed -= 1;
        settle(&mut self.store, &mut ticket, (kind, stamp), gave, current);
        ticket
    }
}
