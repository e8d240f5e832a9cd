ghost use Rattle.std.specs.Prelude.{ℕ, ◌≡◌, ◌≤◌, IfOk, None, All, length};
ghost use Rattle.wc_core.specs.Answers.{LeavesFree};

use super::*;
use std::marker::Model;

// A core with what each of its sessions holds of it, at the session's number.
#[derive(Drop)]
pub struct Stage {
    core: Core<Counter>,
    asks: Vec<Option<Ticket<u128>>>,
    runs: Vec<Option<Flight<Counter>>>,
}

impl Model for Stage {
    ghost use Rattle.wc_core.specs.Inner.Stages.{AreHeld};
    ghost use Rattle.wc_core.specs.Views.{Known};

    ghost Value = { Known };

    ghost view = { λ s. s.core };

    ghost invariant = { λ s. AreHeld (λ _ _ _ _. Unit {0}) s.core s.asks.items s.runs.items };
}

fn nothing<T: Drop>(alloc: Global, places: usize) -> Result<Vec<Option<T>>, AllocError>
    ensures empty { IfOk result (λ xs. All (λ x. x ≡ None) xs.items) }
    ensures counted { IfOk result (λ xs. length xs.items ≡ places) }
{
    let mut xs = Vec::new(alloc);
    for _place in 0..places {
        xs.push(None)?;
    }
    Ok(xs)
}

// What an ask does next: its answer, a run that is out then, or the session that it waits for.
#[derive(Drop)]
enum Played {
    Done(Asked),
    Run,
    Busy(u32),
}

impl Stage {
    // No session holds anything.
    pub fn new(alloc: Global, core: Core<Counter>, sessions: u32) -> Result<Stage, AllocError>
        requires sessions { core.opening.sessions ≡ sessions }
        requires free { (s : ℕ) → 1 ≤ s → s ≤ sessions → LeavesFree core.opening core.history s }
    {
        let places = sessions as usize + 1;
        Ok(Stage {
            core,
            asks: nothing(alloc, places)?,
            runs: nothing(alloc, places)?,
        })
    }

    pub fn history(&self) -> &[Entry] {
        self.core.history()
    }

    fn place(&self, session: u32) -> Result<usize, AllocError>
        ensures { IfOk result (λ p. (p ≡ session) × (1 ≤ session) × (session ≤ self.now.opening.sessions)) }
    {
        let place = session as usize;
        if place == 0 || self.asks.len() <= place {
            return Err(AllocError);
        }
        Ok(place)
    }

    pub fn edit(&mut self, session: u32, edit: Edit) -> Result<Edited, AllocError> {
        let place = self.place(session)?;
        if self.asks[place].is_some() || self.runs[place].is_some() {
            return Err(AllocError);
        }
        self.core.edit(session, edit)
    }

    pub fn list(&mut self, session: u32) -> Result<Listing, AllocError> {
        let place = self.place(session)?;
        if self.asks[place].is_some() || self.runs[place].is_some() {
            return Err(AllocError);
        }
        self.core.list(session)
    }

    pub fn pin(&mut self, session: u32, name: &[u8]) -> Result<(), AllocError> {
        let place = self.place(session)?;
        if self.asks[place].is_some() || self.runs[place].is_some() {
            return Err(AllocError);
        }
        let ticket = self.core.pin(session, name)?;
        self.asks[place] = Some(ticket);
        Ok(())
    }

    fn turn(&mut self, session: u32) -> Result<Played, AllocError> {
        let place = self.place(session)?;
        let Some(ticket) = self.asks[place].take() else {
            return Err(AllocError);
        };
        match self.core.next(ticket) {
            Next::Done(asked) => Ok(Played::Done(asked)),
            Next::Run(flight) => {
                self.runs[place] = Some(flight);
                Ok(Played::Run)
            }
            Next::Busy(ticket, runner) => {
                self.asks[place] = Some(ticket);
                Ok(Played::Busy(runner))
            }
        }
    }

    // A turn that has to start a run.
    pub fn start(&mut self, session: u32) -> Result<(), AllocError> {
        match self.turn(session)? {
            Played::Run => Ok(()),
            _ => Err(AllocError),
        }
    }

    // A turn that has to wait: for whose run.
    pub fn wait(&mut self, session: u32) -> Result<u32, AllocError> {
        match self.turn(session)? {
            Played::Busy(runner) => Ok(runner),
            _ => Err(AllocError),
        }
    }

    // The run that is out comes back.
    pub fn land(&mut self, alloc: Global, session: u32) -> Result<(), AllocError> {
        let place = self.place(session)?;
        let Some(flight) = self.runs[place].take() else {
            return Err(AllocError);
        };
        let ticket = self.core.give(flight.run(alloc));
        self.asks[place] = Some(ticket);
        Ok(())
    }

    // An open ask to its end.
    pub fn finish(&mut self, alloc: Global, session: u32) -> Result<Asked, AllocError> {
        for _run in 0..12 {
            match self.turn(session)? {
                Played::Done(asked) => return Ok(asked),
                Played::Run => self.land(alloc, session)?,
                Played::Busy(_runner) => return Err(AllocError),
            }
        }
        Err(AllocError)
    }

    pub fn ask(&mut self, alloc: Global, session: u32, name: &[u8]) -> Result<Asked, AllocError> {
        self.pin(session, name)?;
        self.finish(alloc, session)
    }

    // The works of a core whose one session holds nothing.
    pub fn close(self) -> Result<Vec<Counter>, AllocError> {
        if self.asks.len() != 2 || self.asks[1].is_some() || self.runs[1].is_some() {
            return Err(AllocError);
        }
        let Stage {
            core,
            asks: _,
            runs: _,
        } = self;
        let (_history, works) = core.close();
        Ok(works)
    }
}
