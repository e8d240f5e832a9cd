ghost use Rattle.std.specs.Prelude.{◌≡◌, ◌+◌, ◌<◌, IfOk, IfSome, [], Some, length, slice_get};
ghost use Rattle.wc_graph.specs.Inner.Codes.{AreFrames};
ghost use Rattle.wc_graph.specs.Inner.Opened.{AreOpened, IsBelow, TellsWay, TellsWays};

use crate::frames::{Frame, Turn, Way};
use crate::keys::{Branch, has, with};
use std::alloc::{AllocError, Global};

/// Which functions are open at each frame: the functions of the frame and of those below it.
#[derive(Drop)]
pub struct Opened {
    pub branches: Vec<Branch>,
    pub roots: Vec<usize>,
}

impl Opened {
    pub fn new(alloc: Global) -> Self
        ensures { AreOpened [] result }
    {
        Opened {
            branches: Vec::new(alloc),
            roots: Vec::new(alloc),
        }
    }

    // The set of the frame below.
    fn root_below(&self, parent: Option<u32>) -> Option<usize>
        requires { IfSome parent (λ j. j < length self.now.roots.items) }
        ensures { IsBelow self.now.roots.items parent result }
    {
        match parent {
            None => None,
            Some(parent) => Some(self.roots[parent as usize]),
        }
    }

    // The functions of the next frame.
    fn open(&mut self, frames: &[Frame], frame: Frame) -> Result<(), AllocError>
        requires frames { AreFrames frames.now }
        requires opened { AreOpened frames.now self.old }
        requires next { slice_get frames.now (length self.old.roots.items) ≡ Some frame }
        ensures opened { IfOk result (λ _. AreOpened frames.now self.new) }
        ensures one { IfOk result (λ _. length self.new.roots.items ≡ length self.old.roots.items + 1) }
    {
        let below = self.root_below(frame.parent);
        let root = with(&mut self.branches, below, frame.callee, frame.callee)?;
        self.roots.push(root)?;
        Ok(())
    }

    /// The functions of all frames.
    pub fn follow(&mut self, frames: &[Frame]) -> Result<(), AllocError>
        requires frames { AreFrames frames.now }
        requires opened { AreOpened frames.now self.old }
        ensures opened { IfOk result (λ _. AreOpened frames.now self.new) }
        ensures all { IfOk result (λ _. length self.new.roots.items ≡ length frames.now) }
    {
        while self.roots.len() < frames.len() {
            let frame = frames[self.roots.len()];
            self.open(frames, frame)?;
        }
        Ok(())
    }

    // Whether a way calls a function that is open at the frame.
    fn reopens_one(&self, frames: &[Frame], frame: u32, way: Way) -> bool
        requires frames { AreFrames frames.now }
        requires opened { AreOpened frames.now self.now }
        requires inside { frame < length self.now.roots.items }
        ensures { TellsWay frames.now frame way result }
    {
        match way {
            Way::Call { callee, .. } => {
                let root = self.roots[frame as usize];
                has(self.branches.as_slice(), Some(root), callee)
            }
            _ => false,
        }
    }

    /// Whether some way calls a function that is open at the frame.
    pub fn reopens(&self, frames: &[Frame], frame: u32, turns: &[Turn]) -> bool
        requires frames { AreFrames frames.now }
        requires opened { AreOpened frames.now self.now }
        requires inside { frame < length self.now.roots.items }
        ensures { TellsWays frames.now frame turns.now result }
    {
        for turn in turns {
            if self.reopens_one(frames, frame, turn.way) {
                return true;
            }
        }
        false
    }
}
