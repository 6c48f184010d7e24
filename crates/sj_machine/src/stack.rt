//! Where a party is in nested blocks, in room that was taken before.
ghost use Rattle.std.specs.Prelude.{◌≡◌, ◌<◌, ◌≤◌, ◌+◌, ℕ, List, [], ◌∷◌, ◌++◌, length, IfOk, IfSome, IfNone};
ghost use Rattle.sj_machine.specs.declared.stack.StackFrame.{StackFrame};
ghost use Rattle.sj_machine.specs.Frames.{entry_frames, frames_after};

use sj_base::NoMemory;
use std::alloc::Global;
use std::marker::Model;

/// How far a statement is.
#[derive(Clone, Copy)]
pub enum Stage {
    Fresh,
    /// A loop that sends has so many turns left.
    Turns(u16),
    /// A relay has taken more or stop, and not yet passed it on.
    Passing(bool),
}

/// A statement that is next in its block, by its node.
#[derive(Clone, Copy)]
pub struct StackFrame {
    pub at: usize,
    pub stage: Stage,
}

/// Where a step leads, from the statement that did it: into a block after it, or back to it at a
/// later stage, and first into a block.
#[derive(Clone, Copy)]
pub enum After {
    Past(Option<usize>),
    Stays(Stage, Option<usize>),
}

/// Frames, the outermost first.
#[derive(Drop)]
pub struct Stack {
    frames: Vec<StackFrame>,
}

impl Model for Stack {
    ghost use Rattle.std.specs.Prelude.{ℕ, List, vec_capacity};
    ghost use Rattle.sj_machine.specs.declared.stack.StackFrame.{StackFrame};

    ghost Value = { List StackFrame × ℕ };

    ghost view = { λ s. (s.frames.items, vec_capacity s.frames) };
}

impl Stack {
    /// No frame, and room for so many.
    pub fn new(alloc: Global, room: usize) -> Result<Stack, NoMemory>
        ensures empty { IfOk result (λ s. s.0 ≡ []) }
        ensures room { IfOk result (λ s. room ≤ s.1) }
    {
        let frames = Vec::with_capacity(alloc, room)?;
        Ok(Stack { frames })
    }

    /// The innermost frame.
    pub fn top(&self) -> Option<StackFrame>
        ensures some { IfSome result (λ f. (fs : List StackFrame) × (self.now.0 ≡ fs ++ f ∷ [])) }
        ensures none { IfNone result (self.now.0 ≡ []) }
    {
        self.frames.last().copied()
    }

    /// Takes the innermost frame off.
    pub fn pop(&mut self) -> Option<StackFrame>
        ensures some { IfSome result (λ f. self.old.0 ≡ self.new.0 ++ f ∷ []) }
        ensures none { IfNone result ((self.old.0 ≡ []) × (self.new.0 ≡ [])) }
        ensures room { self.new.1 ≡ self.old.1 }
    {
        self.frames.pop()
    }

    /// Puts what a step leaves in place of the frame that did it.
    pub fn leave(&mut self, frame: StackFrame, next: Option<usize>, after: After)
        requires { length self.old.0 + 1 < self.old.1 }
        ensures left { self.new.0 ≡ self.old.0 ++ frames_after frame next after }
        ensures room { self.old.1 ≤ self.new.1 }
    {
        match after {
            After::Past(block) => {
                self.enter(next);
                self.enter(block);
            }
            After::Stays(stage, block) => {
                self.push(StackFrame {
                    at: frame.at,
                    stage,
                });
                self.enter(block);
            }
        }
    }

    /// Puts a block's frame innermost.
    pub fn enter(&mut self, block: Option<usize>)
        requires { length self.old.0 < self.old.1 }
        ensures entered { self.new.0 ≡ self.old.0 ++ entry_frames block }
        ensures room { self.old.1 ≤ self.new.1 }
    {
        if let Some(at) = block {
            self.push(StackFrame {
                at,
                stage: Stage::Fresh,
            });
        }
    }

    fn push(&mut self, frame: StackFrame)
        requires { length self.old.0 < self.old.1 }
        ensures pushed { self.new.0 ≡ self.old.0 ++ frame ∷ [] }
        ensures room { self.old.1 ≤ self.new.1 }
    {
        self.frames.push_reserved(frame);
    }
}
