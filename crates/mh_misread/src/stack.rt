//! `Stack`: the goals of reading, with the one that is reached next on top.
ghost use Rattle.std.specs.Prelude.{◌≡◌, ◌∷◌, [], List, OnOk, IfOk, MatchOption};
ghost use Rattle.mh_misread.specs.Misreads.{top_of};
ghost use Rattle.mh_misread.specs.Goals.{with_goal, with_goals, behind_piece, behind_pieces, at_first, wanted_behind};

use crate::goal::{Frame, Goal, Next, behind_goal};
use crate::piece::Piece;
use std::alloc::{AllocError, Global};
use std::marker::Model;

/// The goals of reading, of which each is reached when those above it are read. A contract sees the list of them, with the
/// one on top in front.
#[derive(Drop)]
pub(crate) struct Stack {
    frames: Vec<Frame>,
}

impl Model for Stack {
    ghost use Rattle.std.specs.Prelude.{List, reverse};
    ghost use Rattle.mh_misread.specs.declared.goal.Frame.{Frame};

    ghost Value = { List Frame };

    ghost view = { λ s. reverse s.frames.items };
}

impl Stack {
    /// What is wanted behind these tokens.
    #[tactic(auto, unfolding(crate::specs::Goals::wanted_behind))]
    pub(crate) fn behind(alloc: Global, pieces: &[Piece]) -> Result<Stack, AllocError>
        ensures { IfOk result (λ stack. stack ≡ wanted_behind pieces.now) }
    {
        let mut stack = Stack::new(alloc)?;
        for piece in pieces {
            stack.take(piece)?;
        }
        Ok(stack)
    }

    /// What is wanted at the beginning of a text.
    fn new(alloc: Global) -> Result<Stack, AllocError>
        ensures { IfOk result (λ stack. stack ≡ at_first) }
    {
        let mut frames = Vec::new(alloc);
        frames.push(Frame {
            goal: Goal::Group,
            start: 0,
        })?;
        Ok(Stack { frames })
    }

    /// Takes a token, which the goal on top wanted.
    fn take(&mut self, piece: &Piece) -> Result<(), AllocError>
        ensures { OnOk result (self.new ≡ behind_piece piece.now self.old) }
    {
        match self.pop() {
            Some(frame) => self.put(
                piece.start,
                frame.start,
                behind_goal(frame.goal, piece.sign),
            ),
            None => Ok(()),
        }
    }

    /// Puts goals on top: the outer one began at an earlier token than the inner one.
    fn put(&mut self, read: usize, before: usize, next: Next) -> Result<(), AllocError>
        ensures { OnOk result (self.new ≡ with_goals read before next self.old) }
    {
        self.put_goal(before, next.here)?;
        self.put_goal(read, next.within)
    }

    fn put_goal(&mut self, start: usize, goal: Option<Goal>) -> Result<(), AllocError>
        ensures { OnOk result (self.new ≡ with_goal start goal self.old) }
    {
        match goal {
            Some(goal) => self.push(Frame { goal, start }),
            None => Ok(()),
        }
    }

    fn push(&mut self, frame: Frame) -> Result<(), AllocError>
        ensures { OnOk result (self.new ≡ frame ∷ self.old) }
    {
        self.frames.push(frame)?;
        Ok(())
    }

    /// The goal that is reached next.
    pub(crate) fn top(&mut self) -> Option<Frame>
        ensures { result ≡ top_of self.old }
    {
        match self.pop() {
            Some(frame) => Some(frame),
            None => None,
        }
    }

    pub(crate) fn pop(&mut self) -> Option<Frame>
        ensures { MatchOption result ((self.old ≡ []) × (self.new ≡ [])) (λ frame. self.old ≡ frame ∷ self.new) }
    {
        self.frames.pop()
    }
}
