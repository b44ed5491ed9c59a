//! The work stack of one pass.
ghost use Rattle.std.specs.Prelude.{◌≡◌, ◌≤◌, [], ◌∷◌, ◌++◌, length, OnOk, OnErr, IfOk, IfSome, IfNone};
ghost use Rattle.lazy_rec.specs.declared.limits.TheConstants.{ROOM_FOR_CLAIMS};

use heap_store::Cursor;
use lazy_rec::limits::ROOM_FOR_CLAIMS;
use lazy_rec::{NoMemory, Ref};
use std::alloc::Global;
use std::marker::Model;

/// A claim of a force that waits for what it needs, and how far its prepare has come.
#[derive(Clone, Copy, Debug, PartialEq, Eq)]
pub struct Frame {
    pub place: Ref,
    pub cursor: Cursor,
}

/// The claims of a force that wait, the oldest first. Between forces there are none. The stack has room for
/// `ROOM_FOR_CLAIMS` from the beginning, so that a force which nests no deeper takes no memory.
#[derive(Drop)]
pub struct Stack {
    frames: Vec<Frame>,
}

impl Model for Stack {
    ghost use Rattle.std.specs.Prelude.{◌≤◌, List, vec_capacity};
    ghost use Rattle.lazy_rec.specs.declared.limits.TheConstants.{ROOM_FOR_CLAIMS};
    ghost use Rattle.force_engine.specs.declared.stack.Frame.{Frame};

    ghost Value = { List Frame };

    ghost view = { λ s. s.frames.items };

    ghost invariant = { λ s. ROOM_FOR_CLAIMS ≤ vec_capacity s.frames };
}

impl Stack {
    /// An empty stack with room for `ROOM_FOR_CLAIMS`.
    pub fn open(alloc: Global) -> Result<Stack, NoMemory>
        ensures { IfOk result (λ stack. stack ≡ []) }
    {
        match Vec::with_capacity(alloc, ROOM_FOR_CLAIMS) {
            Ok(frames) => Ok(Stack { frames }),
            Err(_) => Err(NoMemory),
        }
    }

    /// Puts a claim on top. Only a stack of `ROOM_FOR_CLAIMS` or more can want memory for that.
    pub(crate) fn push(&mut self, frame: Frame) -> Result<(), NoMemory>
        ensures ok { OnOk result (self.new ≡ self.old ++ frame ∷ []) }
        ensures err { OnErr result (self.new ≡ self.old) }
        ensures full { OnErr result (ROOM_FOR_CLAIMS ≤ length self.old) }
    {
        match self.frames.push(frame) {
            Ok(()) => Ok(()),
            Err(_) => Err(NoMemory),
        }
    }

    /// Takes the claim from the top, if there is one.
    pub(crate) fn pop(&mut self) -> Option<Frame>
        ensures top { IfSome result (λ frame. self.old ≡ self.new ++ frame ∷ []) }
        ensures none { IfNone result ((self.old ≡ []) × (self.new ≡ [])) }
    {
        self.frames.pop()
    }
}

#[cfg(test)]
mod tests {
    use super::*;
    use std::test::Fail;

    #[test]
    fn opens(rt: HostRuntime) -> Result<(), Fail> {
        let mut stack = Stack::open(rt.alloc())?;
        for place in 0..65 {
            stack.push(Frame {
                place: Ref(place),
                cursor: Cursor::new(),
            })?;
        }
        assert_eq!(rt; stack.pop().map(|frame| frame.place), Some(Ref(64)));
        Ok(())
    }
}
